//! Laws of how copies are spelled as archives.

ghost use Rattle.std.specs.Prelude.{ℕ, ◌≡◌, List};
ghost use Rattle.copy_vault.specs.Copy.{CopyView};
ghost use Rattle.copy_vault.specs.Archive.{SpellsCopy};
ghost use Rattle.copy_vault.specs.ArchiveFault.{HasFault};
ghost use Rattle.copy_vault.specs.declared.archive_fault.ArchiveFault.{ArchiveFault};

use crate::copy_id::MAX_COPIES;
use crate::header::{FULL, HEADER_BYTES, INC};

/// Two different copies have no spelling in common, whatever the formats.
pub fn copies_are_spelled_apart()
    ensures { (a b : CopyView) (bytes : List ℕ) → SpellsCopy a bytes → SpellsCopy b bytes → a ≡ b }
{}

/// The archive of a copy has no fault.
pub fn an_archive_has_no_fault()
    ensures { (copy : CopyView) (bytes : List ℕ) → SpellsCopy copy bytes → (fault : ArchiveFault)
        → ¬ HasFault bytes fault }
{}

/// No bytes have two faults.
pub fn bytes_have_one_fault()
    ensures { (bytes : List ℕ) (a b : ArchiveFault) → HasFault bytes a → HasFault bytes b → a ≡ b }
{}

/// The numbers of an archive: the bytes of its header, and the two kinds of a copy. And how many
/// copies may be begun.
pub fn archives_have_these_numbers()
    ensures header { HEADER_BYTES ≡ 64 }
    ensures full { FULL ≡ 1 }
    ensures inc { INC ≡ 2 }
    ensures copies { MAX_COPIES ≡ 1024 }
{}
