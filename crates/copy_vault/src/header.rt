//! The header of an archive.

ghost use Rattle.std.specs.Prelude.{◌≡◌};
ghost use Rattle.copy_vault.specs.Archive.{header_of};

use crate::complete::CompleteCopy;
use crate::copy_id::{CopyId, CopyKind};
use page_core::{Format, Lsn};

/// How many bytes the header of an archive has.
pub const HEADER_BYTES: usize = 64;

/// The kind of a full copy.
pub const FULL: u32 = 1;

/// The kind of an incremental copy.
pub const INC: u32 = 2;

/// The header of an archive: what its copy is, and how many pages follow.
#[derive(Clone, Copy)]
pub struct ArchiveHeader {
    pub format: Format,
    /// How many pages the volume had when the copy began.
    pub pages: u32,
    pub id: CopyId,
    pub kind: CopyKind,
    pub begin: Lsn,
    pub redo: Lsn,
    /// How many pages follow.
    pub taken: u32,
}

/// The header of the archive of a copy.
pub fn header_of(copy: &CompleteCopy) -> ArchiveHeader
    ensures { result ≡ header_of copy.now }
{
    ArchiveHeader {
        format: Format::Second,
        pages: copy.pages(),
        id: copy.id(),
        kind: copy.kind(),
        begin: copy.begin(),
        redo: copy.redo(),
        taken: copy.taken(),
    }
}
