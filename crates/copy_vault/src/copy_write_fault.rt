//! Why the archive of a vault's copy was not written.

ghost use Rattle.std.specs.Prelude.{◌≡◌};
ghost use Rattle.copy_vault.specs.declared.copy_write_fault.CopyWriteFault.TheVariants.{Archive};
ghost use Rattle.copy_vault.specs.declared.copy_write_fault.CopyWriteFault.TheVariants.{Refused};

use crate::archive_fault::ArchiveWriteFault;
use crate::fault::CopyFault;
use std::error::Error;
use std::fmt;

/// Why the archive of a vault's copy was not written. Its text is its line.
#[derive(Clone, Copy, Debug, PartialEq, Eq)]
pub enum CopyWriteFault {
    /// The vault has no complete copy of this id, or cannot lend it for want of memory. Nothing was
    /// written.
    Refused(CopyFault),
    /// The archive was not written, or only its first bytes were.
    Archive(ArchiveWriteFault),
}

impl fmt::Display for CopyWriteFault {
    ghost use Rattle.std.specs.Prelude.{Some};
    ghost use Rattle.copy_vault.specs.FaultText.{line_of_copy_write};

    ghost output = { λ fault. Some (line_of_copy_write fault) };

    fn fmt<W: fmt::Write>(&self, f: &mut fmt::Formatter<W>) -> fmt::Result {
        match self {
            CopyWriteFault::Refused(fault) => write!(f, "{fault}"),
            CopyWriteFault::Archive(fault) => write!(f, "{fault}"),
        }
    }
}

impl Error for CopyWriteFault {}

impl From<CopyFault> for CopyWriteFault {
    ghost from_gives = { λ fault e. e ≡ Refused fault };

    fn from(fault: CopyFault) -> CopyWriteFault {
        CopyWriteFault::Refused(fault)
    }
}

impl From<ArchiveWriteFault> for CopyWriteFault {
    ghost from_gives = { λ fault e. e ≡ Archive fault };

    fn from(fault: ArchiveWriteFault) -> CopyWriteFault {
        CopyWriteFault::Archive(fault)
    }
}
