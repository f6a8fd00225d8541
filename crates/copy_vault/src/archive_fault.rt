//! Why an archive could not be read.

ghost use Rattle.std.specs.Prelude.{◌≡◌};
ghost use Rattle.copy_vault.specs.declared.archive_fault.ArchiveFault.TheVariants.{OutOfMemory};

use page_core::FaultName;
use std::alloc::{AllocError, AllocFailed};
use std::error::Error;
use std::fmt;

/// Why an archive could not be read: the first fault of its bytes, or what kept them from being
/// read. Its text is its line.
#[derive(Clone, Copy, Debug, PartialEq, Eq)]
pub enum ArchiveFault {
    /// Memory ran out.
    OutOfMemory,
    /// What stands at this offset is misspelt, or the input ends within it: the header at 0, or a
    /// page, which may also be past the page count, or not above the page before it.
    BadArchive(u64),
    /// Fewer or more pages follow than the header says.
    CountDiffers,
    /// The reader failed, or did not come to an end, and what it gave until then holds no fault.
    ReadFault,
}

impl fmt::Display for ArchiveFault {
    ghost use Rattle.std.specs.Prelude.{Some};
    ghost use Rattle.copy_vault.specs.FaultText.{line_of_archive};

    ghost output = { λ fault. Some (line_of_archive fault) };

    fn fmt<W: fmt::Write>(&self, f: &mut fmt::Formatter<W>) -> fmt::Result {
        match self {
            ArchiveFault::OutOfMemory => write!(f, "{}", FaultName::OutOfMemory),
            ArchiveFault::BadArchive(at) => write!(f, "{} {at}", FaultName::BadArchive),
            ArchiveFault::CountDiffers => write!(f, "{}", FaultName::CountDiffers),
            ArchiveFault::ReadFault => write!(f, "{}", FaultName::ReadFault),
        }
    }
}

impl Error for ArchiveFault {}

impl From<AllocError> for ArchiveFault {
    ghost from_gives = { λ _ e. e ≡ OutOfMemory };

    fn from(_error: AllocError) -> ArchiveFault {
        ArchiveFault::OutOfMemory
    }
}

impl<T: Drop> From<AllocFailed<T>> for ArchiveFault {
    ghost from_gives = { λ _ e. e ≡ OutOfMemory };

    fn from(_error: AllocFailed<T>) -> ArchiveFault {
        ArchiveFault::OutOfMemory
    }
}

/// Why an archive could not be written. Its text is its line.
#[derive(Clone, Copy, Debug, PartialEq, Eq)]
pub enum ArchiveWriteFault {
    /// Memory ran out. Nothing was written.
    OutOfMemory,
    /// The writer failed, took nothing, or was interrupted 17 times in a row. So many bytes went
    /// out, the first ones of the archive.
    WriteFault(u64),
}

impl fmt::Display for ArchiveWriteFault {
    ghost use Rattle.std.specs.Prelude.{Some};
    ghost use Rattle.copy_vault.specs.FaultText.{line_of_write};

    ghost output = { λ fault. Some (line_of_write fault) };

    fn fmt<W: fmt::Write>(&self, f: &mut fmt::Formatter<W>) -> fmt::Result {
        match self {
            ArchiveWriteFault::OutOfMemory => write!(f, "{}", FaultName::OutOfMemory),
            ArchiveWriteFault::WriteFault(done) => write!(f, "{} {done}", FaultName::WriteFault),
        }
    }
}

impl Error for ArchiveWriteFault {}
