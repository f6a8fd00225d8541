//! Why a file was not written.

ghost use Rattle.std.specs.Prelude.{◌≡◌};
ghost use Rattle.saved_files.specs.FileFault.{of_archive};

use copy_vault::ArchiveWriteFault;
use page_core::FaultName;
use std::error::Error;
use std::fmt;

/// Why a file was not written. Its text is its line.
#[derive(Clone, Copy, Debug, PartialEq, Eq)]
pub enum FileFault {
    /// Memory was refused.
    OutOfMemory,
    /// The file could not be made, synced or put in its place (0), or so many of its bytes went out
    /// and then no more: the writer failed, took nothing, or was interrupted 17 times in a row.
    WriteFault(u64),
}

impl fmt::Display for FileFault {
    ghost use Rattle.std.specs.Prelude.{Some};
    ghost use Rattle.saved_files.specs.FileFault.{line_of};

    ghost output = { λ fault. Some (line_of fault) };

    fn fmt<W: fmt::Write>(&self, f: &mut fmt::Formatter<W>) -> fmt::Result {
        match self {
            FileFault::OutOfMemory => write!(f, "{}", FaultName::OutOfMemory),
            FileFault::WriteFault(done) => write!(f, "{} {done}", FaultName::WriteFault),
        }
    }
}

impl Error for FileFault {}

impl From<ArchiveWriteFault> for FileFault {
    ghost from_gives = { λ why e. e ≡ of_archive why };

    fn from(why: ArchiveWriteFault) -> FileFault {
        match why {
            ArchiveWriteFault::OutOfMemory => FileFault::OutOfMemory,
            ArchiveWriteFault::WriteFault(done) => FileFault::WriteFault(done),
        }
    }
}
