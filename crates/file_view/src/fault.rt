//! Why a file is not shown to its end.

ghost use Rattle.std.specs.Prelude.{◌≡◌};
ghost use Rattle.file_view.specs.declared.fault.ViewFault.TheVariants.{OutOfMemory};

use copy_vault::ArchiveFault;
use log_prefix::FrontFault;
use log_store::LogReadFault;
use page_core::FaultName;
use std::alloc::{AllocError, AllocFailed};
use std::error::Error;
use std::fmt;

/// Why a file is not shown to its end. What comes before the fault has been shown. Its text is its
/// line.
#[derive(Clone, Copy, Debug, PartialEq, Eq)]
pub enum ViewFault {
    /// Memory ran out. This says nothing of the file.
    OutOfMemory,
    /// The file could not be read to its end.
    ReadFault,
    /// The file begins like none that is known here, or is no master record.
    BadHeader,
    /// The file is a log up to here.
    Log(LogReadFault),
    /// The file is an archive up to here.
    Archive(ArchiveFault),
    /// The bytes at this offset of a volume are not the page that has to stand there.
    BadPage(u64),
    /// So many bytes of the output went out, and then no more.
    WriteFault(u64),
}

impl fmt::Display for ViewFault {
    fn fmt<W: fmt::Write>(&self, f: &mut fmt::Formatter<W>) -> fmt::Result {
        match self {
            ViewFault::OutOfMemory => write!(f, "{}", FaultName::OutOfMemory),
            ViewFault::ReadFault => write!(f, "{}", FaultName::ReadFault),
            ViewFault::BadHeader => write!(f, "{}", FaultName::BadHeader),
            ViewFault::Log(fault) => write!(f, "{fault}"),
            ViewFault::Archive(fault) => write!(f, "{fault}"),
            ViewFault::BadPage(at) => write!(f, "{} {at}", FaultName::BadArchive),
            ViewFault::WriteFault(done) => write!(f, "{} {done}", FaultName::WriteFault),
        }
    }
}

impl Error for ViewFault {}

impl From<AllocError> for ViewFault {
    ghost from_gives = { λ _ e. e ≡ OutOfMemory };

    fn from(_error: AllocError) -> ViewFault {
        ViewFault::OutOfMemory
    }
}

impl<T: Drop> From<AllocFailed<T>> for ViewFault {
    ghost from_gives = { λ _ e. e ≡ OutOfMemory };

    fn from(_error: AllocFailed<T>) -> ViewFault {
        ViewFault::OutOfMemory
    }
}

impl From<ArchiveFault> for ViewFault {
    fn from(fault: ArchiveFault) -> ViewFault {
        ViewFault::Archive(fault)
    }
}

impl From<FrontFault> for ViewFault {
    fn from(fault: FrontFault) -> ViewFault {
        match fault {
            FrontFault::OutOfMemory => ViewFault::OutOfMemory,
            FrontFault::BadHeader => ViewFault::BadHeader,
            FrontFault::ReadFault => ViewFault::ReadFault,
        }
    }
}
