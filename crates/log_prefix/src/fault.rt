//! The reasons why there is no front.

ghost use Rattle.std.specs.Prelude.{◌≡◌};
ghost use Rattle.log_prefix.specs.declared.fault.FrontFault.TheVariants.{OutOfMemory};

use page_core::FaultName;
use std::alloc::{AllocError, AllocFailed};
use std::error::Error;
use std::fmt;

/// Why no front was read. Its text is its line.
#[derive(Clone, Copy, Debug, PartialEq, Eq)]
pub enum FrontFault {
    /// Memory ran out.
    OutOfMemory,
    /// The first 64 bytes are no header, or there are fewer: no log begins so.
    BadHeader,
    /// The reader failed, or did not come to an end.
    ReadFault,
}

impl fmt::Display for FrontFault {
    ghost use Rattle.std.specs.Prelude.{Some};
    ghost use Rattle.log_prefix.specs.Front.{line_of};

    ghost output = { λ fault. Some (line_of fault) };

    fn fmt<W: fmt::Write>(&self, f: &mut fmt::Formatter<W>) -> fmt::Result {
        match self {
            FrontFault::OutOfMemory => write!(f, "{}", FaultName::OutOfMemory),
            FrontFault::BadHeader => write!(f, "{}", FaultName::BadHeader),
            FrontFault::ReadFault => write!(f, "{}", FaultName::ReadFault),
        }
    }
}

impl Error for FrontFault {}

impl From<AllocError> for FrontFault {
    ghost from_gives = { λ _ e. e ≡ OutOfMemory };

    fn from(_error: AllocError) -> FrontFault {
        FrontFault::OutOfMemory
    }
}

impl<T: Drop> From<AllocFailed<T>> for FrontFault {
    ghost from_gives = { λ _ e. e ≡ OutOfMemory };

    fn from(_error: AllocFailed<T>) -> FrontFault {
        FrontFault::OutOfMemory
    }
}
