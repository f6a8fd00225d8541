//! The reasons why a restart stops.

ghost use Rattle.std.specs.Prelude.{◌≡◌};
ghost use Rattle.engine_restart.specs.declared.fault.RestartFault.TheVariants.{OutOfMemory};

use page_core::FaultName;
use std::alloc::AllocError;
use std::error::Error;
use std::fmt;

/// Why a restart stopped. Its text is its line.
#[derive(Clone, Copy, Debug, PartialEq, Eq)]
pub enum RestartFault {
    /// Memory ran out.
    OutOfMemory,
    /// The log lacks room for the records of undo. No engine has made such a log.
    LogFull,
    /// A call of the log's device failed.
    LogFault,
}

impl fmt::Display for RestartFault {
    ghost use Rattle.std.specs.Prelude.{Some};
    ghost use Rattle.engine_restart.specs.Restart.{line_of};

    ghost output = { λ fault. Some (line_of fault) };

    fn fmt<W: fmt::Write>(&self, f: &mut fmt::Formatter<W>) -> fmt::Result {
        match self {
            RestartFault::OutOfMemory => write!(f, "{}", FaultName::OutOfMemory),
            RestartFault::LogFull => write!(f, "{}", FaultName::LogFull),
            RestartFault::LogFault => write!(f, "{}", FaultName::LogFault),
        }
    }
}

impl Error for RestartFault {}

impl From<AllocError> for RestartFault {
    ghost from_gives = { λ _ why. why ≡ OutOfMemory };

    fn from(_error: AllocError) -> RestartFault {
        RestartFault::OutOfMemory
    }
}
