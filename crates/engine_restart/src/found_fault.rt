//! The reasons why there is no log to go on with.

ghost use Rattle.std.specs.Prelude.{◌≡◌};
ghost use Rattle.engine_restart.specs.Found.{of_front};

use log_prefix::FrontFault;
use page_core::FaultName;
use std::error::Error;
use std::fmt;

/// Why the bytes of a file have no log that an engine may go on with. Its text is its line.
#[derive(Clone, Copy, Debug, PartialEq, Eq)]
pub enum FoundFault {
    /// Memory ran out.
    OutOfMemory,
    /// The first 64 bytes are no header, or there are fewer.
    BadHeader,
    /// The log is one of the first format. Its line is that of a header that is none.
    OldFormat,
    /// The reader failed.
    ReadFault,
}

impl fmt::Display for FoundFault {
    ghost use Rattle.std.specs.Prelude.{Some};
    ghost use Rattle.engine_restart.specs.Found.{line_of};

    ghost output = { λ fault. Some (line_of fault) };

    fn fmt<W: fmt::Write>(&self, f: &mut fmt::Formatter<W>) -> fmt::Result {
        match self {
            FoundFault::OutOfMemory => write!(f, "{}", FaultName::OutOfMemory),
            FoundFault::BadHeader | FoundFault::OldFormat => write!(f, "{}", FaultName::BadHeader),
            FoundFault::ReadFault => write!(f, "{}", FaultName::ReadFault),
        }
    }
}

impl Error for FoundFault {}

impl From<FrontFault> for FoundFault {
    ghost from_gives = { λ fault found. found ≡ of_front fault };

    fn from(fault: FrontFault) -> FoundFault {
        match fault {
            FrontFault::OutOfMemory => FoundFault::OutOfMemory,
            FrontFault::BadHeader => FoundFault::BadHeader,
            FrontFault::ReadFault => FoundFault::ReadFault,
        }
    }
}
