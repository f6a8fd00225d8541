//! The reasons why a script cannot be read.

ghost use Rattle.std.specs.Prelude.{◌≡◌};
ghost use Rattle.event_script.specs.declared.fault.ScriptFault.TheVariants.{OutOfMemory};

use crate::line_fault::LineFault;
use page_core::FaultName;
use std::alloc::{AllocError, AllocFailed};
use std::error::Error;
use std::fmt;

/// Why a script could not be read. Its text is its line.
#[derive(Clone, Copy, Debug, PartialEq, Eq)]
pub enum ScriptFault {
    /// Memory ran out.
    OutOfMemory,
    /// The script is longer than 16,777,216 bytes, or is no UTF-8. This is looked at before any
    /// line.
    Input,
    /// The reader failed, or did not come to an end. It has the line of `Input`.
    ReadFault,
    /// The line of this number is bad, for this reason, and none before it is. Lines are counted
    /// from 1, with those that are skipped.
    BadLine(u64, LineFault),
}

impl fmt::Display for ScriptFault {
    ghost use Rattle.std.specs.Prelude.{Some};
    ghost use Rattle.event_script.specs.Fault.{line_of_fault};

    ghost output = { λ fault. Some (line_of_fault fault) };

    fn fmt<W: fmt::Write>(&self, f: &mut fmt::Formatter<W>) -> fmt::Result {
        match self {
            ScriptFault::OutOfMemory => write!(f, "{}", FaultName::OutOfMemory),
            ScriptFault::Input | ScriptFault::ReadFault => f.write_str("imgcopy: input"),
            ScriptFault::BadLine(number, _) => write!(f, "imgcopy: line {number}"),
        }
    }
}

impl Error for ScriptFault {}

impl From<AllocError> for ScriptFault {
    ghost from_gives = { λ _ e. e ≡ OutOfMemory };

    fn from(_error: AllocError) -> ScriptFault {
        ScriptFault::OutOfMemory
    }
}

impl<T: Drop> From<AllocFailed<T>> for ScriptFault {
    ghost from_gives = { λ _ e. e ≡ OutOfMemory };

    fn from(_error: AllocFailed<T>) -> ScriptFault {
        ScriptFault::OutOfMemory
    }
}
