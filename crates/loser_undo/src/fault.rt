//! The reasons why a log is not undone.

use page_core::FaultName;
use std::error::Error;
use std::fmt;

/// Why a log is not undone. A refusal changes nothing.
#[derive(Clone, Copy, Debug, PartialEq, Eq)]
pub enum UndoFault {
    /// The log's records and those that its open transactions may still need are more than a log
    /// may have.
    LogFull,
    /// Memory for the records that undo appends was refused.
    OutOfMemory,
}

impl fmt::Display for UndoFault {
    ghost use Rattle.std.specs.Prelude.{Some};
    ghost use Rattle.loser_undo.specs.Fault.{line_of};

    ghost output = { λ fault. Some (line_of fault) };

    fn fmt<W: fmt::Write>(&self, f: &mut fmt::Formatter<W>) -> fmt::Result {
        match self {
            UndoFault::LogFull => write!(f, "{}", FaultName::LogFull),
            UndoFault::OutOfMemory => write!(f, "{}", FaultName::OutOfMemory),
        }
    }
}

impl Error for UndoFault {}
