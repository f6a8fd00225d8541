//! Why a vault takes no copy of an older life.

use page_core::FaultName;
use std::error::Error;
use std::fmt;

/// Why a copy is not added to a vault, which stays as it was.
#[derive(Clone, Copy, Debug, PartialEq, Eq)]
pub enum AddFault {
    /// Memory ran out.
    OutOfMemory,
    /// Its id, or a later one, was given already.
    IdGiven,
    /// Its id is above 1,024.
    TooManyCopies,
    /// It is incremental, and its parent is not there.
    NoParent,
}

impl fmt::Display for AddFault {
    fn fmt<W: fmt::Write>(&self, f: &mut fmt::Formatter<W>) -> fmt::Result {
        match self {
            AddFault::OutOfMemory => write!(f, "{}", FaultName::OutOfMemory),
            AddFault::IdGiven => f.write_str("the id of a copy was given already"),
            AddFault::TooManyCopies => write!(f, "{}", FaultName::TooManyCopies),
            AddFault::NoParent => f.write_str("the parent of a copy is not there"),
        }
    }
}

impl Error for AddFault {}
