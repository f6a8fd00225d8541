//! Why a run is not settled.

use page_core::{FaultName, Lsn};
use std::fmt;

/// Why `settle` is refused.
#[derive(Clone, Copy, Debug, PartialEq, Eq)]
pub enum SettleFault {
    /// A growth was refused. The shares of the sessions had been compared with the log before.
    OutOfMemory,
    /// What was answered does not stand in the log. The number is the position of a receipt or the
    /// begin LSN of a Point that does not stand, or that another one has too. It is 0 where the
    /// shares differ from the log, or a copy does not stand, comes twice, or was there before.
    Unsettled(Lsn),
}

impl fmt::Display for SettleFault {
    fn fmt<W: fmt::Write>(&self, f: &mut fmt::Formatter<W>) -> fmt::Result {
        match self {
            SettleFault::OutOfMemory => write!(f, "{}", FaultName::OutOfMemory),
            SettleFault::Unsettled(at) => write!(f, "{} {}", FaultName::Unsettled, at.0),
        }
    }
}
