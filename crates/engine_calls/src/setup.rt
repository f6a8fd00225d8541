//! The parameters of a new engine.

use page_core::FaultName;
use std::error::Error;
use std::fmt;

/// How large an engine is.
#[derive(Clone, Copy, Debug, PartialEq, Eq)]
pub struct Setup {
    /// How many pages the volume has: 1 to 65,536.
    pub pages: u32,
    /// How many frames there are for pages in memory: 1 to 65,536.
    pub frames: u32,
}

/// Why an engine could not be made.
#[derive(Clone, Copy, Debug, PartialEq, Eq)]
pub enum PlayFault {
    /// Memory ran out.
    OutOfMemory,
    /// The log's device failed to store the header.
    LogFault,
}

impl fmt::Display for PlayFault {
    ghost use Rattle.std.specs.Prelude.{Some};
    ghost use Rattle.engine_calls.specs.Refusal.{line_of_fault};

    ghost output = { λ fault. Some (line_of_fault fault) };

    fn fmt<W: fmt::Write>(&self, f: &mut fmt::Formatter<W>) -> fmt::Result {
        match self {
            PlayFault::OutOfMemory => write!(f, "{}", FaultName::OutOfMemory),
            PlayFault::LogFault => write!(f, "{}", FaultName::LogFault),
        }
    }
}

impl Error for PlayFault {}
