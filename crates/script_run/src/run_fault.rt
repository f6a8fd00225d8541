//! The reasons why a script was not played.

use event_script::ScriptFault;
use page_core::FaultName;
use std::error::Error;
use std::fmt;

/// Why a script was not played, or its replies were not written. Its text is its line.
#[derive(Clone, Copy, Debug, PartialEq, Eq)]
pub enum ScriptRunFault {
    /// The script could not be read. Nothing was written.
    Script(ScriptFault),
    /// Memory ran out. Nothing was written.
    OutOfMemory,
    /// The writer failed, took nothing, or was interrupted 17 times in a row. So many bytes of the
    /// replies' lines went out, the first ones.
    WriteFault(u64),
}

impl fmt::Display for ScriptRunFault {
    ghost use Rattle.std.specs.Prelude.{Some};
    ghost use Rattle.script_run.specs.RunText.{line_of};

    ghost output = { λ fault. Some (line_of fault) };

    fn fmt<W: fmt::Write>(&self, f: &mut fmt::Formatter<W>) -> fmt::Result {
        match self {
            ScriptRunFault::Script(fault) => write!(f, "{fault}"),
            ScriptRunFault::OutOfMemory => write!(f, "{}", FaultName::OutOfMemory),
            ScriptRunFault::WriteFault(done) => write!(f, "{} {done}", FaultName::WriteFault),
        }
    }
}

impl Error for ScriptRunFault {}
