//! The reasons why the last restore of a script did not end.

use media_restore::Refused;
use page_core::FaultName;
use std::error::Error;
use std::fmt;

/// Why the last restore of a script was not done. Its text is its line.
#[derive(Clone, Copy, Debug, PartialEq, Eq)]
pub enum FinishFault {
    /// Memory for the lines was refused. Nothing was written.
    OutOfMemory,
    /// The restore was refused, and the line of its refusal was written.
    Refused(Refused),
    /// The writer failed, took nothing, or was interrupted 17 times in a row. So many bytes of the
    /// pages' lines, or of the line of a refusal, went out, the first ones.
    WriteFault(u64),
}

impl fmt::Display for FinishFault {
    ghost use Rattle.std.specs.Prelude.{Some};
    ghost use Rattle.script_run.specs.FinishText.{line_of};

    ghost output = { λ fault. Some (line_of fault) };

    fn fmt<W: fmt::Write>(&self, f: &mut fmt::Formatter<W>) -> fmt::Result {
        match self {
            FinishFault::OutOfMemory => write!(f, "{}", FaultName::OutOfMemory),
            FinishFault::Refused(why) => write!(f, "{why}"),
            FinishFault::WriteFault(done) => write!(f, "{} {done}", FaultName::WriteFault),
        }
    }
}

impl Error for FinishFault {}
