//! The reasons why a log up to one of its records is not restored or redone.

ghost use Rattle.std.specs.Prelude.{◌≡◌};
ghost use Rattle.media_restore.specs.declared.until_fault.UntilFault.TheVariants.{OfLog};

use log_store::LogReadFault;
use page_core::{FaultName, Lsn};
use std::error::Error;
use std::fmt;

/// Why a log up to the record at some LSN is not restored or redone. Its text is its line.
#[derive(Clone, Copy, Debug, PartialEq, Eq)]
pub enum UntilFault {
    /// No record of the log begins at this LSN.
    NoRecord(Lsn),
    /// The log has no complete checkpoint up to there.
    NoCheckpoint,
    /// What is wrong with the log up to there.
    OfLog(LogReadFault),
    /// The writer failed after so many bytes, or took none.
    WriteFault(u64),
}

impl fmt::Display for UntilFault {
    ghost use Rattle.std.specs.Prelude.{Some};
    ghost use Rattle.media_restore.specs.Until.{line_of};

    ghost output = { λ fault. Some (line_of fault) };

    fn fmt<W: fmt::Write>(&self, f: &mut fmt::Formatter<W>) -> fmt::Result {
        match self {
            UntilFault::NoRecord(at) => {
                let at = at.0;
                write!(f, "{} {at}", FaultName::BadRecord)
            }
            UntilFault::NoCheckpoint => write!(f, "{}", FaultName::NoMaster),
            UntilFault::OfLog(why) => write!(f, "{why}"),
            UntilFault::WriteFault(done) => write!(f, "{} {done}", FaultName::WriteFault),
        }
    }
}

impl Error for UntilFault {}

impl From<LogReadFault> for UntilFault {
    ghost from_gives = { λ why e. e ≡ OfLog why };

    fn from(why: LogReadFault) -> UntilFault {
        UntilFault::OfLog(why)
    }
}
