//! The faults that the program reports.

use log_store::LogReadFault;
use page_core::{FaultName, Lsn};
use std::alloc::AllocError;
use std::error::Error;
use std::fmt;

/// A fault of redo. Its text is its line.
#[derive(Clone, Copy, Debug, PartialEq, Eq)]
pub enum StreamFault {
    /// Memory ran out. Nothing was written.
    OutOfMemory,
    /// The writer failed after so many bytes, or took none.
    WriteFault(u64),
    /// The first 64 bytes are no header, or there are fewer.
    BadHeader,
    /// The bytes at this offset are no record, or one that may not stand there.
    BadRecord(Lsn),
    /// The log ends within the record at this offset.
    Torn(Lsn),
    /// The reader failed, or did not come to an end.
    ReadFault,
    /// Bytes follow the last record that a log may have.
    TooLong,
    /// The record at this offset may not follow those before it.
    BadChain(Lsn),
}

impl fmt::Display for StreamFault {
    ghost use Rattle.std.specs.Prelude.{Some};
    ghost use Rattle.page_redo.specs.Stream.{line_of};

    ghost output = { λ fault. Some (line_of fault) };

    fn fmt<W: fmt::Write>(&self, f: &mut fmt::Formatter<W>) -> fmt::Result {
        match self {
            StreamFault::OutOfMemory => write!(f, "{}", FaultName::OutOfMemory),
            StreamFault::WriteFault(done) => write!(f, "{} {done}", FaultName::WriteFault),
            StreamFault::BadHeader => write!(f, "{}", FaultName::BadHeader),
            StreamFault::BadRecord(at) => {
                let at = at.0;
                write!(f, "{} {at}", FaultName::BadRecord)
            }
            StreamFault::Torn(at) => {
                let at = at.0;
                write!(f, "{} {at}", FaultName::Torn)
            }
            StreamFault::ReadFault => write!(f, "{}", FaultName::ReadFault),
            StreamFault::TooLong => write!(f, "{}", FaultName::TooLong),
            StreamFault::BadChain(at) => {
                let at = at.0;
                write!(f, "{} {at}", FaultName::BadChain)
            }
        }
    }
}

impl Error for StreamFault {}

impl From<AllocError> for StreamFault {
    ghost use Rattle.std.specs.Prelude.{◌≡◌};
    ghost use Rattle.page_redo.specs.declared.stream_fault.StreamFault.TheVariants.{OutOfMemory};

    ghost from_gives = { λ _ e. e ≡ OutOfMemory };

    fn from(_error: AllocError) -> StreamFault {
        StreamFault::OutOfMemory
    }
}

impl From<LogReadFault> for StreamFault {
    ghost use Rattle.std.specs.Prelude.{◌≡◌};
    ghost use Rattle.page_redo.specs.Stream.{reported};

    ghost from_gives = { λ why e. e ≡ reported why };

    fn from(why: LogReadFault) -> StreamFault {
        match why {
            LogReadFault::OutOfMemory => StreamFault::OutOfMemory,
            LogReadFault::BadHeader => StreamFault::BadHeader,
            LogReadFault::BadRecord(at) => StreamFault::BadRecord(at),
            LogReadFault::BadChain(at) => StreamFault::BadChain(at),
            LogReadFault::Torn(at) => StreamFault::Torn(at),
            LogReadFault::ReadFault => StreamFault::ReadFault,
            LogReadFault::TooLong => StreamFault::TooLong,
        }
    }
}
