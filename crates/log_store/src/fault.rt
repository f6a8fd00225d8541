//! The reasons why a log cannot be read.

ghost use Rattle.std.specs.Prelude.{◌≡◌};
ghost use Rattle.log_store.specs.declared.fault.LogReadFault.TheVariants.{OutOfMemory};

use page_core::{FaultName, Lsn};
use std::alloc::{AllocError, AllocFailed};
use std::error::Error;
use std::fmt;

/// Why a log could not be read: the first fault of its bytes, or what prevented reading them. Its
/// text is its line.
#[derive(Clone, Copy, Debug, PartialEq, Eq)]
pub enum LogReadFault {
    /// Memory ran out.
    OutOfMemory,
    /// The first 64 bytes are no header, or there are fewer.
    BadHeader,
    /// The 64 bytes at this offset are no record that may stand there, or name a page outside the
    /// volume.
    BadRecord(Lsn),
    /// The record at this offset may not follow those before it: a transaction that is not open, a
    /// PrevLSN that is not its last record, a slot that another one holds, and so on.
    BadChain(Lsn),
    /// The input ends within the record at this offset.
    Torn(Lsn),
    /// The reader failed, or did not come to an end, and what it gave until then holds no fault.
    ReadFault,
    /// Bytes follow the last record that a log may have.
    TooLong,
}

impl fmt::Display for LogReadFault {
    ghost use Rattle.std.specs.Prelude.{Some};
    ghost use Rattle.log_store.specs.Fault.{line_of};

    ghost output = { λ fault. Some (line_of fault) };

    fn fmt<W: fmt::Write>(&self, f: &mut fmt::Formatter<W>) -> fmt::Result {
        match self {
            LogReadFault::OutOfMemory => write!(f, "{}", FaultName::OutOfMemory),
            LogReadFault::BadHeader => write!(f, "{}", FaultName::BadHeader),
            LogReadFault::BadRecord(at) => {
                let at = at.0;
                write!(f, "{} {at}", FaultName::BadRecord)
            }
            LogReadFault::BadChain(at) => {
                let at = at.0;
                write!(f, "{} {at}", FaultName::BadChain)
            }
            LogReadFault::Torn(at) => {
                let at = at.0;
                write!(f, "{} {at}", FaultName::Torn)
            }
            LogReadFault::ReadFault => write!(f, "{}", FaultName::ReadFault),
            LogReadFault::TooLong => write!(f, "{}", FaultName::TooLong),
        }
    }
}

impl Error for LogReadFault {}

impl From<AllocError> for LogReadFault {
    ghost from_gives = { λ _ e. e ≡ OutOfMemory };

    fn from(_error: AllocError) -> LogReadFault {
        LogReadFault::OutOfMemory
    }
}

impl<T: Drop> From<AllocFailed<T>> for LogReadFault {
    ghost from_gives = { λ _ e. e ≡ OutOfMemory };

    fn from(_error: AllocFailed<T>) -> LogReadFault {
        LogReadFault::OutOfMemory
    }
}
