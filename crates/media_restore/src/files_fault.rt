//! The reasons why a volume is not restored from files.

ghost use Rattle.std.specs.Prelude.{◌≡◌};
ghost use Rattle.media_restore.specs.FilesFault.{of_chain, of_log};
ghost use Rattle.media_restore.specs.declared.files_fault.RestoreFault.TheVariants.{OutOfMemory};

use copy_vault::{ChainReadFault, CopyId};
use log_store::LogReadFault;
use page_core::{FaultName, Lsn, PageNo};
use std::alloc::{AllocError, AllocFailed};
use std::error::Error;
use std::fmt;

/// Why a volume is not restored from files, or not written whole. Its text is a line: `E`, its
/// number, its name, and then its numbers in decimal.
#[derive(Clone, Copy, Debug, PartialEq, Eq)]
pub enum RestoreFault {
    /// Memory was refused. Nothing was written.
    OutOfMemory,
    /// The log's records, with those that undo may append, are more than a log may have.
    LogFull,
    /// The writer failed, took nothing, or was interrupted 17 times in a row. So many bytes went
    /// out, the first ones of the volume.
    WriteFault(u64),
    /// The log's header or the master record is misspelt.
    BadHeader,
    /// The 64 bytes of the log at this offset are no record that may stand there.
    BadRecord(Lsn),
    /// The log ends within the record at this offset.
    Torn(Lsn),
    /// A reader failed, or did not come to its end.
    ReadFault,
    /// Bytes follow the last record that a log may have.
    TooLong,
    /// The log's record at this offset may not follow those before it; or the master record with
    /// this begin LSN names no complete checkpoint of the log.
    BadChain(Lsn),
    /// What stands at this offset of an archive is misspelt, or the archive ends within it.
    BadArchive(u64),
    /// The archive of this copy is the first one that does not follow those before it, or has
    /// another page count than the log has below its begin. 0 where no archive is given.
    ChainBroken(CopyId),
    /// Fewer or more pages follow in an archive than its header says.
    CountDiffers,
    /// The redo point of an archive is at or past the log's end.
    RedoBeyondLog,
    /// This page of an archive has an LSN at or past the log's end.
    PageBeyondLog(PageNo),
}

impl fmt::Display for RestoreFault {
    ghost use Rattle.std.specs.Prelude.{Some};
    ghost use Rattle.media_restore.specs.FilesFault.{line_of};

    ghost output = { λ fault. Some (line_of fault) };

    fn fmt<W: fmt::Write>(&self, f: &mut fmt::Formatter<W>) -> fmt::Result {
        match self {
            RestoreFault::OutOfMemory => write!(f, "{}", FaultName::OutOfMemory),
            RestoreFault::LogFull => write!(f, "{}", FaultName::LogFull),
            RestoreFault::WriteFault(done) => write!(f, "{} {done}", FaultName::WriteFault),
            RestoreFault::BadHeader => write!(f, "{}", FaultName::BadHeader),
            RestoreFault::BadRecord(at) => {
                let at = at.0;
                write!(f, "{} {at}", FaultName::BadRecord)
            }
            RestoreFault::Torn(at) => {
                let at = at.0;
                write!(f, "{} {at}", FaultName::Torn)
            }
            RestoreFault::ReadFault => write!(f, "{}", FaultName::ReadFault),
            RestoreFault::TooLong => write!(f, "{}", FaultName::TooLong),
            RestoreFault::BadChain(at) => {
                let at = at.0;
                write!(f, "{} {at}", FaultName::BadChain)
            }
            RestoreFault::BadArchive(at) => write!(f, "{} {at}", FaultName::BadArchive),
            RestoreFault::ChainBroken(copy) => {
                let copy = copy.0;
                write!(f, "{} {copy}", FaultName::ChainBroken)
            }
            RestoreFault::CountDiffers => write!(f, "{}", FaultName::CountDiffers),
            RestoreFault::RedoBeyondLog => write!(f, "{}", FaultName::RedoBeyondLog),
            RestoreFault::PageBeyondLog(page) => {
                let page = page.0;
                write!(f, "{} {page}", FaultName::PageBeyondLog)
            }
        }
    }
}

impl Error for RestoreFault {}

impl From<AllocError> for RestoreFault {
    ghost from_gives = { λ _ e. e ≡ OutOfMemory };

    fn from(_error: AllocError) -> RestoreFault {
        RestoreFault::OutOfMemory
    }
}

impl<T: Drop> From<AllocFailed<T>> for RestoreFault {
    ghost from_gives = { λ _ e. e ≡ OutOfMemory };

    fn from(_error: AllocFailed<T>) -> RestoreFault {
        RestoreFault::OutOfMemory
    }
}

impl From<LogReadFault> for RestoreFault {
    ghost from_gives = { λ why e. e ≡ of_log why };

    fn from(why: LogReadFault) -> RestoreFault {
        match why {
            LogReadFault::OutOfMemory => RestoreFault::OutOfMemory,
            LogReadFault::BadHeader => RestoreFault::BadHeader,
            LogReadFault::BadRecord(at) => RestoreFault::BadRecord(at),
            LogReadFault::BadChain(at) => RestoreFault::BadChain(at),
            LogReadFault::Torn(at) => RestoreFault::Torn(at),
            LogReadFault::ReadFault => RestoreFault::ReadFault,
            LogReadFault::TooLong => RestoreFault::TooLong,
        }
    }
}

impl From<ChainReadFault> for RestoreFault {
    ghost from_gives = { λ why e. e ≡ of_chain why };

    fn from(why: ChainReadFault) -> RestoreFault {
        match why {
            ChainReadFault::OutOfMemory => RestoreFault::OutOfMemory,
            ChainReadFault::BadArchive(at) => RestoreFault::BadArchive(at),
            ChainReadFault::ChainBroken(copy) => RestoreFault::ChainBroken(copy),
            ChainReadFault::CountDiffers => RestoreFault::CountDiffers,
            ChainReadFault::ReadFault => RestoreFault::ReadFault,
            ChainReadFault::RedoBeyondLog => RestoreFault::RedoBeyondLog,
            ChainReadFault::PageBeyondLog(page) => RestoreFault::PageBeyondLog(page),
        }
    }
}
