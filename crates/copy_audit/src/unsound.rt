//! The reasons why a chain of copies is not called sound.

ghost use Rattle.std.specs.Prelude.{◌≡◌};
ghost use Rattle.copy_audit.specs.AuditFault.{of_chain, of_log};
ghost use Rattle.copy_audit.specs.declared.unsound.Unsound.TheVariants.{OutOfMemory};

use copy_vault::{ChainReadFault, CopyId};
use log_store::LogReadFault;
use page_core::{FaultName, Lsn, PageNo};
use std::alloc::{AllocError, AllocFailed};
use std::error::Error;
use std::fmt;

/// Why an audit does not call a chain of copies sound. Its text is a line: `E`, its number, its
/// name, and then its numbers in decimal.
#[derive(Clone, Copy, Debug, PartialEq, Eq)]
pub enum Unsound {
    /// Memory was refused.
    OutOfMemory,
    /// The log's header is misspelt.
    BadHeader,
    /// The 64 bytes of the log at this offset are no record that may stand there.
    BadRecord(Lsn),
    /// The log ends within the record at this offset.
    Torn(Lsn),
    /// A reader failed, or did not come to its end.
    ReadFault,
    /// Bytes follow the last record that a log may have.
    TooLong,
    /// The log's record at this offset may not follow those before it.
    BadChain(Lsn),
    /// What stands at this offset of an archive is misspelt, or the archive ends within it.
    BadArchive(u64),
    /// The archive of this copy is the first one that does not follow those before it, or has
    /// another page count than the log has below its begin. 0 where no archive is given.
    ChainBroken(CopyId),
    /// Fewer or more pages follow in an archive than its header says.
    CountDiffers,
    /// The redo point of an archive is at or past the log's end.
    RedoBeyondLog,
    /// This page of an archive has an LSN at or past the log's end.
    PageBeyondLog(PageNo),
    /// The chain up to the copy of this id is the first one with a page that is not sound, and this
    /// is the least such page of it: the log never made the page as it is there, or the page lacks
    /// a change below the copy's redo point.
    Unsound(CopyId, PageNo),
}

impl fmt::Display for Unsound {
    ghost use Rattle.std.specs.Prelude.{Some};
    ghost use Rattle.copy_audit.specs.AuditFault.{line_of};

    ghost output = { λ fault. Some (line_of fault) };

    fn fmt<W: fmt::Write>(&self, f: &mut fmt::Formatter<W>) -> fmt::Result {
        match self {
            Unsound::OutOfMemory => write!(f, "{}", FaultName::OutOfMemory),
            Unsound::BadHeader => write!(f, "{}", FaultName::BadHeader),
            Unsound::BadRecord(at) => {
                let at = at.0;
                write!(f, "{} {at}", FaultName::BadRecord)
            }
            Unsound::Torn(at) => {
                let at = at.0;
                write!(f, "{} {at}", FaultName::Torn)
            }
            Unsound::ReadFault => write!(f, "{}", FaultName::ReadFault),
            Unsound::TooLong => write!(f, "{}", FaultName::TooLong),
            Unsound::BadChain(at) => {
                let at = at.0;
                write!(f, "{} {at}", FaultName::BadChain)
            }
            Unsound::BadArchive(at) => write!(f, "{} {at}", FaultName::BadArchive),
            Unsound::ChainBroken(copy) => {
                let copy = copy.0;
                write!(f, "{} {copy}", FaultName::ChainBroken)
            }
            Unsound::CountDiffers => write!(f, "{}", FaultName::CountDiffers),
            Unsound::RedoBeyondLog => write!(f, "{}", FaultName::RedoBeyondLog),
            Unsound::PageBeyondLog(page) => {
                let page = page.0;
                write!(f, "{} {page}", FaultName::PageBeyondLog)
            }
            Unsound::Unsound(copy, page) => {
                let (copy, page) = (copy.0, page.0);
                write!(f, "{} {copy} {page}", FaultName::Unsound)
            }
        }
    }
}

impl Error for Unsound {}

impl From<AllocError> for Unsound {
    ghost from_gives = { λ _ e. e ≡ OutOfMemory };

    fn from(_error: AllocError) -> Unsound {
        Unsound::OutOfMemory
    }
}

impl<T: Drop> From<AllocFailed<T>> for Unsound {
    ghost from_gives = { λ _ e. e ≡ OutOfMemory };

    fn from(_error: AllocFailed<T>) -> Unsound {
        Unsound::OutOfMemory
    }
}

impl From<LogReadFault> for Unsound {
    ghost from_gives = { λ why e. e ≡ of_log why };

    fn from(why: LogReadFault) -> Unsound {
        match why {
            LogReadFault::OutOfMemory => Unsound::OutOfMemory,
            LogReadFault::BadHeader => Unsound::BadHeader,
            LogReadFault::BadRecord(at) => Unsound::BadRecord(at),
            LogReadFault::BadChain(at) => Unsound::BadChain(at),
            LogReadFault::Torn(at) => Unsound::Torn(at),
            LogReadFault::ReadFault => Unsound::ReadFault,
            LogReadFault::TooLong => Unsound::TooLong,
        }
    }
}

impl From<ChainReadFault> for Unsound {
    ghost from_gives = { λ why e. e ≡ of_chain why };

    fn from(why: ChainReadFault) -> Unsound {
        match why {
            ChainReadFault::OutOfMemory => Unsound::OutOfMemory,
            ChainReadFault::BadArchive(at) => Unsound::BadArchive(at),
            ChainReadFault::ChainBroken(copy) => Unsound::ChainBroken(copy),
            ChainReadFault::CountDiffers => Unsound::CountDiffers,
            ChainReadFault::ReadFault => Unsound::ReadFault,
            ChainReadFault::RedoBeyondLog => Unsound::RedoBeyondLog,
            ChainReadFault::PageBeyondLog(page) => Unsound::PageBeyondLog(page),
        }
    }
}
