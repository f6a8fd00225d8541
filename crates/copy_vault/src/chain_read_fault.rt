//! Why the archives of a chain could not be read side by side.

ghost use Rattle.std.specs.Prelude.{◌≡◌};
ghost use Rattle.copy_vault.specs.declared.chain_read_fault.ChainReadFault.TheVariants as fault;

use crate::copy_id::CopyId;
use page_core::{FaultName, PageNo};
use std::alloc::{AllocError, AllocFailed};
use std::error::Error;
use std::fmt;

/// Why the archives of a chain could not be read side by side: the first fault that was met. Its
/// text is its line.
#[derive(Clone, Copy, Debug, PartialEq, Eq)]
pub enum ChainReadFault {
    /// Memory ran out.
    OutOfMemory,
    /// What stands at this offset of an archive is misspelt, or the archive ends within it.
    BadArchive(u64),
    /// The archive of this copy is the first one that does not follow those before it, or has
    /// another page count than the log has below its begin. 0 where no archive is given.
    ChainBroken(CopyId),
    /// Fewer or more pages follow in an archive than its header says.
    CountDiffers,
    /// A reader failed, or did not come to an end, and what the readers gave until then is right.
    ReadFault,
    /// The redo point of an archive is at or past the log's end.
    RedoBeyondLog,
    /// This page of an archive has an LSN at or past the log's end.
    PageBeyondLog(PageNo),
}

impl fmt::Display for ChainReadFault {
    ghost use Rattle.std.specs.Prelude.{Some};
    ghost use Rattle.copy_vault.specs.FaultText.{line_of_chain_read};

    ghost output = { λ fault. Some (line_of_chain_read fault) };

    fn fmt<W: fmt::Write>(&self, f: &mut fmt::Formatter<W>) -> fmt::Result {
        match self {
            ChainReadFault::OutOfMemory => write!(f, "{}", FaultName::OutOfMemory),
            ChainReadFault::BadArchive(at) => write!(f, "{} {at}", FaultName::BadArchive),
            ChainReadFault::ChainBroken(copy) => {
                let copy = copy.0;
                write!(f, "{} {copy}", FaultName::ChainBroken)
            }
            ChainReadFault::CountDiffers => write!(f, "{}", FaultName::CountDiffers),
            ChainReadFault::ReadFault => write!(f, "{}", FaultName::ReadFault),
            ChainReadFault::RedoBeyondLog => write!(f, "{}", FaultName::RedoBeyondLog),
            ChainReadFault::PageBeyondLog(page) => {
                let page = page.0;
                write!(f, "{} {page}", FaultName::PageBeyondLog)
            }
        }
    }
}

impl Error for ChainReadFault {}

impl From<AllocError> for ChainReadFault {
    ghost from_gives = { λ _ e. e ≡ fault.OutOfMemory };

    fn from(_error: AllocError) -> ChainReadFault {
        ChainReadFault::OutOfMemory
    }
}

impl<T: Drop> From<AllocFailed<T>> for ChainReadFault {
    ghost from_gives = { λ _ e. e ≡ fault.OutOfMemory };

    fn from(_error: AllocFailed<T>) -> ChainReadFault {
        ChainReadFault::OutOfMemory
    }
}
