//! The reasons why copies do not form a chain.

ghost use Rattle.std.specs.Prelude.{◌≡◌};
ghost use Rattle.copy_vault.specs.declared.chain_fault.ChainFault.TheVariants.{OutOfMemory};

use crate::copy_id::CopyId;
use page_core::FaultName;
use std::alloc::{AllocError, AllocFailed};
use std::error::Error;
use std::fmt;

/// Why copies that are given are no chain. Its text is its line.
#[derive(Clone, Copy, Debug, PartialEq, Eq)]
pub enum ChainFault {
    /// Memory ran out.
    OutOfMemory,
    /// The first copy that does not fit: it is not full where it comes first, the copy before it is
    /// not its parent, or it has another page count. 0 where no copy is given.
    ChainBroken(CopyId),
}

impl fmt::Display for ChainFault {
    ghost use Rattle.std.specs.Prelude.{Some};
    ghost use Rattle.copy_vault.specs.FaultText.{line_of_chain};

    ghost output = { λ fault. Some (line_of_chain fault) };

    fn fmt<W: fmt::Write>(&self, f: &mut fmt::Formatter<W>) -> fmt::Result {
        match self {
            ChainFault::OutOfMemory => write!(f, "{}", FaultName::OutOfMemory),
            ChainFault::ChainBroken(copy) => {
                let copy = copy.0;
                write!(f, "{} {copy}", FaultName::ChainBroken)
            }
        }
    }
}

impl Error for ChainFault {}

impl From<AllocError> for ChainFault {
    ghost from_gives = { λ _ e. e ≡ OutOfMemory };

    fn from(_error: AllocError) -> ChainFault {
        ChainFault::OutOfMemory
    }
}

impl<T: Drop> From<AllocFailed<T>> for ChainFault {
    ghost from_gives = { λ _ e. e ≡ OutOfMemory };

    fn from(_error: AllocFailed<T>) -> ChainFault {
        ChainFault::OutOfMemory
    }
}
