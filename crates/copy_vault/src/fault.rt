//! The reasons why a vault refuses a call.

ghost use Rattle.std.specs.Prelude.{◌≡◌};
ghost use Rattle.copy_vault.specs.declared.fault.CopyFault.TheVariants.{OutOfMemory};

use page_core::{FaultName, PageNo};
use std::alloc::{AllocError, AllocFailed};
use std::error::Error;
use std::fmt;

/// Why a vault refuses a call. A refusal changes nothing. Its text is its line.
#[derive(Clone, Copy, Debug, PartialEq, Eq)]
pub enum CopyFault {
    /// Memory ran out.
    OutOfMemory,
    /// No copy has this id, or it was dropped.
    NoCopy,
    /// The copy is complete.
    CopyNotOpen,
    /// The copy is still being read.
    CopyNotComplete,
    /// Nothing is decided of this page, the least such one.
    PagesLeft(PageNo),
    /// All 1,024 ids were given, dropped copies counted.
    TooManyCopies,
}

impl fmt::Display for CopyFault {
    ghost use Rattle.std.specs.Prelude.{Some};
    ghost use Rattle.copy_vault.specs.FaultText.{line_of_copy};

    ghost output = { λ fault. Some (line_of_copy fault) };

    fn fmt<W: fmt::Write>(&self, f: &mut fmt::Formatter<W>) -> fmt::Result {
        match self {
            CopyFault::OutOfMemory => write!(f, "{}", FaultName::OutOfMemory),
            CopyFault::NoCopy => write!(f, "{}", FaultName::NoCopy),
            CopyFault::CopyNotOpen => write!(f, "{}", FaultName::CopyNotOpen),
            CopyFault::CopyNotComplete => write!(f, "{}", FaultName::CopyNotComplete),
            CopyFault::PagesLeft(page) => {
                let page = page.0;
                write!(f, "{} {page}", FaultName::PagesLeft)
            }
            CopyFault::TooManyCopies => write!(f, "{}", FaultName::TooManyCopies),
        }
    }
}

impl Error for CopyFault {}

impl From<AllocError> for CopyFault {
    ghost from_gives = { λ _ e. e ≡ OutOfMemory };

    fn from(_error: AllocError) -> CopyFault {
        CopyFault::OutOfMemory
    }
}

impl<T: Drop> From<AllocFailed<T>> for CopyFault {
    ghost from_gives = { λ _ e. e ≡ OutOfMemory };

    fn from(_error: AllocFailed<T>) -> CopyFault {
        CopyFault::OutOfMemory
    }
}
