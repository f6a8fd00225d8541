//! The reasons why a copy is not taken up.

ghost use Rattle.std.specs.Prelude.{◌≡◌};
ghost use Rattle.engine_restart.specs.declared.add_fault.AddCopyFault.TheVariants.{OutOfMemory};

use copy_vault::AddFault;
use page_core::{FaultName, PageNo};
use std::alloc::AllocError;
use std::error::Error;
use std::fmt;

/// Why a copy was not taken up.
#[derive(Clone, Copy, Debug, PartialEq, Eq)]
pub enum AddCopyFault {
    /// Memory ran out.
    OutOfMemory,
    /// The log has no complete checkpoint; or the copy's begin lies past the log's end, or the
    /// volume had another page count there: it is a copy of another log.
    OfOtherLog,
    /// This page, from the copy or from those that it stands on, is not as the log made it at some
    /// moment, or lacks a change below the copy's redo point.
    Unsound(PageNo),
    /// Its id or a later one was given, or is above 1,024, or its parent is not at hand.
    Refused(AddFault),
}

impl fmt::Display for AddCopyFault {
    ghost use Rattle.engine_restart.specs.Added.{text_of};

    ghost output = { λ fault. text_of fault };

    fn fmt<W: fmt::Write>(&self, f: &mut fmt::Formatter<W>) -> fmt::Result {
        match self {
            AddCopyFault::OutOfMemory => write!(f, "{}", FaultName::OutOfMemory),
            AddCopyFault::OfOtherLog => f.write_str("the copy is none of this log"),
            AddCopyFault::Unsound(page) => {
                let page = page.0;
                write!(f, "page {page} is not what the log says")
            }
            AddCopyFault::Refused(fault) => write!(f, "{fault}"),
        }
    }
}

impl Error for AddCopyFault {}

impl From<AllocError> for AddCopyFault {
    ghost from_gives = { λ _ why. why ≡ OutOfMemory };

    fn from(_error: AllocError) -> AddCopyFault {
        AddCopyFault::OutOfMemory
    }
}
