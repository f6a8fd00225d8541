//! The reasons why a copy is not loaded, a loaded copy is not redone, or a restore does not end.

ghost use Rattle.std.specs.Prelude.{◌≡◌};
ghost use Rattle.media_restore.specs.declared.fault.LoadFault.TheVariants.{OutOfMemory};

use loser_undo::UndoFault;
use page_core::FaultName;
use std::alloc::AllocError;
use std::error::Error;
use std::fmt;

/// Why a copy is not loaded.
#[derive(Clone, Copy, Debug, PartialEq, Eq)]
pub enum LoadFault {
    /// Memory for the pages was refused.
    OutOfMemory,
    /// No copy has this id, or it was dropped.
    NoCopy,
    /// The copy is still being read.
    CopyNotComplete,
    /// Fewer records would be kept than were forced: so many.
    CutTooShort(u64),
}

impl fmt::Display for LoadFault {
    ghost use Rattle.std.specs.Prelude.{Some};
    ghost use Rattle.media_restore.specs.Fault.{line_of_load};

    ghost output = { λ fault. Some (line_of_load fault) };

    fn fmt<W: fmt::Write>(&self, f: &mut fmt::Formatter<W>) -> fmt::Result {
        match self {
            LoadFault::OutOfMemory => write!(f, "{}", FaultName::OutOfMemory),
            LoadFault::NoCopy => write!(f, "{}", FaultName::NoCopy),
            LoadFault::CopyNotComplete => write!(f, "{}", FaultName::CopyNotComplete),
            LoadFault::CutTooShort(forced) => write!(f, "{} {forced}", FaultName::CutTooShort),
        }
    }
}

impl Error for LoadFault {}

impl From<AllocError> for LoadFault {
    ghost from_gives = { λ _ e. e ≡ OutOfMemory };

    fn from(_error: AllocError) -> LoadFault {
        LoadFault::OutOfMemory
    }
}

/// Why the log is not redone on a loaded copy.
#[derive(Clone, Copy, Debug, PartialEq, Eq)]
pub enum RedoFault {
    /// Memory was refused.
    OutOfMemory,
}

impl fmt::Display for RedoFault {
    ghost use Rattle.std.specs.Prelude.{Some};
    ghost use Rattle.media_restore.specs.Fault.{line_of_redo};

    ghost output = { λ fault. Some (line_of_redo fault) };

    fn fmt<W: fmt::Write>(&self, f: &mut fmt::Formatter<W>) -> fmt::Result {
        match self {
            RedoFault::OutOfMemory => write!(f, "{}", FaultName::OutOfMemory),
        }
    }
}

impl Error for RedoFault {}

/// Why a restore was not done: the refusal of its load, of its redo or of its undo.
#[derive(Clone, Copy, Debug, PartialEq, Eq)]
pub enum Refused {
    /// The copy was not loaded.
    Load(LoadFault),
    /// The log was not redone.
    Redo(RedoFault),
    /// The open transactions were not undone.
    Undo(UndoFault),
}

impl fmt::Display for Refused {
    ghost use Rattle.std.specs.Prelude.{Some};
    ghost use Rattle.media_restore.specs.Fault.{line_of};

    ghost output = { λ refused. Some (line_of refused) };

    fn fmt<W: fmt::Write>(&self, f: &mut fmt::Formatter<W>) -> fmt::Result {
        match self {
            Refused::Load(fault) => write!(f, "{fault}"),
            Refused::Redo(fault) => write!(f, "{fault}"),
            Refused::Undo(fault) => write!(f, "{fault}"),
        }
    }
}

impl Error for Refused {}
