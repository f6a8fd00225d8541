//! Why a folder was not changed.

use crate::database_folder::LogFault;
use crate::place::Place;
use aries_core::NotResumed;
use engine_restart::RestartFault;
use log_store::LogDevice;
use page_core::FaultName;
use page_store::PageStore;
use saved_files::FileFault;
use std::alloc::{AllocError, AllocFailed};
use std::io;
use std::io::ErrorKind;

/// What failed once a folder was being changed for a new life. Some of it may be done.
#[derive(Clone, Copy, Debug)]
pub enum ChangeFault {
    OutOfMemory,
    /// The system did not do what was asked of this place, and has this number for why.
    System(Place, Option<i32>),
    /// Here stands what is no regular file.
    NotAFile(Place),
    /// The log is a link that leads nowhere.
    LinkToNothing,
    /// Another one has the log open, perhaps by another name.
    LogOpen,
    /// The bytes behind the log could not be put aside, so they were not cut off.
    NotAside(FileFault),
    /// What was open in the log could not be taken back. The system has this number for why, if it
    /// was a call of the log's file.
    Restart(RestartFault, Option<i32>),
    /// The header of a new log could not be stored.
    NoHeader(Option<i32>),
}

impl ChangeFault {
    /// What an error of the system is at this place.
    pub fn of(place: Place, error: &io::Error) -> ChangeFault {
        match error.kind() {
            ErrorKind::OutOfMemory => ChangeFault::OutOfMemory,
            _ => ChangeFault::System(place, error.raw_os_error()),
        }
    }

    /// What an error of the system is at the folder.
    pub fn of_folder(error: io::Error) -> ChangeFault {
        ChangeFault::of(Place::Folder, &error)
    }

    /// The name of the fault in its first line.
    pub fn name(&self) -> FaultName {
        match self {
            ChangeFault::OutOfMemory | ChangeFault::Restart(RestartFault::OutOfMemory, _) => {
                FaultName::OutOfMemory
            }
            ChangeFault::System(Place::Volume, _) => FaultName::StoreFault,
            ChangeFault::System(Place::Folder, _)
            | ChangeFault::LogOpen
            | ChangeFault::NotAside(_) => FaultName::WriteFault,
            ChangeFault::System(_, _) | ChangeFault::NotAFile(_) | ChangeFault::LinkToNothing => {
                FaultName::ReadFault
            }
            ChangeFault::Restart(RestartFault::LogFull, _) => FaultName::LogFull,
            ChangeFault::Restart(RestartFault::LogFault, _) | ChangeFault::NoHeader(_) => {
                FaultName::LogFault
            }
        }
    }
}

impl From<AllocError> for ChangeFault {
    fn from(_error: AllocError) -> ChangeFault {
        ChangeFault::OutOfMemory
    }
}

impl<T: Drop> From<AllocFailed<T>> for ChangeFault {
    fn from(_error: AllocFailed<T>) -> ChangeFault {
        ChangeFault::OutOfMemory
    }
}

impl From<LogFault> for ChangeFault {
    fn from(fault: LogFault) -> ChangeFault {
        match fault {
            LogFault::NotAFile => ChangeFault::NotAFile(Place::Log),
            LogFault::LinkToNothing => ChangeFault::LinkToNothing,
            LogFault::Locked => ChangeFault::LogOpen,
            LogFault::System(error) => ChangeFault::of(Place::Log, &error),
        }
    }
}

impl<S: PageStore + Drop, D: LogDevice + Drop> From<NotResumed<S, D>> for ChangeFault {
    fn from(_not: NotResumed<S, D>) -> ChangeFault {
        ChangeFault::OutOfMemory
    }
}
