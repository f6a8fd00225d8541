//! Why a clerk ends before its work is done.

use imgcopy_engine::{FileFault, Refusal, SavedName};
use std::io::ErrorKind;
use std::{fmt, io};
use thiserror::Error;

/// Why a clerk ends before its work is done.
#[derive(Clone, Copy, Debug, Error)]
pub enum Halt {
    /// A call was refused, and nothing could be done about it.
    #[error(transparent)]
    Refused(#[from] Refusal),
    /// A file or the output could not be written.
    #[error(transparent)]
    Unkept(#[from] FileTrouble),
    /// Another one met a fault before.
    #[error("the day is over")]
    DayOver,
}

/// What a day on files has to do with outside of memory.
#[derive(Clone, Copy, Debug, PartialEq, Eq)]
pub enum Place {
    Folder,
    Log,
    Volume,
    /// The master record, or a copy.
    Saved(SavedName),
    Output,
}

/// What the system did not do. Its text is why, without the place.
#[derive(Clone, Copy, Debug)]
pub struct FileTrouble {
    pub place: Place,
    /// The number that the system has for it, if it has one.
    pub code: Option<i32>,
    pub fault: FileFault,
}

/// The number that the system has for what another one has locked.
const IS_LOCKED: i32 = 11;

impl FileTrouble {
    /// What an error of the system is at this place.
    pub fn of(place: Place, error: &io::Error) -> FileTrouble {
        FileTrouble {
            place,
            code: error.raw_os_error(),
            fault: match error.kind() {
                ErrorKind::OutOfMemory => FileFault::OutOfMemory,
                _ => FileFault::WriteFault(0),
            },
        }
    }
}

impl fmt::Display for FileTrouble {
    fn fmt<W: fmt::Write>(&self, f: &mut fmt::Formatter<W>) -> fmt::Result {
        let Some(code) = self.code else {
            let fault = self.fault;
            return write!(f, "{fault}");
        };
        if code == IS_LOCKED && self.place == Place::Folder {
            return f.write_str("another one works in this folder");
        }
        let error = io::Error::from_raw_os_error(code);
        write!(f, "{error}")
    }
}

impl std::error::Error for FileTrouble {}

/// The name of a place in a folder, as it follows the folder's name.
impl fmt::Display for Place {
    fn fmt<W: fmt::Write>(&self, f: &mut fmt::Formatter<W>) -> fmt::Result {
        match self {
            Place::Folder | Place::Output => Ok(()),
            Place::Log => f.write_str("/log"),
            Place::Volume => f.write_str("/volume"),
            Place::Saved(name) => write!(f, "/{name}"),
        }
    }
}
