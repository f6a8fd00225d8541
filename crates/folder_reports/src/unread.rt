//! Why a file of a folder is not read.

use file_view::ViewFault;
use std::io;
use std::io::ErrorKind;

/// The number that the system has for a file that is not there.
const NO_ENTRY: i32 = 2;

/// Why a file of a folder is not read, or is not what its name says.
#[derive(Clone, Copy, Debug, PartialEq, Eq)]
pub enum Unread {
    /// What has its name is no regular file.
    NotAFile,
    /// It is wrong, or cannot be read. The system has this number for why, if it is the system's.
    Fault(ViewFault, Option<i32>),
    /// It has the name of another copy than the one that it is.
    IsCopy(u32),
}

impl Unread {
    /// Nothing stands there.
    pub fn absent() -> Unread {
        Unread::Fault(ViewFault::ReadFault, Some(NO_ENTRY))
    }
}

impl From<io::Error> for Unread {
    fn from(error: io::Error) -> Unread {
        match error.kind() {
            ErrorKind::OutOfMemory => Unread::Fault(ViewFault::OutOfMemory, None),
            _ => Unread::Fault(ViewFault::ReadFault, error.raw_os_error()),
        }
    }
}

/// What the system answers where nothing stands.
pub(crate) fn no_entry() -> io::Error {
    io::Error::from_raw_os_error(NO_ENTRY)
}
