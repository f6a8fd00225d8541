//! What stands in a folder, as it is told to a person.

use crate::names::{CLOSED, LOG, MANIFEST, MASTER, VOLUME};
use copy_vault::CopyId;
use std::fmt;

/// A folder, or a file in it. Its text follows the folder's name.
#[derive(Clone, Copy, Debug, PartialEq, Eq)]
pub enum Place {
    Folder,
    Log,
    Volume,
    Master,
    Closed,
    Manifest,
    Copy(CopyId),
}

impl fmt::Display for Place {
    fn fmt<W: fmt::Write>(&self, f: &mut fmt::Formatter<W>) -> fmt::Result {
        match self {
            Place::Folder => Ok(()),
            Place::Log => write!(f, "/{LOG}"),
            Place::Volume => write!(f, "/{VOLUME}"),
            Place::Master => write!(f, "/{MASTER}"),
            Place::Closed => write!(f, "/{CLOSED}"),
            Place::Manifest => write!(f, "/{MANIFEST}"),
            Place::Copy(id) => write!(f, "/copy-{number}", number = id.0),
        }
    }
}
