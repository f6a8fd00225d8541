//! Which file it is, whatever its name.

use std::fs;
use std::fs::Metadata;
use std::os::unix::fs::MetadataExt;
use std::path::AsPath;
use std::rt::Files;

/// A file of the system, which may have several names.
#[derive(Clone, Copy, Debug, PartialEq, Eq)]
pub struct FileIdentity {
    device: u64,
    number: u64,
}

impl FileIdentity {
    /// That of the file to which a path leads. None where it cannot be told.
    pub fn at<R: Files, P: AsPath>(files: &R, place: P) -> Option<FileIdentity> {
        match fs::metadata(files, place) {
            Ok(there) => Some(FileIdentity::of(&there)),
            Err(_) => None,
        }
    }

    fn of(there: &Metadata) -> FileIdentity {
        FileIdentity {
            device: there.dev(),
            number: there.ino(),
        }
    }
}
