//! The files of a folder of the system. No contract says what they hold.

ghost use Rattle.std.specs.Prelude.{None};

use crate::folder_files::DatabaseFiles;
use database_files::Standing;
use std::fs::File;
use std::io::ErrorKind;
use std::path::{Path, PathBuf};
use std::{fs, io};

/// A folder of the system, whose files are read.
#[derive(Clone, Copy)]
pub struct SystemReader<'a> {
    pub rt: &'a HostRuntime,
    /// The folder's path.
    pub folder: &'a str,
}

impl SystemReader<'_> {
    /// Where the file of this name stands.
    fn place_of(&self, name: &str) -> io::Result<PathBuf> {
        Ok(Path::new(self.folder).join(self.rt.alloc(), name)?)
    }

    /// What stands at this place, and how many bytes it has. A link is followed.
    fn standing(&self, place: &PathBuf) -> io::Result<Standing<u64>> {
        match fs::metadata(self.rt, place.as_path()) {
            Ok(there) if there.is_file() => Ok(Standing::File(there.len())),
            Ok(_) => Ok(Standing::NotAFile),
            Err(error) if error.kind() == ErrorKind::NotFound => Ok(Standing::Absent),
            Err(error) => Err(error),
        }
    }
}

impl DatabaseFiles for SystemReader<'_> {
    type Reader = File;

    ghost entries = { λ _. None };

    fn names(&self) -> io::Result<Vec<String>> {
        let alloc = self.rt.alloc();
        let mut names = Vec::new(alloc);
        for entry in fs::read_dir(self.rt, self.folder)? {
            let entry = entry?;
            names.push(String::from_str(alloc, entry.file_name())?)?;
        }
        Ok(names)
    }

    fn has(&self, name: &str) -> io::Result<bool> {
        let place = self.place_of(name)?;
        match fs::symlink_metadata(self.rt, place.as_path()) {
            Ok(_) => Ok(true),
            Err(error) if error.kind() == ErrorKind::NotFound => Ok(false),
            Err(error) => Err(error),
        }
    }

    fn length(&self, name: &str) -> io::Result<Standing<u64>> {
        self.standing(&self.place_of(name)?)
    }

    fn open_file(&self, name: &str) -> io::Result<Standing<File>> {
        let place = self.place_of(name)?;
        match self.standing(&place)? {
            Standing::File(_) => Ok(Standing::File(fs::open(self.rt, place.as_path())?)),
            Standing::NotAFile => Ok(Standing::NotAFile),
            Standing::Absent => Ok(Standing::Absent),
        }
    }
}
