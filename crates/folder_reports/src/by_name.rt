//! The files of a folder as files that are read by their names.

use crate::folder_files::DatabaseFiles;
use database_files::Standing;
use saved_files::NamedFiles;
use std::io;
use std::io::ErrorKind;

/// The files of a folder, for who reads files by their names. What is no file cannot be opened.
#[derive(Drop)]
pub struct ByName<'a, F: DatabaseFiles> {
    pub folder: &'a F,
}

impl<F: DatabaseFiles> NamedFiles for ByName<'_, F> {
    ghost use Rattle.folder_reports.specs.Reading.{bytes_in};

    type File = F::Reader;

    ghost bytes = { λ it name. bytes_in (F.entries it.folder.now) name };

    fn open(&self, name: &str) -> io::Result<F::Reader> {
        match self.folder.open_file(name)? {
            Standing::File(file) => Ok(file),
            Standing::NotAFile => Err(io::Error::from(ErrorKind::InvalidInput)),
            Standing::Absent => Err(io::Error::from(ErrorKind::NotFound)),
        }
    }

    fn tell_read(&self, _place: usize) {}
}
