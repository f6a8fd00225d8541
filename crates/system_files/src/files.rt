//! The files of the system, by their names.

ghost use Rattle.std.specs.Prelude.{None};

use crate::notes::{Noted, Notes};
use saved_files::NamedFiles;
use std::fs::File;
use std::rt::Files;
use std::{fs, io};

/// The files that have these names for the system.
#[derive(Drop)]
pub struct SystemFiles<'a, R: Files> {
    pub files: &'a R,
    pub notes: &'a Notes,
}

impl<'a, R: Files<File = File>> NamedFiles for SystemFiles<'a, R> {
    type File = Noted<'a, File>;

    ghost bytes = { λ _ _. None };

    fn open(&self, name: &str) -> io::Result<Noted<'a, File>> {
        let opened = fs::open(self.files, name);
        self.notes.note(&opened);
        Ok(Noted {
            file: opened?,
            notes: self.notes,
        })
    }

    fn tell_read(&self, place: usize) {
        self.notes.note_read(place);
    }
}
