//! Inputs that can be read but once, as pipes: their bytes are kept, for each later reading.

ghost use Rattle.std.specs.Prelude.{◌≡◌, OnOk, option_map};
ghost use Rattle.file_inputs.specs.ReadOnce.{KeepsOrAdds, bytes_in};

use crate::input_names::InputNames;
use file_view::{ViewFault, read_file};
use saved_files::NamedFiles;
use std::fs::File;
use std::io::Read;
use std::{fs, io};
use system_files::{Noted, Notes};

/// A named input and its bytes.
#[derive(Drop)]
struct KeptInput {
    name: String,
    bytes: Vec<u8>,
}

/// The files of the system, of which those that are no regular files were read whole: each later
/// reading gives the same bytes. Those of a regular file are read anew each time.
#[derive(Drop)]
pub struct ReadOnce<'a> {
    files: &'a HostRuntime,
    notes: &'a Notes,
    kept: Vec<KeptInput>,
}

impl<'a> ReadOnce<'a> {
    /// Reads those of the named files whole that are no regular ones, in their order. At a fault
    /// the notes know which one was being read, and why the system failed there.
    pub fn of(
        files: &'a HostRuntime,
        names: &InputNames<'_>,
        notes: &'a Notes,
    ) -> Result<ReadOnce<'a>, ViewFault> {
        let mut all = ReadOnce {
            files,
            notes,
            kept: Vec::new(files.alloc()),
        };
        for place in 0..names.count() {
            if let Some(name) = names.at(place) {
                notes.note_read(place);
                all.keep(name)?;
            }
        }
        Ok(all)
    }

    /// Reads a file whole, if it is there and no regular one. A missing one is told of later.
    fn keep(&mut self, name: &str) -> Result<(), ViewFault>
        ensures { OnOk result (KeepsOrAdds name.now self.old.kept.items self.new.kept.items) }
    {
        match fs::metadata(self.files, name) {
            Ok(there) if !there.is_file() && !there.is_dir() => {}
            _ => return Ok(()),
        }
        if self.bytes_of(name).is_some() {
            return Ok(());
        }
        let opened = fs::open(self.files, name);
        self.notes.note(&opened);
        let Ok(file) = opened else {
            return Err(ViewFault::ReadFault);
        };
        let mut file = Noted {
            file,
            notes: self.notes,
        };
        let bytes = read_file(self.files.alloc(), &mut file)?;
        let name = String::from_str(self.files.alloc(), name)?;
        self.kept.push(KeptInput { name, bytes })?;
        Ok(())
    }

    fn bytes_of(&self, name: &str) -> Option<&[u8]>
        ensures { option_map (λ bytes. bytes.now) result ≡ bytes_in self.now.kept.items name.now }
    {
        for input in self.kept.as_slice() {
            if input.name.as_str() == name {
                return Some(input.bytes.as_slice());
            }
        }
        None
    }
}

/// A file of the system, or the bytes of one that was read.
#[derive(Drop)]
pub enum OnceFile<'a> {
    Opened(Noted<'a, File>),
    Kept(&'a [u8]),
}

impl Read for OnceFile<'_> {
    ghost use Rattle.file_inputs.specs.ReadOnce.{left_of};

    ghost remaining = { left_of };

    fn read(&mut self, buf: &mut [u8]) -> io::Result<usize> {
        match self {
            OnceFile::Opened(file) => file.read(buf),
            OnceFile::Kept(bytes) => bytes.read(buf),
        }
    }
}

impl<'a> NamedFiles for &'a ReadOnce<'_> {
    type File = OnceFile<'a>;

    ghost bytes = { λ it. bytes_in it.now.kept.items };

    fn open(&self, name: &str) -> io::Result<OnceFile<'a>> {
        if let Some(bytes) = self.bytes_of(name) {
            return Ok(OnceFile::Kept(bytes));
        }
        let opened = fs::open(self.files, name);
        self.notes.note(&opened);
        Ok(OnceFile::Opened(Noted {
            file: opened?,
            notes: self.notes,
        }))
    }

    fn tell_read(&self, place: usize) {
        self.notes.note_read(place);
    }
}
