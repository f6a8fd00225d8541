//! Files of which some are checked while they are read.

ghost use Rattle.std.specs.Prelude.{◌≡◌};

use crate::expected::{Expected, sum_in};
use manifest::CheckedReader;
use saved_files::NamedFiles;
use std::cell::Cell;
use std::io;
use std::io::{ErrorKind, Read};

/// Where a file was found to be another one than the manifest names: behind so many summed bytes.
#[derive(Drop)]
pub struct CheckNotes {
    refused: Cell<Option<u64>>,
}

impl CheckNotes {
    /// No file was found to be another one.
    pub fn new() -> CheckNotes {
        CheckNotes {
            refused: Cell::new(None),
        }
    }

    /// How many bytes were summed of the file that is another one, if one is. It is the file that
    /// was read last.
    pub fn refused(&self) -> Option<u64> {
        self.refused.get()
    }

    fn note(&self, count: u64) {
        self.refused.set(Some(count));
    }
}

/// Files that are found by their names. Those that are expected to be certain files come to their
/// ends only where they are: so who reads each file to its end before the first byte is used uses
/// none of another file.
#[derive(Drop)]
pub struct CheckedFiles<'a, N: NamedFiles> {
    pub files: &'a N,
    pub expected: &'a [Expected<'a>],
    pub notes: &'a CheckNotes,
}

/// A file that is checked, or one of which nothing is known.
#[derive(Drop)]
pub enum Watched<F: Read> {
    Plain(F),
    Checked(CheckedReader<F>),
}

/// An open file, and where it is noted that it is another one.
#[derive(Drop)]
pub struct CheckedFile<'a, F: Read> {
    file: Watched<F>,
    notes: &'a CheckNotes,
}

impl<F: Read> Read for CheckedFile<'_, F> {
    ghost use Rattle.checked_files.specs.Checked.{left_of};

    ghost remaining = { λ it. left_of F.remaining it.file };

    fn read(&mut self, buf: &mut [u8]) -> io::Result<usize> {
        match &mut self.file {
            Watched::Plain(file) => file.read(buf),
            Watched::Checked(reader) => {
                let done = reader.read(buf);
                if let Err(error) = &done {
                    if error.kind() == ErrorKind::InvalidData {
                        self.notes.note(reader.count());
                    }
                }
                done
            }
        }
    }
}

impl<'a, N: NamedFiles> NamedFiles for CheckedFiles<'a, N> {
    ghost use Rattle.checked_files.specs.Checked.{bytes_by};

    type File = CheckedFile<'a, N::File>;

    ghost bytes = { λ it name. bytes_by (N.bytes it.files.now) it.expected.now name };

    fn open(&self, name: &str) -> io::Result<CheckedFile<'a, N::File>> {
        let file = self.files.open(name)?;
        Ok(CheckedFile {
            file: match sum_in(self.expected, name) {
                Some(wanted) => Watched::Checked(CheckedReader::new(file, wanted)),
                None => Watched::Plain(file),
            },
            notes: self.notes,
        })
    }

    fn tell_read(&self, place: usize) {
        self.files.tell_read(place);
    }
}
