//! What is noted of the system's calls, for a line to a person.

use std::cell::Cell;
use std::io;
use std::io::{Read, Write};

/// What is known of the last call of the system that failed, and of the file that was read last.
#[derive(Drop)]
pub struct Notes {
    error: Cell<Option<i32>>,
    read: Cell<Option<usize>>,
}

impl Notes {
    /// Notes of no call.
    pub fn new() -> Notes {
        Notes {
            error: Cell::new(None),
            read: Cell::new(None),
        }
    }

    /// The error of the last call that failed, if the system has a number for it.
    pub fn error(&self) -> Option<io::Error> {
        match self.error.get() {
            Some(code) => Some(io::Error::from_raw_os_error(code)),
            None => None,
        }
    }

    /// The place of the file that was read last, if one was.
    pub fn read_last(&self) -> Option<usize> {
        self.read.get()
    }

    /// Notes why a call failed.
    pub fn note<T>(&self, done: &io::Result<T>) {
        if let Err(error) = done {
            self.error.set(error.raw_os_error());
        }
    }

    /// Notes that the file at this place is being read.
    pub fn note_read(&self, place: usize) {
        self.read.set(Some(place));
    }
}

/// A file, or a standard stream, of which it is noted why a call failed.
#[derive(Drop)]
pub struct Noted<'a, F> {
    pub file: F,
    pub notes: &'a Notes,
}

impl<F: Read> Read for Noted<'_, F> {
    ghost remaining = { λ it. F.remaining it.file };

    fn read(&mut self, buf: &mut [u8]) -> io::Result<usize> {
        let done = self.file.read(buf);
        self.notes.note(&done);
        done
    }
}

impl<F: Write> Write for Noted<'_, F> {
    ghost contents = { λ it. F.contents it.file };

    fn write(&mut self, buf: &[u8]) -> io::Result<usize> {
        let done = self.file.write(buf);
        self.notes.note(&done);
        done
    }

    fn flush(&mut self) -> io::Result<()> {
        self.file.flush()
    }
}
