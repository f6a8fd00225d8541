//! A file of which it is told when it is read.

ghost use Rattle.std.specs.Prelude.{◌≡◌};

use crate::named_files::NamedFiles;
use std::io;
use std::io::Read;

/// The reader of the file at this place, which tells each read of it.
#[derive(Drop)]
pub(crate) struct Told<'a, N: NamedFiles, R> {
    files: &'a N,
    place: usize,
    reader: R,
}

impl<'a, N: NamedFiles, R> Told<'a, N, R> {
    pub(crate) fn new(files: &'a N, place: usize, reader: R) -> Told<'a, N, R>
        ensures { result.reader ≡ reader }
    {
        Told {
            files,
            place,
            reader,
        }
    }
}

impl<N: NamedFiles, R: Read> Read for Told<'_, N, R> {
    ghost remaining = { λ it. R.remaining it.reader };

    fn read(&mut self, buf: &mut [u8]) -> io::Result<usize> {
        self.files.tell_read(self.place);
        self.reader.read(buf)
    }
}
