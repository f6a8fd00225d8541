//! A file that is opened when it is first read.

ghost use Rattle.std.specs.Prelude.{◌≡◌};

use crate::named_files::NamedFiles;
use std::io;
use std::io::Read;

/// How far a file is read.
#[derive(Drop)]
pub enum Stage<F> {
    Unopened,
    Open(F),
    Ended,
}

/// A file that is opened when it is first read, and closed at its end. One that cannot be opened is
/// a reader whose read fails.
#[derive(Drop)]
pub(crate) struct LateFile<'a, N: NamedFiles> {
    files: &'a N,
    name: &'a str,
    stage: Stage<N::File>,
}

impl<'a, N: NamedFiles> LateFile<'a, N> {
    ghost use Rattle.saved_files.specs.LateFile.{left_of};

    pub(crate) fn new(files: &'a N, name: &'a str) -> LateFile<'a, N>
        ensures { left_of N.File.remaining (N.bytes result.files.now result.name.now) result.stage
            ≡ N.bytes files.now name.now }
    {
        LateFile {
            files,
            name,
            stage: Stage::Unopened,
        }
    }
}

impl<N: NamedFiles> Read for LateFile<'_, N> {
    ghost use Rattle.saved_files.specs.LateFile.{left_of};

    ghost remaining = { λ it.
        left_of N.File.remaining (N.bytes it.files.now it.name.now) it.stage };

    fn read(&mut self, buf: &mut [u8]) -> io::Result<usize> {
        if let Stage::Unopened = self.stage {
            self.stage = Stage::Open(self.files.open(self.name)?);
        }
        let Stage::Open(file) = &mut self.stage else {
            return Ok(0);
        };
        let count = file.read(buf)?;
        if count == 0 && !buf.is_empty() {
            self.stage = Stage::Ended;
        }
        Ok(count)
    }
}
