//! A file of a folder in memory.

use crate::failing_calls::FailingCalls;
use std::io;
use std::io::Write;

/// A file of a folder in memory that is being written. What goes out to it is stored by a sync.
#[derive(Drop)]
pub struct MemFile<'a> {
    pub(crate) number: u64,
    pub(crate) bytes: Vec<u8>,
    pub(crate) calls: &'a FailingCalls,
}

/// A file of a folder in memory, once it was written.
#[derive(Drop)]
pub struct WrittenMemFile {
    pub(crate) number: u64,
    pub(crate) bytes: Vec<u8>,
}

impl Write for MemFile<'_> {
    ghost use Rattle.std.specs.Prelude.{Some};

    ghost contents = { λ file. Some file.bytes.items };

    fn write(&mut self, buf: &[u8]) -> io::Result<usize> {
        self.calls.begin()?;
        self.bytes.write(buf)
    }

    fn flush(&mut self) -> io::Result<()> {
        Ok(())
    }
}
