//! A writer with little room.

use std::io;
use std::io::{ErrorKind, Write};

/// Takes so many bytes at a call, and so many in all. Then it fails, or takes nothing.
#[derive(Drop)]
pub(crate) struct Narrow {
    pub(crate) held: Vec<u8>,
    pub(crate) step: usize,
    pub(crate) room: usize,
    pub(crate) fails: bool,
}

impl Write for Narrow {
    fn write(&mut self, buf: &[u8]) -> io::Result<usize> {
        let left = self.room.saturating_sub(self.held.len());
        if left == 0 && self.fails {
            return Err(ErrorKind::Other.into());
        }
        let count = buf.len().min(self.step).min(left);
        self.held.extend_from_slice(&buf[..count])?;
        Ok(count)
    }

    fn flush(&mut self) -> io::Result<()> {
        Ok(())
    }
}
