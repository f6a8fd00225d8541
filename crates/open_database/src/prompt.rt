//! The prompt for a person at a terminal.

use std::io;
use std::io::Read;

/// An input before whose calls a prompt stands, if it is a terminal. That gives a line a call, so a
/// prompt stands before each line.
#[derive(Drop)]
pub(crate) struct Prompted<'a, F> {
    pub stream: F,
    pub rt: &'a HostRuntime,
    pub is_terminal: bool,
}

impl<F: Read> Read for Prompted<'_, F> {
    ghost remaining = { λ it. F.remaining it.stream };

    fn read(&mut self, buf: &mut [u8]) -> io::Result<usize> {
        if self.is_terminal {
            let _ = print!(self.rt; "imgcopy> ");
        }
        self.stream.read(buf)
    }
}
