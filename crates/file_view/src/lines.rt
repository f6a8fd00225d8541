//! Lines that are written in large pieces.

use crate::fault::ViewFault;
use page_core::write_out;
use std::alloc::Global;
use std::io::Write;

/// How many bytes of lines are kept before they are written.
const PIECE_BYTES: usize = 65_536;

/// How lines are written.
#[derive(Clone, Copy, Debug, PartialEq, Eq)]
pub enum Form {
    /// Words and numbers.
    Words,
    /// An object of JSON a line.
    Json,
}

/// Lines on their way to a writer.
#[derive(Drop)]
pub struct Lines<'a, W: Write> {
    /// Lines that are not written yet.
    pub text: String,
    writer: &'a mut W,
    done: u64,
}

impl<'a, W: Write> Lines<'a, W> {
    /// No lines yet.
    pub fn new(alloc: Global, writer: &'a mut W) -> Lines<'a, W> {
        Lines {
            text: String::new(alloc),
            writer,
            done: 0,
        }
    }

    /// Writes the lines that are kept, if they are many.
    pub fn pass(&mut self) -> Result<(), ViewFault> {
        if self.text.len() < PIECE_BYTES {
            return Ok(());
        }
        self.write()
    }

    /// Writes the lines that are kept.
    pub fn write(&mut self) -> Result<(), ViewFault> {
        let bytes = self.text.as_bytes();
        if let Err(count) = write_out(self.writer, bytes) {
            return Err(ViewFault::WriteFault(self.done.saturating_add(count)));
        }
        self.done = self.done.saturating_add(bytes.len() as u64);
        self.text.clear();
        Ok(())
    }
}
