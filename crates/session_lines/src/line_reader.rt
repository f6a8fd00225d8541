//! Reads lines one at a time, as they come.

ghost use Rattle.std.specs.Prelude.{◌≡◌, ◌<◌, ◌≤◌, if◌then◌else◌, vec_len};

use crate::operator_command::is_quit;
use page_core::{Turn, read_more, zeros};
use std::alloc::{AllocError, Global};
use std::io::Read;

/// How many bytes a line has at most.
pub(crate) const MOST_LINE: usize = 1_024;

/// How many bytes a reader is asked for at once.
const PIECE_BYTES: usize = 4_096;

/// What comes next.
#[derive(Clone, Copy, Debug, PartialEq, Eq)]
pub enum NextLine {
    /// A line of so many bytes, which `LineReader::line` has.
    Line(usize),
    /// A line of more than 1,024 bytes. All of it was read.
    TooLong,
    /// So many bytes stand behind the last line feed. They are no line: who wrote them may have
    /// meant to write more.
    Unended(usize),
    End,
    /// The reader failed. What it gave of a line before is no line.
    Failed,
}

/// What the reader gives next.
enum NextByte {
    Byte(u8),
    End,
    Failed,
}

/// Reads lines. It asks for more bytes only where it has no whole line, so a line is there as soon
/// as it was written.
#[derive(Drop)]
pub struct LineReader<R> {
    reader: R,
    piece: Vec<u8>,
    next: usize,
    filled: usize,
    line: Vec<u8>,
    ghost has_room: { 0 < vec_len piece },
    ghost is_within: { filled ≤ vec_len piece },
    ghost has_line: { vec_len line ≡ 1024 },
}

impl<R: Read + Drop> LineReader<R> {
    ghost use Rattle.std.specs.Prelude.{ℕ, ◌++◌, ◌∷◌, [], Bool, IfOk, List, length, not, take};
    ghost use Rattle.std.specs.Prelude.{◌||◌};
    ghost use Rattle.session_lines.specs.Lines.{GivesByte, GivesLine, GivesUntilQuit, IsReadSoFar};
    ghost use Rattle.session_lines.specs.Lines.{bytes_left};

    /// Reads lines from a reader, from where it stands. An `Err` comes where memory for the piece
    /// is refused.
    pub fn new(alloc: Global, reader: R) -> Result<LineReader<R>, AllocError>
        ensures { IfOk result (λ lines. bytes_left R.remaining lines ≡ R.remaining reader) }
    {
        Ok(LineReader {
            reader,
            piece: zeros(alloc, PIECE_BYTES)?,
            next: 0,
            filled: 0,
            line: zeros(alloc, MOST_LINE)?,
        })
    }

    /// The first bytes of the line that was read last.
    pub fn line(&self, len: usize) -> &[u8]
        requires { len ≤ length self.now.line.items }
        ensures { result.now ≡ take len self.now.line.items }
    {
        &self.line[..len]
    }

    /// Reads the next line, to its line feed.
    pub fn next_line(&mut self) -> NextLine
        ensures { GivesLine (bytes_left R.remaining self.old) (bytes_left R.remaining self.new)
            self.new.line.items result }
    {
        let mut len = 0usize;
        let mut is_long = false;
        for _ in 0..u64::MAX {
            match self.next_byte() {
                NextByte::Byte(b'\n') => return line_of(len, is_long),
                NextByte::Byte(byte) => is_long = !self.put(&mut len, byte) || is_long,
                NextByte::End if len == 0 => return NextLine::End,
                NextByte::End if is_long => return NextLine::TooLong,
                NextByte::End => return NextLine::Unended(len),
                NextByte::Failed => return NextLine::Failed,
            }
        }
        NextLine::Failed
    }

    /// Reads the next line. One that says to quit is as the end of the input.
    pub fn next_until_quit(&mut self) -> NextLine
        ensures { GivesUntilQuit (bytes_left R.remaining self.old) (bytes_left R.remaining self.new)
            self.new.line.items result }
    {
        match self.next_line() {
            NextLine::Line(len) if is_quit(self.line(len)) => NextLine::End,
            next => next,
        }
    }

    /// Puts a byte behind the first ones of the line, if there is room.
    fn put(&mut self, len: &mut usize, byte: u8) -> bool
        ensures put { (is_long : Bool) (bytes : List ℕ)
            → IsReadSoFar self.old.line.items len.old is_long bytes
            → IsReadSoFar self.new.line.items len.new (not result || is_long)
            (bytes ++ (byte ∷ [])) }
        ensures left { bytes_left R.remaining self.new ≡ bytes_left R.remaining self.old }
    {
        match self.line.get_mut(*len) {
            Some(place) => {
                *place = byte;
                *len = len.saturating_add(1);
                true
            }
            None => false,
        }
    }

    fn next_byte(&mut self) -> NextByte
        ensures byte { GivesByte (bytes_left R.remaining self.old)
            (bytes_left R.remaining self.new) result }
        ensures line { self.new.line ≡ self.old.line }
    {
        for _ in 0..u64::MAX {
            if self.next < self.filled {
                let byte = self.piece[self.next];
                self.next += 1;
                return NextByte::Byte(byte);
            }
            match read_more(&mut self.reader, &mut self.piece, 0) {
                Turn::More(count) => {
                    self.next = 0;
                    self.filled = count;
                }
                Turn::End => return NextByte::End,
                Turn::Failed => return NextByte::Failed,
            }
        }
        NextByte::Failed
    }
}

fn line_of(len: usize, is_long: bool) -> NextLine
    ensures { result ≡ (if is_long then NextLine.TooLong else NextLine.Line len) }
{
    if is_long {
        NextLine::TooLong
    } else {
        NextLine::Line(len)
    }
}
