//! Which calls of a run were refused, for `run --strict`.

ghost use Rattle.std.specs.Prelude.{◌≡◌, ◌≤◌, false, fold, length, take};
ghost use Rattle.std.specs.Bool.{OnFalse};
ghost use Rattle.imgcopy.specs.Strict.{IsFrontOf, IsNew, begun, counted, counts_of, first_of};

use std::io::{Read, Write};
use std::{fmt, io};

/// How many bytes of the first refusal's line are kept. The longest refusal has fewer.
const MOST_TEXT: usize = 64;

/// A reader that keeps what it gave, the first bytes of it. Where there is no memory for them, or
/// they are more than it may keep, it keeps no more.
#[derive(Drop)]
pub struct Kept<R> {
    reader: R,
    bytes: Vec<u8>,
    most: usize,
    is_cut: bool,
}

impl<R> Kept<R> {
    /// Reads on from a reader of which these bytes were read, and keeps at most so many.
    pub fn new(reader: R, bytes: Vec<u8>, most: usize) -> Kept<R>
        ensures { result ≡ record { reader = reader; bytes = bytes; most = most; is_cut = false } }
    {
        Kept {
            reader,
            bytes,
            most,
            is_cut: false,
        }
    }

    /// What was kept, without the line that is cut off.
    pub fn given(&self) -> &[u8]
        ensures front { IsFrontOf result.now self.now.bytes.items }
        ensures whole { OnFalse self.now.is_cut (result.now ≡ self.now.bytes.items) }
    {
        let bytes = self.bytes.as_slice();
        if !self.is_cut {
            return bytes;
        }
        match bytes.iter().rposition(|byte| *byte == b'\n') {
            Some(end) => &bytes[..end],
            None => &[],
        }
    }

    /// Keeps the first bytes of a buffer, so many.
    fn keep(&mut self, buf: &[u8], count: usize)
        ensures { self.new.reader ≡ self.old.reader }
    {
        let Some(given) = buf.get(..count) else {
            return;
        };
        if self.is_cut {
            return;
        }
        let room = self.most.saturating_sub(self.bytes.len());
        self.is_cut = given.len() > room || self.bytes.extend_from_slice(given).is_err();
    }
}

impl<R: Read> Read for Kept<R> {
    ghost remaining = { λ it. R.remaining it.reader };

    fn read(&mut self, buf: &mut [u8]) -> io::Result<usize> {
        let count = self.reader.read(buf)?;
        self.keep(buf, count);
        Ok(count)
    }
}

/// A writer of replies. Where it is asked to, it counts their lines, and those of refusals, which
/// begin with an E.
#[derive(Drop)]
pub struct Tallied<W> {
    writer: W,
    counts: bool,
    tally: Tally,
}

impl<W> Tallied<W> {
    /// A writer whose lines are counted, if they are to be.
    pub fn new(writer: W, counts: bool) -> Tallied<W>
        ensures writer { result.writer ≡ writer }
        ensures counts { result.counts ≡ counts }
        ensures new { IsNew result.tally }
    {
        Tallied {
            writer,
            counts,
            tally: Tally::new(),
        }
    }

    /// How many lines went through, and of which kind.
    pub fn tally(&self) -> &Tally
        ensures { result.now ≡ self.now.tally }
    {
        &self.tally
    }
}

impl<W: Write> Write for Tallied<W> {
    ghost contents = { λ it. W.contents it.writer };

    fn write(&mut self, buf: &[u8]) -> io::Result<usize> {
        let count = self.writer.write(buf)?;
        if !self.counts {
            return Ok(count);
        }
        self.tally.take_first(buf, count);
        Ok(count)
    }

    fn flush(&mut self) -> io::Result<()> {
        self.writer.flush()
    }
}

/// How many calls were answered and how many refused, and the first refusal.
#[derive(Drop)]
pub struct Tally {
    calls: u64,
    refused: u64,
    /// The place of the first refused call among all of them, counted from 0.
    first: u64,
    text: [u8; MOST_TEXT],
    length: usize,
    begins_line: bool,
    keeps_line: bool,
}

impl Tally {
    fn new() -> Tally
        ensures { IsNew result }
    {
        Tally {
            calls: 0,
            refused: 0,
            first: 0,
            text: [0; MOST_TEXT],
            length: 0,
            begins_line: true,
            keeps_line: false,
        }
    }

    /// The place of the first refused call, if there is one.
    pub fn first_refused(&self) -> Option<u64>
        ensures { result ≡ first_of self.now }
    {
        if self.refused == 0 {
            return None;
        }
        Some(self.first)
    }

    /// Takes the first bytes of a buffer, so many.
    fn take_first(&mut self, buf: &[u8], count: usize)
        ensures { count ≤ length buf.now
            → counts_of self.new ≡ fold counted (counts_of self.old) (take count buf.now) }
    {
        if let Some(taken) = buf.get(..count) {
            for byte in taken {
                self.take(*byte);
            }
        }
    }

    /// Takes one more byte of the replies' lines.
    fn take(&mut self, byte: u8)
        ensures { counts_of self.new ≡ counted (counts_of self.old) byte }
    {
        if self.begins_line {
            self.begin_line(byte);
        }
        self.begins_line = byte == b'\n';
        if self.begins_line {
            self.keeps_line = false;
            self.calls = self.calls.saturating_add(1);
        }
        if self.keeps_line && self.length < MOST_TEXT {
            self.text[self.length] = byte;
            self.length += 1;
        }
    }

    fn begin_line(&mut self, byte: u8)
        ensures { counts_of self.new ≡ begun (counts_of self.old) byte }
    {
        if byte != b'E' {
            return;
        }
        if self.refused == 0 {
            self.first = self.calls;
            self.keeps_line = true;
        }
        self.refused = self.refused.saturating_add(1);
    }

    /// The text of the first refusal.
    fn refusal(&self) -> &str {
        let kept = self.text.get(..self.length).unwrap_or(&[]);
        str::from_utf8(kept).unwrap_or("")
    }
}

/// What is told of a run in which a call was refused: the tally, and the line of the script that
/// has the first refused call, if it is known.
#[derive(Drop)]
pub struct Refusals<'a> {
    pub tally: &'a Tally,
    pub line: Option<u64>,
}

impl fmt::Display for Refusals<'_> {
    fn fmt<W: fmt::Write>(&self, f: &mut fmt::Formatter<W>) -> fmt::Result {
        let (refused, calls) = (self.tally.refused, self.tally.calls);
        let were = if refused == 1 { "was" } else { "were" };
        write!(
            f,
            "imgcopy: {refused} of {calls} calls {were} refused, the first"
        )?;
        if let Some(line) = self.line {
            write!(f, " at line {line}")?;
        }
        write!(f, ": {}", self.tally.refusal())
    }
}

/// The number of the line, counted from 1, that has the call at this place of a script. Lines that
/// are empty, and those that begin with a number sign, have none.
pub fn line_of_call(script: &[u8], place: u64) -> Option<u64> {
    let mut number = 0u64;
    let mut calls = 0u64;
    let mut begins_line = true;
    for byte in script {
        if begins_line {
            number = number.saturating_add(1);
            if !matches!(*byte, b'\n' | b'\r' | b'#') {
                if calls == place {
                    return Some(number);
                }
                calls = calls.saturating_add(1);
            }
        }
        begins_line = *byte == b'\n';
    }
    None
}
