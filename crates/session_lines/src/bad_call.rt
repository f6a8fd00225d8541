//! Lines that are no calls.

use crate::line_reader::MOST_LINE;
use event_script::{BadLine, LineFault};
use std::fmt;

/// Why a line is no call.
#[derive(Clone, Copy, Debug, PartialEq, Eq)]
pub enum LineTrouble {
    Bad(LineFault),
    NoText,
    TooLong,
    /// The input ended before its line feed: who wrote it may have meant to write more.
    Unended,
    /// It is a `restore`, which ends a script, and an open database has none.
    Restore,
    /// It begins with a command that takes no argument, and has one.
    NotAlone,
    /// It begins as the command `copy`, and is neither of its two forms.
    NoCopyCommand,
}

/// A line that is no call, and why. Its text says what is wrong, in the line's words.
#[derive(Clone, Copy)]
pub struct BadCall<'a> {
    pub line: &'a [u8],
    pub why: LineTrouble,
}

impl fmt::Display for BadCall<'_> {
    ghost use Rattle.session_lines.specs.Orders.{words_for};

    ghost output = { λ bad. words_for bad.why };

    fn fmt<W: fmt::Write>(&self, f: &mut fmt::Formatter<W>) -> fmt::Result {
        match self.why {
            LineTrouble::Bad(why) => {
                let why = BadLine::of(why, self.line, 1);
                write!(f, "{why}")
            }
            LineTrouble::NoText => f.write_str("not UTF-8"),
            LineTrouble::TooLong => write!(f, "over {MOST_LINE} bytes"),
            LineTrouble::Unended => f.write_str("it has no line feed, and was not made"),
            LineTrouble::Restore => f.write_str("an open database has no `restore`"),
            LineTrouble::NotAlone => f.write_str("this word stands alone"),
            LineTrouble::NoCopyCommand => f.write_str(
                "this word is `copy` or `copy on N`, of a copy N",
            ),
        }
    }
}
