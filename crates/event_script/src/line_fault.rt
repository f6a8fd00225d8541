//! What is wrong with a bad line, for a person.

ghost use Rattle.std.specs.Prelude.{◌≡◌, length, nat_eq};
ghost use Rattle.event_script.specs.LineFault.{fault_in, why_bad, words_behind};
ghost use Rattle.event_script.specs.Words.{words_of};

use crate::call::{Args, call_of};
use crate::line::parsed_line;
use crate::words::{before_return, next_word};
use std::fmt;

/// What is wrong with a bad line. Its text is for a person.
#[derive(Clone, Copy, Debug, PartialEq, Eq)]
pub enum LineFault {
    /// It has spaces alone.
    NoCall,
    /// Its first word is the name of no call.
    UnknownCall,
    /// So many words follow the name of this call, and here there are more or fewer.
    WordCount(usize),
    /// A word is no number of 1 to 20 decimal digits, or the number is too large for its place.
    BadNumber,
    /// It follows a `restore`, which is the last line of a script.
    BehindRestore,
}

impl fmt::Display for LineFault {
    ghost use Rattle.std.specs.Prelude.{Some};
    ghost use Rattle.event_script.specs.LineFault.{text_of_fault};

    ghost output = { λ fault. Some (text_of_fault fault) };

    fn fmt<W: fmt::Write>(&self, f: &mut fmt::Formatter<W>) -> fmt::Result {
        match self {
            LineFault::NoCall => f.write_str("it has spaces alone"),
            LineFault::UnknownCall => f.write_str("unknown call"),
            LineFault::WordCount(count) => write!(f, "after this call's name stand {count} words"),
            LineFault::BadNumber => f.write_str("a number is misspelled or too large"),
            LineFault::BehindRestore => f.write_str("nothing may follow a restore"),
        }
    }
}

/// How many words follow this name of a call.
fn words_behind(name: &[u8]) -> Option<usize>
    ensures { result ≡ words_behind name.now }
{
    if call_of(name, Args::Nothing).is_some() {
        Some(0)
    } else if call_of(name, Args::One(0)).is_some() {
        Some(1)
    } else if call_of(name, Args::Two(0, 0)).is_some() || name == b"restore".as_slice() {
        Some(2)
    } else if call_of(name, Args::Four(0, 0, 0, 0)).is_some() {
        Some(4)
    } else {
        None
    }
}

/// Whether there are just so many words.
fn has_words(bytes: &[u8], count: usize) -> bool
    ensures { result ≡ nat_eq (length (words_of bytes.now)) count }
{
    let mut left = bytes;
    for _ in 0..count {
        let Some((_, rest)) = next_word(left) else {
            return false;
        };
        left = rest;
    }
    next_word(left).is_none()
}

/// What is wrong with the words of a line that says nothing.
fn fault_in(text: &[u8]) -> LineFault
    ensures { result ≡ fault_in (words_of text.now) }
{
    let Some((name, rest)) = next_word(text) else {
        return LineFault::NoCall;
    };
    let Some(count) = words_behind(name) else {
        return LineFault::UnknownCall;
    };
    if has_words(rest, count) {
        LineFault::BadNumber
    } else {
        LineFault::WordCount(count)
    }
}

/// Why a line may not stand where it stands: a line that says something follows a restore.
pub(crate) fn why_bad(line: &[u8]) -> LineFault
    ensures { result ≡ why_bad line.now }
{
    if parsed_line(line).is_some() {
        LineFault::BehindRestore
    } else {
        fault_in(before_return(line))
    }
}
