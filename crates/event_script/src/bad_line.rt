//! What is wrong with a line of a script, in the words that stand there.

use crate::line_fault::LineFault;
use crate::shown::Shown;
use std::fmt;

/// What is wrong with a bad line, with the words of the line where they are known.
#[derive(Drop)]
pub struct BadLine<'a> {
    why: LineFault,
    name: Option<&'a str>,
    /// How many words follow the name.
    count: usize,
}

impl<'a> BadLine<'a> {
    /// That of the line of this number in what was kept of a script.
    pub fn of(why: LineFault, script: &'a [u8], number: u64) -> BadLine<'a> {
        let Some(line) = line_at(script, number) else {
            return BadLine {
                why,
                name: None,
                count: 0,
            };
        };
        let mut name = None;
        let mut count = 0usize;
        for word in line.split(' ') {
            if word.is_empty() {
                continue;
            }
            if name.is_none() {
                name = Some(word);
            } else {
                count = count.saturating_add(1);
            }
        }
        BadLine { why, name, count }
    }
}

impl fmt::Display for BadLine<'_> {
    fn fmt<W: fmt::Write>(&self, f: &mut fmt::Formatter<W>) -> fmt::Result {
        let Some(name) = self.name else {
            return self.why.fmt(f);
        };
        match self.why {
            LineFault::UnknownCall => write!(f, "unknown call `{word}`", word = Shown::word(name)),
            LineFault::WordCount(wanted) => {
                let words = match (name, wanted) {
                    ("restore", _) => "words",
                    (_, 1) => "number",
                    _ => "numbers",
                };
                let stand = if self.count == 1 { "stands" } else { "stand" };
                let count = self.count;
                write!(
                    f,
                    "`{name}` takes {wanted} {words}, and {count} {stand} here"
                )
            }
            why => why.fmt(f),
        }
    }
}

/// The line of this number, counted from 1, where all of it was kept.
fn line_at(script: &[u8], number: u64) -> Option<&str> {
    let mut text = str::from_utf8(script).ok()?;
    for _ in 1..number {
        text = text.split_once('\n')?.1;
    }
    let line = match text.split_once('\n') {
        Some((line, _)) => line,
        None => text,
    };
    Some(line.strip_suffix('\r').unwrap_or(line))
}
