//! How many lines were answered by a refusal, or were no calls.

use std::fmt;
use std::marker::Model;

/// How many lines were answered, and how many of them by a refusal, or since they were no calls.
/// Its text is a line for a person. Clauses see whether any line was refused.
#[derive(Debug, Drop)]
pub struct Tally {
    lines: u64,
    refused: u64,
    /// The number of the first line that was refused, or 0.
    first: u64,
}

impl Model for Tally {
    ghost use Rattle.std.specs.Prelude.{Bool, nat_lt};

    ghost Value = { Bool };

    ghost view = { λ it. nat_lt 0 it.refused };
}

impl Tally {
    ghost use Rattle.std.specs.Prelude.{◌≡◌, ◌||◌, false};

    /// No line was taken.
    pub fn new() -> Tally
        ensures { result ≡ false }
    {
        Tally {
            lines: 0,
            refused: 0,
            first: 0,
        }
    }

    /// Takes note of an answer to the line of this number.
    pub fn note(&mut self, number: u64, is_refused: bool)
        ensures { self.new ≡ (is_refused || self.old) }
    {
        self.lines = self.lines.saturating_add(1);
        if !is_refused {
            return;
        }
        if self.refused == 0 {
            self.first = number;
        }
        self.refused = self.refused.saturating_add(1);
    }

    /// Whether any line was refused.
    pub fn has_refused(&self) -> bool
        ensures { result ≡ self.now }
    {
        self.refused > 0
    }
}

impl fmt::Display for Tally {
    fn fmt<W: fmt::Write>(&self, f: &mut fmt::Formatter<W>) -> fmt::Result {
        let (refused, lines, first) = (self.refused, self.lines, self.first);
        let were = if refused == 1 { "was" } else { "were" };
        write!(
            f,
            "{refused} of {lines} calls {were} refused, the first at line {first}"
        )
    }
}
