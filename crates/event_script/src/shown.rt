//! Text of an input as it is shown to a person: no character of it can steer a terminal.

use std::fmt;

/// How many characters of a word of a script are shown at most.
const MOST_OF_WORD: usize = 40;

/// A text from outside, with an escape in place of each character that does not print.
#[derive(Clone, Copy)]
pub struct Shown<'a> {
    text: &'a str,
    /// How many characters are shown at most.
    most: usize,
}

impl<'a> Shown<'a> {
    /// A name, which is shown whole.
    pub fn whole(text: &'a str) -> Shown<'a> {
        Shown {
            text,
            most: usize::MAX,
        }
    }

    /// A word of a script. Where it is long, three dots stand for its end.
    pub fn word(text: &'a str) -> Shown<'a> {
        Shown {
            text,
            most: MOST_OF_WORD,
        }
    }
}

impl fmt::Display for Shown<'_> {
    fn fmt<W: fmt::Write>(&self, f: &mut fmt::Formatter<W>) -> fmt::Result {
        for (place, character) in self.text.chars().enumerate() {
            if place == self.most {
                return f.write_str("...");
            }
            match character {
                '\'' | '"' => f.write_char(character)?,
                _ => character.escape_debug().fmt(f)?,
            }
        }
        Ok(())
    }
}
