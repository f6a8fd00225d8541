//! Names from outside, as they are shown to a person: no character of them can steer a terminal.

use std::fmt;
use std::fmt::{Display, Write};

/// A name from the command line or of a folder, with an escape in place of each character that does
/// not print. What prints stands as it is.
#[derive(Clone, Copy)]
pub struct Escaped<'a>(pub &'a str);

impl Display for Escaped<'_> {
    fn fmt<W: fmt::Write>(&self, f: &mut fmt::Formatter<W>) -> fmt::Result {
        for character in self.0.chars() {
            match character {
                '\'' | '"' | '\\' => f.write_char(character)?,
                _ => character.escape_debug().fmt(f)?,
            }
        }
        Ok(())
    }
}

/// A text of several lines that has words from outside, with an escape in place of each character
/// that does not print. Its line breaks stand as they are.
#[derive(Clone, Copy)]
pub struct EscapedText<'a, D>(pub &'a D);

impl<D: Display> Display for EscapedText<'_, D> {
    fn fmt<W: fmt::Write>(&self, f: &mut fmt::Formatter<W>) -> fmt::Result {
        write!(Screen { f }, "{}", self.0)
    }
}

/// Writes text on, line by line, escaped.
#[derive(Drop)]
struct Screen<'a, W: fmt::Write> {
    f: &'a mut fmt::Formatter<W>,
}

impl<W: fmt::Write> Write for Screen<'_, W> {
    fn write_str(&mut self, text: &str) -> fmt::Result {
        for (place, line) in text.split('\n').enumerate() {
            if place > 0 {
                self.f.write_char('\n')?;
            }
            Escaped(line).fmt(self.f)?;
        }
        Ok(())
    }
}
