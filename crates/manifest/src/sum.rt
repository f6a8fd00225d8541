//! Sums of bytes, and the names of databases.

use std::fmt;

/// The SHA-256 of some bytes. Its text is its 64 digits.
#[derive(Clone, Copy, Debug, PartialEq, Eq)]
pub struct Sum(pub [u8; 32]);

/// The name of a database. Its text is its 32 digits.
#[derive(Clone, Copy, Debug, PartialEq, Eq)]
pub struct DatabaseName(pub [u8; 16]);

impl fmt::Display for Sum {
    ghost use Rattle.std.specs.Prelude.{Some};
    ghost use Rattle.hex.specs.Hex.{encode_lower};

    ghost output = { λ it. Some (encode_lower it.0) };

    fn fmt<W: fmt::Write>(&self, f: &mut fmt::Formatter<W>) -> fmt::Result {
        let mut digits = [0; 64];
        if hex::encode_to_slice(&self.0[..], &mut digits).is_err() {
            return Err(fmt::Error);
        }
        let Ok(text) = str::from_utf8(&digits) else {
            return Err(fmt::Error);
        };
        f.write_str(text)
    }
}

impl fmt::Display for DatabaseName {
    ghost use Rattle.std.specs.Prelude.{Some};
    ghost use Rattle.hex.specs.Hex.{encode_lower};

    ghost output = { λ it. Some (encode_lower it.0) };

    fn fmt<W: fmt::Write>(&self, f: &mut fmt::Formatter<W>) -> fmt::Result {
        let mut digits = [0; 32];
        if hex::encode_to_slice(&self.0[..], &mut digits).is_err() {
            return Err(fmt::Error);
        }
        let Ok(text) = str::from_utf8(&digits) else {
            return Err(fmt::Error);
        };
        f.write_str(text)
    }
}
