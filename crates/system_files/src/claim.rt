//! Why a folder was not claimed.

use std::error::Error;
use std::{fmt, io};

/// Why a folder was not claimed. Its text follows the folder's name.
#[derive(Drop, Debug)]
pub enum ClaimFault {
    /// Another one has claimed it, and did not give it back in time.
    Busy,
    /// It cannot be opened.
    Unopened(io::Error),
    /// It cannot be locked: so some file systems are.
    Unlocked(io::Error),
}

impl fmt::Display for ClaimFault {
    fn fmt<W: fmt::Write>(&self, f: &mut fmt::Formatter<W>) -> fmt::Result {
        match self {
            ClaimFault::Busy => f.write_str("another one has this folder open"),
            ClaimFault::Unopened(error) => error.fmt(f),
            ClaimFault::Unlocked(error) => write!(f, "this folder cannot be locked: {error}"),
        }
    }
}

impl Error for ClaimFault {}
