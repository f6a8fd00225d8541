//! The words of the command line, as the system passes them.

use page_core::FaultName;
use std::alloc::AllocError;
use std::env::{self, FillError};
use std::io::ErrorKind;
use std::rt::Env;
use std::str;
use thiserror::Error;

/// Why the words of the command line are not read. Its `Display` is the whole text for the user,
/// with its last line break.
#[derive(Debug, Drop, Error)]
pub enum WordsFault {
    /// The argument at this place, counted from 1, is not UTF-8; its text is as near as can be.
    #[error("error: argument {place} is not UTF-8: '{text}'\n")]
    NotUtf8 { place: usize, text: String },
    #[error("error: the words of the command line cannot be read\n")]
    Unreadable,
    #[error("{name}\n", name = FaultName::OutOfMemory)]
    OutOfMemory,
}

impl From<AllocError> for WordsFault {
    fn from(_error: AllocError) -> Self {
        WordsFault::OutOfMemory
    }
}

/// The words of the command line after the program's name.
pub fn words_of(rt: &(impl Env + AllocGlobal)) -> Result<Vec<String>, WordsFault> {
    match env::args(rt) {
        Ok(words) => Ok(words.skip(1).collect(rt.alloc())?),
        Err(error) => match error.kind() {
            ErrorKind::OutOfMemory => Err(WordsFault::OutOfMemory),
            _ => Err(first_unreadable(rt)?),
        },
    }
}

/// Finds the first argument that is not UTF-8, among those of at most 4,096 bytes.
fn first_unreadable(rt: &(impl Env + AllocGlobal)) -> Result<WordsFault, AllocError> {
    let mut buffer = [0u8; 4096];
    for place in 1..usize::MAX {
        match rt.arg(place, &mut buffer) {
            Ok(length) => {
                let bytes = &buffer[..length];
                if str::from_utf8(bytes).is_err() {
                    let text = String::from_utf8_lossy(rt.alloc(), bytes)?;
                    return Ok(WordsFault::NotUtf8 { place, text });
                }
            }
            Err(FillError::TooLong) => {}
            Err(FillError::NotPresent) => break,
        }
    }
    Ok(WordsFault::Unreadable)
}
