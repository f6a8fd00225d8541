//! A file on which no device could be made.

ghost use Rattle.std.specs.Prelude.{◌≡◌};
ghost use Rattle.file_devices.specs.Calls.{calls_of};

use crate::calls::Calls;
use std::error::Error;
use std::marker::Model;
use std::{fmt, io};

/// A file on which no device could be made, since a call of it failed. It was closed. Contracts see
/// the calls that were made of it.
#[derive(Drop)]
pub struct FailedFile {
    /// Why it failed, as the system tells it.
    pub error: io::Error,
    calls: Calls,
}

impl Model for FailedFile {
    ghost use Rattle.std.specs.Prelude.{List};
    ghost use Rattle.file_devices.specs.Calls.{calls_of};
    ghost use Rattle.file_devices.specs.declared.calls.FileCall.{FileCall};

    ghost Value = { List FileCall };

    ghost view = { λ it. calls_of it.calls };
}

impl FailedFile {
    pub(crate) fn new(error: io::Error, calls: Calls) -> FailedFile
        ensures { result ≡ calls_of calls }
    {
        FailedFile { error, calls }
    }
}

impl fmt::Debug for FailedFile {
    fn fmt<W: fmt::Write>(&self, f: &mut fmt::Formatter<W>) -> fmt::Result {
        fmt::Debug::fmt(&self.error, f)
    }
}

impl fmt::Display for FailedFile {
    fn fmt<W: fmt::Write>(&self, f: &mut fmt::Formatter<W>) -> fmt::Result {
        fmt::Display::fmt(&self.error, f)
    }
}

impl Error for FailedFile {}
