//! A file of the system, of which contracts know what it was asked to do.

ghost use Rattle.std.specs.Prelude.{◌≡◌, [], ◌∷◌, ◌++◌, is_ok};
ghost use Rattle.file_devices.specs.Calls.{call, calls_of};
ghost use Rattle.file_devices.specs.declared.calls.Request.TheVariants.{Read, SetLen, Sync, Write};

use crate::calls::{Calls, Request, SliceSnapshot};
use std::fs::File;
use std::io;
use std::marker::Model;
use std::os::unix::fs::FileExt;

/// A file, and what it was asked to do since it was given. No clause can say what a file does, so
/// each method has one call of it, and the note of that call.
#[derive(Drop)]
pub(crate) struct TrackedFile {
    file: File,
    calls: Calls,
    /// The number that the system has for why the last call failed, if it did.
    error: Option<i32>,
}

impl Model for TrackedFile {
    ghost use Rattle.std.specs.Prelude.{List};
    ghost use Rattle.file_devices.specs.declared.calls.FileCall.{FileCall};
    ghost use Rattle.file_devices.specs.Calls.{calls_of};

    ghost Value = { List FileCall };

    ghost view = { λ it. calls_of it.calls };
}

impl TrackedFile {
    /// A file of which nothing was asked yet.
    pub fn new(file: File) -> TrackedFile
        ensures { result ≡ [] }
    {
        TrackedFile {
            file,
            calls: Calls::None,
            error: None,
        }
    }

    /// What it was asked to do. The file is closed.
    pub fn into_calls(self) -> Calls
        ensures { calls_of result ≡ self }
    {
        let TrackedFile { calls, .. } = self;
        calls
    }

    /// Why the last call failed, if it did and the system told why.
    pub fn error(&self) -> Option<io::Error> {
        Some(io::Error::from_raw_os_error(self.error?))
    }

    /// Notes why a call failed, if it did.
    fn note_error(&mut self, answer: &io::Result<()>)
        ensures { self.new ≡ self.old }
    {
        self.error = match answer {
            Ok(()) => None,
            Err(error) => error.raw_os_error(),
        };
    }

    /// Cuts the file, or fills it up with zero bytes, so that it has so many bytes.
    pub fn set_len(&mut self, len: u64) -> io::Result<()>
        ensures { self.new ≡ self.old ++ call (SetLen len) (is_ok result) ∷ [] }
    {
        let answer = self.file.set_len(len);
        self.note_error(&answer);
        self.calls.note(Request::SetLen(len), answer.is_ok());
        answer
    }

    /// Writes bytes over those of the file from an offset on.
    pub fn write_at(&mut self, at: u64, bytes: &[u8]) -> io::Result<()>
        ensures { self.new ≡ self.old ++ call (Write at bytes.now) (is_ok result) ∷ [] }
    {
        let answer = self.file.write_all_at(bytes, at);
        self.note_error(&answer);
        let bytes = SliceSnapshot::of(bytes);
        self.calls
            .note(Request::Write { at, bytes }, answer.is_ok());
        answer
    }

    /// Fills the buffer with the bytes of the file from an offset on.
    pub fn read_at(&mut self, at: u64, buffer: &mut [u8]) -> io::Result<()>
        ensures { self.new ≡ self.old ++ call (Read at buffer.new) (is_ok result) ∷ [] }
    {
        let answer = self.file.read_exact_at(buffer, at);
        self.note_error(&answer);
        let bytes = SliceSnapshot::of(buffer);
        self.calls.note(Request::Read { at, bytes }, answer.is_ok());
        answer
    }

    /// Waits until all that was written to the file lasts.
    pub fn sync(&mut self) -> io::Result<()>
        ensures { self.new ≡ self.old ++ call Sync (is_ok result) ∷ [] }
    {
        let answer = self.file.sync_data();
        self.note_error(&answer);
        self.calls.note(Request::Sync, answer.is_ok());
        answer
    }
}
