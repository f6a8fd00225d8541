//! Standard streams: which calls are waited for, and why one failed.

ghost use Rattle.std.specs.Prelude.{◌≡◌};

use system_files::{Noted, Notes, RetryWouldBlock};

/// A standard stream of which it is noted why a call failed.
pub fn noted<'a, F>(stream: F, notes: &'a Notes) -> Noted<'a, F>
    ensures { result.file ≡ stream }
{
    Noted {
        file: stream,
        notes,
    }
}

/// A standard stream that is waited for where another one made its calls such that they do not.
pub fn patient<'a, F>(rt: &'a HostRuntime, stream: F) -> RetryWouldBlock<'a, F>
    ensures { result.stream ≡ stream }
{
    RetryWouldBlock { stream, rt }
}

/// Tells why the system failed to read standard input.
pub fn tell_unread(rt: &impl Eprint, notes: &Notes) {
    if let Some(error) = notes.error() {
        let _ = eprintln!(rt; "imgcopy: standard input: {error}");
    }
}

/// Tells why the system failed to write standard output.
pub fn tell_unwritten(rt: &impl Eprint, notes: &Notes) {
    if let Some(error) = notes.error() {
        let _ = eprintln!(rt; "imgcopy: standard output: {error}");
    }
}
