//! The streams of an open database: the lines that it is given, and its answers.

use database_files::Diagnostics;
use page_core::FaultName;
use session_lines::ServeFault;
use system_files::Notes;

/// Why calls of the input and of the output failed.
#[derive(Clone, Copy)]
pub struct StreamNotes<'a> {
    pub input: &'a Notes,
    pub output: &'a Notes,
}

/// An input and an output, and the notes of both.
#[derive(Drop)]
pub struct Streams<'a, R, W> {
    pub input: R,
    pub output: W,
    pub notes: StreamNotes<'a>,
}

/// Tells why the lines came to an end before the input did.
pub fn tell_ended(
    diagnostics: &Diagnostics<'_>,
    fault: &ServeFault,
    input: &Notes,
    output: &Notes,
) {
    let (stream, error) = match fault {
        ServeFault::OutOfMemory => {
            diagnostics.line(&FaultName::OutOfMemory);
            return;
        }
        ServeFault::ReadFault => {
            diagnostics.line(&"imgcopy: input");
            ("standard input", input.error())
        }
        ServeFault::WriteFault(done) => {
            diagnostics.line(&format_args!("{} {done}", FaultName::WriteFault));
            ("standard output", output.error())
        }
    };
    if let Some(error) = error {
        diagnostics.line(&format_args!("imgcopy: {stream}: {error}"));
    }
}
