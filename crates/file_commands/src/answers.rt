//! What a command answers on standard output and standard error, and its status.

ghost use Rattle.std.specs.Prelude.{◌≡◌, ◌≤◌, ◌⊎◌};
ghost use Rattle.std.specs.Process.{exit_status};

use page_core::FaultName;
use script_run::FAULT_STATUS;
use std::fmt::Display;
use std::io;
use std::process::ExitCode;

/// Tells a fault on standard error, and answers its status.
pub fn told(rt: &impl Eprint, fault: &impl Display) -> ExitCode
    ensures { exit_status result ≡ 2 }
{
    // Where even this cannot be written, the status still tells.
    let _ = rt.eprintln(fault);
    ExitCode::from(FAULT_STATUS)
}

/// Tells that an answer could not be written to standard output.
pub(crate) fn told_unprinted(rt: &impl Eprint, error: &io::Error) -> ExitCode
    ensures { exit_status result ≡ 2 }
{
    let _ = eprintln!(rt; "{} 0", FaultName::WriteFault);
    let _ = eprintln!(rt; "imgcopy: standard output: {error}");
    ExitCode::from(FAULT_STATUS)
}

/// Tells an answer on standard output, and answers this status, or that of a fault where the answer
/// cannot be written.
pub fn answered(rt: &(impl Print + Eprint), answer: &impl Display, status: u8) -> ExitCode
    ensures status { (exit_status result ≡ status) ⊎ (exit_status result ≡ 2) }
    ensures most { status ≤ 2 → exit_status result ≤ 2 }
{
    match rt.println(answer) {
        Ok(()) => ExitCode::from(status),
        Err(error) => told_unprinted(rt, &error),
    }
}

/// No volume is written to a terminal that is not asked for.
pub(crate) fn refused_terminal(rt: &impl Eprint) -> ExitCode
    ensures { exit_status result ≡ 2 }
{
    let _ = eprintln!(rt; "{} 0", FaultName::WriteFault);
    let _ = eprintln!(rt;
        "imgcopy: standard output is a terminal: name a file by -o, redirect it, or add -o -"
    );
    ExitCode::from(FAULT_STATUS)
}
