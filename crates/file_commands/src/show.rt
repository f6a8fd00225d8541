//! The command `show`.

ghost use Rattle.std.specs.Prelude.{◌≡◌, ◌⊎◌, IfErr, OnOk};
ghost use Rattle.std.specs.Process.{exit_status};

use file_inputs::{bytes_of, noted, patient, tell_unwritten, tell_view};
use file_view::{Form, ViewFault, Wanted, show_file};
use script_run::FAULT_STATUS;
use std::io;
use std::process::ExitCode;
use system_files::Notes;

/// Shows a file.
pub fn show_named(rt: &HostRuntime, name: &str, wanted: &Wanted, form: Form) -> ExitCode
    ensures { (exit_status result ≡ 0) ⊎ (exit_status result ≡ 2) }
{
    let (input, output) = (Notes::new(), Notes::new());
    let done = shown(rt, name, wanted, form, &input, &output);
    let status = status_of_view(rt, &done);
    match &done {
        Err(ViewFault::WriteFault(_)) => tell_unwritten(rt, &output),
        Err(fault) => tell_view(rt, name, fault, &input),
        Ok(()) => {}
    }
    status
}

fn shown(
    rt: &HostRuntime,
    name: &str,
    wanted: &Wanted,
    form: Form,
    input: &Notes,
    output: &Notes,
) -> Result<(), ViewFault> {
    let bytes = bytes_of(rt, name, input)?;
    show_file(
        rt.alloc(),
        &bytes,
        wanted,
        form,
        &mut noted(patient(rt, io::writer(rt)), output),
    )
}

/// Tells why a file is not shown to its end, and answers the program's status.
pub fn status_of_view(rt: &impl Eprint, done: &Result<(), ViewFault>) -> ExitCode
    ensures done { OnOk done.now (exit_status result ≡ 0) }
    ensures fault { IfErr done.now (λ _. exit_status result ≡ 2) }
{
    match done {
        Ok(()) => ExitCode::SUCCESS,
        Err(fault) => {
            let _ = rt.eprintln(fault);
            ExitCode::from(FAULT_STATUS)
        }
    }
}
