//! The command `redo`: the volume of the log that comes on standard input.

ghost use Rattle.std.specs.Prelude.{◌≡◌, ◌⊎◌};
ghost use Rattle.std.specs.Process.{exit_status};
ghost use Rattle.file_outputs.specs.declared.limits.Inputs.TheVariants.{Standard};
ghost use Rattle.file_commands.specs.Redone.{IsRedo, IsRedoUntil};

use crate::answers::{refused_terminal, told};
use file_inputs::{noted, patient, tell_input_until, tell_redo, tell_unread, tell_unwritten};
use file_outputs::{
    Inputs, Limits, OutputFolder, RedoneUntil, RedoneVolume, VolumeOutput, tell_output,
};
use media_restore::{UntilFault, redo_until};
use page_core::Lsn;
use page_redo::{StreamFault, redo_stream};
use saved_files::{PutFault, PutStoredFault, put_and_store};
use script_run::FAULT_STATUS;
use std::io;
use std::io::{Read, Write};
use std::process::ExitCode;
use system_files::Notes;

/// Rebuilds the volume of the log on standard input, up to the record at an LSN, if one is told.
/// With force it replaces a file that is kept else.
pub fn redo_log(
    rt: &HostRuntime,
    output: VolumeOutput<'_>,
    force: bool,
    until: Option<Lsn>,
) -> ExitCode
    ensures { (exit_status result ≡ 0) ⊎ (exit_status result ≡ 2) }
{
    match (output, until) {
        (VolumeOutput::File(path), None) => redo_into(rt, path, force),
        (VolumeOutput::File(path), Some(until)) => redo_until_into(rt, path, force, until),
        _ if output.is_barred(rt) => refused_terminal(rt),
        (_, until) => redo_out(rt, until),
    }
}

/// Rebuilds it to standard output.
fn redo_out(rt: &HostRuntime, until: Option<Lsn>) -> ExitCode
    ensures { (exit_status result ≡ 0) ⊎ (exit_status result ≡ 2) }
{
    let (input, output) = (Notes::new(), Notes::new());
    let mut log = noted(patient(rt, rt.stdin()), &input);
    let mut volume = noted(patient(rt, io::writer(rt)), &output);
    match until {
        None => redo_through(rt, &mut log, &mut volume, (&input, &output)),
        Some(until) => redo_through_until(rt, &mut log, until, &mut volume, (&input, &output)),
    }
}

/// Writes the volume of all of the log that a reader gives.
fn redo_through<R: Read, W: Write>(
    rt: &HostRuntime,
    log: &mut R,
    volume: &mut W,
    notes: (&Notes, &Notes),
) -> ExitCode
    ensures { IsRedo (R.remaining log.old) (W.contents volume.old) (W.contents volume.new)
        (exit_status result) }
{
    match redo_stream(rt.alloc(), log, volume) {
        Ok(()) => ExitCode::SUCCESS,
        Err(fault) => {
            let status = told(rt, &fault);
            match &fault {
                StreamFault::WriteFault(_) => tell_unwritten(rt, notes.1),
                fault => tell_read(rt, fault, notes.0),
            }
            status
        }
    }
}

/// Writes the volume of the log that a reader gives, up to the record at an LSN.
fn redo_through_until<R: Read, W: Write>(
    rt: &HostRuntime,
    log: &mut R,
    until: Lsn,
    volume: &mut W,
    notes: (&Notes, &Notes),
) -> ExitCode
    ensures { IsRedoUntil (R.remaining log.old) until (W.contents volume.old)
        (W.contents volume.new) (exit_status result) }
{
    match redo_until(rt.alloc(), log, until, volume) {
        Ok(()) => ExitCode::SUCCESS,
        Err(fault) => {
            let status = told(rt, &fault);
            match &fault {
                UntilFault::WriteFault(_) => tell_unwritten(rt, notes.1),
                fault => tell_input_until(rt, fault, notes.0),
            }
            status
        }
    }
}

/// Rebuilds the volume of all of the log on standard input, into a file.
fn redo_into(rt: &HostRuntime, path: &str, force: bool) -> ExitCode
    ensures { (exit_status result ≡ 0) ⊎ (exit_status result ≡ 2) }
{
    let (input, written) = (Notes::new(), Notes::new());
    let Some(mut folder) = OutputFolder::of(rt, path, limits_of(force), &written) else {
        return ExitCode::from(FAULT_STATUS);
    };
    let mut volume = RedoneVolume {
        log: noted(patient(rt, rt.stdin()), &input),
    };
    let name = folder.name();
    match put_and_store(&mut folder, rt.alloc(), name, &mut volume) {
        Ok(()) => ExitCode::SUCCESS,
        Err(PutStoredFault::Unput(PutFault::Unwritten(fault))) => {
            let status = told(rt, &fault);
            match &fault {
                StreamFault::WriteFault(_) => tell_output(rt, path, &written),
                fault => tell_read(rt, fault, &input),
            }
            status
        }
        Err(fault) => {
            folder.tell_unput(&fault);
            ExitCode::from(FAULT_STATUS)
        }
    }
}

/// Rebuilds the volume of the log on standard input up to the record at an LSN, into a file.
fn redo_until_into(rt: &HostRuntime, path: &str, force: bool, until: Lsn) -> ExitCode
    ensures { (exit_status result ≡ 0) ⊎ (exit_status result ≡ 2) }
{
    let (input, written) = (Notes::new(), Notes::new());
    let Some(mut folder) = OutputFolder::of(rt, path, limits_of(force), &written) else {
        return ExitCode::from(FAULT_STATUS);
    };
    let mut volume = RedoneUntil {
        log: noted(patient(rt, rt.stdin()), &input),
        until,
    };
    let name = folder.name();
    match put_and_store(&mut folder, rt.alloc(), name, &mut volume) {
        Ok(()) => ExitCode::SUCCESS,
        Err(PutStoredFault::Unput(PutFault::Unwritten(fault))) => {
            let status = told(rt, &fault);
            match &fault {
                UntilFault::WriteFault(_) => tell_output(rt, path, &written),
                fault => tell_input_until(rt, fault, &input),
            }
            status
        }
        Err(fault) => {
            folder.tell_unput(&fault);
            ExitCode::from(FAULT_STATUS)
        }
    }
}

/// What a redo may not replace: the file on standard input, and what is kept.
fn limits_of(force: bool) -> Limits<'static>
    ensures { result ≡ record { inputs = Standard; force = force } }
{
    Limits {
        inputs: Inputs::Standard,
        force,
    }
}

/// Tells what is wrong with the log on standard input, or why the system failed to read it.
fn tell_read(rt: &HostRuntime, fault: &StreamFault, input: &Notes) {
    match fault {
        StreamFault::ReadFault => tell_unread(rt, input),
        fault => tell_redo(rt, fault),
    }
}
