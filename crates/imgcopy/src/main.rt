//! The program: its words, its input and output, and its status.
#![tactic(auto)]

ghost use Rattle.std.specs.Prelude.{ℕ, ◌≡◌, ◌≢◌, ◌≤◌, IfErr, IfOk, IfSome, List, None, OnOk, Option};
ghost use Rattle.std.specs.Prelude.{if◌then◌else◌};
ghost use Rattle.std.specs.Process.{exit_status};
ghost use Rattle.buffer_pool.specs.Pool.{IsFrameCount};
ghost use Rattle.log_records.specs.Log.{IsPageCount};
ghost use Rattle.open_database.specs.WholeLives.{LivedByAllLines};
ghost use Rattle.file_view.specs.declared.lines.Form.TheVariants.{Json, Words};
ghost use Rattle.script_run.specs.Run.{RunLeaves};
ghost use Rattle.script_run.specs.Status.{status_of_finish};
ghost use Rattle.imgcopy.specs.Ends.{IsPlayed, status_of_opened};

mod folder_commands;
mod program_fault;
mod script_lines;
mod strict;

use aries_core::Setup;
use checked_files::ManifestUse;
use command_words::{Command, command_of, words_of};
use database_backup::BackupCall;
use event_script::MAX_SCRIPT_BYTES;
use file_commands::{
    FolderRestore, Outputs, answered, audit_named, list_named, redo_log, restore_folder,
    restore_named, show_named, told, verify_named,
};
use file_inputs::{InputNames, noted, patient, tell_unwritten};
use file_outputs::{Saving, VolumeOutput};
use file_view::{Form, Wanted};
use folder_commands::{backup, renew};
use open_database::{OpenCall, OpenEnd, open_folder};
use page_core::{Lsn, PageNo, TxnNo};
use program_fault::ProgramFault;
use script_lines::tell_script;
use script_run::{
    FAULT_STATUS, FinishFault, REFUSED_STATUS, Ran, ScriptRunFault, finish_script, refused_status,
    run_script,
};
use sqlite_disk::{Start, Wary};
use std::fmt::Display;
use std::io::{Read, Write};
use std::process::ExitCode;
use std::thread::Threads;
use std::{fmt, io};
use strict::{Kept, Refusals, Tallied, line_of_call};
use system_files::{EscapedText, Notes};

/// How many bytes of a script are kept at most, to show a bad line.
const MOST_KEPT: usize = 65_536;

fn main(rt: HostRuntime) -> ExitCode {
    let words = match words_of(&rt) {
        Ok(words) => words,
        Err(fault) => return told_whole(&rt, &EscapedText(&fault)),
    };
    match command_of(rt.alloc(), words.as_slice()) {
        Ok(Command::Redo) => redo_log(&rt, VolumeOutput::Piped, false, None),
        Ok(
            Command::RedoInto {
                output,
                force,
                until,
            },
        ) => match VolumeOutput::of(output) {
            VolumeOutput::Piped if force => told(&rt, &ProgramFault::NoOutput),
            output => redo_log(&rt, output, force, lsn_of(until)),
        },
        Ok(
            Command::Run {
                pages,
                frames,
                save,
                manifest,
                strict,
                force,
            },
        ) => {
            if manifest && save.is_none() {
                return told(&rt, &ProgramFault::NoFolder);
            }
            let save = save.map(|folder| Saving {
                folder,
                manifest,
                force,
            });
            run(&rt, &rt, Setup { pages, frames }, save, strict)
        }
        Ok(
            Command::Open {
                folder,
                pages,
                frames,
                salvage,
                strict,
            },
        ) => {
            let call = OpenCall {
                folder,
                pages,
                frames,
                salvage,
                strict,
            };
            open(&rt, &call, Wary)
        }
        Ok(
            Command::Restore {
                log,
                master,
                archives,
                output,
                log_output,
                force,
                until,
                manifest,
                no_manifest,
            },
        ) => {
            let Some(manifest) = ManifestUse::of(manifest, no_manifest) else {
                return told(&rt, &ProgramFault::TwoManifests);
            };
            let names = InputNames {
                log,
                master: Some(master),
                archives: &archives,
                until: lsn_of(until),
                manifest,
            };
            let outputs = Outputs {
                volume: VolumeOutput::of(output),
                log: log_output,
                force,
            };
            restore_named(&rt, &rt, &names, master, outputs).status()
        }
        Ok(
            Command::RestoreFolder {
                folder,
                copy,
                output,
                log_output,
                force,
                until,
                manifest,
                no_manifest,
            },
        ) => {
            let Some(manifest) = ManifestUse::of(manifest, no_manifest) else {
                return told(&rt, &ProgramFault::TwoManifests);
            };
            let wanted = FolderRestore {
                folder,
                copy,
                until: lsn_of(until),
                manifest,
            };
            let outputs = Outputs {
                volume: VolumeOutput::of(output),
                log: log_output,
                force,
            };
            restore_folder(&rt, &rt, &wanted, outputs)
        }
        Ok(
            Command::Audit {
                log,
                archives,
                master,
                all,
                until,
                manifest,
                no_manifest,
            },
        ) => {
            let Some(manifest) = ManifestUse::of(manifest, no_manifest) else {
                return told(&rt, &ProgramFault::TwoManifests);
            };
            let names = InputNames {
                log,
                master,
                archives: &archives,
                until: lsn_of(until),
                manifest,
            };
            audit_named(&rt, &names, all)
        }
        Ok(
            Command::Show {
                file,
                from,
                to,
                txn,
                page,
                json,
                commits,
            },
        ) => {
            let wanted = Wanted {
                from: lsn_of(from),
                to: lsn_of(to),
                txn: txn.map(|number| TxnNo(number)),
                page: page.map(|number| PageNo(number)),
                commits,
            };
            show_named(&rt, file, &wanted, form_of(json))
        }
        Ok(
            Command::ListFolder {
                folder,
                json,
                manifest,
                no_manifest,
            },
        ) => match ManifestUse::of(manifest, no_manifest) {
            Some(manifest) => list_named(&rt, folder, form_of(json), manifest),
            None => told(&rt, &ProgramFault::TwoManifests),
        },
        Ok(
            Command::Backup {
                folder,
                on,
                full,
                into,
            },
        ) => {
            let call = BackupCall {
                folder,
                on,
                full,
                into,
            };
            backup(&rt, &call, Wary)
        }
        Ok(
            Command::Verify {
                folder,
                manifest,
                no_manifest,
            },
        ) => match ManifestUse::of(manifest, no_manifest) {
            Some(manifest) => verify_named(&rt, &rt, folder, manifest),
            None => told(&rt, &ProgramFault::TwoManifests),
        },
        Ok(Command::Renew { old, new }) => renew(&rt, old, new, Wary),
        Ok(Command::Version) => answered(&rt, &Version, 0),
        Err(fault) => told_whole(&rt, &EscapedText(&fault)),
    }
}

fn form_of(json: bool) -> Form
    ensures { result ≡ (if json then Json else Words) }
{
    if json { Form::Json } else { Form::Words }
}

fn lsn_of(number: Option<u32>) -> Option<Lsn>
    ensures { result ≡ number }
{
    Some(Lsn(number? as u64))
}

/// Plays the script on standard input, saves what it leaves, and does its last restore.
fn run(
    rt: &HostRuntime,
    threads: &(impl Threads + Sync),
    setup: Setup,
    save: Option<Saving<'_>>,
    strict: bool,
) -> ExitCode
    requires pages { IsPageCount setup.pages }
    requires frames { IsFrameCount setup.frames }
    ensures { exit_status result ≤ 2 }
{
    if save.is_some_and(|save| !save.may_begin(rt)) {
        return ExitCode::from(FAULT_STATUS);
    }
    let (input, output) = (Notes::new(), Notes::new());
    let most = if strict { MAX_SCRIPT_BYTES } else { MOST_KEPT };
    let mut reader = Kept::new(
        noted(patient(rt, rt.stdin()), &input),
        Vec::new(rt.alloc()),
        most,
    );
    let mut writer = Tallied::new(noted(patient(rt, io::writer(rt)), &output), strict);
    let status = match played(rt, threads, setup, save, &mut reader, &mut writer) {
        Ok(status) => status,
        Err(fault) => {
            let status = told(rt, &ProgramFault::from(fault));
            tell_script(rt, &fault, reader.given(), &input, &output);
            return status;
        }
    };
    match writer.tally().first_refused() {
        Some(place) => {
            let refusals = Refusals {
                tally: writer.tally(),
                line: line_of_call(reader.given(), place),
            };
            let _ = rt.eprintln(&refusals);
            ExitCode::from(strict_status(status))
        }
        None => ExitCode::from(status),
    }
}

/// The status of a strict run in which a call was refused, and which had this status else. That of
/// a fault stays.
fn strict_status(status: u8) -> u8
    ensures refused { status ≡ 0 → result ≡ 1 }
    ensures fault { status ≢ 0 → result ≡ status }
{
    if status == 0 { REFUSED_STATUS } else { status }
}

/// Plays a script, and answers the program's status.
fn played<R: Read, W: Write>(
    rt: &HostRuntime,
    threads: &(impl Threads + Sync),
    setup: Setup,
    save: Option<Saving<'_>>,
    reader: &mut R,
    writer: &mut W,
) -> Result<u8, ScriptRunFault>
    requires pages { IsPageCount setup.pages }
    requires frames { IsFrameCount setup.frames }
    ensures played { IfOk result (λ status. IsPlayed setup.pages setup.frames
        (R.remaining reader.old) (W.contents writer.old) (W.contents writer.new)) }
    ensures status { IfOk result (λ status. status ≤ 2) }
    ensures err { IfErr result (RunLeaves setup.pages setup.frames
        (R.remaining reader.old) (W.contents writer.old) (W.contents writer.new)) }
{
    let ran = run_script(rt.alloc(), setup, reader, writer)?;
    Ok(finish(rt, threads, ran, save))
}

/// Saves what a script left, and does its last restore.
fn finish(
    rt: &HostRuntime,
    threads: &(impl Threads + Sync),
    ran: Ran,
    save: Option<Saving<'_>>,
) -> u8
    ensures { result ≤ 2 }
{
    if let Some(save) = save {
        if !save.save(rt, &ran.retired) {
            return FAULT_STATUS;
        }
    }
    let output = Notes::new();
    let done = finish_script(
        threads,
        rt.alloc(),
        ran,
        &mut noted(patient(rt, io::writer(rt)), &output),
    );
    let status = status_of_finish(rt, &done);
    if let Err(FinishFault::WriteFault(_)) = done {
        tell_unwritten(rt, &output);
    }
    status
}

/// Opens a database, and answers the lines of standard input.
fn open<S: Start>(rt: &HostRuntime, call: &OpenCall<'_>, start: S) -> ExitCode
    requires pages { IfSome call.now.pages IsPageCount }
    requires frames { IsFrameCount call.now.frames }
    ensures { exit_status result ≢ 2 → (written : Option (List ℕ))
        × LivedByAllLines None None call.now.salvage call.now.pages call.now.frames None written }
{
    status_of_open(open_folder(rt, call, start))
}

fn status_of_open(end: OpenEnd) -> ExitCode
    ensures { exit_status result ≡ status_of_opened end }
{
    match end {
        OpenEnd::Well => ExitCode::SUCCESS,
        OpenEnd::Refused => ExitCode::from(REFUSED_STATUS),
        OpenEnd::Failed => ExitCode::from(FAULT_STATUS),
    }
}

/// Tells why a script's last restore came to no end, and answers the program's status.
fn status_of_finish(rt: &impl Eprint, done: &Result<(), FinishFault>) -> u8
    ensures done { OnOk done.now (result ≡ 0) }
    ensures fault { IfErr done.now (λ fault. result ≡ status_of_finish fault) }
{
    match done {
        Ok(()) => 0,
        // Its line is on standard output.
        Err(FinishFault::Refused(why)) => refused_status(why),
        Err(fault) => {
            let _ = rt.eprintln(&ProgramFault::from(*fault));
            FAULT_STATUS
        }
    }
}

/// The line that tells which version this is.
struct Version;

impl Display for Version {
    fn fmt<W: fmt::Write>(&self, f: &mut fmt::Formatter<W>) -> fmt::Result {
        f.write_str("imgcopy 0.2.0")
    }
}

/// Writes a text that ends with its own line break to standard error, and answers the status of a
/// fault.
pub(crate) fn told_whole(rt: &impl Eprint, text: &impl Display) -> ExitCode
    ensures { exit_status result ≡ 2 }
{
    // Where even this cannot be written, the status still tells.
    let _ = rt.eprint(text);
    ExitCode::from(FAULT_STATUS)
}
