//! The commands `restore` and `audit` of a log up to one of its records.

ghost use Rattle.std.specs.Prelude.{◌≡◌, ◌≤◌};
ghost use Rattle.std.specs.Process.{exit_status};
ghost use Rattle.file_commands.specs.Statuses.{IsEnd};

use crate::answers::{answered, told};
use crate::audit::{audit_checked, told_unkept};
use crate::restore::{Ended, Outputs, restore_from};
use file_inputs::{Checks, InputNames, ReadOnce, tell_input, tell_until};
use file_view::ViewFault;
use media_restore::RestoreFault;
use page_core::Lsn;
use saved_files::UntilFiles;
use script_run::FAULT_STATUS;
use std::process::ExitCode;
use std::thread::Threads;
use system_files::Notes;

/// Restores a volume from files, of whose log the records count up to that at an LSN. The log is
/// read twice, and no master record.
pub fn restore_until(
    rt: &HostRuntime,
    threads: &(impl Threads + Sync),
    read: (&InputNames<'_>, &Notes, &Checks<'_>),
    master: &str,
    outputs: Outputs<'_>,
    until: Lsn,
) -> Ended
    ensures { IsEnd result }
{
    let (names, notes, _) = read;
    let log = InputNames {
        log: names.log,
        master: None,
        archives: &[],
        until: names.until,
        manifest: names.manifest,
    };
    let once = match ReadOnce::of(rt, &log, notes) {
        Ok(once) => once,
        Err(fault) => return Ended::refused(told_unread(rt, &log, &fault, notes)),
    };
    let files = &once;
    match UntilFiles::new(&files, rt.alloc(), names.log, Some(master), until) {
        Ok(files) => restore_from(rt, threads, &files, read, master, outputs),
        Err(fault) => {
            let status = told(rt, &fault);
            tell_until(rt, names, &fault, notes);
            Ended::refused(status)
        }
    }
}

/// Tells that a log that can be read but once was not read whole.
fn told_unread(rt: &HostRuntime, log: &InputNames<'_>, fault: &ViewFault, notes: &Notes) -> ExitCode
    ensures { exit_status result ≡ 2 }
{
    let fault = match fault {
        ViewFault::OutOfMemory => RestoreFault::OutOfMemory,
        _ => RestoreFault::ReadFault,
    };
    let status = told(rt, &fault);
    tell_input(rt, log, &fault, notes);
    status
}

/// Audits a chain of copies against a log of which the records count up to that at an LSN. The log
/// is read twice, and no master record.
pub fn audit_until(
    rt: &HostRuntime,
    read: (&InputNames<'_>, &Notes, &Checks<'_>),
    all: bool,
    until: Lsn,
) -> ExitCode
    ensures { exit_status result ≤ 2 }
{
    let (names, notes, checks) = read;
    let names = &InputNames {
        log: names.log,
        master: None,
        archives: names.archives,
        until: names.until,
        manifest: names.manifest,
    };
    let once = match ReadOnce::of(rt, names, notes) {
        Ok(once) => once,
        Err(fault) => return told_unkept(rt, (names, notes, checks), &fault),
    };
    let files = &once;
    match UntilFiles::new(&files, rt.alloc(), names.log, None, until) {
        Ok(files) => audit_checked(rt, &files, (names, notes, checks), all),
        Err(fault) => {
            let status = answered(rt, &fault, FAULT_STATUS);
            tell_until(rt, names, &fault, notes);
            status
        }
    }
}
