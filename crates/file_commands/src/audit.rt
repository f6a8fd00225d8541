//! The command `audit`.

ghost use Rattle.std.specs.Prelude.{◌≤◌, ◌≡◌, ◌⊎◌, IfErr, IfNone, IfSome, OnOk};
ghost use Rattle.std.specs.Process.{exit_status};
ghost use Rattle.script_run.specs.Status.{status_of_audit};
ghost use Rattle.checked_files.specs.Checked.{bytes_by};
ghost use Rattle.file_commands.specs.Statuses.{IsOfFault};
ghost use Rattle.file_inputs.specs.EarlyMaster.{bytes_with};
ghost use Rattle.file_inputs.specs.ReadFiles.{HasRightMaster, IsAudited};

use crate::answers::{answered, told_unprinted};
use crate::untils::audit_until;
use checked_files::CheckedFiles;
use copy_audit::{Sound, Unsound};
use copy_vault::CopyId;
use file_inputs::{Checks, EarlyMaster, InputNames, MasterFirst, ReadOnce, checks_and_master};
use file_view::ViewFault;
use page_core::{Lsn, PageNo};
use saved_files::{NamedFiles, UntilFiles, audit_files, check_master, unsound_pages};
use script_run::{FAULT_STATUS, audit_status, restore_status};
use std::process::ExitCode;
use system_files::{Notes, SystemFiles};

/// Audits a chain of copies against a log, and the master record first, if one is named. The log
/// counts up to the record at an LSN, if one is told: then no master record is read. What reads the
/// log twice reads it once where it is no regular file.
pub fn audit_named(rt: &HostRuntime, names: &InputNames<'_>, all: bool) -> ExitCode
    ensures { exit_status result ≤ 2 }
{
    let notes = Notes::new();
    let Some((checks, master)) = checks_and_master(rt, names) else {
        return ExitCode::from(FAULT_STATUS);
    };
    let status = audit_known(rt, (names, &notes, &checks), &master, all);
    if status == ExitCode::SUCCESS {
        checks.tell_unnamed(rt);
    }
    status
}

/// Audits files of which it is known what manifests say.
fn audit_known(
    rt: &HostRuntime,
    read: (&InputNames<'_>, &Notes, &Checks<'_>),
    master: &Option<EarlyMaster>,
    all: bool,
) -> ExitCode
    ensures { exit_status result ≤ 2 }
{
    let (names, notes, _) = read;
    if let Some(until) = names.until {
        return audit_until(rt, read, all, until);
    }
    if names.master.is_none() && !all {
        let files = SystemFiles { files: rt, notes };
        return audit_checked(rt, &files, read, all);
    }
    match ReadOnce::of(rt, names, notes) {
        Ok(files) => audit_early(rt, &&files, read, master, all),
        Err(fault) => told_unkept(rt, read, &fault),
    }
}

/// Audits files of which the master record was read before the others.
fn audit_early<N: NamedFiles>(
    rt: &HostRuntime,
    files: &N,
    read: (&InputNames<'_>, &Notes, &Checks<'_>),
    master: &Option<EarlyMaster>,
    all: bool,
) -> ExitCode
    ensures sound { exit_status result ≡ 0
        → IsAudited (bytes_by (bytes_with (N.bytes files.now) master.now)
        read.entry.2.now.expected.items) read.entry.0.now }
    ensures status { exit_status result ≤ 2 }
{
    audit_checked(rt, &MasterFirst { files, master }, read, all)
}

/// Tells that an input that can be read but once was not read whole.
pub fn told_unkept(
    rt: &HostRuntime,
    read: (&InputNames<'_>, &Notes, &Checks<'_>),
    fault: &ViewFault,
) -> ExitCode
    ensures { exit_status result ≡ 2 }
{
    let (names, notes, checks) = read;
    let fault = match fault {
        ViewFault::OutOfMemory => Unsound::OutOfMemory,
        _ => Unsound::ReadFault,
    };
    let status = answered(rt, &fault, audit_status(&fault));
    checks.tell_audited(rt, names, &fault, notes);
    status
}

/// Audits these files, which are checked where a manifest names them.
pub fn audit_checked<N: NamedFiles>(
    rt: &HostRuntime,
    files: &N,
    read: (&InputNames<'_>, &Notes, &Checks<'_>),
    all: bool,
) -> ExitCode
    ensures sound { exit_status result ≡ 0
        → IsAudited (bytes_by (N.bytes files.now) read.entry.2.now.expected.items)
        read.entry.0.now }
    ensures status { exit_status result ≤ 2 }
{
    let (names, notes, checks) = read;
    let files = CheckedFiles {
        files,
        expected: checks.expected.as_slice(),
        notes: &checks.notes,
    };
    audit_in(rt, &files, names, notes, all, checks)
}

fn audit_in<N: NamedFiles>(
    rt: &HostRuntime,
    files: &N,
    names: &InputNames<'_>,
    notes: &Notes,
    all: bool,
    checks: &Checks<'_>,
) -> ExitCode
    ensures sound { exit_status result ≡ 0 → IsAudited (N.bytes files.now) names.now }
    ensures status { exit_status result ≤ 2 }
{
    if let Some(status) = refused_master(rt, files, names, notes, checks) {
        return status;
    }
    let done = audit_files(files, rt.alloc(), names.log, names.archives);
    let status = status_of_audit(rt, &done);
    if let Err(fault) = &done {
        checks.tell_audited(rt, names, fault, notes);
        if all {
            if let Unsound::Unsound(copy, page) = fault {
                return told_others(rt, files, names, (*copy, *page), status);
            }
        }
    }
    status
}

/// The status where the master record is refused that is named, which is told.
fn refused_master<N: NamedFiles>(
    rt: &HostRuntime,
    files: &N,
    names: &InputNames<'_>,
    notes: &Notes,
    checks: &Checks<'_>,
) -> Option<ExitCode>
    ensures right { IfNone result (HasRightMaster (N.bytes files.now) names.now) }
    ensures refused { IfSome result (λ status. IsOfFault (exit_status status)) }
{
    match check_master(files, rt.alloc(), names.log, names.master?) {
        Ok(()) => None,
        Err(fault) => {
            let status = answered(rt, &fault, restore_status(&fault));
            checks.tell_input(rt, names, &fault, notes);
            Some(status)
        }
    }
}

/// The copy of which a page is not what the log made of it, where the chain has an archive that no
/// manifest names. It is told, with the status that an audit ends with. What else is wrong with the
/// files is for the restore to tell, which meets it too.
pub fn unsound_in(
    rt: &HostRuntime,
    known: (&InputNames<'_>, &Checks<'_>),
) -> Option<(ExitCode, CopyId)>
    ensures { IfSome result (λ it. IsOfFault (exit_status it.0)) }
{
    let (names, checks) = known;
    if checks.compares(names.archives) {
        return None;
    }
    let notes = Notes::new();
    let Err(fault) = audit_quietly(rt, known, &notes) else {
        return None;
    };
    let Unsound::Unsound(copy, _) = fault else {
        return None;
    };
    let _ = rt.eprintln(&fault);
    checks.tell_audited(rt, names, &fault, &notes);
    Some((ExitCode::from(audit_status(&fault)), copy))
}

/// Audits a chain against its log, or against the front of it that counts, and prints nothing.
fn audit_quietly(
    rt: &HostRuntime,
    known: (&InputNames<'_>, &Checks<'_>),
    notes: &Notes,
) -> Result<Sound, Unsound> {
    let files = &SystemFiles { files: rt, notes };
    match known.0.until {
        None => audit_compared(rt, files, known),
        Some(until) => audit_front(rt, files, known.0.log, known, until),
    }
}

/// Audits files against the front of the log that ends with the record at this LSN. Where that record
/// is not there, it is for the restore to tell.
fn audit_front<'a, N: NamedFiles>(
    rt: &HostRuntime,
    files: &'a N,
    log: &'a str,
    known: (&InputNames<'_>, &Checks<'_>),
    until: Lsn,
) -> Result<Sound, Unsound> {
    match UntilFiles::new(files, rt.alloc(), log, None, until) {
        Ok(files) => audit_compared(rt, &files, known),
        Err(_) => Ok(Sound),
    }
}

/// Audits files that are compared where a manifest names them, and prints nothing.
fn audit_compared<N: NamedFiles>(
    rt: &HostRuntime,
    files: &N,
    known: (&InputNames<'_>, &Checks<'_>),
) -> Result<Sound, Unsound> {
    let (names, checks) = known;
    let files = CheckedFiles {
        files,
        expected: checks.expected.as_slice(),
        notes: &checks.notes,
    };
    audit_files(&files, rt.alloc(), names.log, names.archives)
}

/// Tells the other unsound pages, each with the first copy up to which the chain has it so.
fn told_others<N: NamedFiles>(
    rt: &HostRuntime,
    files: &N,
    names: &InputNames<'_>,
    first: (CopyId, PageNo),
    status: ExitCode,
) -> ExitCode
    ensures { (result ≡ status) ⊎ (exit_status result ≡ 2) }
{
    let found = match unsound_pages(files, rt.alloc(), names.log, names.archives) {
        Ok(found) => found,
        Err(fault) => {
            let _ = rt.eprintln(&fault);
            return ExitCode::from(FAULT_STATUS);
        }
    };
    for it in found.pages.as_slice() {
        if (it.copy, it.page) != first {
            if let Err(error) = rt.println(&Unsound::Unsound(it.copy, it.page)) {
                return told_unprinted(rt, &error);
            }
        }
    }
    if found.has_more {
        let _ = eprintln!(rt; "imgcopy: more pages than these are unsound");
    }
    status
}

/// Tells on standard output what an audit found, and answers the program's status. Where that
/// cannot be written, it is that of a fault.
fn status_of_audit(rt: &(impl Print + Eprint), done: &Result<Sound, Unsound>) -> ExitCode
    ensures sound { OnOk done.now ((exit_status result ≡ 0) ⊎ (exit_status result ≡ 2)) }
    ensures fault { IfErr done.now (λ fault. (exit_status result ≡ status_of_audit fault)
        ⊎ (exit_status result ≡ 2)) }
    ensures most { exit_status result ≤ 2 }
{
    match done {
        Ok(Sound) => answered(rt, &"sound", 0),
        Err(fault) => answered(rt, fault, audit_status(fault)),
    }
}
