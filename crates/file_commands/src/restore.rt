//! The command `restore`.

ghost use Rattle.std.specs.Prelude.{◌≡◌, IfSome, None};
ghost use Rattle.std.specs.Process.{exit_status};
ghost use Rattle.media_restore.specs.FilesLog.{told_fault};
ghost use Rattle.saved_files.specs.Restored.{files_by};
ghost use Rattle.script_run.specs.Status.{status_of_restore};
ghost use Rattle.file_commands.specs.Statuses.{IsEnd, IsOfArchive, IsOfFault, IsRestore, IsToldOf};
ghost use Rattle.file_commands.specs.Statuses.{status_of_end};
ghost use Rattle.file_commands.specs.declared.restore.Ended.TheVariants.{Told};

use crate::answers::refused_terminal;
use crate::untils::restore_until;
use checked_files::CheckedFiles;
use file_inputs::{
    Checks, EarlyMaster, FIRST_ARCHIVE, InputNames, MasterFirst, checks_and_master, noted, patient,
    tell_unwritten,
};
use file_outputs::{
    Inputs, Limits, OutputFolder, VolumeOutput, have_one_folder, is_one_place, tell, tell_output,
};
use media_restore::{RestoreFault, WithLogFault};
use saved_files::{
    NamedFiles, PutBothFault, PutFault, PutStoredFault, RestoreNames, Which, put_restored_both,
    put_restored_log, put_restored_volume, restore_volume,
};
use script_run::{FAULT_STATUS, restore_status};
use std::io;
use std::io::Write;
use std::process::ExitCode;
use std::thread::Threads;
use system_files::{Notes, SystemFiles};

/// What a restore writes: the volume, and the log, if a file is named for it. With force they
/// replace files that are kept else.
#[derive(Clone, Copy)]
pub struct Outputs<'a> {
    pub volume: VolumeOutput<'a>,
    pub log: Option<&'a str>,
    pub force: bool,
}

/// How a restore ended.
#[derive(Drop)]
pub enum Ended {
    Well,
    /// It was told why, and with which status. The fault was one of this archive itself, counted
    /// from the first, if it was one's.
    Told(ExitCode, Option<usize>),
}

impl Ended {
    /// A fault was told that is no archive's.
    pub fn refused(status: ExitCode) -> Ended
        ensures { result ≡ Told status None }
    {
        Ended::Told(status, None)
    }

    /// The program's status.
    pub fn status(self) -> ExitCode
        ensures { exit_status result ≡ status_of_end self }
    {
        match self {
            Ended::Well => ExitCode::SUCCESS,
            Ended::Told(status, _) => status,
        }
    }
}

/// Restores a volume from files, and its log if a file for that is named. The log counts up to the
/// record at an LSN, if one is told. A file that a manifest names has to be that file.
pub fn restore_named(
    rt: &HostRuntime,
    threads: &(impl Threads + Sync),
    names: &InputNames<'_>,
    master: &str,
    outputs: Outputs<'_>,
) -> Ended
    ensures { IsEnd result }
{
    let Some((checks, early)) = checks_and_master(rt, names) else {
        return Ended::refused(ExitCode::from(FAULT_STATUS));
    };
    restore_known(rt, threads, (names, &checks), (master, &early), outputs)
}

/// Restores a volume from files of which it is known what manifests say. Those that the manifest
/// does not name which counts for them are told once the volume is restored.
pub fn restore_known(
    rt: &HostRuntime,
    threads: &(impl Threads + Sync),
    known: (&InputNames<'_>, &Checks<'_>),
    master: (&str, &Option<EarlyMaster>),
    outputs: Outputs<'_>,
) -> Ended
    ensures { IsEnd result }
{
    let ((names, checks), notes) = (known, Notes::new());
    let ended = restore_checked(rt, threads, (names, &notes, checks), master, outputs);
    if matches!(ended, Ended::Well) {
        checks.tell_unnamed(rt);
    }
    ended
}

/// Restores a volume from files of which it is known what manifests say.
fn restore_checked(
    rt: &HostRuntime,
    threads: &(impl Threads + Sync),
    read: (&InputNames<'_>, &Notes, &Checks<'_>),
    master: (&str, &Option<EarlyMaster>),
    outputs: Outputs<'_>,
) -> Ended
    ensures { IsEnd result }
{
    let ((names, notes, _), (master, early)) = (read, master);
    if let Some(until) = names.until {
        return restore_until(rt, threads, read, master, outputs, until);
    }
    let files = &SystemFiles { files: rt, notes };
    restore_early(rt, threads, files, read, (master, early), outputs)
}

/// Restores a volume from files of which the master record was read before the others.
fn restore_early<N: NamedFiles>(
    rt: &HostRuntime,
    threads: &(impl Threads + Sync),
    files: &N,
    read: (&InputNames<'_>, &Notes, &Checks<'_>),
    master: (&str, &Option<EarlyMaster>),
    outputs: Outputs<'_>,
) -> Ended
    ensures { IsEnd result }
{
    let (name, master) = master;
    let files = MasterFirst { files, master };
    restore_from(rt, threads, &files, read, name, outputs)
}

/// Restores a volume from files that are read by their names. The notes know why one was not read.
pub fn restore_from<N: NamedFiles>(
    rt: &HostRuntime,
    threads: &(impl Threads + Sync),
    files: &N,
    read: (&InputNames<'_>, &Notes, &Checks<'_>),
    master: &str,
    outputs: Outputs<'_>,
) -> Ended
    ensures { IsEnd result }
{
    let (names, _, checks) = read;
    let files = CheckedFiles {
        files,
        expected: checks.expected.as_slice(),
        notes: &checks.notes,
    };
    let from = RestoreNames {
        log: names.log,
        master,
        archives: names.archives,
    };
    let limits = Limits {
        inputs: Inputs::Named(names),
        force: outputs.force,
    };
    if outputs.volume.is_barred(rt) {
        return Ended::refused(refused_terminal(rt));
    }
    match (outputs.volume, outputs.log) {
        (VolumeOutput::File(path), None) => {
            restore_into(rt, threads, &files, read, from, (path, limits))
        }
        (VolumeOutput::File(path), Some(log)) => {
            restore_both_into(rt, threads, &files, read, from, (path, log, limits))
        }
        (_, None) => {
            let output = Notes::new();
            let mut volume = noted(patient(rt, io::writer(rt)), &output);
            restore_out(rt, threads, &files, read, from, &mut volume, &output)
        }
        (_, Some(log)) => restore_log_into(rt, threads, &files, read, from, (log, limits)),
    }
}

/// Restores a volume to a writer, which is standard output. Its notes know why it failed.
fn restore_out<N: NamedFiles, W: Write>(
    rt: &HostRuntime,
    threads: &(impl Threads + Sync),
    files: &N,
    read: (&InputNames<'_>, &Notes, &Checks<'_>),
    from: RestoreNames<'_>,
    volume: &mut W,
    output: &Notes,
) -> Ended
    ensures end { IsEnd result }
    ensures volume { IsRestore (files_by (N.bytes files.now) from.entry)
        (W.contents volume.old) (W.contents volume.new) result }
{
    let done = restore_volume(
        files,
        threads,
        rt.alloc(),
        from.log,
        from.master,
        from.archives,
        volume,
    );
    match done {
        Ok(()) => Ended::Well,
        Err(fault) => told(rt, read, &fault, (None, output)),
    }
}

/// Restores a volume into a file.
fn restore_into<N: NamedFiles>(
    rt: &HostRuntime,
    threads: &(impl Threads + Sync),
    files: &N,
    read: (&InputNames<'_>, &Notes, &Checks<'_>),
    from: RestoreNames<'_>,
    output: (&str, Limits<'_>),
) -> Ended
    ensures { IsEnd result }
{
    let ((path, limits), written) = (output, Notes::new());
    let Some(mut folder) = OutputFolder::of(rt, path, limits, &written) else {
        return Ended::refused(ExitCode::from(FAULT_STATUS));
    };
    let name = folder.name();
    match put_restored_volume(&mut folder, rt.alloc(), name, files, threads, from) {
        Ok(()) => Ended::Well,
        Err(PutStoredFault::Unput(PutFault::Unwritten(fault))) => {
            told(rt, read, &fault, (Some(path), &written))
        }
        Err(fault) => {
            folder.tell_unput(&fault);
            Ended::refused(ExitCode::from(FAULT_STATUS))
        }
    }
}

/// Restores a volume to standard output, and its log into a file, which is put in place once all of
/// the volume went out.
fn restore_log_into<N: NamedFiles>(
    rt: &HostRuntime,
    threads: &(impl Threads + Sync),
    files: &N,
    read: (&InputNames<'_>, &Notes, &Checks<'_>),
    from: RestoreNames<'_>,
    output: (&str, Limits<'_>),
) -> Ended
    ensures { IsEnd result }
{
    let (log, limits) = output;
    let (output, written) = (Notes::new(), Notes::new());
    let Some(mut folder) = OutputFolder::of(rt, log, limits, &written) else {
        return Ended::refused(ExitCode::from(FAULT_STATUS));
    };
    let mut volume = noted(patient(rt, io::writer(rt)), &output);
    let name = folder.name();
    let alloc = rt.alloc();
    match put_restored_log(&mut folder, alloc, name, files, threads, from, &mut volume) {
        Ok(()) => Ended::Well,
        Err(PutStoredFault::Unput(PutFault::Unwritten(fault))) => {
            told_with_log(rt, read, fault, (None, &output), (Some(log), &written))
        }
        Err(fault) => {
            folder.tell_unput(&fault);
            Ended::refused(ExitCode::from(FAULT_STATUS))
        }
    }
}

/// Restores a volume and its log, each into a file. Both are synced, and may take their names,
/// before the log takes its own and then the volume: so where one of them does not reach the disk,
/// or is refused, neither has its name. Only where the log's folder cannot be synced, or the volume
/// cannot be renamed, is the log in place alone.
fn restore_both_into<N: NamedFiles>(
    rt: &HostRuntime,
    threads: &(impl Threads + Sync),
    files: &N,
    read: (&InputNames<'_>, &Notes, &Checks<'_>),
    from: RestoreNames<'_>,
    outputs: (&str, &str, Limits<'_>),
) -> Ended
    ensures { IsEnd result }
{
    let (path, log, limits) = outputs;
    if is_one_place(rt, path, log) {
        tell(rt, log, &"the volume is to be written there, too");
        return Ended::refused(ExitCode::from(FAULT_STATUS));
    }
    let (output, written) = (Notes::new(), Notes::new());
    let folders = folders_of(rt, (path, &output), (log, &written), limits);
    let Some((mut folder, mut log_folder)) = folders else {
        return Ended::refused(ExitCode::from(FAULT_STATUS));
    };
    let (log_name, name) = (log_folder.name(), folder.name());
    let done = put_restored_both(
        &mut log_folder,
        log_name,
        &mut folder,
        name,
        rt.alloc(),
        files,
        threads,
        from,
    );
    match done {
        Ok(()) => Ended::Well,
        Err(PutBothFault::Unwritten(fault)) => told_with_log(
            rt,
            read,
            fault,
            (Some(path), &output),
            (Some(log), &written),
        ),
        Err(fault) => {
            tell_unput(&log_folder, &folder, &fault);
            Ended::refused(ExitCode::from(FAULT_STATUS))
        }
    }
}

/// Tells the fault of a restore that was to write the log, too, as `told` does.
fn told_with_log(
    rt: &HostRuntime,
    read: (&InputNames<'_>, &Notes, &Checks<'_>),
    fault: WithLogFault,
    volume: (Option<&str>, &Notes),
    log: (Option<&str>, &Notes),
) -> Ended
    ensures told { IsToldOf (told_fault fault) result }
    ensures end { IsEnd result }
{
    match fault {
        WithLogFault::OfLog(_) => told(rt, read, &fault.told(), log),
        WithLogFault::OfVolume(fault) => told(rt, read, &fault, volume),
    }
}

/// Tells the fault of a restore, and where it was met: in a file that was read, or in the output of
/// this path, or on standard output.
fn told(
    rt: &HostRuntime,
    read: (&InputNames<'_>, &Notes, &Checks<'_>),
    fault: &RestoreFault,
    output: (Option<&str>, &Notes),
) -> Ended
    ensures told { IsToldOf fault.now result }
    ensures end { IsEnd result }
{
    let status = told_restore(rt, fault);
    tell_met(rt, read, fault, output);
    Ended::Told(status, spoiled_by(fault, read.1.read_last()))
}

/// Tells where a fault was met that was told.
fn tell_met(
    rt: &HostRuntime,
    read: (&InputNames<'_>, &Notes, &Checks<'_>),
    fault: &RestoreFault,
    output: (Option<&str>, &Notes),
) {
    let (names, notes, checks) = read;
    match (fault, output) {
        (RestoreFault::WriteFault(_), (Some(path), written)) => tell_output(rt, path, written),
        (RestoreFault::WriteFault(_), (None, written)) => tell_unwritten(rt, written),
        _ => checks.tell_input(rt, names, fault, notes),
    }
}

/// The archive that could not be read, or that is none by itself. Where one does not go with the
/// log, it may be the log that is wrong.
fn spoiled_by(fault: &RestoreFault, read_last: Option<usize>) -> Option<usize>
    ensures { IfSome result (λ archive. IsOfArchive fault.now read_last archive) }
{
    match fault {
        RestoreFault::ReadFault | RestoreFault::BadArchive(_) | RestoreFault::CountDiffers =>
            read_last?.checked_sub(FIRST_ARCHIVE),
        _ => None,
    }
}

/// The folders of a volume and of its log, each of which gets the other's name where they are one.
fn folders_of<'a>(
    rt: &'a HostRuntime,
    volume: (&'a str, &'a Notes),
    log: (&'a str, &'a Notes),
    limits: Limits<'a>,
) -> Option<(OutputFolder<'a>, OutputFolder<'a>)> {
    let log_folder = OutputFolder::of(rt, log.0, limits, log.1)?;
    let folder = OutputFolder::of(rt, volume.0, limits, volume.1)?;
    if !have_one_folder(rt, log.0, volume.0) {
        return Some((folder, log_folder));
    }
    Some((folder, log_folder.shared()))
}

/// Tells which of both is not in its place, or may not stay there, and which are.
fn tell_unput<E>(log: &OutputFolder<'_>, volume: &OutputFolder<'_>, fault: &PutBothFault<E>) {
    match fault {
        PutBothFault::Unwritten(_) => {}
        PutBothFault::Unmade(Which::First, _)
        | PutBothFault::Unsynced(Which::First, _)
        | PutBothFault::Unplaced(Which::First, _) => log.tell_fault(),
        PutBothFault::Unmade(Which::Second, _) | PutBothFault::Unsynced(Which::Second, _) => {
            volume.tell_fault();
        }
        PutBothFault::Unstored(Which::First, _) => {
            log.tell_fault();
            log.tell_placed();
        }
        PutBothFault::Unplaced(Which::Second, _) => {
            volume.tell_fault();
            log.tell_placed();
        }
        PutBothFault::Unstored(Which::Second, _) => {
            volume.tell_fault();
            log.tell_placed();
            volume.tell_placed();
        }
    }
}

/// Tells why a volume is not restored from files, and answers the program's status.
fn told_restore(rt: &impl Eprint, fault: &RestoreFault) -> ExitCode
    ensures told { exit_status result ≡ status_of_restore fault.now }
    ensures fault { IsOfFault (exit_status result) }
{
    let _ = rt.eprintln(fault);
    ExitCode::from(restore_status(fault))
}
