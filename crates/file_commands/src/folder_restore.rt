//! The command `restore` with a folder: which of the chains of copies there it takes.

ghost use Rattle.std.specs.Prelude.{◌≡◌, ◌≤◌, ◌^◌, ◌-◌, All, IfOk, filter, nat_eq, not, unwrap_or};
ghost use Rattle.std.specs.Prelude.{ℕ, IfSome, MatchOption};
ghost use Rattle.std.specs.Process.{exit_status};
ghost use Rattle.file_inputs.specs.CopyChain.{HasChain, IsNewestChain, IsWholeChain};
ghost use Rattle.file_commands.specs.FolderChains.{from_full};
ghost use Rattle.file_commands.specs.Statuses.{IsEnd, IsOfFault};

use crate::answers::told;
use crate::audit::unsound_in;
use crate::folder_copies::{header_of, ids_in};
use crate::restore::{Ended, Outputs, restore_known};
use checked_files::ManifestUse;
use command_words::RESTORE_USAGE;
use copy_vault::CopyId;
use file_inputs::{
    InputNames, chain_of, checks_and_master, is_irregular, newest_chain, tell_irregular,
};
use file_view::{CopyHeader, ViewFault};
use folder_reports::{Reach, SystemReader, Trouble, TroubleLine, noted_reach, read_log};
use media_restore::RestoreFault;
use page_core::Lsn;
use script_run::{FAULT_STATUS, restore_status};
use std::alloc::AllocError;
use std::process::ExitCode;
use std::thread::Threads;
use std::{fmt, fs};
use system_files::Escaped;

/// Which chain of a folder is restored, up to which record, and which manifest counts.
#[derive(Clone, Copy)]
pub struct FolderRestore<'a> {
    pub folder: &'a str,
    /// The copy whose chain it is; without it that is the newest whole one.
    pub copy: Option<u32>,
    pub until: Option<Lsn>,
    pub manifest: ManifestUse<'a>,
}

/// Restores a volume from the files in a folder: from the newest chain of copies that is whole, or
/// from that of the copy of this number. A chain that has an archive which no manifest names is
/// audited first. Where an archive of the newest chain cannot be read, is none, or has a page that
/// is not what the log made of it, this is told, and the newest chain without it is tried. It is
/// told which one was taken.
pub fn restore_folder(
    rt: &HostRuntime,
    threads: &(impl Threads + Sync),
    wanted: &FolderRestore<'_>,
    outputs: Outputs<'_>,
) -> ExitCode
    ensures { exit_status result ≤ 2 }
{
    if wanted.copy.is_none() && !is_folder(rt, wanted.folder) {
        return ExitCode::from(FAULT_STATUS);
    }
    match restored(rt, threads, wanted, outputs) {
        Ok(status) => status,
        Err(_) => told(rt, &ViewFault::OutOfMemory),
    }
}

/// Whether a folder is there. Where another file is, the words lack those that are named beside it.
fn is_folder(rt: &HostRuntime, place: &str) -> bool {
    let there = fs::metadata(rt, place);
    if let Ok(there) = &there {
        if there.is_dir() {
            return true;
        }
    }
    let _ = eprintln!(rt;
        "error: the following required arguments were not provided:\n  <MASTER>\n\nUsage: {RESTORE_USAGE}\n\nFor more information, try '--help'."
    );
    if let Err(error) = there {
        let place = Escaped(place);
        let _ = eprintln!(rt; "imgcopy: {place}: {error}");
    }
    false
}

fn restored(
    rt: &HostRuntime,
    threads: &(impl Threads + Sync),
    wanted: &FolderRestore<'_>,
    outputs: Outputs<'_>,
) -> Result<ExitCode, AllocError>
    ensures { IfOk result (λ status. exit_status status ≤ 2) }
{
    let (folder, copy) = (wanted.folder, wanted.copy);
    let ids = match ids_in(rt, folder) {
        Ok(ids) => ids,
        Err(fault) => return Ok(told(rt, &fault)),
    };
    if has_irregular(rt, folder)? {
        return Ok(ExitCode::from(FAULT_STATUS));
    }
    let mut headers = headers_in(rt, folder, ids.as_slice(), copy)?;
    let mut first = None;
    for _ in 0..=ids.len() {
        let Some(chain) = chain_in(rt, headers.as_slice(), copy)? else {
            break;
        };
        let (place, copies) = (Escaped(folder), Copies(chain.as_slice()));
        if first.is_some() {
            let _ = eprintln!(rt; "imgcopy: {place}: {copies} is tried next");
        }
        let ended = restore_chain(rt, threads, wanted, chain.as_slice(), outputs)?;
        let Ended::Told(status, spoiled) = ended else {
            let _ = eprintln!(rt; "imgcopy: {place}: restored from {copies}");
            return Ok(ExitCode::SUCCESS);
        };
        if first.is_none() {
            first = Some(status);
        }
        let (Some(spoiled), None) = (spoiled, copy) else {
            break;
        };
        let Some(id) = copy_at(chain.as_slice(), spoiled) else {
            break;
        };
        let _ = eprintln!(rt; "imgcopy: {place}: {copies} is left out");
        headers = without(rt, headers.as_slice(), id)?;
    }
    Ok(match first {
        Some(status) => status,
        None => told_no_chain(rt, folder, copy, ids.is_empty()),
    })
}

/// Tells that the log of a folder ends below where the note of its closing says that it ended, and
/// answers the program's status. A log that counts up to a record may end behind that, and the fault
/// of one that is none is for the restore to tell.
fn short_log(rt: &HostRuntime, wanted: &FolderRestore<'_>) -> Option<ExitCode>
    ensures { IfSome result (λ status. IsOfFault (exit_status status)) }
{
    let (folder, manifest) = (wanted.folder, wanted.manifest);
    if wanted.until.is_some() {
        return None;
    }
    let files = &SystemReader { rt, folder };
    let Ok(Reach::Short { bytes, noted }) = noted_reach(rt.alloc(), files) else {
        return None;
    };
    if read_log(rt.alloc(), files).is_err() {
        return None;
    }
    let trouble = &Trouble::Ends { bytes, noted };
    let fault = RestoreFault::BadChain(Lsn(bytes));
    let _ = rt.eprintln(&fault);
    let _ = rt.eprintln(&TroubleLine {
        folder,
        manifest,
        trouble,
    });
    Some(ExitCode::from(restore_status(&fault)))
}

/// Whether the log or the master record of a folder is no regular file, which is told.
fn has_irregular(rt: &HostRuntime, folder: &str) -> Result<bool, AllocError> {
    for name in ["log", "master"] {
        let place = format!(in rt.alloc(); "{folder}/{name}")?;
        if is_irregular(rt, place.as_str()) {
            tell_irregular(rt, place.as_str());
            return Ok(true);
        }
    }
    Ok(false)
}

/// The headers of the copies of these ids, up to that of the copy that is wanted. What is wrong with
/// one is told.
fn headers_in(
    rt: &HostRuntime,
    folder: &str,
    ids: &[u32],
    copy: Option<u32>,
) -> Result<Vec<CopyHeader>, AllocError>
    ensures { IfOk result (λ headers.
        All (λ header. header.id ≤ unwrap_or copy (2 ^ 32 - 1)) headers.items) }
{
    let most = copy.unwrap_or(u32::MAX);
    let mut headers = Vec::new(rt.alloc());
    for id in ids {
        if *id > most {
            continue;
        }
        if let Some((header, _)) = header_of(rt, folder, *id)? {
            headers.push(header)?;
        }
    }
    Ok(headers)
}

/// The chain of the copy that is wanted, or the newest one, the newest copy first.
fn chain_in(
    rt: &HostRuntime,
    headers: &[CopyHeader],
    copy: Option<u32>,
) -> Result<Option<Vec<u32>>, AllocError>
    ensures wanted { IfOk result (λ found. IfSome copy (λ id. MatchOption found
        (HasChain headers.now id → ⊥) (λ chain. IsWholeChain headers.now id chain.items))) }
    ensures newest { copy ≡ None → IfOk result (λ found. MatchOption found
        ((id : ℕ) → HasChain headers.now id → ⊥) (λ chain. IsNewestChain headers.now chain.items)) }
{
    match copy {
        Some(id) => chain_of(rt.alloc(), headers, id),
        None => newest_chain(rt.alloc(), headers),
    }
}

/// The copy whose archive stands at this place of a chain, counted from the full one on.
fn copy_at(chain: &[u32], place: usize) -> Option<u32>
    ensures { result ≡ from_full chain.now place }
{
    let last = chain.len().checked_sub(1)?;
    Some(*chain.get(last.checked_sub(place)?)?)
}

/// The headers of the other copies.
fn without(rt: &HostRuntime, headers: &[CopyHeader], id: u32) -> Result<Vec<CopyHeader>, AllocError>
    ensures { IfOk result (λ others.
        others.items ≡ filter (λ header. not (nat_eq header.id id)) headers.now) }
{
    let mut others = Vec::new(rt.alloc());
    for header in headers {
        if header.id != id {
            others.push(*header)?;
        }
    }
    Ok(others)
}

/// Restores a volume from a chain of the folder's copies.
fn restore_chain(
    rt: &HostRuntime,
    threads: &(impl Threads + Sync),
    wanted: &FolderRestore<'_>,
    chain: &[u32],
    outputs: Outputs<'_>,
) -> Result<Ended, AllocError>
    ensures { IfOk result IsEnd }
{
    let (alloc, folder) = (rt.alloc(), wanted.folder);
    let log = format!(in alloc; "{folder}/log")?;
    let master = format!(in alloc; "{folder}/master")?;
    let mut files = Vec::new(alloc);
    for id in chain.iter().rev() {
        files.push(format!(in alloc; "{folder}/copy-{id}")?)?;
    }
    let mut archives = Vec::new(alloc);
    for name in &files {
        archives.push(name.as_str())?;
    }
    let names = InputNames {
        log: log.as_str(),
        master: Some(master.as_str()),
        archives: &archives,
        until: wanted.until,
        manifest: wanted.manifest,
    };
    let master = master.as_str();
    Ok(restore_audited(rt, threads, wanted, &names, master, chain, outputs))
}

/// Restores a volume from a chain, which is audited first where one of its archives stands in no
/// manifest. It is told which copy is not what the log made of it. If no manifest names the log, it
/// has to go on to where the note of the closing says that it ended.
fn restore_audited(
    rt: &HostRuntime,
    threads: &(impl Threads + Sync),
    wanted: &FolderRestore<'_>,
    names: &InputNames<'_>,
    master: &str,
    chain: &[u32],
    outputs: Outputs<'_>,
) -> Ended
    ensures { IsEnd result }
{
    let Some((checks, early)) = checks_and_master(rt, names) else {
        return Ended::refused(ExitCode::from(FAULT_STATUS));
    };
    let known = (names, &checks);
    if !checks.compares(&[names.log]) {
        if let Some(status) = short_log(rt, wanted) {
            return Ended::refused(status);
        }
    }
    if let Some((status, CopyId(copy))) = unsound_in(rt, known) {
        return Ended::Told(status, place_of(chain, copy));
    }
    restore_known(rt, threads, known, (master, &early), outputs)
}

/// The place of a copy's archive in a chain, counted from the full one on.
fn place_of(chain: &[u32], copy: u32) -> Option<usize> {
    chain.iter().rev().position(|id| *id == copy)
}

/// Tells that the copy that is wanted has no whole chain, or that none has, or that there is none.
fn told_no_chain(rt: &impl Eprint, folder: &str, copy: Option<u32>, is_bare: bool) -> ExitCode
    ensures { exit_status result ≡ 1 }
{
    let fault = RestoreFault::ChainBroken(CopyId(copy.unwrap_or(0)));
    let _ = rt.eprintln(&fault);
    let folder = Escaped(folder);
    let _ = match copy {
        Some(id) => eprintln!(rt;
            "imgcopy: {folder}: copy {id} is not there, or lacks one that it stands on"
        ),
        None => {
            let what = if is_bare {
                "there is no copy"
            } else {
                "no copy is whole"
            };
            eprintln!(rt;
                "imgcopy: {folder}: {what}: imgcopy redo < {folder}/log makes the volume of the log alone"
            )
        }
    };
    ExitCode::from(restore_status(&fault))
}

/// The copies of a chain, the newest one first, as they are told.
#[derive(Clone, Copy)]
struct Copies<'a>(&'a [u32]);

impl fmt::Display for Copies<'_> {
    fn fmt<W: fmt::Write>(&self, f: &mut fmt::Formatter<W>) -> fmt::Result {
        let mut before = "";
        for id in self.0 {
            write!(f, "{before}copy {id}")?;
            before = ", on ";
        }
        Ok(())
    }
}
