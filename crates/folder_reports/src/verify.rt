//! Whether the files of a folder are sound.

ghost use Rattle.std.specs.Prelude.{◌≡◌, IfOk, IfSome, IsTrue, OnOk, map, string_bytes};
ghost use Rattle.std.specs.List.{All};
ghost use Rattle.copy_audit.specs.Audited.{AreAudited};
ghost use Rattle.saved_files.specs.Saved.{name_of};
ghost use Rattle.saved_files.specs.declared.saved_name.SavedName.TheVariants.{Copy};
ghost use Rattle.folder_reports.specs.Named.{IsMet};
ghost use Rattle.folder_reports.specs.Reading.{IsWhole, bytes_in};
ghost use Rattle.folder_reports.specs.Sound.{AreHeadersOf, HasAllNoted, HasRightMaster};
ghost use Rattle.folder_reports.specs.Sound.{HasSoundCopies, IsAudited, IsVerified, archives_of};

use crate::by_name::ByName;
use crate::closing::read_note;
use crate::copies::{copy_header, copy_ids};
use crate::copy_chain::chain_of;
use crate::folder_files::DatabaseFiles;
use crate::folder_manifest::counting_manifest;
use crate::log_end::{Reach, log_reaches, read_log};
use crate::named_files::is_irregular;
use crate::report::FolderReport;
use crate::summed_files::files_are_named;
use crate::trouble::Trouble;
use checked_files::ManifestUse;
use copy_audit::{Sound, Unsound};
use copy_vault::CopyId;
use database_files::{LOG, MASTER, Place};
use file_view::{CopyHeader, ViewFault};
use saved_files::{NamedFiles, SavedName, audit_files, check_master};
use std::alloc::{AllocError, Global};
use std::io::ErrorKind;
use std::thread::Threads;

/// Sums each file that the manifest of a folder names, side by side, and audits each copy there, with
/// those that it stands on, against the log, and the master record too. Where there is no copy, the
/// log is read. The log has to have all that the note of the last closing tells of. The report gets a
/// line for each file and each copy. Says whether all are sound.
///
/// A manifest that is told is read from the other files. `AllocError` comes where memory is refused;
/// the report has what was found by then.
pub fn verify_folder<T: Threads + Sync, F: DatabaseFiles + Sync, N: NamedFiles>(
    alloc: Global,
    threads: &T,
    folder: &F,
    others: &N,
    manifest: ManifestUse<'_>,
    report: &mut FolderReport,
) -> Result<bool, AllocError>
    ensures { IfOk result (λ it. IsTrue it
        → IsVerified (N.bytes others.now) (F.entries folder.now) manifest.entry) }
{
    let ids = match copy_ids(alloc, folder) {
        Ok(ids) => ids,
        Err(error) if error.kind() == ErrorKind::OutOfMemory => return Err(AllocError),
        Err(error) => {
            report.tell(Trouble::Unlisted(error.raw_os_error()))?;
            return Ok(false);
        }
    };
    let are_named = manifest_is_met(alloc, threads, folder, others, manifest, report)?;
    // The note first: the log of an open database only grows.
    let goes_on = note_is_met(alloc, folder, report)?;
    let are_sound = copies_are_sound(alloc, folder, &ids, report)?;
    Ok(are_named && goes_on && are_sound)
}

/// Sums the files that the manifest names. Where there is none, though one would count, that is told.
fn manifest_is_met<T: Threads + Sync, F: DatabaseFiles + Sync, N: NamedFiles>(
    alloc: Global,
    threads: &T,
    folder: &F,
    others: &N,
    choice: ManifestUse<'_>,
    report: &mut FolderReport,
) -> Result<bool, AllocError>
    ensures { IfOk result (λ it. IsTrue it
        → IsMet (N.bytes others.now) (F.entries folder.now) choice.entry) }
{
    match counting_manifest(alloc, folder, others, choice) {
        Ok(Some(manifest)) => files_are_named(alloc, threads, folder, &manifest, report),
        Ok(None) => {
            if !matches!(choice, ManifestUse::Aside) {
                report.tell(Trouble::NoManifest)?;
            }
            Ok(true)
        }
        Err(why) => {
            report.tell(why)?;
            Ok(false)
        }
    }
}

/// Whether the log has all that the note of the last closing tells of. That it has less is a line;
/// what is no note is told, and so is what cannot be read.
fn note_is_met<F: DatabaseFiles>(
    alloc: Global,
    folder: &F,
    report: &mut FolderReport,
) -> Result<bool, AllocError>
    ensures { IfOk result (λ it. IsTrue it → HasAllNoted (F.entries folder.now)) }
{
    let found = match read_note(alloc, folder) {
        Ok(found) => found,
        Err(why) => {
            report.tell(Trouble::File(Place::Closed, why))?;
            return Ok(false);
        }
    };
    if found.is_wrong {
        report.tell(Trouble::NoNote)?;
    }
    match log_reaches(folder, found.note) {
        Reach::Well => Ok(true),
        Reach::Untold => Ok(false),
        Reach::Short { bytes, noted } => {
            writeln!(
                report.lines,
                "log ends at {bytes}: `closed` says that it ended at {noted}"
            )?;
            Ok(false)
        }
    }
}

/// Audits the copies of these ids, and the master record where there is one of them. Where there is
/// none, reads the log; what is wrong with it is told.
fn copies_are_sound<F: DatabaseFiles>(
    alloc: Global,
    folder: &F,
    ids: &[u32],
    report: &mut FolderReport,
) -> Result<bool, AllocError>
    ensures { IfOk result (λ it. IsTrue it → HasSoundCopies (F.entries folder.now) ids.now) }
{
    if ids.is_empty() {
        return log_is_right(alloc, folder, report);
    }
    let (headers, are_all) = headers_of(alloc, folder, ids, report)?;
    if headers.is_empty() {
        return Ok(false);
    }
    let is_right = master_is_right(alloc, folder, report)?;
    let are_sound = chains_are_sound(alloc, folder, &headers, report)?;
    Ok(are_all && is_right && are_sound)
}

/// Whether the log is right; what is wrong with it is told.
fn log_is_right<F: DatabaseFiles>(
    alloc: Global,
    folder: &F,
    report: &mut FolderReport,
) -> Result<bool, AllocError>
    ensures { IfOk result (λ it. IsTrue it → IsWhole (bytes_in (F.entries folder.now) LOG.now)) }
{
    match read_log(alloc, folder) {
        Ok(()) => Ok(true),
        Err(why) => {
            report.tell(Trouble::File(Place::Log, why))?;
            Ok(false)
        }
    }
}

/// The headers of the copies of these ids, and whether each has one; what is wrong with one that has
/// none is told.
fn headers_of<F: DatabaseFiles>(
    alloc: Global,
    folder: &F,
    ids: &[u32],
    report: &mut FolderReport,
) -> Result<(Vec<CopyHeader>, bool), AllocError>
    ensures { IfOk result (λ it. IsTrue it.1
        → AreHeadersOf (F.entries folder.now) ids.now it.0.items) }
{
    let mut headers = Vec::new(alloc);
    let mut are_all = true;
    for id in ids {
        match copy_header(alloc, folder, *id)? {
            Ok((header, _)) => headers.push(header)?,
            Err(why) => {
                report.tell(Trouble::File(Place::Copy(CopyId(*id)), why))?;
                are_all = false;
            }
        }
    }
    Ok((headers, are_all))
}

/// Checks the master record against the log.
fn master_is_right<F: DatabaseFiles>(
    alloc: Global,
    folder: &F,
    report: &mut FolderReport,
) -> Result<bool, AllocError>
    ensures { IfOk result (λ it. IsTrue it → HasRightMaster (F.entries folder.now)) }
{
    if is_irregular(folder, LOG) || is_irregular(folder, MASTER) {
        let fault = ViewFault::ReadFault;
        writeln!(report.lines, "master: {fault}")?;
        return Ok(false);
    }
    match check_master(&ByName { folder }, alloc, LOG, MASTER) {
        Ok(()) => Ok(true),
        Err(fault) => {
            writeln!(report.lines, "master: {fault}")?;
            Ok(false)
        }
    }
}

/// Audits each of these copies with those that it stands on.
fn chains_are_sound<F: DatabaseFiles>(
    alloc: Global,
    folder: &F,
    headers: &[CopyHeader],
    report: &mut FolderReport,
) -> Result<bool, AllocError>
    ensures { IfOk result (λ it. IsTrue it
        → All (λ header. IsAudited (F.entries folder.now) header.id) headers.now) }
{
    let mut are_sound = true;
    for header in headers {
        let is_sound = copy_is_sound(alloc, folder, headers, header.id, report)?;
        are_sound = are_sound && is_sound;
    }
    Ok(are_sound)
}

/// Audits a copy with those that it stands on.
fn copy_is_sound<F: DatabaseFiles>(
    alloc: Global,
    folder: &F,
    headers: &[CopyHeader],
    id: u32,
    report: &mut FolderReport,
) -> Result<bool, AllocError>
    ensures { IfOk result (λ it. IsTrue it → IsAudited (F.entries folder.now) id) }
{
    let chain = match chain_of(alloc, headers, id)? {
        Ok(chain) => chain,
        Err(lacking) => {
            writeln!(report.lines, "copy {id} lacks copy {lacking}")?;
            return Ok(false);
        }
    };
    if is_irregular(folder, LOG) {
        let fault = ViewFault::ReadFault;
        writeln!(report.lines, "copy {id}: {fault}")?;
        return Ok(false);
    }
    match audit_chain(alloc, folder, &chain)? {
        Ok(Sound) => {
            writeln!(report.lines, "copy {id} sound")?;
            Ok(true)
        }
        Err(fault) => {
            writeln!(report.lines, "copy {id}: {fault}")?;
            Ok(false)
        }
    }
}

/// Audits the chain of these copies, the full one first.
fn audit_chain<F: DatabaseFiles>(
    alloc: Global,
    folder: &F,
    chain: &[u32],
) -> Result<Result<Sound, Unsound>, AllocError>
    ensures { IfOk result (λ it. OnOk it (AreAudited (bytes_in (F.entries folder.now) LOG.now)
        (archives_of (F.entries folder.now) chain.now))) }
{
    let names = names_of(alloc, chain)?;
    audit_named(alloc, folder, &names)
}

/// The names of the files of these copies.
fn names_of(alloc: Global, chain: &[u32]) -> Result<Vec<String>, AllocError>
    ensures { IfOk result (λ names.
        map string_bytes names.items ≡ map (λ id. name_of (Copy id)) chain.now) }
{
    let mut names = Vec::new(alloc);
    for id in chain {
        names.push(format!(in alloc; "{}", SavedName::Copy(CopyId(*id)))?)?;
    }
    Ok(names)
}

/// Audits the archives of these names.
fn audit_named<F: DatabaseFiles>(
    alloc: Global,
    folder: &F,
    names: &[String],
) -> Result<Result<Sound, Unsound>, AllocError>
    ensures { IfOk result (λ it. OnOk it (AreAudited (bytes_in (F.entries folder.now) LOG.now)
        (map (λ name. bytes_in (F.entries folder.now) (string_bytes name)) names.now))) }
{
    let mut archives = Vec::new(alloc);
    for name in names {
        archives.push(name.as_str())?;
    }
    Ok(audit_files(&ByName { folder }, alloc, LOG, &archives))
}
