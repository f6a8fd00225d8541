//! The copies of a folder, and what restores of them would do.

ghost use Rattle.std.specs.Prelude.{IfOk, IsTrue};
ghost use Rattle.database_files.specs.Closed.{SpellsNote};
ghost use Rattle.database_files.specs.Found.{IsFoundIn};
ghost use Rattle.folder_reports.specs.Sound.{HasAllNoted};

use crate::closing::{FoundNote, read_note};
use crate::copies::{copy_header, copy_ids};
use crate::folder_files::DatabaseFiles;
use crate::folder_manifest::counting_manifest;
use crate::listed_sums::are_named;
use crate::log_end::{Reach, log_reaches};
use crate::named_files::{opened, read_all};
use crate::report::FolderReport;
use crate::trouble::Trouble;
use crate::unread::Unread;
use checked_files::ManifestUse;
use copy_vault::CopyId;
use database_files::{CLOSED, LOG, Place};
use file_view::{Form, LogFacts, Rows, ViewFault, facts_of, put_copies, put_log};
use saved_files::NamedFiles;
use std::alloc::{AllocError, Global};
use std::io::ErrorKind;

/// Lists the copies of a folder, and what restores of them would do: the report gets the lines. It
/// goes on behind a file that is wrong, or is not the one that the manifest names, and tells of it;
/// so it does of a log that has less than the note of the last closing tells of. Says whether nothing
/// is wrong.
///
/// A manifest that is told is read from the other files. `AllocError` comes where memory is refused;
/// the report has what was found by then.
pub fn list_folder<F: DatabaseFiles, N: NamedFiles>(
    alloc: Global,
    folder: &F,
    others: &N,
    form: Form,
    choice: ManifestUse<'_>,
    report: &mut FolderReport,
) -> Result<bool, AllocError>
    ensures noted { IfOk result (λ it. IsTrue it → HasAllNoted (F.entries folder.now)) }
{
    let ids = match copy_ids(alloc, folder) {
        Ok(ids) => ids,
        Err(error) if error.kind() == ErrorKind::OutOfMemory => return Err(AllocError),
        Err(error) => {
            report.tell(Trouble::Unlisted(error.raw_os_error()))?;
            return Ok(false);
        }
    };
    // Beside an open database the log grows, and the manifest names more of it by and by. So the
    // manifest is read before the log, and so is the note of a closing.
    let (manifest, is_refused) = match counting_manifest(alloc, folder, others, choice) {
        Ok(manifest) => (manifest, false),
        Err(why) => {
            report.tell(why)?;
            (None, true)
        }
    };
    let note = read_note(alloc, folder);
    let bytes = log_bytes(alloc, folder);
    let (log, fault) = facts_in(alloc, &bytes);
    let (rows, are_all) = rows_of(alloc, folder, &ids, &log, report)?;
    put_copies(&mut report.lines, form, &rows)?;
    if let Some(log) = &log {
        put_log(&mut report.lines, form, &rows, log)?;
    }
    let have_no_flaw = tell_flaws(&rows, &log, report)?;
    let is_log = log_is_right(fault, report)?;
    let goes_on = note_is_met(folder, note, report)?;
    let are_named = match &manifest {
        Some(manifest) => {
            let bytes = bytes.as_ref().ok().map(|bytes| bytes.as_slice());
            are_named(alloc, choice, manifest, &rows, bytes, report)?
        }
        None => !is_refused,
    };
    Ok(are_all && have_no_flaw && is_log && are_named && goes_on)
}

/// The bytes of the log, to its end, or until there are more than the longest log has.
fn log_bytes<F: DatabaseFiles>(alloc: Global, folder: &F) -> Result<Vec<u8>, Unread> {
    match opened(folder, LOG) {
        Ok(file) => read_all(alloc, file),
        Err(why) => Err(why),
    }
}

/// What the bytes of a log come to, as far as they are one, and what is wrong with them.
fn facts_in(alloc: Global, bytes: &Result<Vec<u8>, Unread>) -> (Option<LogFacts>, Option<Unread>) {
    match bytes {
        Ok(bytes) => match facts_of(alloc, bytes) {
            Ok(log) => {
                let fault = cut_of(&log);
                (Some(log), fault)
            }
            Err(fault) => (None, Some(Unread::Fault(fault, None))),
        },
        Err(why) => (None, Some(*why)),
    }
}

/// What is wrong with the bytes behind a log, if there are any.
fn cut_of(log: &LogFacts) -> Option<Unread> {
    let cut = log.cut?;
    Some(Unread::Fault(ViewFault::Log(cut.fault()), None))
}

/// What is noted of the copies of these ids, and whether each has its header; what is wrong with one
/// that has not is told.
fn rows_of<F: DatabaseFiles>(
    alloc: Global,
    folder: &F,
    ids: &[u32],
    log: &Option<LogFacts>,
    report: &mut FolderReport,
) -> Result<(Rows, bool), AllocError> {
    let mut rows = Rows::new(alloc);
    let mut are_all = true;
    for id in ids {
        match copy_header(alloc, folder, *id)? {
            Ok((header, bytes)) => rows.push(header, bytes, log)?,
            Err(why) => {
                report.tell(Trouble::File(Place::Copy(CopyId(*id)), why))?;
                are_all = false;
            }
        }
    }
    Ok((rows, are_all))
}

/// Tells what is wrong with copies, and says whether nothing is.
fn tell_flaws(
    rows: &Rows,
    log: &Option<LogFacts>,
    report: &mut FolderReport,
) -> Result<bool, AllocError> {
    let end = log.as_ref().map_or(0, |log| log.end().0);
    let mut is_right = true;
    for row in rows.rows() {
        if row.flaw.is_none() {
            continue;
        }
        is_right = false;
        let pages = log
            .as_ref()
            .map_or(0, |log| log.counts.below(row.header.begin));
        report.tell(Trouble::Flawed {
            row: *row,
            pages,
            end,
        })?;
    }
    Ok(is_right)
}

/// Whether the log has no fault; that it has one is told.
fn log_is_right(fault: Option<Unread>, report: &mut FolderReport) -> Result<bool, AllocError> {
    match fault {
        None => Ok(true),
        Some(why) => {
            report.tell_behind(Trouble::File(Place::Log, why))?;
            Ok(false)
        }
    }
}

/// Whether the log has all that the note of the last closing tells of, which was found before. That
/// it has less is told, and what is no note, and what cannot be read.
fn note_is_met<F: DatabaseFiles>(
    folder: &F,
    found: Result<FoundNote, Unread>,
    report: &mut FolderReport,
) -> Result<bool, AllocError>
    requires { IfOk found (λ it. IsFoundIn SpellsNote (F.entries folder.now) CLOSED.now it.note) }
    ensures { IfOk result (λ it. IsTrue it → HasAllNoted (F.entries folder.now)) }
{
    let found = match found {
        Ok(found) => found,
        Err(why) => {
            report.tell_behind(Trouble::File(Place::Closed, why))?;
            return Ok(false);
        }
    };
    if found.is_wrong {
        report.tell_behind(Trouble::NoNote)?;
    }
    match log_reaches(folder, found.note) {
        Reach::Well => Ok(true),
        Reach::Untold => Ok(false),
        Reach::Short { bytes, noted } => {
            report.tell_behind(Trouble::Ends { bytes, noted })?;
            Ok(false)
        }
    }
}
