//! The log of a folder, and where it ends.

ghost use Rattle.std.specs.Prelude.{◌≡◌, IfOk, OnOk};
ghost use Rattle.folder_reports.specs.Reading.{IsWhole, bytes_in};
ghost use Rattle.folder_reports.specs.Reach.{IsReached};
ghost use Rattle.folder_reports.specs.Sound.{HasAllNoted};
ghost use Rattle.folder_reports.specs.declared.log_end.Reach.TheVariants.{Well};

use crate::closing::read_note;
use crate::folder_files::DatabaseFiles;
use crate::named_files::{log_length, opened, unread};
use crate::unread::Unread;
use database_files::{ClosedNote, LOG};
use file_view::ViewFault;
use log_prefix::{FrontScan, scan_front};
use std::alloc::Global;
use std::io::Read;
use system_files::{Noted, Notes};

/// Whether the file of the log has the bytes that the note of a closing tells of.
#[derive(Clone, Copy)]
pub enum Reach {
    /// It has them, or no note tells of any.
    Well,
    /// It has so many, and the note tells of so many.
    Short { bytes: u64, noted: u64 },
    /// There is no such file.
    Untold,
}

/// Whether the log of a folder has the bytes that the note of its last closing tells of. At `Err` the
/// file of the note cannot be read.
pub fn noted_reach<F: DatabaseFiles>(alloc: Global, folder: &F) -> Result<Reach, Unread>
    ensures { IfOk result (λ reach. reach ≡ Well → HasAllNoted (F.entries folder.now)) }
{
    match read_note(alloc, folder) {
        Ok(found) => Ok(log_reaches(folder, found.note)),
        Err(why) => Err(why),
    }
}

/// Whether the file of the log has the bytes that the note of a closing tells of.
pub(crate) fn log_reaches<F: DatabaseFiles>(folder: &F, note: Option<ClosedNote>) -> Reach
    ensures { IsReached (F.entries folder.now) note result }
{
    let Some(note) = note else {
        return Reach::Well;
    };
    let noted = note.end.0;
    match log_length(folder) {
        None => Reach::Untold,
        Some(bytes) if noted <= bytes => Reach::Well,
        Some(bytes) => Reach::Short { bytes, noted },
    }
}

/// Reads the log of a folder, which has to be one to its end. At `Err` it is none, or cannot be read.
pub fn read_log<F: DatabaseFiles>(alloc: Global, folder: &F) -> Result<(), Unread>
    ensures { OnOk result (IsWhole (bytes_in (F.entries folder.now) LOG.now)) }
{
    match opened(folder, LOG) {
        Ok(file) => whole_log(alloc, file),
        Err(why) => Err(why),
    }
}

/// Reads the file of a log.
fn whole_log<R: Read + Drop>(alloc: Global, file: R) -> Result<(), Unread>
    ensures { OnOk result (IsWhole (R.remaining file)) }
{
    let notes = Notes::new();
    let read = scan_noted(alloc, file, &notes);
    match read {
        Ok(()) => Ok(()),
        Err(fault) => Err(unread(fault, &notes)),
    }
}

/// Reads the file of a log. Why a call of it failed is noted.
fn scan_noted<R: Read + Drop>(alloc: Global, file: R, notes: &Notes) -> Result<(), ViewFault>
    ensures { OnOk result (IsWhole (R.remaining file)) }
{
    let mut input = Noted { file, notes };
    let found = scan_front::<_, ()>(alloc, &mut input)?;
    let FrontScan { scan: _scan, cut } = found;
    match cut {
        None => Ok(()),
        Some(cut) => Err(ViewFault::Log(cut.fault())),
    }
}
