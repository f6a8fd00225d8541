//! Files of a folder that are read.

ghost use Rattle.std.specs.Prelude.{◌≡◌, ◌≤◌, IfOk, IfSome, MatchOption, length};
ghost use Rattle.folder_reports.specs.Reading.{BeginsWith, IsAbsentIn, IsFileIn, IsLogLength};

use crate::folder_files::DatabaseFiles;
use crate::unread::Unread;
use database_files::{LOG, Standing};
use file_view::{ViewFault, read_file};
use log_records::MAX_LOG_BYTES;
use std::alloc::Global;
use std::io::Read;
use system_files::{Noted, Notes};

/// Opens the file of this name.
pub(crate) fn opened<F: DatabaseFiles>(folder: &F, name: &str) -> Result<F::Reader, Unread>
    ensures { IfOk result (λ file.
        IsFileIn (F.entries folder.now) name.now (F.Reader.remaining file)) }
{
    match folder.open_file(name) {
        Ok(Standing::File(file)) => Ok(file),
        Ok(Standing::NotAFile) => Err(Unread::NotAFile),
        Ok(Standing::Absent) => Err(Unread::absent()),
        Err(error) => Err(Unread::from(error)),
    }
}

/// Opens the file of this name, if something has it.
pub(crate) fn opened_if_there<F: DatabaseFiles>(
    folder: &F,
    name: &str,
) -> Result<Option<F::Reader>, Unread>
    ensures { IfOk result (λ it. MatchOption it (IsAbsentIn (F.entries folder.now) name.now)
        (λ file. IsFileIn (F.entries folder.now) name.now (F.Reader.remaining file))) }
{
    match folder.has(name) {
        Ok(true) => {}
        Ok(false) => return Ok(None),
        Err(error) => return Err(Unread::from(error)),
    }
    match folder.open_file(name) {
        Ok(Standing::File(file)) => Ok(Some(file)),
        // Something has the name, so where no file does it is a link that leads nowhere.
        Ok(Standing::NotAFile | Standing::Absent) => Err(Unread::NotAFile),
        Err(error) => Err(Unread::from(error)),
    }
}

/// The bytes of an open file, to its end, or until there are more than the longest log has.
pub(crate) fn read_all<R: Read + Drop>(alloc: Global, file: R) -> Result<Vec<u8>, Unread>
    ensures given { IfOk result (λ bytes. BeginsWith (R.remaining file) bytes.items) }
    ensures whole { IfOk result (λ bytes. length bytes.items ≤ MAX_LOG_BYTES
        → IfSome (R.remaining file) (λ all. bytes.items ≡ all)) }
{
    let notes = Notes::new();
    let read = read_noted(alloc, file, &notes);
    match read {
        Ok(bytes) => Ok(bytes),
        Err(fault) => Err(unread(fault, &notes)),
    }
}

/// The bytes of an open file. Why a call of it failed is noted.
fn read_noted<R: Read + Drop>(alloc: Global, file: R, notes: &Notes) -> Result<Vec<u8>, ViewFault>
    ensures given { IfOk result (λ bytes. BeginsWith (R.remaining file) bytes.items) }
    ensures whole { IfOk result (λ bytes. length bytes.items ≤ MAX_LOG_BYTES
        → IfSome (R.remaining file) (λ all. bytes.items ≡ all)) }
{
    read_file(alloc, &mut Noted { file, notes })
}

/// Why a file was not read, with the number that the system has for a call that failed.
pub(crate) fn unread(fault: ViewFault, notes: &Notes) -> Unread {
    match (fault, notes.error()) {
        (ViewFault::ReadFault, Some(error)) => {
            Unread::Fault(ViewFault::ReadFault, error.raw_os_error())
        }
        (fault, _) => Unread::Fault(fault, None),
    }
}

/// Whether what has this name is no regular file, as far as can be told: of a pipe an open may never
/// end.
pub(crate) fn is_irregular<F: DatabaseFiles>(folder: &F, name: &str) -> bool {
    matches!(folder.length(name), Ok(Standing::NotAFile))
}

/// How many bytes the log has, if it is a regular file.
pub(crate) fn log_length<F: DatabaseFiles>(folder: &F) -> Option<u64>
    ensures { IsLogLength (F.entries folder.now) result }
{
    match folder.length(LOG) {
        Ok(Standing::File(bytes)) => Some(bytes),
        _ => None,
    }
}
