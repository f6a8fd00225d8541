//! What a list compares with a manifest: how many bytes the copies have, and the log, which it reads.

use crate::report::FolderReport;
use crate::trouble::Trouble;
use checked_files::{Known, ManifestUse, ReadFile, fits_length, known_file};
use copy_vault::CopyId;
use database_files::{LOG, Place};
use file_view::Rows;
use manifest::{Extent, FileSum, Manifest, Sums};
use saved_files::SavedName;
use std::alloc::{AllocError, Global};

/// Whether the copies that are listed, and the log of these bytes, may be the files that this
/// manifest names. What is another file is told. The manifest was read before the log, which may
/// grow meanwhile.
pub(crate) fn are_named(
    alloc: Global,
    choice: ManifestUse<'_>,
    manifest: &Manifest,
    rows: &Rows,
    log: Option<&[u8]>,
    report: &mut FolderReport,
) -> Result<bool, AllocError> {
    let mut are_named = true;
    if let Some(bytes) = log {
        if let Some(file) = named(choice, manifest, LOG, Place::Log, report)? {
            are_named = log_is_named(file, bytes, report)?;
        }
    }
    for row in rows.rows() {
        let id = CopyId(row.header.id);
        let name = format!(in alloc; "{}", SavedName::Copy(id))?;
        if let Some(file) = named(choice, manifest, name.as_str(), Place::Copy(id), report)? {
            are_named = copy_is_named(Place::Copy(id), file, row.bytes, report)? && are_named;
        }
    }
    Ok(are_named)
}

/// What a manifest says of the file of this name. That it does not name it is told.
fn named(
    choice: ManifestUse<'_>,
    manifest: &Manifest,
    name: &str,
    place: Place,
    report: &mut FolderReport,
) -> Result<Option<FileSum>, AllocError> {
    let file = ReadFile {
        name,
        in_part: false,
        log: None,
    };
    match known_file(choice, Some(manifest), &file) {
        Known::Nothing => Ok(None),
        Known::Unnamed => {
            report.tell_behind(Trouble::Unnamed(place))?;
            Ok(None)
        }
        Known::Named(file) => Ok(Some(file)),
    }
}

/// Whether these are the bytes of the log that is named.
fn log_is_named(
    file: FileSum,
    bytes: &[u8],
    report: &mut FolderReport,
) -> Result<bool, AllocError> {
    let mut sums = Sums::new();
    sums.update(part_of(file, bytes));
    let (sum, count) = sums.finish();
    if file.agrees(sum, count) {
        return Ok(true);
    }
    report.tell_behind(Trouble::Other {
        place: Place::Log,
        named: file.bytes,
        count,
    })?;
    Ok(false)
}

/// What is summed of the bytes of a file.
fn part_of(file: FileSum, bytes: &[u8]) -> &[u8] {
    match file.extent {
        Extent::First if file.bytes < bytes.len() as u64 => &bytes[..file.bytes as usize],
        _ => bytes,
    }
}

/// Whether a copy of so many bytes may be the one that is named.
fn copy_is_named(
    place: Place,
    file: FileSum,
    count: u64,
    report: &mut FolderReport,
) -> Result<bool, AllocError> {
    if fits_length(file, count) {
        return Ok(true);
    }
    report.tell_behind(Trouble::Other {
        place,
        named: file.bytes,
        count,
    })?;
    Ok(false)
}
