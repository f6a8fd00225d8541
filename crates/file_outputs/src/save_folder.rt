//! What stands in a folder before files are saved there.

use crate::output_lines::tell;
use checked_files::is_of_saved_files;
use file_inputs::{MANIFEST, bytes_of, length_at, may_be_read};
use file_view::ViewFault;
use manifest::{ManifestFault, decode};
use std::alloc::AllocError;
use std::fs;
use std::fs::TryLockError;
use std::path::Path;
use system_files::Notes;

/// The files that a database has beside those that a save writes.
const OF_DATABASE: [&str; 2] = ["volume", "closed"];

/// Why a folder is kept.
const IS_DATABASE: &str = "this is a database's folder: name another one, or add --force";

/// Why a folder is kept whose manifest cannot be read.
const MAY_BE_DATABASE: &str =
    "this may be the manifest of a database: name another folder, or add --force";

/// What stands under the name of a manifest.
#[derive(Clone, Copy)]
enum StandingManifest {
    Nothing,
    /// The manifest of saved files, or an empty file, which is one that is still to be written.
    OfSaved,
    /// What is kept, and why.
    Kept(&'static str),
}

/// Whether files may be saved in a folder: another one has no log open there, and without force the
/// folder is no database's. Why they may not is told.
pub fn may_save(rt: &HostRuntime, folder: &str, force: bool) -> Result<bool, AllocError> {
    let log = format!(in rt.alloc(); "{folder}/log")?;
    if is_open(rt, log.as_str()) {
        tell(rt, log.as_str(), &"another one has this log open");
        return Ok(false);
    }
    if force {
        return Ok(true);
    }
    for name in OF_DATABASE {
        let place = format!(in rt.alloc(); "{folder}/{name}")?;
        if stands(rt, place.as_str()) {
            tell(rt, place.as_str(), &IS_DATABASE);
            return Ok(false);
        }
    }
    let place = format!(in rt.alloc(); "{folder}/{MANIFEST}")?;
    if let StandingManifest::Kept(why) = standing(rt, place.as_str())? {
        tell(rt, place.as_str(), &why);
        return Ok(false);
    }
    Ok(true)
}

/// Whether something has the name of a manifest in a folder. Beside files that are saved there
/// later it would be a wrong one.
pub fn has_manifest(rt: &HostRuntime, folder: &str) -> Result<bool, AllocError> {
    let place = format!(in rt.alloc(); "{folder}/{MANIFEST}")?;
    Ok(stands(rt, place.as_str()))
}

/// Whether something has this name.
fn stands(rt: &HostRuntime, place: &str) -> bool {
    fs::symlink_metadata(rt, Path::new(place)).is_ok()
}

/// What stands at the place of a manifest.
fn standing(rt: &HostRuntime, place: &str) -> Result<StandingManifest, AllocError> {
    if !stands(rt, place) {
        return Ok(StandingManifest::Nothing);
    }
    if !may_be_read(rt, place) {
        return Ok(StandingManifest::Kept(MAY_BE_DATABASE));
    }
    if length_at(rt, place) == Some(0) {
        return Ok(StandingManifest::OfSaved);
    }
    let bytes = match bytes_of(rt, place, &Notes::new()) {
        Ok(bytes) => bytes,
        Err(ViewFault::OutOfMemory) => return Err(AllocError),
        Err(_) => return Ok(StandingManifest::Kept(MAY_BE_DATABASE)),
    };
    match decode(rt.alloc(), &bytes) {
        Ok(manifest) if is_of_saved_files(&manifest) => Ok(StandingManifest::OfSaved),
        Ok(_) => Ok(StandingManifest::Kept(IS_DATABASE)),
        Err(ManifestFault::OutOfMemory) => Err(AllocError),
        Err(_) => Ok(StandingManifest::Kept(MAY_BE_DATABASE)),
    }
}

/// Whether another one has the file at this place locked. A link is followed, and what is no
/// regular file is not opened.
fn is_open(rt: &HostRuntime, place: &str) -> bool {
    match fs::metadata(rt, place) {
        Ok(there) if there.is_file() => {}
        _ => return false,
    }
    match fs::open(rt, place) {
        Ok(file) => matches!(file.try_lock(), Err(TryLockError::WouldBlock)),
        Err(_) => false,
    }
}
