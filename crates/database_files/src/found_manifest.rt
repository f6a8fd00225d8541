//! The manifest, as it is found in a folder.

ghost use Rattle.std.specs.Prelude.{◌≡◌, IfOk, IfSome, None, take};
ghost use Rattle.manifest.specs.Sums.{HasSummed};
ghost use Rattle.database_files.specs.DatabaseFolder.{Tells};
ghost use Rattle.database_files.specs.Evidence.{BeginsAs, log_line};
ghost use Rattle.database_files.specs.Found.{IsFoundIn, SpellsManifest};
ghost use Rattle.database_files.specs.Kept.{IsNameIn};

use crate::database_folder::DatabaseFolder;
use crate::fault::OpenFault;
use crate::names::{LOG, MANIFEST};
use crate::place::Place;
use crate::whole_file::read_whole;
use manifest::{DatabaseName, FileSum, Manifest, Sums, decode};
use std::alloc::Global;

/// The manifest of a folder, if there is one. What has its name has to be one.
pub fn read_manifest<F: DatabaseFolder>(
    alloc: Global,
    folder: &F,
    is_there: bool,
) -> Result<Option<Manifest>, OpenFault>
    ensures { IfOk result (λ it. Tells (F.entries folder.now) MANIFEST.now is_there
        → IsFoundIn SpellsManifest (F.entries folder.now) MANIFEST.now it) }
{
    if !is_there {
        return Ok(None);
    }
    // Where its name is there, and no file, it is a link that leads nowhere.
    let Some(bytes) = read_whole(folder, Place::Manifest, MANIFEST)? else {
        return Err(OpenFault::NotAFile(Place::Manifest));
    };
    match decode(alloc, &bytes) {
        Ok(manifest) => Ok(Some(manifest)),
        Err(why) => Err(OpenFault::BadManifest(why)),
    }
}

/// What a manifest says of the log.
pub fn log_line(manifest: &Option<Manifest>) -> Option<FileSum>
    ensures { result ≡ log_line manifest.now }
{
    match manifest {
        Some(manifest) => manifest.entry(LOG),
        None => None,
    }
}

/// The sum of the bytes that a manifest names, if these begin with them.
pub(crate) fn sums_of(file: &FileSum, bytes: &[u8]) -> Option<Sums>
    ensures sums { IfSome result (λ sums. HasSummed sums (take file.now.bytes bytes.now)
        × BeginsAs file.now bytes.now) }
    ensures none { result ≡ None → ¬ BeginsAs file.now bytes.now }
{
    let first = bytes.get(..file.bytes as usize)?;
    let mut sums = Sums::new();
    sums.update(first);
    let (sum, count) = sums.now();
    if file.agrees(sum, count) {
        Some(sums)
    } else {
        None
    }
}

/// The name of the database of a folder: that in its manifest, or one that is drawn.
pub fn name_for<F: DatabaseFolder>(
    folder: &F,
    manifest: &Option<Manifest>,
) -> Result<DatabaseName, OpenFault>
    ensures { IfOk result (λ it. IsNameIn manifest.now it.0) }
{
    match manifest {
        Some(manifest) => Ok(manifest.database()),
        None => drawn_name(folder),
    }
}

/// A new name.
pub fn drawn_name<F: DatabaseFolder>(folder: &F) -> Result<DatabaseName, OpenFault> {
    let mut bytes = [0; 16];
    match folder.draw(&mut bytes) {
        Ok(()) => Ok(DatabaseName(bytes)),
        Err(error) => Err(OpenFault::NoName(error.raw_os_error())),
    }
}
