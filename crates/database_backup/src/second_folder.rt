//! The files of a backup in a second folder.

ghost use Rattle.std.specs.Prelude.{◌≡◌, false, IfErr, IfOk, IfSome, IsSomeAnd, OnOk};
ghost use Rattle.std.specs.Io.{StartsWith};
ghost use Rattle.saved_files.specs.Folder.{Changes, HasNewOrOld, KeepsOthers, Puts, absent};
ghost use Rattle.saved_files.specs.Saved.{name_of};
ghost use Rattle.saved_files.specs.declared.saved_name.SavedName.TheVariants as saved;
ghost use Rattle.database_files.specs.Standing.{AddsCopies, AddsFiles};
ghost use Rattle.database_backup.specs.Backups.{AreBackedUp, FillsCopies};
ghost use Rattle.database_backup.specs.Backups.{FillsCopy, HasManifestOf, IsBackup, IsCopyOf};
ghost use Rattle.database_backup.specs.Backups.{IsOfSame};
ghost use Rattle.database_files.specs.Standing.{KeepsBut};
ghost use Rattle.database_backup.specs.Backups.{KeepsOrPuts, KeepsOtherFiles, KeepsTheRest};
ghost use Rattle.database_backup.specs.Backups.{NotesCopies, PutsManifestLast};
ghost use Rattle.database_files.specs.Kept.{NotesOnly};
ghost use Rattle.database_files.specs.DatabaseFolder.{HasBytes, Reads};
ghost use Rattle.database_files.specs.Kept.{Names, TakesLines, extent_of};
ghost use Rattle.database_files.specs.Standing.{KeepsFinished};
ghost use Rattle.database_files.specs.declared.fault.OpenFault.TheVariants as fault;
ghost use Rattle.database_files.specs.declared.place.Place.TheVariants as place;

use copy_vault::CopyId;
use database_files::{
    Bytes, DatabaseFolder, Diagnostics, MANIFEST, MASTER, OpenFault, Place, is_unfinished_backup,
    note_file, put_text, read_manifest, read_whole, without_lost,
};
use database_session::{place, sum_of};
use manifest::{DatabaseName, Extent, FileSum, Manifest};
use saved_files::{Folder, PutFault, SavedName};
use std::alloc::Global;
use std::io::ErrorKind;

/// Puts the log, the master record and these copies of a database into a second folder, each whole
/// and synced, or not there, and then a manifest that names them. A copy that is there already
/// stays. What is there of another database is not touched: the manifest there has to be of this
/// one, the log there has to be the beginning of this one's, a master record has to stand beside a
/// log, and each copy has to be the same.
pub(crate) fn put_beside<O: DatabaseFolder, F: DatabaseFolder>(
    diagnostics: &Diagnostics<'_>,
    from: &O,
    folder: &mut F,
    copies: &[CopyId],
    database: DatabaseName,
) -> Result<(), OpenFault>
    ensures put { OnOk result (Changes (IsBackup (O.entries from.now) copies.now database.0)
        (F.entries folder.old) (F.entries folder.new)) }
    ensures stored { OnOk result (F.is_stored folder.new) }
    ensures claimed { OnOk result (F.is_claimed folder.new) }
    // Nothing of another database is gone on with.
    ensures of_this { OnOk result (HasManifestOf database.0 (F.entries folder.old)) }
    ensures rest { Changes (KeepsTheRest (O.entries from.now) copies.now database.0)
        (F.entries folder.old) (F.entries folder.new) }
{
    folder.claim_or_wait()?;
    let alloc = diagnostics.alloc;
    let manifest = manifest_beside(diagnostics, folder, database)?;
    let log = found(alloc, from, SavedName::Log)?;
    check_all(alloc, from, folder, copies, &log)?;
    clear(folder)?;
    fill(alloc, from, folder, copies, &log, manifest)
}

/// The manifest of a second folder, which has to be of this database, without the lines of files
/// that are gone; or a new one.
fn manifest_beside<F: DatabaseFolder>(
    diagnostics: &Diagnostics<'_>,
    folder: &F,
    database: DatabaseName,
) -> Result<Manifest, OpenFault>
    // Nobody else puts files there meanwhile.
    requires { F.is_claimed folder.now }
    ensures database { IfOk result (λ it. it.database ≡ database.0) }
    ensures of_this { OnOk result (HasManifestOf database.0 (F.entries folder.now)) }
    ensures lines { IfOk result (λ it. TakesLines (F.entries folder.now) it.entries) }
{
    let alloc = diagnostics.alloc;
    let is_there = folder.has(MANIFEST).map_err(OpenFault::of_folder)?;
    match read_manifest(alloc, folder, is_there)? {
        Some(it) if it.database() != database => Err(OpenFault::OtherDatabase(Place::Manifest)),
        Some(it) => Ok(without_lost(diagnostics, folder, it)?.0),
        None => Ok(Manifest::new(alloc, database)),
    }
}

/// Where a file of a run stands.
fn place_of(name: &SavedName) -> Place {
    match name {
        SavedName::Log => Place::Log,
        SavedName::Master => Place::Master,
        SavedName::Copy(id) => Place::Copy(*id),
    }
}

/// The bytes of a file, if it is there.
fn at<F: DatabaseFolder>(
    alloc: Global,
    folder: &F,
    name: SavedName,
) -> Result<Option<Vec<u8>>, OpenFault>
    ensures { IfOk result (λ it.
        Reads it (λ bytes. bytes.items) (F.entries folder.now) (name_of name)) }
{
    let text = format!(in alloc; "{name}")?;
    read_whole(folder, place_of(&name), text.as_str())
}

/// The bytes of a file that has to be there.
fn found<F: DatabaseFolder>(
    alloc: Global,
    folder: &F,
    name: SavedName,
) -> Result<Vec<u8>, OpenFault>
    ensures { IfOk result (λ it. HasBytes (F.entries folder.now) (name_of name) it.items) }
{
    match at(alloc, folder, name)? {
        Some(bytes) => Ok(bytes),
        None => Err(OpenFault::LogLost(place_of(&name))),
    }
}

/// Removes what an older backup left unfinished. A folder that has such a name stays: no backup
/// leaves one.
fn clear<F: DatabaseFolder>(folder: &mut F) -> Result<(), OpenFault>
    requires { F.is_claimed folder.old }
    ensures kept { Changes KeepsFinished (F.entries folder.old) (F.entries folder.new) }
    ensures claimed { F.is_claimed folder.new }
{
    for name in folder.names().map_err(OpenFault::of_folder)? {
        remove_unfinished(folder, name.as_str())?;
    }
    Ok(())
}

/// Removes the file of this name, if it is one that is not whole.
fn remove_unfinished<F: DatabaseFolder>(folder: &mut F, name: &str) -> Result<(), OpenFault>
    requires { F.is_claimed folder.old }
    ensures kept { Changes KeepsFinished (F.entries folder.old) (F.entries folder.new) }
    ensures claimed { F.is_claimed folder.new }
{
    if is_unfinished_backup(name) {
        remove_file(folder, name)
    } else {
        Ok(())
    }
}

/// Removes the file of this name, if it is no folder.
fn remove_file<F: DatabaseFolder>(folder: &mut F, name: &str) -> Result<(), OpenFault>
    requires { F.is_claimed folder.old }
    ensures others { Changes (KeepsOthers name.now)
        (F.entries folder.old) (F.entries folder.new) }
    ensures claimed { F.is_claimed folder.new }
{
    match folder.remove(name) {
        Ok(()) => Ok(()),
        Err(error) if error.kind() == ErrorKind::IsADirectory => Ok(()),
        Err(error) => Err(OpenFault::of_folder(error)),
    }
}

/// Sees that what is there of the log and these copies is of the same database as this log.
fn check_all<O: DatabaseFolder, F: DatabaseFolder>(
    alloc: Global,
    from: &O,
    folder: &F,
    copies: &[CopyId],
    log: &[u8],
) -> Result<(), OpenFault>
    requires { F.is_claimed folder.now }
    ensures { OnOk result
        (IfSome (F.entries folder.now) (IsOfSame (O.entries from.now) log.now copies.now)) }
{
    let older = at(alloc, folder, SavedName::Log)?;
    check_master(folder, older.is_some())?;
    check_beginning(older, log)?;
    for id in copies {
        check_same(alloc, from, folder, *id)?;
    }
    Ok(())
}

/// Sees that no master record is there where no log is: that would be one of another database.
fn check_master<F: DatabaseFolder>(folder: &F, has_log: bool) -> Result<(), OpenFault>
    ensures { OnOk result (has_log ≡ false
        → IfSome (F.entries folder.now) (λ it. it (name_of saved.Master) ≡ absent)) }
{
    if !has_log && folder.has(MASTER).map_err(OpenFault::of_folder)? {
        return Err(OpenFault::OtherDatabase(Place::Master));
    }
    Ok(())
}

/// Sees that a log is the beginning of this one, if it is there.
fn check_beginning(older: Option<Vec<u8>>, log: &[u8]) -> Result<(), OpenFault>
    ensures begins { OnOk result (IfSome older (λ it. StartsWith log.now it.items)) }
    ensures other { IfErr result (λ why. (why ≡ fault.OtherDatabase place.Log)
        × IsSomeAnd older (λ it. ¬ StartsWith log.now it.items)) }
{
    match older {
        Some(older) if !log.starts_with(&older) => Err(OpenFault::OtherDatabase(Place::Log)),
        _ => Ok(()),
    }
}

/// Sees that a copy is the same in both folders, if the second one has it.
fn check_same<O: DatabaseFolder, F: DatabaseFolder>(
    alloc: Global,
    from: &O,
    folder: &F,
    id: CopyId,
) -> Result<(), OpenFault>
    ensures { OnOk result (IfSome (F.entries folder.now) (λ it.
        IsCopyOf (O.entries from.now) (name_of (saved.Copy id)) (it (name_of (saved.Copy id))))) }
{
    let name = SavedName::Copy(id);
    match at(alloc, folder, name)? {
        Some(there) if there != found(alloc, from, name)? => {
            Err(OpenFault::OtherDatabase(Place::Copy(id)))
        }
        _ => Ok(()),
    }
}

/// Puts the files of a backup where what stands is of the same database as this log, and the
/// manifest behind them.
fn fill<O: DatabaseFolder, F: DatabaseFolder>(
    alloc: Global,
    from: &O,
    folder: &mut F,
    copies: &[CopyId],
    log: &[u8],
    mut manifest: Manifest,
) -> Result<(), OpenFault>
    requires claimed { F.is_claimed folder.old }
    requires read { HasBytes (O.entries from.now) (name_of saved.Log) log.now }
    requires same { IfSome (F.entries folder.old)
        (IsOfSame (O.entries from.now) log.now copies.now) }
    ensures put { OnOk result (Changes
        (IsBackup (O.entries from.now) copies.now manifest.database)
        (F.entries folder.old) (F.entries folder.new)) }
    ensures stored { OnOk result (F.is_stored folder.new) }
    ensures last { Changes (PutsManifestLast (O.entries from.now) copies.now manifest.database)
        (F.entries folder.old) (F.entries folder.new) }
    ensures older { Changes (KeepsOrPuts (O.entries from.now))
        (F.entries folder.old) (F.entries folder.new) }
    ensures others { Changes KeepsOtherFiles (F.entries folder.old) (F.entries folder.new) }
    ensures claimed { F.is_claimed folder.new }
{
    put_files(alloc, from, folder, copies, log, &mut manifest)?;
    match put_text(folder, alloc, &manifest) {
        Ok(()) => Ok(()),
        Err(why) => Err(OpenFault::Unput(Place::Manifest, why)),
    }
}

/// Puts the files of a backup, and notes them.
fn put_files<O: DatabaseFolder, F: DatabaseFolder>(
    alloc: Global,
    from: &O,
    folder: &mut F,
    copies: &[CopyId],
    log: &[u8],
    manifest: &mut Manifest,
) -> Result<(), OpenFault>
    requires claimed { F.is_claimed folder.old }
    requires read { HasBytes (O.entries from.now) (name_of saved.Log) log.now }
    requires same { IfSome (F.entries folder.old)
        (IsOfSame (O.entries from.now) log.now copies.now) }
    ensures put { OnOk result (Changes
        (AreBackedUp (O.entries from.now) copies.now manifest.new.entries)
        (F.entries folder.old) (F.entries folder.new)) }
    ensures database { OnOk result (manifest.new.database ≡ manifest.old.database) }
    ensures older { Changes (KeepsOrPuts (O.entries from.now))
        (F.entries folder.old) (F.entries folder.new) }
    ensures others { Changes AddsFiles (F.entries folder.old) (F.entries folder.new) }
    ensures claimed { F.is_claimed folder.new }
{
    put(alloc, folder, SavedName::Log, log, manifest)?;
    put_copies(alloc, from, folder, copies, manifest)?;
    let master = found(alloc, from, SavedName::Master)?;
    put(alloc, folder, SavedName::Master, &master, manifest)
}

/// Puts those of these copies that are not there, and notes all of them.
fn put_copies<O: DatabaseFolder, F: DatabaseFolder>(
    alloc: Global,
    from: &O,
    folder: &mut F,
    copies: &[CopyId],
    manifest: &mut Manifest,
) -> Result<(), OpenFault>
    requires { F.is_claimed folder.old }
    ensures put { OnOk result (Changes
        (FillsCopies (O.entries from.now) manifest.new.entries copies.now)
        (F.entries folder.old) (F.entries folder.new)) }
    ensures noted { OnOk result (NotesCopies manifest.old.entries manifest.new.entries) }
    ensures database { OnOk result (manifest.new.database ≡ manifest.old.database) }
    ensures others { Changes AddsCopies (F.entries folder.old) (F.entries folder.new) }
    ensures claimed { F.is_claimed folder.new }
{
    for id in copies {
        put_missing(alloc, from, folder, *id, manifest)?;
    }
    Ok(())
}

/// Puts a copy into the second folder, if it is not there, and notes it.
fn put_missing<O: DatabaseFolder, F: DatabaseFolder>(
    alloc: Global,
    from: &O,
    folder: &mut F,
    id: CopyId,
    manifest: &mut Manifest,
) -> Result<(), OpenFault>
    requires { F.is_claimed folder.old }
    ensures put { OnOk result (Changes
        (FillsCopy (O.entries from.now) manifest.new.entries (name_of (saved.Copy id)))
        (F.entries folder.old) (F.entries folder.new)) }
    ensures noted { OnOk result
        (NotesOnly (name_of (saved.Copy id)) manifest.old.entries manifest.new.entries) }
    ensures database { OnOk result (manifest.new.database ≡ manifest.old.database) }
    ensures others { Changes AddsCopies (F.entries folder.old) (F.entries folder.new) }
    ensures claimed { F.is_claimed folder.new }
{
    let name = SavedName::Copy(id);
    match at(alloc, folder, name)? {
        Some(there) => note(alloc, name, &there, manifest),
        None => put(alloc, folder, name, &found(alloc, from, name)?, manifest),
    }
}

/// Puts these bytes into the place of a file, has its name last, and notes them.
fn put<F: Folder>(
    alloc: Global,
    folder: &mut F,
    name: SavedName,
    bytes: &[u8],
    manifest: &mut Manifest,
) -> Result<(), OpenFault>
    requires { F.is_claimed folder.old }
    ensures put { OnOk result (Changes (Puts (name_of name) (λ it. it ≡ bytes.now))
        (F.entries folder.old) (F.entries folder.new)) }
    // Just these bytes are named.
    ensures named { OnOk result
        (Names manifest.new.entries (name_of name) (λ it. it ≡ bytes.now)) }
    ensures noted { OnOk result
        (NotesOnly (name_of name) manifest.old.entries manifest.new.entries) }
    ensures database { OnOk result (manifest.new.database ≡ manifest.old.database) }
    ensures stored { OnOk result (F.is_stored folder.new) }
    ensures either { Changes (HasNewOrOld (name_of name) (λ it. it ≡ bytes.now))
        (F.entries folder.old) (F.entries folder.new) }
    ensures others { Changes (KeepsBut (name_of name))
        (F.entries folder.old) (F.entries folder.new) }
    ensures claimed { F.is_claimed folder.new }
{
    match place(folder, alloc, name, &mut Bytes { bytes }) {
        Ok(()) => note(alloc, name, bytes, manifest),
        Err(PutFault::Unmade(why) | PutFault::Unwritten(why) | PutFault::Unplaced(why)) => {
            Err(OpenFault::Unput(place_of(&name), why))
        }
    }
}

/// How much of a file is summed.
fn extent_of(name: &SavedName) -> Extent
    ensures { result ≡ extent_of (name_of name.now) }
{
    match name {
        SavedName::Log => Extent::First,
        SavedName::Master | SavedName::Copy(_) => Extent::Whole,
    }
}

/// Notes that a file has these bytes.
fn note(
    alloc: Global,
    name: SavedName,
    bytes: &[u8],
    manifest: &mut Manifest,
) -> Result<(), OpenFault>
    ensures named { OnOk result
        (Names manifest.new.entries (name_of name) (λ it. it ≡ bytes.now)) }
    ensures noted { OnOk result
        (NotesOnly (name_of name) manifest.old.entries manifest.new.entries) }
    ensures database { OnOk result (manifest.new.database ≡ manifest.old.database) }
{
    let text = format!(in alloc; "{name}")?;
    let extent = extent_of(&name);
    let FileSum { bytes, sum, .. } = sum_of(bytes);
    match note_file(manifest, text.as_str(), FileSum { extent, bytes, sum }) {
        Ok(()) => Ok(()),
        Err(_) => Err(OpenFault::OutOfMemory),
    }
}
