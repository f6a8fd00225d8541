//! Which way a database is opened: a new one is made, or one goes on from its log.

ghost use Rattle.std.specs.Prelude.{ℕ, ◌≡◌, ◌≤◌, false, IfErr, IfOk, IfSome, List, None};
ghost use Rattle.std.specs.Prelude.{OnOk, Option, Some, true};
ghost use Rattle.std.specs.List.Sorted.{IsNonDecreasing};
ghost use Rattle.buffer_pool.specs.Pool.{IsFrameCount};
ghost use Rattle.log_records.specs.Log.{IsPageCount};
ghost use Rattle.saved_files.specs.Folder.{Changes, IsSame};
ghost use Rattle.database_files.specs.Closed.{IsWithoutNote};
ghost use Rattle.database_files.specs.DatabaseFolder.{HasNoOtherVolume, OpensLog};
ghost use Rattle.database_files.specs.Evidence.{log_line};
ghost use Rattle.database_files.specs.Found.{IsFoundIn, IsInventoryOf, SpellsManifest};
ghost use Rattle.database_files.specs.MovedAside.{KeepsOrPutsAside};
ghost use Rattle.database_opening.specs.OldVolume.{KeepsOldVolume, KeepsOldVolumeOfNew};
ghost use Rattle.database_opening.specs.Opened.{Begins, BeginsAnew, HandsOn, len_of};
ghost use Rattle.database_files.specs.Found.{HasNoOrphan};
ghost use Rattle.database_files.specs.Kept.{IsNameIn};
ghost use Rattle.database_files.specs.Refused.{IsRefusal};
ghost use Rattle.database_files.specs.Standing.{KeepsFiles};

use crate::first_line::FirstLine;
use crate::new_database::begin;
use crate::old_volume::{keep_volume, old_volume};
use crate::open_call::OpenCall;
use crate::restarted::{ResumedDatabase, reopen};
use crate::volume_file::check_volume;
use aries_core::Setup;
use database_files::{
    DatabaseFolder, Diagnostics, Inventory, LogFile, MANIFEST, OpenFault, Place, is_headless,
    log_line, name_for, read_manifest,
};
use log_records::HEADER_BYTES;
use manifest::Manifest;
use std::alloc::Global;

/// Claims the folder and opens the database in it.
pub fn opened<F: DatabaseFolder>(
    diagnostics: &Diagnostics<'_>,
    folder: &mut F,
    call: &OpenCall<'_>,
) -> Result<ResumedDatabase<F::Volume, F::LogDisk>, OpenFault>
    requires pages { IfSome call.now.pages IsPageCount }
    requires frames { IsFrameCount call.now.frames }
    ensures begins { IfOk result (λ it. (log : Option ℕ) × (ids : List ℕ)
        × Begins (F.entries folder.old) call.now.salvage log ids call.now.pages call.now.frames
        it.first it.engine.state) }
    ensures handed { IfOk result (λ it. HandsOn (F.entries folder.old) call.now.salvage it.first
        it.engine.state it.unread.items it.point it.is_master_wrong) }
    // It has the name that the manifest there says, and is handed that manifest.
    ensures named { IfOk result (λ it. IsNameIn it.manifest it.database.0) }
    ensures manifest { IfOk result (λ it.
        IsFoundIn SpellsManifest (F.entries folder.old) MANIFEST.now it.manifest) }
    ensures claimed { IfOk result (λ _. F.is_claimed folder.new) }
    // However it ends, each file is left as it was, but for the log, the volume, the note of a
    // closing and what is unfinished, unless what is left of a log is to be opened.
    ensures kept { call.now.salvage ≡ false
        → Changes KeepsFiles (F.entries folder.old) (F.entries folder.new) }
    // What is left of a log is to be opened: a file that knows of more may get another name.
    ensures stays { Changes KeepsOrPutsAside (F.entries folder.old) (F.entries folder.new) }
    // Of a new one: a volume that has a change is not lost.
    ensures volume { IfOk result (λ it. KeepsOldVolumeOfNew it.first call.now.salvage
        (F.entries folder.old) (F.entries folder.new)) }
    // The note of the last closing says nothing of what comes now.
    ensures gone { OnOk result (IsWithoutNote (F.entries folder.new)) }
    // The folder was only looked at.
    ensures refused { IfErr result (λ fault. IsRefusal fault
        → Changes IsSame (F.entries folder.old) (F.entries folder.new)) }
{
    if let Some(most) = folder.low_limit()? {
        return Err(OpenFault::SmallFiles(most));
    }
    folder.claim_or_wait()?;
    let there = Inventory::of(diagnostics.alloc, folder)?;
    let log = folder.open_log(true)?;
    open_from(diagnostics, folder, call, log, &there)
}

/// Opens the database whose log has this file, or makes a new one where that never had a header.
fn open_from<F: DatabaseFolder>(
    diagnostics: &Diagnostics<'_>,
    folder: &mut F,
    call: &OpenCall<'_>,
    log: Option<LogFile<F::Log>>,
    there: &Inventory,
) -> Result<ResumedDatabase<F::Volume, F::LogDisk>, OpenFault>
    requires pages { IfSome call.now.pages IsPageCount }
    requires frames { IsFrameCount call.now.frames }
    requires claimed { F.is_claimed folder.old }
    requires there { OpensLog (F.entries folder.old) F.held log }
    requires inventory { IsInventoryOf (F.entries folder.old) there.now }
    requires rise { IsNonDecreasing there.now.copies.items }
    ensures begins { IfOk result (λ it. Begins (F.entries folder.old) call.now.salvage
        (len_of log) there.now.copies.items call.now.pages call.now.frames it.first
        it.engine.state) }
    ensures kept { call.now.salvage ≡ false
        → Changes KeepsFiles (F.entries folder.old) (F.entries folder.new) }
    ensures stays { Changes KeepsOrPutsAside (F.entries folder.old) (F.entries folder.new) }
    // Of a new one: a volume that has a change is not lost.
    ensures volume { IfOk result (λ it. KeepsOldVolumeOfNew it.first call.now.salvage
        (F.entries folder.old) (F.entries folder.new)) }
    ensures gone { OnOk result (IsWithoutNote (F.entries folder.new)) }
    ensures handed { IfOk result (λ it. HandsOn (F.entries folder.old) call.now.salvage it.first
        it.engine.state it.unread.items it.point it.is_master_wrong) }
    ensures refused { IfErr result (λ fault. IsRefusal fault
        → Changes IsSame (F.entries folder.old) (F.entries folder.new)) }
    // It has the name that the manifest there says, and is handed that manifest.
    ensures named { IfOk result (λ it. IsNameIn it.manifest it.database.0) }
    ensures manifest { IfOk result (λ it.
        IsFoundIn SpellsManifest (F.entries folder.old) MANIFEST.now it.manifest) }
    ensures claimed { F.is_claimed folder.new }
{
    let Some(log) = log else {
        return begun(diagnostics, folder, call, None, there);
    };
    match is_headless::<F>(diagnostics.alloc, &log) {
        Ok(true) => begun(diagnostics, folder, call, Some(log.file), there),
        Ok(false) => reopen(diagnostics, folder, call, log, there),
        Err(fault) => Err(fault),
    }
}

/// Makes a new database in a folder that is empty, or in which one was not made to its end.
fn begun<F: DatabaseFolder>(
    diagnostics: &Diagnostics<'_>,
    folder: &mut F,
    call: &OpenCall<'_>,
    log: Option<F::Log>,
    there: &Inventory,
) -> Result<ResumedDatabase<F::Volume, F::LogDisk>, OpenFault>
    requires pages { IfSome call.now.pages IsPageCount }
    requires frames { IsFrameCount call.now.frames }
    requires claimed { F.is_claimed folder.old }
    requires inventory { IsInventoryOf (F.entries folder.old) there.now }
    ensures new { IfOk result (λ it. BeginsAnew (F.entries folder.old) call.now.pages
        call.now.frames it.first it.engine.state) }
    ensures handed { IfOk result (λ it. HandsOn (F.entries folder.old) call.now.salvage it.first
        it.engine.state it.unread.items it.point it.is_master_wrong) }
    ensures kept { Changes KeepsFiles (F.entries folder.old) (F.entries folder.new) }
    // A volume that has a change is there only where what is left is to be opened, and is kept.
    ensures volume { OnOk result (KeepsOldVolume call.now.salvage
        (F.entries folder.old) (F.entries folder.new)) }
    ensures gone { OnOk result (IsWithoutNote (F.entries folder.new)) }
    // The names of the log and of the volume last.
    ensures stored { IfOk result (λ _. F.is_stored folder.new) }
    ensures refused { IfErr result (λ fault. IsRefusal fault
        → Changes IsSame (F.entries folder.old) (F.entries folder.new)) }
    // It has the name that the manifest there says, and is handed that manifest.
    ensures named { IfOk result (λ it. IsNameIn it.manifest it.database.0) }
    ensures manifest { IfOk result (λ it.
        IsFoundIn SpellsManifest (F.entries folder.old) MANIFEST.now it.manifest) }
    ensures claimed { F.is_claimed folder.new }
{
    let alloc = diagnostics.alloc;
    let manifest = manifest_of_new(alloc, folder, there)?;
    let pages = count_of_new(alloc, folder, call, there)?;
    let held = old_volume(folder, call.salvage)?;
    let database = name_for(folder, &manifest)?;
    there.clear(folder)?;
    keep_volume(diagnostics, folder, &held)?;
    let setup = Setup {
        pages,
        frames: call.frames,
    };
    let engine = begin(alloc, folder, log, setup)?;
    Ok(ResumedDatabase {
        engine,
        first: FirstLine::New(pages),
        point: None,
        is_master_wrong: false,
        unread: Vec::new(alloc),
        database,
        manifest,
        sums: None,
    })
}

/// The manifest that stands where there is no log. It must not name one.
fn manifest_of_new<F: DatabaseFolder>(
    alloc: Global,
    folder: &F,
    there: &Inventory,
) -> Result<Option<Manifest>, OpenFault>
    requires { IsInventoryOf (F.entries folder.now) there.now }
    ensures found { IfOk result
        (IsFoundIn SpellsManifest (F.entries folder.now) MANIFEST.now) }
    ensures header { IfOk result (λ it.
        IfSome (log_line it) (λ file. file.bytes ≤ HEADER_BYTES)) }
{
    let manifest = read_manifest(alloc, folder, there.has_manifest)?;
    match log_line(&manifest) {
        Some(file) if file.bytes > HEADER_BYTES as u64 => Err(OpenFault::LogLost(Place::Manifest)),
        _ => Ok(manifest),
    }
}

/// How many pages a new database is to have, where one may be made in this folder. It only looks.
fn count_of_new<F: DatabaseFolder>(
    alloc: Global,
    folder: &F,
    call: &OpenCall<'_>,
    there: &Inventory,
) -> Result<u32, OpenFault>
    requires { IsInventoryOf (F.entries folder.now) there.now }
    ensures told { IfOk result (λ pages. call.now.pages ≡ Some pages) }
    ensures files { OnOk result (IfSome (F.entries folder.now) HasNoOrphan) }
    ensures volume { OnOk result (HasNoOtherVolume (F.entries folder.now)) }
{
    if let Some(place) = there.orphan() {
        return Err(OpenFault::LogLost(place));
    }
    if let Some(name) = &there.stranger {
        return Err(OpenFault::Stranger(String::from_str(alloc, name)?));
    }
    let Some(pages) = call.pages else {
        return Err(OpenFault::NoCount);
    };
    check_volume(folder)?;
    Ok(pages)
}
