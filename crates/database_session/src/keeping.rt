//! The manifest of an open database is put in place.

ghost use Rattle.std.specs.Prelude.{ℕ, ◌≡◌, ◌≢◌, false, IfSome, List, None, OnOk, codes, true};
ghost use Rattle.std.specs.Io.KnownBytes.{Appends};
ghost use Rattle.copy_vault.specs.CopyWrite.{WritesCopy};
ghost use Rattle.engine_rules.specs.EngineState.{log_of};
ghost use Rattle.manifest.specs.Entries.{file_of};
ghost use Rattle.manifest.specs.Text.{manifest_text};
ghost use Rattle.saved_files.specs.PutFault.{bytes_by};
ghost use Rattle.saved_files.specs.Saved.{name_of};
ghost use Rattle.saved_files.specs.declared.saved_name.SavedName.TheVariants as saved;
ghost use Rattle.database_files.specs.Kept.{NotesOnly};
ghost use Rattle.database_files.specs.Kept.{HasSummedLog, IsManifestIn, KeepsOtherLines};
ghost use Rattle.database_session.specs.Placed.{IsNothing};
ghost use Rattle.database_files.specs.Kept.{Names, bytes_below};
ghost use Rattle.database_files.specs.DatabaseFolder.{HasFile};
ghost use Rattle.database_session.specs.MadeFiles.{is_master};

use crate::engine_files::{sum_of_copy, sum_of_master};
use crate::placed::Placed;
use crate::session::{OpenDatabase, TellsWhy};
use aries_core::Engine;
use copy_vault::CopyId;
use database_files::{KeptManifest, LOG, MASTER, Place, note_file, put_text};
use fuzzy_ckpt::Point;
use log_store::{LogDevice, Master};
use manifest::Manifest;
use page_store::PageStore;
use saved_files::{FileFault, Folder, SavedName};
use std::alloc::Global;

impl<F: Folder, S: PageStore, D: LogDevice + TellsWhy> OpenDatabase<'_, F, S, D> {
    /// Names the files in the manifest that were put in place since it was, if there are any. The
    /// calls that put them are answered: where it is not written that is told.
    pub fn keep_placed(&mut self, kept: &mut KeptManifest)
        requires { F.is_claimed self.old.folder }
        // Where that failed, it is told. Else it names the copy that was put in place.
        ensures named { self.new.has_failed ≡ false → IfSome self.old.placed.copy (λ id.
            IsManifestIn (F.entries self.new.folder) kept.new.manifest
            × Names kept.new.manifest.entries (name_of (saved.Copy id))
            (bytes_by (WritesCopy self.old.engine.state.copies id))) }
        ensures nothing { IsNothing self.new.placed }
        ensures due { kept.new.is_due ≡ false }
        // What failed before is not forgotten.
        ensures stays { self.new.has_failed ≡ false → self.old.has_failed ≡ false }
        ensures engine { self.new.engine ≡ self.old.engine }
        ensures claimed { F.is_claimed self.new.folder }
    {
        if kept.is_due || !self.placed.is_nothing() {
            self.keep_manifest(kept);
        }
    }

    /// Puts the manifest in place, if it is other than what stands there.
    pub(crate) fn keep_last(&mut self, kept: &mut KeptManifest)
        requires { F.is_claimed self.old.folder }
        ensures named { self.new.has_failed ≡ false → IfSome self.old.placed.copy (λ id.
            IsManifestIn (F.entries self.new.folder) kept.new.manifest
            × Names kept.new.manifest.entries (name_of (saved.Copy id))
            (bytes_by (WritesCopy self.old.engine.state.copies id))) }
        ensures nothing { IsNothing self.new.placed }
        ensures placed { self.new.has_failed ≡ false → kept.new.is_placed ≡ true }
        ensures stays { self.new.has_failed ≡ false → self.old.has_failed ≡ false }
        ensures engine { self.new.engine ≡ self.old.engine }
        ensures claimed { F.is_claimed self.new.folder }
    {
        let end = self.engine.log().forced_end();
        if !kept.is_placed || !self.placed.is_nothing() || !kept.has_log_to(end) {
            self.keep_manifest(kept);
        }
    }

    /// Puts the manifest in place, or tells why not.
    fn keep_manifest(&mut self, kept: &mut KeptManifest)
        requires { F.is_claimed self.old.folder }
        ensures put { self.new.has_failed ≡ false
            → IsManifestIn (F.entries self.new.folder) kept.new.manifest }
        ensures named { self.new.has_failed ≡ false → IfSome self.old.placed.copy (λ id.
            Names kept.new.manifest.entries (name_of (saved.Copy id))
            (bytes_by (WritesCopy self.old.engine.state.copies id))) }
        ensures nothing { IsNothing self.new.placed }
        ensures due { kept.new.is_due ≡ false }
        ensures placed { self.new.has_failed ≡ false → kept.new.is_placed ≡ true }
        ensures stays { self.new.has_failed ≡ false → self.old.has_failed ≡ false }
        ensures engine { self.new.engine ≡ self.old.engine }
        ensures claimed { F.is_claimed self.new.folder }
    {
        let copy = self.placed.copy;
        let done = self.put_manifest(kept, copy);
        self.placed = Placed::nothing();
        kept.is_due = false;
        match done {
            Ok(()) => kept.is_placed = true,
            Err(fault) => {
                kept.is_placed = false;
                self.has_failed = true;
                self.diagnostics
                    .tell_unkept(Place::Manifest, fault, self.notes);
            }
        }
    }

    /// Puts the manifest in place, which names the log as far as it is forced, the copy that was
    /// put in place, and the master record of the last complete checkpoint, unless that one waits.
    fn put_manifest(&mut self, kept: &mut KeptManifest, copy: Option<u32>) -> Result<(), FileFault>
        requires claimed { F.is_claimed self.old.folder }
        ensures put { OnOk result (HasFile (codes "manifest")
            (bytes_by (λ old new. Appends old new (manifest_text kept.new.manifest)))
            (F.entries self.new.folder)) }
        ensures stored { OnOk result (F.is_stored self.new.folder) }
        ensures log { OnOk result (HasSummedLog kept.old.log (log_of self.old.engine.state)
            → Names kept.new.manifest.entries LOG.now (λ bytes.
            bytes ≡ bytes_below self.old.engine.state.forced_end (log_of self.old.engine.state))) }
        ensures summed { HasSummedLog kept.old.log (log_of self.old.engine.state)
            → HasSummedLog kept.new.log (log_of self.old.engine.state) }
        ensures copy { OnOk result (IfSome copy (λ id.
            Names kept.new.manifest.entries (name_of (saved.Copy id))
            (bytes_by (WritesCopy self.old.engine.state.copies id)))) }
        ensures master { OnOk result (self.old.point ≡ None
            → IfSome self.old.engine.state.master (λ point.
            Names kept.new.manifest.entries MASTER.now (is_master point.begin point.end))) }
        // One that waits is not named: an older one may stand there.
        ensures waits { OnOk result (self.old.point ≢ None
            → file_of MASTER.now kept.new.manifest.entries ≡ None) }
        ensures others { OnOk result (KeepsOtherLines copy kept.old.manifest.entries
            kept.new.manifest.entries) }
        ensures failed { self.new.has_failed ≡ self.old.has_failed }
        ensures engine { self.new.engine ≡ self.old.engine }
        ensures claimed { F.is_claimed self.new.folder }
    {
        self.note_last(&mut kept.manifest)?;
        note_files(self.alloc, &self.engine, kept, copy)?;
        put_text(&mut self.folder, self.alloc, &kept.manifest)
    }

    /// Notes the master record of the last complete checkpoint, unless that one waits for it.
    fn note_last(&self, manifest: &mut Manifest) -> Result<(), FileFault>
        ensures master { OnOk result (self.now.point ≡ None
            → IfSome self.now.engine.state.master (λ point.
            Names manifest.new.entries MASTER.now (is_master point.begin point.end))) }
        ensures waits { OnOk result (self.now.point ≢ None
            → file_of MASTER.now manifest.new.entries ≡ None) }
        ensures others { OnOk result (NotesOnly MASTER.now manifest.old.entries
            manifest.new.entries) }
    {
        match self.engine.master() {
            Some(point) if self.point.is_none() => note_master(manifest, point),
            _ => {
                manifest.remove(MASTER);
                Ok(())
            }
        }
    }
}

/// Notes the copy that was put in place, and the log as far as it is forced.
fn note_files<S: PageStore, D: LogDevice>(
    alloc: Global,
    engine: &Engine<S, D>,
    kept: &mut KeptManifest,
    copy: Option<u32>,
) -> Result<(), FileFault>
    ensures log { OnOk result (HasSummedLog kept.old.log (log_of engine.now.state)
        → Names kept.new.manifest.entries LOG.now (λ bytes.
        bytes ≡ bytes_below engine.now.state.forced_end (log_of engine.now.state))) }
    ensures summed { HasSummedLog kept.old.log (log_of engine.now.state)
        → HasSummedLog kept.new.log (log_of engine.now.state) }
    ensures copy { OnOk result (IfSome copy (λ id.
        Names kept.new.manifest.entries (name_of (saved.Copy id))
        (bytes_by (WritesCopy engine.now.state.copies id)))) }
    ensures master { OnOk result (file_of MASTER.now kept.new.manifest.entries
        ≡ file_of MASTER.now kept.old.manifest.entries) }
    ensures others { OnOk result (KeepsOtherLines copy kept.old.manifest.entries
        kept.new.manifest.entries) }
{
    if let Some(id) = copy {
        note_copy(alloc, engine, &mut kept.manifest, id)?;
    }
    note_log(engine, kept)
}

/// Notes the log as far as it is forced.
fn note_log<S: PageStore, D: LogDevice>(
    engine: &Engine<S, D>,
    kept: &mut KeptManifest,
) -> Result<(), FileFault>
    ensures log { OnOk result (HasSummedLog kept.old.log (log_of engine.now.state)
        → Names kept.new.manifest.entries LOG.now (λ bytes.
        bytes ≡ bytes_below engine.now.state.forced_end (log_of engine.now.state))) }
    ensures summed { HasSummedLog kept.old.log (log_of engine.now.state)
        → HasSummedLog kept.new.log (log_of engine.now.state) }
    ensures others { OnOk result ((other : List ℕ) → other ≢ LOG.now
        → file_of other kept.new.manifest.entries ≡ file_of other kept.old.manifest.entries) }
{
    let log = engine.log();
    match kept.log.below(log.records(), log.forced_end()) {
        Some(file) => note_file(&mut kept.manifest, LOG, file),
        None => Err(FileFault::WriteFault(0)),
    }
}

/// Notes the file of a complete copy.
fn note_copy<S: PageStore, D: LogDevice>(
    alloc: Global,
    engine: &Engine<S, D>,
    manifest: &mut Manifest,
    id: u32,
) -> Result<(), FileFault>
    ensures named { OnOk result (Names manifest.new.entries (name_of (saved.Copy id))
        (bytes_by (WritesCopy engine.now.state.copies id))) }
    ensures others { OnOk result ((other : List ℕ) → other ≢ name_of (saved.Copy id)
        → file_of other manifest.new.entries ≡ file_of other manifest.old.entries) }
{
    let Ok(name) = format!(in alloc; "{}", SavedName::Copy(CopyId(id))) else {
        return Err(FileFault::OutOfMemory);
    };
    match sum_of_copy(alloc, engine, CopyId(id)) {
        Ok(file) => note_file(manifest, name.as_str(), file),
        Err(why) => Err(why),
    }
}

/// Notes the master record of a checkpoint.
fn note_master(manifest: &mut Manifest, point: Point) -> Result<(), FileFault>
    ensures named { OnOk result (Names manifest.new.entries MASTER.now
        (is_master point.begin point.end)) }
    ensures others { OnOk result (NotesOnly MASTER.now manifest.old.entries manifest.new.entries) }
{
    let master = Master {
        begin: point.begin,
        end: point.end,
    };
    note_file(manifest, MASTER, sum_of_master(&master))
}
