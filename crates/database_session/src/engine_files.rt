//! The files that an open database puts in place.

ghost use Rattle.std.specs.Prelude.{ℕ, ◌≡◌, IfOk, List, OnErr, OnOk};
ghost use Rattle.copy_vault.specs.CopyWrite.{LeavesCopy, WritesCopy};
ghost use Rattle.std.specs.Io.KnownBytes.{Appends};
ghost use Rattle.log_store.specs.Master.{master_bytes};
ghost use Rattle.manifest.specs.Sums.{IsSumOf};
ghost use Rattle.manifest.specs.declared.entry.Extent.TheVariants.{Whole};
ghost use Rattle.database_files.specs.DatabaseFolder.{HasFile};
ghost use Rattle.saved_files.specs.Folder.{Changes, LeavesWhole, Puts, PutsOrKeeps};
ghost use Rattle.saved_files.specs.PutFault.{bytes_by};
ghost use Rattle.saved_files.specs.Saved.{name_of};
ghost use Rattle.saved_files.specs.declared.saved_name.SavedName.TheVariants as saved;

use aries_core::Engine;
use copy_vault::{CopyId, CopyWriteFault};
use log_store::{LogDevice, Master, encode_master};
use manifest::{Extent, FileSum, Sums};
use page_store::PageStore;
use saved_files::{FileFault, Folder, PutFault, SavedName, Source, put_in_place};
use std::alloc::Global;
use std::io::Write;

/// A copy of an engine, whose archive is written.
#[derive(Drop)]
struct EngineCopy<'a, S: PageStore, D: LogDevice> {
    engine: &'a Engine<S, D>,
    id: CopyId,
}

impl<S: PageStore, D: LogDevice> Source for EngineCopy<'_, S, D> {
    type Fault = CopyWriteFault;

    ghost gives = { λ it old new. WritesCopy it.engine.now.state.copies it.id old new };

    ghost leaves = { λ it fault old new. LeavesCopy it.engine.now.state.copies it.id old new fault };

    fn write_to<W: Write>(&mut self, _alloc: Global, writer: &mut W) -> Result<(), CopyWriteFault> {
        self.engine.write_copy(self.id, writer)
    }
}

/// Puts a file in its place, and has its name last. At a fault the name has the old file or the
/// new one, whole, and so it has after a crash.
pub fn place<F: Folder, S: Source>(
    folder: &mut F,
    alloc: Global,
    file: SavedName,
    source: &mut S,
) -> Result<(), PutFault<S::Fault>>
    requires { F.is_claimed folder.old }
    ensures put { OnOk result (Changes (Puts (name_of file) (bytes_by (S.gives source.old)))
        (F.entries folder.old) (F.entries folder.new)) }
    ensures stored { OnOk result (F.is_stored folder.new) }
    ensures left { OnErr result (Changes
        (PutsOrKeeps (name_of file) (bytes_by (S.gives source.old)))
        (F.entries folder.old) (F.entries folder.new)) }
    // Once the names are stored a crash leaves what stands.
    ensures crash { OnErr result (Changes
        (LeavesWhole (name_of file) (bytes_by (S.gives source.old))
        (F.may_leave folder.old) (F.may_leave folder.new))
        (F.entries folder.old) (F.entries folder.new)) }
    ensures claimed { F.is_claimed folder.new }
{
    let Ok(name) = format!(in alloc; "{file}") else {
        return Err(PutFault::Unmade(FileFault::OutOfMemory));
    };
    if let Err(why) = put_in_place(folder, alloc, name.as_str(), source) {
        return Err(why);
    }
    match folder.sync_names() {
        Ok(()) => Ok(()),
        Err(_) => Err(PutFault::Unplaced(FileFault::WriteFault(0))),
    }
}

/// Puts the master record of a checkpoint in the place of the one before.
pub(crate) fn place_master<F: Folder>(
    folder: &mut F,
    alloc: Global,
    mut master: Master,
) -> Result<(), PutFault<FileFault>>
    requires { F.is_claimed folder.old }
    ensures put { OnOk result (Changes
        (Puts (name_of saved.Master) (bytes_by (λ old new. Appends old new (master_bytes master))))
        (F.entries folder.old) (F.entries folder.new)) }
    ensures there { OnOk result (HasFile (name_of saved.Master)
        (bytes_by (λ old new. Appends old new (master_bytes master))) (F.entries folder.new)) }
    ensures stored { OnOk result (F.is_stored folder.new) }
    ensures claimed { F.is_claimed folder.new }
{
    place(folder, alloc, SavedName::Master, &mut master)
}

/// Puts the archive of a complete copy in place.
pub(crate) fn place_copy<F: Folder, S: PageStore, D: LogDevice>(
    folder: &mut F,
    alloc: Global,
    engine: &Engine<S, D>,
    id: CopyId,
) -> Result<(), PutFault<CopyWriteFault>>
    requires { F.is_claimed folder.old }
    ensures put { OnOk result (Changes
        (Puts (name_of (saved.Copy id)) (bytes_by (WritesCopy engine.now.state.copies id)))
        (F.entries folder.old) (F.entries folder.new)) }
    ensures there { OnOk result (HasFile (name_of (saved.Copy id))
        (bytes_by (WritesCopy engine.now.state.copies id)) (F.entries folder.new)) }
    ensures stored { OnOk result (F.is_stored folder.new) }
    ensures claimed { F.is_claimed folder.new }
{
    let mut source = EngineCopy { engine, id };
    place(folder, alloc, SavedName::Copy(id), &mut source)
}

/// What is known of the archive of a complete copy.
pub(crate) fn sum_of_copy<S: PageStore, D: LogDevice>(
    alloc: Global,
    engine: &Engine<S, D>,
    id: CopyId,
) -> Result<FileSum, FileFault>
    ensures sum { IfOk result (λ it. (bytes : List ℕ)
        × bytes_by (WritesCopy engine.now.state.copies id) bytes × IsSumOf it.sum it.bytes bytes) }
    ensures extent { IfOk result (λ it. it.extent ≡ Whole) }
{
    let mut bytes = Vec::new(alloc);
    match engine.write_copy(id, &mut bytes) {
        Ok(()) => Ok(sum_of(&bytes)),
        Err(_) => Err(FileFault::OutOfMemory),
    }
}

/// What is known of the file of a master record.
pub(crate) fn sum_of_master(master: &Master) -> FileSum
    ensures sum { IsSumOf result.sum result.bytes (master_bytes master.now) }
    ensures extent { result.extent ≡ Whole }
{
    sum_of(&encode_master(master))
}

/// What is known of a file of these bytes.
pub fn sum_of(bytes: &[u8]) -> FileSum
    ensures sum { IsSumOf result.sum result.bytes bytes.now }
    ensures extent { result.extent ≡ Whole }
{
    let mut sums = Sums::new();
    sums.update(bytes);
    let (sum, bytes) = sums.finish();
    FileSum {
        extent: Extent::Whole,
        bytes,
        sum,
    }
}
