//! The files of a run, saved in a folder.

ghost use Rattle.std.specs.Prelude.{◌≡◌, IfErr, OnOk};
ghost use Rattle.saved_files.specs.Folder.{Changes, Puts};
ghost use Rattle.saved_files.specs.PutFault.{bytes_by};
ghost use Rattle.saved_files.specs.Saved.{AreSaved, IsOfFile, IsOfPart, LeavesFile, LeavesSaved};
ghost use Rattle.saved_files.specs.Saved.{name_of, parts_of};

use crate::file_fault::FileFault;
use crate::folder::Folder;
use crate::put_fault::PutFault;
use crate::put_file::{fault_of, put_in_place};
use crate::save_fault::SaveFault;
use crate::saved_name::SavedName;
use crate::source::Source;
use copy_coverage::Retired;
use copy_vault::{CopyId, MAX_COPIES};
use std::alloc::Global;

/// Saves what an engine leaves in a folder: `log`, with all records, `master`, if there is a master
/// record, and `copy-<id>` for each complete copy. Other files stay, older copies too.
///
/// The folder is taken for the time of the save, so that a second save into it is refused. Each
/// file is written beside its name, synced, and then takes the place of an older file of its name;
/// after the last one the folder is synced. So at a fault each name has its old file or its new
/// one, whole: those before the file of the fault are new. `WriteFault` comes with how many bytes
/// of that file went out where a write failed, and else with 0: where the folder cannot be taken,
/// or a file cannot be made, synced or put in its place, or the folder cannot be synced.
pub fn save_files<F: Folder>(
    folder: &mut F,
    alloc: Global,
    retired: &Retired,
) -> Result<(), SaveFault>
    ensures saved { OnOk result (Changes (AreSaved (parts_of retired.now))
        (F.entries folder.old) (F.entries folder.new)) }
    ensures stored { OnOk result (F.is_stored folder.new) }
    ensures left { IfErr result (λ fault. Changes (LeavesSaved (parts_of retired.now) fault
        (F.given_up folder.old) (F.given_up folder.new))
        (F.entries folder.old) (F.entries folder.new)) }
    ensures of_part { IfErr result (IsOfPart (parts_of retired.now)) }
{
    if let Err(error) = folder.claim() {
        return Err(SaveFault::Unclaimed(fault_of(error)));
    }
    save_all(folder, alloc, retired)?;
    match folder.sync_names() {
        Ok(()) => Ok(()),
        Err(error) => Err(SaveFault::Unstored(fault_of(error))),
    }
}

/// Saves the files one after another.
fn save_all<F: Folder>(folder: &mut F, alloc: Global, retired: &Retired) -> Result<(), SaveFault>
    requires { F.is_claimed folder.old }
    ensures saved { OnOk result (Changes (AreSaved (parts_of retired.now))
        (F.entries folder.old) (F.entries folder.new)) }
    ensures left { IfErr result (λ fault. Changes (LeavesSaved (parts_of retired.now) fault
        (F.given_up folder.old) (F.given_up folder.new))
        (F.entries folder.old) (F.entries folder.new)) }
    ensures of_part { IfErr result (IsOfPart (parts_of retired.now)) }
    ensures claimed { F.is_claimed folder.new }
{
    save_file(folder, alloc, SavedName::Log, retired.log())?;
    if let Some(master) = retired.master() {
        save_file(folder, alloc, SavedName::Master, master)?;
    }
    let vault = retired.vault();
    for id in 1..=MAX_COPIES {
        if let Some(copy) = vault.complete(CopyId(id)) {
            save_file(folder, alloc, SavedName::Copy(CopyId(id)), copy)?;
        }
    }
    Ok(())
}

/// Saves a file under its name.
fn save_file<F: Folder, S: Source<Fault = FileFault> + Drop>(
    folder: &mut F,
    alloc: Global,
    file: SavedName,
    mut source: S,
) -> Result<(), SaveFault>
    requires { F.is_claimed folder.old }
    ensures put { OnOk result (Changes (Puts (name_of file) (bytes_by (S.gives source)))
        (F.entries folder.old) (F.entries folder.new)) }
    ensures left { IfErr result (λ fault. Changes
        (LeavesFile file (S.gives source) (S.leaves source) fault
        (F.given_up folder.old) (F.given_up folder.new))
        (F.entries folder.old) (F.entries folder.new)) }
    ensures of_file { IfErr result (IsOfFile file (S.leaves source)) }
    ensures claimed { F.is_claimed folder.new }
    ensures given_up { OnOk result (F.given_up folder.new ≡ F.given_up folder.old) }
{
    let Ok(name) = format!(in alloc; "{file}") else {
        let why = PutFault::Unmade(FileFault::OutOfMemory);
        return Err(SaveFault::Unsaved(file, why));
    };
    match put_in_place(folder, alloc, name.as_str(), &mut source) {
        Ok(()) => Ok(()),
        Err(why) => Err(SaveFault::Unsaved(file, why)),
    }
}
