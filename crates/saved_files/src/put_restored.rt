//! What a restore from named files gives, put in place.

ghost use Rattle.std.specs.Prelude.{◌≡◌, IfErr, OnOk};
ghost use Rattle.media_restore.specs.FilesLog as both;
ghost use Rattle.saved_files.specs.Folder.{Changes, Puts};
ghost use Rattle.saved_files.specs.PutBoth.{BothChange, IfOfSecond, IsOfBoth, LeavesBoth};
ghost use Rattle.saved_files.specs.PutBoth.{PutsBoth};
ghost use Rattle.saved_files.specs.PutFault.{IfUnmade, IsOfSource, LeavesPut, bytes_by};
ghost use Rattle.saved_files.specs.PutStored.{IfNeverMade, IsOfStored, LeavesStored};
ghost use Rattle.saved_files.specs.Restored.{LeavesLog, LeavesLogFirst, LeavesVolume, WritesLog};
ghost use Rattle.saved_files.specs.Restored.{WritesLogFirst, WritesVolumeOf, files_by};

use crate::beside::Beside;
use crate::folder::Folder;
use crate::named_files::NamedFiles;
use crate::put_both::put_both_written;
use crate::put_both_fault::{PutBothFault, Which};
use crate::put_fault::PutFault;
use crate::put_file::{give_up, make_beside, put_written};
use crate::put_stored::{PutStoredFault, store_names};
use crate::restore::restore_volume;
use crate::restore_log::restore_volume_with_log;
use crate::restore_names::RestoreNames;
use media_restore::{RestoreFault, WithLogFault};
use std::alloc::Global;
use std::io::Write;
use std::thread::Threads;

/// Restores a volume from the files of these names, as `restore_volume` does, into a file, and puts
/// that in place, as `put_and_store` does.
pub fn put_restored_volume<F: Folder, N: NamedFiles, R: Threads + Sync>(
    folder: &mut F,
    alloc: Global,
    name: &str,
    files: &N,
    rt: &R,
    names: RestoreNames<'_>,
) -> Result<(), PutStoredFault<RestoreFault>>
    requires { F.is_claimed folder.old }
    ensures put { OnOk result (Changes
        (Puts name.now (bytes_by (WritesVolumeOf (files_by (N.bytes files.now) names.entry))))
        (F.entries folder.old) (F.entries folder.new)) }
    ensures stored { OnOk result (F.is_stored folder.new) }
    ensures left { IfErr result (λ fault. Changes
        (LeavesStored name.now (WritesVolumeOf (files_by (N.bytes files.now) names.entry))
        (LeavesVolume (files_by (N.bytes files.now) names.entry))
        (F.given_up folder.old) (F.given_up folder.new) fault)
        (F.entries folder.old) (F.entries folder.new)) }
    ensures of_files { IfErr result
        (IsOfStored (LeavesVolume (files_by (N.bytes files.now) names.entry))) }
{
    if let Err(why) = put_volume(folder, alloc, name, files, rt, names) {
        return Err(PutStoredFault::Unput(why));
    }
    store_names(folder)
}

/// Restores a volume into a file, and puts that in place. The names of the folder are not synced.
fn put_volume<F: Folder, N: NamedFiles, R: Threads + Sync>(
    folder: &mut F,
    alloc: Global,
    name: &str,
    files: &N,
    rt: &R,
    names: RestoreNames<'_>,
) -> Result<(), PutFault<RestoreFault>>
    requires { F.is_claimed folder.old }
    ensures put { OnOk result (Changes
        (Puts name.now (bytes_by (WritesVolumeOf (files_by (N.bytes files.now) names.entry))))
        (F.entries folder.old) (F.entries folder.new)) }
    ensures left { IfErr result (λ fault. Changes
        (LeavesPut name.now (WritesVolumeOf (files_by (N.bytes files.now) names.entry))
        (LeavesVolume (files_by (N.bytes files.now) names.entry))
        (F.given_up folder.old) (F.given_up folder.new) fault)
        (F.entries folder.old) (F.entries folder.new)) }
    ensures of_files { IfErr result
        (IsOfSource (LeavesVolume (files_by (N.bytes files.now) names.entry))) }
    ensures claimed { F.is_claimed folder.new }
{
    let (beside, mut file) = match make_beside(folder, alloc, name) {
        Ok(made) => made,
        Err(why) => return Err(PutFault::Unmade(why)),
    };
    let done = restore_volume(
        files,
        rt,
        alloc,
        names.log,
        names.master,
        names.archives,
        &mut file,
    );
    let it = Beside {
        name: beside,
        file: F::finish(file),
    };
    put_written(folder, it, name, done)
}

/// Restores a volume from the files of these names to a writer, as `restore_volume_with_log` does,
/// and its log into a file. That is put in place, as `put_and_store` does, once all of the volume
/// went out. The writer is not flushed.
pub fn put_restored_log<F: Folder, N: NamedFiles, R: Threads + Sync, V: Write>(
    folder: &mut F,
    alloc: Global,
    name: &str,
    files: &N,
    rt: &R,
    names: RestoreNames<'_>,
    volume: &mut V,
) -> Result<(), PutStoredFault<WithLogFault>>
    requires { F.is_claimed folder.old }
    ensures put { OnOk result (Changes
        (Puts name.now (bytes_by (WritesLog (files_by (N.bytes files.now) names.entry)
        (V.contents volume.old) (V.contents volume.new))))
        (F.entries folder.old) (F.entries folder.new)) }
    ensures stored { OnOk result (F.is_stored folder.new) }
    ensures left { IfErr result (λ fault. Changes
        (LeavesStored name.now (WritesLog (files_by (N.bytes files.now) names.entry)
        (V.contents volume.old) (V.contents volume.new))
        (LeavesLog (files_by (N.bytes files.now) names.entry)
        (V.contents volume.old) (V.contents volume.new))
        (F.given_up folder.old) (F.given_up folder.new) fault)
        (F.entries folder.old) (F.entries folder.new)) }
    ensures of_files { IfErr result (IsOfStored
        (LeavesLog (files_by (N.bytes files.now) names.entry)
        (V.contents volume.old) (V.contents volume.new))) }
    ensures untouched { IfErr result
        (IfNeverMade (V.contents volume.new ≡ V.contents volume.old)) }
{
    if let Err(why) = put_log(folder, alloc, name, files, rt, names, volume) {
        return Err(PutStoredFault::Unput(why));
    }
    store_names(folder)
}

/// Restores a volume to a writer, and its log into a file, which is put in place. The names of the
/// folder are not synced.
fn put_log<F: Folder, N: NamedFiles, R: Threads + Sync, V: Write>(
    folder: &mut F,
    alloc: Global,
    name: &str,
    files: &N,
    rt: &R,
    names: RestoreNames<'_>,
    volume: &mut V,
) -> Result<(), PutFault<WithLogFault>>
    requires { F.is_claimed folder.old }
    ensures put { OnOk result (Changes
        (Puts name.now (bytes_by (WritesLog (files_by (N.bytes files.now) names.entry)
        (V.contents volume.old) (V.contents volume.new))))
        (F.entries folder.old) (F.entries folder.new)) }
    ensures left { IfErr result (λ fault. Changes
        (LeavesPut name.now (WritesLog (files_by (N.bytes files.now) names.entry)
        (V.contents volume.old) (V.contents volume.new))
        (LeavesLog (files_by (N.bytes files.now) names.entry)
        (V.contents volume.old) (V.contents volume.new))
        (F.given_up folder.old) (F.given_up folder.new) fault)
        (F.entries folder.old) (F.entries folder.new)) }
    ensures of_files { IfErr result (IsOfSource
        (LeavesLog (files_by (N.bytes files.now) names.entry)
        (V.contents volume.old) (V.contents volume.new))) }
    ensures untouched { IfErr result (IfUnmade (V.contents volume.new ≡ V.contents volume.old)) }
    ensures claimed { F.is_claimed folder.new }
{
    let (beside, mut file) = match make_beside(folder, alloc, name) {
        Ok(made) => made,
        Err(why) => return Err(PutFault::Unmade(why)),
    };
    let done = write_both(alloc, files, rt, names, volume, &mut file);
    let it = Beside {
        name: beside,
        file: F::finish(file),
    };
    put_written(folder, it, name, done)
}

/// Restores a volume from the files of these names, and its log, each into a file, and puts both in
/// the places of older ones. Both are synced before one is renamed. Then the log is renamed and the
/// names of its folder are synced, and then the volume: so where the volume has its name the log
/// has, also after the system's end.
pub fn put_restored_both<F: Folder, G: Folder, N: NamedFiles, R: Threads + Sync>(
    log_folder: &mut F,
    log: &str,
    folder: &mut G,
    volume: &str,
    alloc: Global,
    files: &N,
    rt: &R,
    names: RestoreNames<'_>,
) -> Result<(), PutBothFault<WithLogFault>>
    requires log { F.is_claimed log_folder.old }
    requires volume { G.is_claimed folder.old }
    ensures put { OnOk result (BothChange
        (PutsBoth (WritesLogFirst (files_by (N.bytes files.now) names.entry)) log.now volume.now)
        (F.entries log_folder.old) (F.entries log_folder.new)
        (G.entries folder.old) (G.entries folder.new)) }
    ensures stored { OnOk result (F.is_stored log_folder.new × G.is_stored folder.new) }
    ensures left { IfErr result (λ fault. BothChange
        (LeavesBoth (WritesLogFirst (files_by (N.bytes files.now) names.entry))
        (LeavesLogFirst (files_by (N.bytes files.now) names.entry)) log.now volume.now
        (F.given_up log_folder.new) (G.given_up folder.new) fault)
        (F.entries log_folder.old) (F.entries log_folder.new)
        (G.entries folder.old) (G.entries folder.new)) }
    ensures log_lasts { IfErr result (IfOfSecond (F.is_stored log_folder.new)) }
    ensures of_files { IfErr result
        (IsOfBoth (LeavesLogFirst (files_by (N.bytes files.now) names.entry))) }
{
    let (log_beside, mut log_file) = match make_beside(log_folder, alloc, log) {
        Ok(made) => made,
        Err(why) => return Err(PutBothFault::Unmade(Which::First, why)),
    };
    let (beside, mut file) = match make_beside(folder, alloc, volume) {
        Ok(made) => made,
        Err(why) => {
            let it = Beside {
                name: log_beside,
                file: F::finish(log_file),
            };
            give_up(log_folder, it);
            return Err(PutBothFault::Unmade(Which::Second, why));
        }
    };
    let done = write_both(alloc, files, rt, names, &mut file, &mut log_file);
    let one = Beside {
        name: log_beside,
        file: F::finish(log_file),
    };
    let two = Beside {
        name: beside,
        file: G::finish(file),
    };
    put_both_written(log_folder, log, one, folder, volume, two, done)
}

/// Writes the volume of these files and its log, as `restore_volume_with_log` does.
fn write_both<N: NamedFiles, R: Threads + Sync, V: Write, L: Write>(
    alloc: Global,
    files: &N,
    rt: &R,
    names: RestoreNames<'_>,
    volume: &mut V,
    log: &mut L,
) -> Result<(), WithLogFault>
    ensures written { OnOk result (both.WritesBoth (files_by (N.bytes files.now) names.entry)
        (V.contents volume.old) (V.contents volume.new)
        (L.contents log.old) (L.contents log.new)) }
    ensures left { IfErr result (both.LeavesBoth (files_by (N.bytes files.now) names.entry)
        (V.contents volume.old) (V.contents volume.new)
        (L.contents log.old) (L.contents log.new)) }
{
    restore_volume_with_log(
        files,
        rt,
        alloc,
        names.log,
        names.master,
        names.archives,
        volume,
        log,
    )
}
