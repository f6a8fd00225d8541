//! A new database in a folder.

ghost use Rattle.std.specs.Prelude.{◌≡◌, IfOk, None, OnOk};
ghost use Rattle.buffer_pool.specs.Pool.{IsFrameCount};
ghost use Rattle.log_records.specs.Log.{IsPageCount};
ghost use Rattle.engine_rules.specs.EngineState.{new_state};
ghost use Rattle.page_core.specs.Volume.{formatted_pages};
ghost use Rattle.saved_files.specs.Folder.{Changes, KeepsOthers};
ghost use Rattle.database_files.specs.Closed.{KeepsNote};
ghost use Rattle.database_files.specs.Standing.{KeepsFiles};
ghost use Rattle.database_opening.specs.OldVolume.{KeepsButLogAndVolume};

use crate::volume_file::volume_of;
use aries_core::{Engine, PlayFault, Setup};
use database_files::{ChangeFault, DatabaseFolder, LOG, Place, VOLUME};
use file_devices::FileLog;
use page_store::MemStore;
use std::alloc::Global;
use std::io;

/// Makes a new database in a folder that is claimed, on the file of its log where there is one. The
/// names of both files last before the log has its header.
pub fn begin<F: DatabaseFolder>(
    alloc: Global,
    folder: &mut F,
    log: Option<F::Log>,
    setup: Setup,
) -> Result<Engine<F::Volume, FileLog<F::LogDisk>>, ChangeFault>
    requires pages { IsPageCount setup.pages }
    requires frames { IsFrameCount setup.frames }
    requires claimed { F.is_claimed folder.old }
    ensures new { IfOk result (λ it. it.state ≡ new_state setup.pages setup.frames) }
    ensures kept { Changes KeepsFiles (F.entries folder.old) (F.entries folder.new) }
    ensures others { Changes KeepsButLogAndVolume (F.entries folder.old) (F.entries folder.new) }
    ensures note { OnOk result (KeepsNote (F.entries folder.old) (F.entries folder.new)) }
    ensures stored { OnOk result (F.is_stored folder.new) }
    ensures claimed { F.is_claimed folder.new }
{
    let log = log_at(folder, log)?;
    let store = new_volume(alloc, folder, setup.pages)?;
    engine_on::<F>(alloc, setup, store, log)
}

/// A volume of formatted pages. Its name lasts.
fn new_volume<F: DatabaseFolder>(
    alloc: Global,
    folder: &mut F,
    pages: u32,
) -> Result<F::Volume, ChangeFault>
    requires pages { IsPageCount pages }
    requires claimed { F.is_claimed folder.old }
    // The name of the log lasts.
    requires stored { F.is_stored folder.old }
    ensures formatted { IfOk result (λ it. F.Volume.stored it ≡ formatted_pages pages) }
    ensures others { Changes (KeepsOthers VOLUME.now)
        (F.entries folder.old) (F.entries folder.new) }
    ensures stored { OnOk result (F.is_stored folder.new) }
    ensures claimed { F.is_claimed folder.new }
{
    let pages = MemStore::new(alloc, pages)?;
    let store = volume_of(folder, pages)?;
    match folder.sync_names() {
        Ok(()) => Ok(store),
        Err(error) => Err(ChangeFault::of_folder(error)),
    }
}

/// A new engine, whose log's file gets its header.
fn engine_on<F: DatabaseFolder>(
    alloc: Global,
    setup: Setup,
    store: F::Volume,
    log: F::Log,
) -> Result<Engine<F::Volume, FileLog<F::LogDisk>>, ChangeFault>
    requires pages { IsPageCount setup.pages }
    requires frames { IsFrameCount setup.frames }
    requires formatted { F.Volume.stored store ≡ formatted_pages setup.pages }
    ensures { IfOk result (λ it. it.state ≡ new_state setup.pages setup.frames) }
{
    let log = match F::emptied(alloc, log) {
        Ok(log) => log,
        Err(error) => return Err(ChangeFault::of(Place::Log, &error)),
    };
    match Engine::new(alloc, setup, store, log) {
        Ok(engine) => Ok(engine),
        Err((PlayFault::OutOfMemory, _)) => Err(ChangeFault::OutOfMemory),
        Err((PlayFault::LogFault, log)) => Err(ChangeFault::NoHeader(code_of(log.error()))),
    }
}

/// The number that the system has for an error.
pub(crate) fn code_of(error: Option<io::Error>) -> Option<i32> {
    error?.raw_os_error()
}

/// The file of the log. Its name lasts before there is a volume: one that is there may be of a life
/// that was killed before its name lasted.
fn log_at<F: DatabaseFolder>(folder: &mut F, log: Option<F::Log>) -> Result<F::Log, ChangeFault>
    requires { F.is_claimed folder.old }
    ensures others { Changes (KeepsOthers LOG.now)
        (F.entries folder.old) (F.entries folder.new) }
    ensures stored { OnOk result (F.is_stored folder.new) }
    ensures claimed { F.is_claimed folder.new }
{
    let file = match log {
        Some(file) => file,
        None => folder.make_log()?,
    };
    match folder.sync_names() {
        Ok(()) => Ok(file),
        Err(error) => Err(ChangeFault::of_folder(error)),
    }
}
