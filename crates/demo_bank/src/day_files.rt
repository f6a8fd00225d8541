//! The files of a day: what an older day left is removed, and the new ones are made.

ghost use Rattle.std.specs.Prelude.{◌≡◌, IfOk};

use crate::halt::{FileTrouble, Place};
use imgcopy_engine::{FailedFile, FileLog, FileStore, Folder, MemStore, SystemFolder, Wary};
use std::fs::File;
use std::path::Path;
use std::{fs, io};

/// The names of the files of a day, which stand in its folder. That of a copy ends in its id.
const LOG: &str = "log";

const VOLUME: &str = "volume";

const MASTER: &str = "master";

const COPY: &str = "copy-";

/// What follows the name of a file as long as it is not whole, before a number.
const UNFINISHED: &str = ".unfinished-";

/// What a file of a day is for.
#[derive(Clone, Copy, PartialEq, Eq)]
enum Purpose {
    /// It names a place in a log, or was made of one: a master record, or a copy.
    OfLog,
    /// It is a log or a volume.
    Device,
}

/// Whether this is how a number above 0 is written.
fn is_number(text: &str) -> bool {
    !text.is_empty() && !text.starts_with('0') && text.bytes().all(|b| b.is_ascii_digit())
}

/// What the file of this name is for, if it is one of a day.
fn purpose_of(name: &str) -> Option<Purpose> {
    if name == LOG || name == VOLUME {
        return Some(Purpose::Device);
    }
    let whole = match name.split_once(UNFINISHED) {
        Some((whole, number)) if is_number(number) => whole,
        _ => name,
    };
    let is_copy = match whole.strip_prefix(COPY) {
        Some(id) => is_number(id),
        None => false,
    };
    if is_copy || whole == MASTER {
        Some(Purpose::OfLog)
    } else {
        None
    }
}

/// Removes the files of this purpose.
fn remove(files: &HostRuntime, folder: &str, purpose: Purpose) -> io::Result<()> {
    let alloc = files.alloc();
    let mut old = Vec::new(alloc);
    for entry in fs::read_dir(files, folder)? {
        let entry = entry?;
        let name = entry.file_name();
        if purpose_of(name) == Some(purpose) {
            old.push(Path::new(folder).join(alloc, name)?)?;
        }
    }
    for path in &old {
        fs::remove_file(files, path.as_path())?;
    }
    Ok(())
}

/// Removes what an older day left. A copy of it never stands beside the log of a newer one: it is
/// gone for good before the old log is.
fn clear(files: &HostRuntime, folder: &mut SystemFolder<'_>, name: &str) -> io::Result<()> {
    remove(files, name, Purpose::OfLog)?;
    folder.sync_names()?;
    remove(files, name, Purpose::Device)?;
    folder.sync_names()
}

/// Makes a file without bytes, open for reading and writing.
fn made(files: &HostRuntime, folder: &str, name: &str) -> io::Result<File> {
    File::create_new(
        files,
        Path::new(folder).join(files.alloc(), name)?.as_path(),
    )
}

/// The log and the volume of a day, on files.
#[derive(Drop)]
pub struct Devices {
    pub log: FileLog,
    pub volume: FileStore,
}

fn log_of(files: &HostRuntime, folder: &str) -> Result<FileLog, FileTrouble> {
    match made(files, folder, LOG) {
        Ok(file) => FileLog::new(files.alloc(), file, Wary).map_err(|why| trouble(
            Place::Log,
            &why,
        )),
        Err(error) => Err(FileTrouble::of(Place::Log, &error)),
    }
}

fn volume_of(files: &HostRuntime, folder: &str, pages: MemStore) -> Result<FileStore, FileTrouble>
    ensures { IfOk result (λ store. store.pages ≡ pages) }
{
    match made(files, folder, VOLUME) {
        Ok(file) => FileStore::new(file, pages).map_err(|why| trouble(Place::Volume, &why)),
        Err(error) => Err(FileTrouble::of(Place::Volume, &error)),
    }
}

fn trouble(place: Place, why: &FailedFile) -> FileTrouble {
    FileTrouble::of(place, &why.error)
}

impl Devices {
    /// Takes a folder, clears it, and makes the log and the volume in it, which has these pages.
    /// Where another one has the folder, nothing in it is touched. The names of both files last
    /// from then on.
    pub fn new(
        files: &HostRuntime,
        folder: &mut SystemFolder<'_>,
        name: &str,
        pages: MemStore,
    ) -> Result<Devices, FileTrouble>
        ensures { IfOk result (λ it. it.volume.pages ≡ pages) }
    {
        let of_folder = |error: io::Error| FileTrouble::of(Place::Folder, &error);
        folder.claim().map_err(of_folder)?;
        clear(files, folder, name).map_err(of_folder)?;
        let log = log_of(files, name)?;
        let volume = volume_of(files, name, pages)?;
        folder.sync_names().map_err(of_folder)?;
        Ok(Devices { log, volume })
    }
}
