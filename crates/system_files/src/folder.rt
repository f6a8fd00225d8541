//! A folder of the system, in which files are made by their names.

ghost use Rattle.std.specs.Prelude.{None};

use crate::claim::ClaimFault;
use crate::kept::{Kept, kept_at};
use crate::notes::{Noted, Notes};
use saved_files::Folder;
use std::alloc::Global;
use std::cell::Cell;
use std::fs::{File, OpenFile, TryLockError};
use std::path::{Path, PathBuf};
use std::rt::Files;
use std::time::Duration;
use std::{fs, io, thread};

/// The number that the system has for a file or folder that is not there.
const NO_ENTRY: i32 = 2;

/// The number that the system has for what another one has locked.
const IS_LOCKED: i32 = 11;

/// The number that the system has for a name that something has.
const EXISTS: i32 = 17;

/// How often a folder is asked for that another one has, and the milliseconds between: who puts one
/// file in place has it for less.
const CLAIMS: u32 = 50;

const MILLISECONDS: u64 = 10;

/// What a file of a folder may replace.
#[derive(Clone, Copy, Debug, PartialEq, Eq)]
enum Guard {
    /// Whatever has its name.
    Off,
    /// Nothing that is kept.
    Keeps,
    /// What is kept too, if no one has it open.
    Forced,
}

/// A file of a folder, to which no more goes out. It is open, and has the locks that it had.
#[derive(Drop)]
pub struct WrittenFile {
    file: File,
}

/// A folder of the system. It is opened before files are made in it, and is locked as long as it is
/// open where it was claimed.
#[derive(Drop)]
pub struct SystemFolder<'a> {
    files: &'a HostRuntime,
    alloc: Global,
    name: &'a str,
    notes: &'a Notes,
    opened: Option<File>,
    is_locked: bool,
    guard: Guard,
    refused: Cell<Option<Kept>>,
}

impl<'a> SystemFolder<'a> {
    /// The folder of this name, which is not opened yet. A folder without a name is none, and not
    /// the current one.
    pub fn new(
        files: &'a HostRuntime,
        alloc: Global,
        name: &'a str,
        notes: &'a Notes,
    ) -> SystemFolder<'a> {
        SystemFolder {
            files,
            alloc,
            name,
            notes,
            opened: None,
            is_locked: false,
            guard: Guard::Off,
            refused: Cell::new(None),
        }
    }

    /// Guards the folder: no file takes the place there of one that `kept_at` tells of. With force
    /// it does, but where another one has that file locked it is an error of the kind `WouldBlock`.
    pub fn guarded(self, force: bool) -> SystemFolder<'a> {
        SystemFolder {
            guard: if force { Guard::Forced } else { Guard::Keeps },
            ..self
        }
    }

    /// Why the last file that was to take a name did not: what has the name is kept.
    pub fn refused(&self) -> Option<Kept> {
        self.refused.get()
    }

    /// Claims the folder. Where another one has it, it is asked for again for half a second.
    pub fn claim_soon(&mut self) -> Result<(), ClaimFault> {
        if self.is_locked {
            return Ok(());
        }
        for _ in 1..CLAIMS {
            match self.claim_once() {
                Err(ClaimFault::Busy) => {
                    thread::sleep(self.files, Duration::from_millis(MILLISECONDS));
                }
                done => return done,
            }
        }
        self.claim_once()
    }

    fn claim_once(&mut self) -> Result<(), ClaimFault> {
        let handle = match self.handle() {
            Ok(handle) => handle,
            Err(error) => return Err(ClaimFault::Unopened(error)),
        };
        match handle.try_lock() {
            Ok(()) => {
                self.opened = Some(handle);
                self.is_locked = true;
                Ok(())
            }
            Err(TryLockError::WouldBlock) => Err(ClaimFault::Busy),
            Err(TryLockError::Error(error)) => Err(ClaimFault::Unlocked(error)),
        }
    }

    /// Gives the folder back to others that ask for it.
    pub fn release(&mut self) {
        self.opened = None;
        self.is_locked = false;
    }

    /// Opens the folder, for a caller that needs no claim: its file has a name of its own until it
    /// is put in its place.
    pub fn open(&mut self) -> io::Result<()> {
        let handle = self.handle();
        self.notes.note(&handle);
        self.opened = Some(handle?);
        self.is_locked = false;
        Ok(())
    }

    fn handle(&self) -> io::Result<File> {
        if self.name.is_empty() {
            return Err(io::Error::from_raw_os_error(NO_ENTRY));
        }
        fs::open(self.files, self.name)
    }

    fn locked(&self) -> io::Result<File> {
        let handle = self.handle()?;
        match handle.try_lock() {
            Ok(()) => Ok(handle),
            Err(TryLockError::WouldBlock) => Err(io::Error::from_raw_os_error(IS_LOCKED)),
            Err(TryLockError::Error(error)) => Err(error),
        }
    }

    /// Where the file of this name stands.
    fn place_of(&self, name: &str) -> io::Result<PathBuf> {
        Ok(Path::new(self.name).join(self.alloc, name)?)
    }

    fn created(&self, name: &str) -> io::Result<File> {
        File::create_new(self.files, self.place_of(name)?.as_path())
    }

    fn renamed(&self, from: &str, to: &str) -> io::Result<()> {
        let (from, place) = (self.place_of(from)?, self.place_of(to)?);
        // Who has a log open has it locked.
        let _replaced = self.replaceable(&place, to)?;
        fs::rename(self.files, from.as_path(), place.as_path())
    }

    /// Sees that a file may take this name, and locks what it replaces where that is kept.
    fn replaceable(&self, place: &PathBuf, name: &str) -> io::Result<Option<File>> {
        if self.guard == Guard::Off {
            return Ok(None);
        }
        let Some(kept) = kept_at(self.files, place.as_path(), name) else {
            return Ok(None);
        };
        if self.guard == Guard::Keeps {
            self.refused.set(Some(kept));
            return Err(io::Error::from_raw_os_error(EXISTS));
        }
        if !fs::metadata(self.files, place.as_path())?.is_file() {
            return Ok(None);
        }
        let file = fs::open(self.files, place.as_path())?;
        match file.try_lock() {
            Ok(()) => Ok(Some(file)),
            Err(TryLockError::WouldBlock) => Err(io::Error::from_raw_os_error(IS_LOCKED)),
            Err(TryLockError::Error(error)) => Err(error),
        }
    }

    fn synced(&self) -> io::Result<()> {
        match &self.opened {
            Some(handle) => handle.sync_all(),
            None => Err(io::Error::from_raw_os_error(NO_ENTRY)),
        }
    }
}

impl<'a> Folder for SystemFolder<'a> {
    type File = Noted<'a, File>;

    type Written = WrittenFile;

    ghost entries = { λ _. None };

    ghost is_claimed = { λ _. Unit {0} };

    ghost is_stored = { λ _. Unit {0} };

    ghost may_leave = { λ _ _ _. Unit {0} };

    ghost given_up = { λ _. None };

    ghost holds = { λ _. None };

    fn claim(&mut self) -> io::Result<()> {
        if self.is_locked {
            return Ok(());
        }
        let handle = self.locked();
        self.notes.note(&handle);
        self.opened = Some(handle?);
        self.is_locked = true;
        Ok(())
    }

    fn make(&mut self, name: &str) -> io::Result<Noted<'a, File>> {
        let created = self.created(name);
        self.notes.note(&created);
        Ok(Noted {
            file: created?,
            notes: self.notes,
        })
    }

    fn finish(file: Noted<'a, File>) -> WrittenFile {
        WrittenFile { file: file.file }
    }

    fn sync(&mut self, _name: &str, file: &WrittenFile) -> io::Result<()> {
        let synced = file.file.sync_all();
        self.notes.note(&synced);
        synced
    }

    fn rename(&mut self, from: &str, to: &str) -> io::Result<()> {
        let renamed = self.renamed(from, to);
        self.notes.note(&renamed);
        renamed
    }

    fn give_up(&mut self, name: &str, _file: WrittenFile) -> io::Result<()> {
        fs::remove_file(self.files, self.place_of(name)?.as_path())
    }

    fn sync_names(&mut self) -> io::Result<()> {
        let synced = self.synced();
        self.notes.note(&synced);
        synced
    }

    ghost stands = { λ _. tt };

    ghost lasts = { λ _ _. tt };
}

/// Whether another one has the file at this place locked. What is no regular file is not opened.
pub fn is_in_use<R: Files<File = File>>(files: &R, place: &Path<'_>) -> bool {
    match fs::symlink_metadata(files, *place) {
        Ok(there) if there.is_file() => {}
        _ => return false,
    }
    match fs::open(files, *place) {
        Ok(file) => matches!(file.try_lock(), Err(TryLockError::WouldBlock)),
        Err(_) => false,
    }
}
