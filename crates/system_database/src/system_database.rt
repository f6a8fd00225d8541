//! The folder of a database that is one of the system.

ghost use Rattle.std.specs.Prelude.{◌≡◌, [], IfOk, None, OnOk, length};
ghost use Rattle.file_devices.specs.FileLog.{bytes_of};
ghost use Rattle.database_files.specs.DatabaseFolder.{AreFirstOf};

use crate::file_limit::low_limit;
use crate::system_log::{SystemLog, made_log, opened_log};
use crate::system_volume::volume_file;
use crate::told_store::ToldStore;
use database_files::{
    DatabaseFolder, LOG, LogFault, LogFile, RANDOM, Standing, VOLUME, VolumeFault,
};
use file_devices::{FileDisk, FileLog, FileStore};
use log_records::MAX_LOG_BYTES;
use page_store::MemStore;
use saved_files::Folder;
use sqlite_disk::Start;
use std::alloc::{AllocError, Global};
use std::cell::Cell;
use std::fs::{File, Metadata};
use std::io::{ErrorKind, Printer, Read};
use std::os::unix::fs::{FileExt, MetadataExt};
use std::path::{Path, PathBuf};
use std::{fs, io};
use system_files::{ClaimFault, Noted, Notes, RetryWouldBlock, SystemFolder, WrittenFile};

/// The number that the system has for a file or folder that is not what it was any more.
const STALE: i32 = 116;

/// The number that the system has for a file that is longer than it may be.
const TOO_LARGE: i32 = 27;

/// The folder of a database that is one of the system. Its files are made and renamed by their
/// names, and only as long as its own name leads to the folder that was claimed.
#[derive(Drop)]
pub struct SystemDatabase<'a, S: Start> {
    folder: SystemFolder<'a>,
    rt: &'a HostRuntime,
    name: &'a str,
    notes: &'a Notes,
    store_notes: &'a Notes,
    /// The device and the number of the folder that was claimed.
    claimed: Option<(u64, u64)>,
    /// The device and the number of the log's file, from when it was opened or made.
    log: Cell<Option<(u64, u64)>>,
    /// What is supposed of the log's file, until that is opened: a log is opened once.
    start: Cell<Option<S>>,
}

impl<'a, S: Start> SystemDatabase<'a, S> {
    /// The folder of this name. Why its calls failed is noted in the first notes, and why those of
    /// its volume did in the others. An engine may go on from its log, once, if it is told what is
    /// supposed of that file; else the log may be read and locked alone.
    pub fn new(
        rt: &'a HostRuntime,
        name: &'a str,
        notes: (&'a Notes, &'a Notes),
        start: Option<S>,
    ) -> SystemDatabase<'a, S> {
        SystemDatabase {
            folder: SystemFolder::new(rt, rt.alloc(), name, notes.0),
            rt,
            name,
            notes: notes.0,
            store_notes: notes.1,
            claimed: None,
            log: Cell::new(None),
            start: Cell::new(start),
        }
    }

    /// The device and the number of the folder that has its name now.
    fn identity(&self) -> io::Result<(u64, u64)> {
        Ok(identity_of(&fs::metadata(self.rt, self.name)?))
    }

    /// Sees that the name leads to the folder that was claimed, and the log's name to the file that
    /// is open. By a name that leads elsewhere now, as a link that was changed, files of another
    /// database would be replaced; and files that tell of a log are of no use without it.
    fn stay(&self) -> io::Result<()> {
        let stays = match self.is_as_claimed() {
            Ok(true) => Ok(()),
            Ok(false) => Err(io::Error::from_raw_os_error(STALE)),
            Err(error) => Err(error),
        };
        self.notes.note(&stays);
        stays
    }

    fn is_as_claimed(&self) -> io::Result<bool> {
        let now = self.identity()?;
        if self.claimed.is_some_and(|claimed| claimed != now) {
            return Ok(false);
        }
        let Some(open) = self.log.get() else {
            return Ok(true);
        };
        match fs::metadata(self.rt, self.place_of(LOG)?.as_path()) {
            Ok(there) => Ok(identity_of(&there) == open),
            Err(error) if error.kind() == ErrorKind::NotFound => Ok(false),
            Err(error) => Err(error),
        }
    }

    /// The log's name is given to another file, or taken away.
    fn leave_log(&self, name: &str) {
        if name == LOG {
            self.log.set(None);
        }
    }

    /// Where the file of this name stands.
    fn place_of(&self, name: &str) -> io::Result<PathBuf> {
        Ok(Path::new(self.name).join(self.rt.alloc(), name)?)
    }

    /// All bytes of the file at this place. No file of a database is longer than the longest log.
    fn bytes_at(&self, place: &PathBuf) -> io::Result<Vec<u8>> {
        if fs::metadata(self.rt, place.as_path())?.len() > MAX_LOG_BYTES as u64 {
            return Err(io::Error::from_raw_os_error(TOO_LARGE));
        }
        fs::read(self.rt, place.as_path())
    }

    /// What stands at this place. A link is followed.
    fn standing(&self, place: &PathBuf) -> io::Result<Standing<()>> {
        match fs::metadata(self.rt, place.as_path()) {
            Ok(there) if there.is_file() => Ok(Standing::File(())),
            Ok(_) => Ok(Standing::NotAFile),
            Err(error) if error.kind() == ErrorKind::NotFound => Ok(Standing::Absent),
            Err(error) => Err(error),
        }
    }
}

impl<'a, S: Start> Folder for SystemDatabase<'a, S> {
    type File = Noted<'a, File>;

    type Written = WrittenFile;

    ghost entries = { λ _. None };

    ghost is_claimed = { λ _. Unit {0} };

    ghost is_stored = { λ _. Unit {0} };

    ghost may_leave = { λ _ _ _. Unit {0} };

    ghost given_up = { λ _. None };

    ghost holds = { λ _. None };

    fn claim(&mut self) -> io::Result<()> {
        self.folder.claim()?;
        self.claimed = Some(self.identity()?);
        Ok(())
    }

    fn make(&mut self, name: &str) -> io::Result<Noted<'a, File>> {
        self.stay()?;
        self.folder.make(name)
    }

    fn finish(file: Noted<'a, File>) -> WrittenFile {
        SystemFolder::finish(file)
    }

    fn sync(&mut self, name: &str, file: &WrittenFile) -> io::Result<()> {
        self.folder.sync(name, file)
    }

    fn rename(&mut self, from: &str, to: &str) -> io::Result<()> {
        self.stay()?;
        self.folder.rename(from, to)?;
        self.leave_log(from);
        self.leave_log(to);
        Ok(())
    }

    fn give_up(&mut self, name: &str, file: WrittenFile) -> io::Result<()> {
        self.stay()?;
        self.folder.give_up(name, file)
    }

    fn sync_names(&mut self) -> io::Result<()> {
        self.folder.sync_names()
    }

    ghost stands = { λ _. tt };

    ghost lasts = { λ _ _. tt };
}

impl<'a, S: Start> DatabaseFolder for SystemDatabase<'a, S> {
    type Reader = File;

    type Log = SystemLog<S>;

    type LogDisk = FileDisk<S>;

    type Volume = ToldStore<'a>;

    ghost held = { λ _. None };

    ghost was_asked = { λ _ _. Unit {0} };

    fn claim_or_wait(&mut self) -> Result<(), ClaimFault> {
        self.folder.claim_soon()?;
        match self.identity() {
            Ok(it) => {
                self.claimed = Some(it);
                Ok(())
            }
            Err(error) => Err(ClaimFault::Unopened(error)),
        }
    }

    fn names(&self) -> io::Result<Vec<String>> {
        let alloc = self.rt.alloc();
        let mut names = Vec::new(alloc);
        for entry in fs::read_dir(self.rt, self.name)? {
            let entry = entry?;
            names.push(String::from_str(alloc, entry.file_name())?)?;
        }
        Ok(names)
    }

    fn has(&self, name: &str) -> io::Result<bool> {
        let place = self.place_of(name)?;
        match fs::symlink_metadata(self.rt, place.as_path()) {
            Ok(_) => Ok(true),
            Err(error) if error.kind() == ErrorKind::NotFound => Ok(false),
            Err(error) => Err(error),
        }
    }

    fn open_file(&self, name: &str) -> io::Result<Standing<File>> {
        let place = self.place_of(name)?;
        match self.standing(&place)? {
            Standing::File(()) => Ok(Standing::File(fs::open(self.rt, place.as_path())?)),
            Standing::NotAFile => Ok(Standing::NotAFile),
            Standing::Absent => Ok(Standing::Absent),
        }
    }

    fn whole(&self, name: &str) -> io::Result<Standing<Vec<u8>>> {
        let place = self.place_of(name)?;
        match self.standing(&place)? {
            Standing::File(()) => Ok(Standing::File(self.bytes_at(&place)?)),
            Standing::NotAFile => Ok(Standing::NotAFile),
            Standing::Absent => Ok(Standing::Absent),
        }
    }

    fn remove(&mut self, name: &str) -> io::Result<()> {
        self.stay()?;
        fs::remove_file(self.rt, self.place_of(name)?.as_path())?;
        self.leave_log(name);
        Ok(())
    }

    fn open_log(&self, writes: bool) -> Result<Option<LogFile<SystemLog<S>>>, LogFault> {
        match opened_log(self.rt, &self.place_of(LOG)?, writes)? {
            Some(LogFile { file, len }) => {
                self.log.set(Some(identity_of(&file.metadata()?)));
                let start = self.start.take();
                Ok(Some(LogFile {
                    file: SystemLog { file, start },
                    len,
                }))
            }
            None => Ok(None),
        }
    }

    fn make_log(&mut self) -> Result<SystemLog<S>, LogFault> {
        let file = made_log(self.rt, &self.place_of(LOG)?)?;
        self.log.set(Some(identity_of(&file.metadata()?)));
        let start = self.start.take();
        Ok(SystemLog { file, start })
    }

    fn log_begins(log: &SystemLog<S>, bytes: &mut [u8]) -> io::Result<()>
        ensures first { OnOk result (AreFirstOf None bytes.new) }
        ensures length { length bytes.new ≡ length bytes.old }
    {
        log.file.read_exact_at(bytes, 0)
    }

    fn emptied(alloc: Global, log: SystemLog<S>) -> io::Result<FileLog<FileDisk<S>>>
        ensures { IfOk result (λ device. bytes_of device ≡ []) }
    {
        let SystemLog { file, start } = log;
        match start {
            Some(start) => emptied_log(alloc, file, start),
            None => Err(io::Error::from(ErrorKind::InvalidInput)),
        }
    }

    fn resumed(
        alloc: Global,
        log: SystemLog<S>,
        bytes: &mut [u8],
    ) -> io::Result<FileLog<FileDisk<S>>>
        ensures first { OnOk result (AreFirstOf None bytes.new) }
        ensures has { IfOk result (λ device. bytes_of device ≡ bytes.new) }
        ensures lasts { IfOk result (λ device. device.end ≡ length bytes.new) }
        ensures length { length bytes.new ≡ length bytes.old }
    {
        let SystemLog { file, start } = log;
        match start {
            Some(start) => resumed_log(alloc, file, start, bytes),
            None => Err(io::Error::from(ErrorKind::InvalidInput)),
        }
    }

    fn volume_begins(&self, bytes: &mut [u8]) -> io::Result<Standing<usize>> {
        let place = self.place_of(VOLUME)?;
        match fs::symlink_metadata(self.rt, place.as_path()) {
            Ok(there) if there.is_file() => {}
            Ok(_) => return Ok(Standing::NotAFile),
            Err(error) if error.kind() == ErrorKind::NotFound => return Ok(Standing::Absent),
            Err(error) => return Err(error),
        }
        let file = fs::open(self.rt, place.as_path())?;
        Ok(Standing::File(first_bytes(&file, bytes)?))
    }

    fn make_volume(&mut self, pages: MemStore) -> Result<ToldStore<'a>, VolumeFault> {
        let file = volume_file(self.rt, &self.place_of(VOLUME)?)?;
        match FileStore::new(file, pages) {
            Ok(store) => Ok(ToldStore {
                store,
                notes: self.store_notes,
            }),
            Err(why) => Err(VolumeFault::System(why.error)),
        }
    }

    fn low_limit(&self) -> Result<Option<u64>, AllocError> {
        low_limit(self.rt)
    }

    fn draw(&self, bytes: &mut [u8]) -> io::Result<()> {
        let mut file = fs::open(self.rt, RANDOM)?;
        file.read_exact(bytes)
    }
}

/// The device and the number of a file or folder.
fn identity_of(there: &Metadata) -> (u64, u64) {
    (there.dev(), there.ino())
}

/// A log's device on a file, which is emptied.
fn emptied_log<S: Start>(alloc: Global, file: File, start: S) -> io::Result<FileLog<FileDisk<S>>>
    ensures { IfOk result (λ device. bytes_of device ≡ []) }
{
    match FileLog::new(alloc, file, start) {
        Ok(device) => Ok(device),
        Err(why) => Err(why.error),
    }
}

/// A log's device on a file that has a log already.
fn resumed_log<S: Start>(
    alloc: Global,
    file: File,
    start: S,
    bytes: &mut [u8],
) -> io::Result<FileLog<FileDisk<S>>>
    ensures has { IfOk result (λ device. bytes_of device ≡ bytes.new) }
    ensures lasts { IfOk result (λ device. device.end ≡ length bytes.new) }
    ensures length { length bytes.new ≡ length bytes.old }
{
    match FileLog::resume(alloc, file, start, bytes) {
        Ok(device) => Ok(device),
        Err(why) => Err(why.error),
    }
}

/// Reads the first bytes of a file, as many as the buffer has room for, and says how many these
/// are.
fn first_bytes(file: &File, bytes: &mut [u8]) -> io::Result<usize> {
    let mut len = 0usize;
    for _ in 0..=bytes.len() {
        let Some(rest) = bytes.get_mut(len..) else {
            break;
        };
        let count = file.read_at(rest, len as u64)?;
        if count == 0 {
            break;
        }
        len = len.saturating_add(count);
    }
    Ok(len)
}

/// The standard output. Why its calls failed is noted.
pub fn output<'a>(
    rt: &'a HostRuntime,
    notes: &'a Notes,
) -> Noted<'a, RetryWouldBlock<'a, Printer<'a, HostRuntime>>> {
    Noted {
        file: RetryWouldBlock {
            stream: io::writer(rt),
            rt,
        },
        notes,
    }
}
