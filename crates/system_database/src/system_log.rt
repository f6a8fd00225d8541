//! The file of a log in a folder of the system.

use database_files::{LogFault, LogFile};
use sqlite_disk::Start;
use std::fs::{File, TryLockError};
use std::io::ErrorKind;
use std::path::PathBuf;
use std::{fs, io};

/// The file of a log in a folder of the system.
#[derive(Drop)]
pub struct SystemLog<S: Start> {
    pub file: File,
    /// What is supposed of the bytes that it had, where an engine may go on from it.
    pub start: Option<S>,
}

/// Opens the file of a log, if it is there, and locks it. What is no regular file is not opened:
/// a pipe would wait for one that writes to it.
pub(crate) fn opened_log(
    files: &HostRuntime,
    path: &PathBuf,
    writes: bool,
) -> Result<Option<LogFile<File>>, LogFault> {
    match fs::metadata(files, path.as_path()) {
        Ok(there) if !there.is_file() => return Err(LogFault::NotAFile),
        Ok(_) | Err(_) => {}
    }
    let opened = File::options()
        .read(true)
        .write(writes)
        .open(files, path.as_path());
    let file = match opened {
        Ok(file) => file,
        Err(error) if error.kind() == ErrorKind::NotFound => return absent(files, path),
        Err(error) => return Err(LogFault::System(error)),
    };
    let there = file.metadata()?;
    if !there.is_file() {
        return Err(LogFault::NotAFile);
    }
    lock(&file)?;
    Ok(Some(LogFile {
        file,
        len: there.len(),
    }))
}

/// What it is where no file can be opened by the log's name: nothing, or a link that leads nowhere.
fn absent(files: &HostRuntime, path: &PathBuf) -> Result<Option<LogFile<File>>, LogFault> {
    match fs::symlink_metadata(files, path.as_path()) {
        Ok(_) => Err(LogFault::LinkToNothing),
        Err(error) if error.kind() == ErrorKind::NotFound => Ok(None),
        Err(error) => Err(LogFault::System(error)),
    }
}

/// Locks the file of a log.
fn lock(file: &File) -> Result<(), LogFault> {
    match file.try_lock() {
        Ok(()) => Ok(()),
        Err(TryLockError::WouldBlock) => Err(LogFault::Locked),
        Err(TryLockError::Error(error)) => Err(LogFault::System(error)),
    }
}

/// Makes the file of a new log, and locks it.
pub(crate) fn made_log(files: &HostRuntime, path: &PathBuf) -> Result<File, LogFault> {
    let file = File::create_new(files, path.as_path())?;
    lock(&file)?;
    Ok(file)
}
