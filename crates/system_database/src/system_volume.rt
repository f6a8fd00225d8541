//! The file of a volume in a folder of the system.

use database_files::VolumeFault;
use std::fs::{File, Metadata};
use std::io::ErrorKind;
use std::os::unix::fs::MetadataExt;
use std::path::PathBuf;
use std::{fs, io};

/// Opens the file of a volume that was looked at, or makes it.
pub(crate) fn volume_file(files: &HostRuntime, path: &PathBuf) -> Result<File, VolumeFault> {
    let before = match fs::symlink_metadata(files, path.as_path()) {
        Ok(there) => there,
        Err(error) if error.kind() == ErrorKind::NotFound => return Ok(made(files, path)?),
        Err(error) => return Err(VolumeFault::System(error)),
    };
    let opened = File::options()
        .read(true)
        .write(true)
        .open(files, path.as_path());
    let file = opened?;
    if is_same(&before, &file.metadata()?) {
        Ok(file)
    } else {
        Err(VolumeFault::NotAFile)
    }
}

fn made(files: &HostRuntime, path: &PathBuf) -> io::Result<File> {
    File::options()
        .read(true)
        .write(true)
        .create_new(true)
        .open(files, path.as_path())
}

/// Whether both are of one file. Where a link has a name, its own is none of the file's.
fn is_same(one: &Metadata, other: &Metadata) -> bool {
    one.dev() == other.dev() && one.ino() == other.ino()
}
