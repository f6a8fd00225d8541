//! What stands under a name, before it is opened.

use crate::streams::noted;
use file_view::{ViewFault, read_file};
use std::fs;
use std::io::ErrorKind;
use std::path::Path;
use system_files::{Escaped, Notes};

/// Whether the file of this name can be read twice.
pub(crate) fn is_regular(rt: &HostRuntime, name: &str) -> bool {
    match fs::metadata(rt, name) {
        Ok(there) => there.is_file(),
        Err(_) => false,
    }
}

/// How many bytes a file has.
pub(crate) fn end_of(rt: &HostRuntime, name: &str) -> Option<u64> {
    Some(fs::metadata(rt, name).ok()?.len())
}

/// How many bytes a regular file has.
pub fn length_at(rt: &HostRuntime, place: &str) -> Option<u64> {
    match fs::metadata(rt, place) {
        Ok(there) if there.is_file() => Some(there.len()),
        _ => None,
    }
}

/// Whether nothing has this name, not even a link that leads nowhere.
pub fn is_absent(rt: &HostRuntime, place: &str) -> bool {
    match fs::symlink_metadata(rt, Path::new(place)) {
        Ok(_) => false,
        Err(error) => error.kind() == ErrorKind::NotFound,
    }
}

/// Whether a name that something has leads to a regular file, as far as can be told: of a pipe an
/// open may never end.
pub fn may_be_read(rt: &HostRuntime, place: &str) -> bool {
    match fs::metadata(rt, place) {
        Ok(there) => there.is_file(),
        Err(error) => error.kind() != ErrorKind::NotFound,
    }
}

/// Whether what stands at this place is no regular file: of a pipe an open may never end.
pub fn is_irregular(rt: &HostRuntime, name: &str) -> bool {
    match fs::metadata(rt, name) {
        Ok(there) => !there.is_file(),
        Err(_) => false,
    }
}

/// Tells that a file of this name is a folder, a pipe or a device: none of these is opened.
pub fn tell_irregular(rt: &impl Eprint, name: &str) {
    let name = Escaped(name);
    let _ = rt.eprintln(&ViewFault::ReadFault);
    let _ = eprintln!(rt; "imgcopy: {name}: this is no regular file");
}

/// The bytes of the file of this name.
pub fn bytes_of(rt: &HostRuntime, name: &str, notes: &Notes) -> Result<Vec<u8>, ViewFault> {
    let opened = fs::open(rt, name);
    notes.note(&opened);
    match opened {
        Ok(file) => read_file(rt.alloc(), &mut noted(file, notes)),
        Err(_) => Err(ViewFault::ReadFault),
    }
}
