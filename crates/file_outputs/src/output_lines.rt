//! The lines that tell why an output was not written.

use crate::limits::OutputFault;
use file_inputs::parts_of;
use page_core::FaultName;
use std::fmt::Display;
use system_files::{Escaped, Notes};

/// Tells why an output cannot be written or put in place.
pub fn tell_fault(rt: &impl Eprint, path: &str, fault: &OutputFault, notes: &Notes) {
    match fault {
        OutputFault::Irregular => tell(rt, path, &"this is no regular file"),
        OutputFault::Kept(kept) => tell_kept(rt, path, kept),
        OutputFault::Manifest => tell_kept(rt, path, &"this is a manifest"),
        OutputFault::InUse => tell(rt, path, &"another one has this log open"),
        OutputFault::Folder(fault) => {
            let folder = parts_of(path).map_or(path, |(folder, _)| folder);
            tell(rt, folder, fault);
        }
        OutputFault::System => match notes.error() {
            Some(error) => tell(rt, path, &error),
            None => tell(rt, path, &"not written"),
        },
    }
}

/// Tells that a file is not replaced.
pub fn tell_kept(rt: &impl Eprint, path: &str, kept: &impl Display) {
    let _ = eprintln!(rt; "{} 0", FaultName::WriteFault);
    let path = Escaped(path);
    let _ = eprintln!(rt; "imgcopy: {path}: {kept}: --force replaces it");
}

/// Tells that a file was put in place before the command met a fault.
pub fn tell_placed(rt: &impl Eprint, path: &str) {
    let path = Escaped(path);
    let _ = eprintln!(rt; "imgcopy: {path}: this has its new file already");
}

/// Says why a file of the output could not be written.
pub fn tell_output(rt: &impl Eprint, path: &str, notes: &Notes) {
    if let Some(error) = notes.error() {
        let path = Escaped(path);
        let _ = eprintln!(rt; "imgcopy: {path}: {error}");
    }
}

/// Tells that an output cannot be written, and why.
pub fn tell(rt: &impl Eprint, path: &str, why: &impl Display) {
    let _ = eprintln!(rt; "{} 0", FaultName::WriteFault);
    let path = Escaped(path);
    let _ = eprintln!(rt; "imgcopy: {path}: {why}");
}
