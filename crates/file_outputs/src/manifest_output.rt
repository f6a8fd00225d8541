//! The manifest that a save puts beside its files.

ghost use Rattle.std.specs.Prelude.{◌≡◌, IfSome};
ghost use Rattle.saved_files.specs.Saved.{parts_of};
ghost use Rattle.checked_files.specs.Left.{AreNoted, NotesNoOther};
ghost use Rattle.file_outputs.specs.ManifestFaults.{line_of};

use crate::output_lines::tell;
use crate::save_lines::new_names;
use checked_files::{ManifestText, manifest_of};
use copy_coverage::Retired;
use file_inputs::MANIFEST;
use manifest::{DatabaseName, Manifest};
use page_core::FaultName;
use saved_files::{FileFault, PutFault, PutStoredFault, put_and_store};
use std::io::Read;
use std::{fs, io};
use system_files::{Escaped, Notes, SystemFolder};

/// Where the system gives random bytes.
const RANDOM: &str = "/dev/urandom";

/// The manifest of what a script left. Each run is a database of its own, whose name is drawn. None
/// where there is none, which is told.
pub fn drawn_manifest(rt: &HostRuntime, retired: &Retired) -> Option<Manifest>
    ensures noted { IfSome result (λ it. AreNoted (parts_of retired.now) it.entries) }
    ensures only { IfSome result (λ it. NotesNoOther (parts_of retired.now) it.entries) }
{
    let database = match drawn_name(rt) {
        Ok(database) => database,
        Err(error) => {
            tell(rt, RANDOM, &error);
            return None;
        }
    };
    match manifest_of(rt.alloc(), database, retired) {
        Ok(manifest) => Some(manifest),
        Err(_) => {
            let _ = eprintln!(rt; "{}", FaultName::OutOfMemory);
            None
        }
    }
}

fn drawn_name(rt: &HostRuntime) -> io::Result<DatabaseName> {
    let mut bytes = [0; 16];
    fs::open(rt, RANDOM)?.read_exact(&mut bytes)?;
    Ok(DatabaseName(bytes))
}

/// Puts the manifest in place beside the files that were saved in a folder, and says whether that
/// went well. Why it did not is told, and which names have their new file.
pub fn put_manifest(
    rt: &HostRuntime,
    there: &mut SystemFolder<'_>,
    folder: &str,
    notes: &Notes,
    retired: &Retired,
    manifest: &Manifest,
) -> bool {
    let mut text = ManifestText { manifest };
    let fault = match put_and_store(there, rt.alloc(), MANIFEST, &mut text) {
        Ok(()) => return true,
        Err(fault) => fault,
    };
    let _ = rt.eprintln(&line_of(&fault));
    let is_placed = matches!(fault, PutStoredFault::Unstored(_));
    tell_unput(rt, folder, is_placed, notes, retired);
    false
}

/// The fault that is told of a manifest that is not in its place, or may not stay there.
fn line_of(fault: &PutStoredFault<FileFault>) -> FileFault
    ensures { result ≡ line_of fault.now }
{
    match fault {
        PutStoredFault::Unput(PutFault::Unmade(fault))
        | PutStoredFault::Unput(PutFault::Unwritten(fault))
        | PutStoredFault::Unput(PutFault::Unplaced(fault))
        | PutStoredFault::Unstored(fault) => *fault,
    }
}

fn tell_unput(rt: &HostRuntime, folder: &str, is_placed: bool, notes: &Notes, retired: &Retired) {
    let place = Escaped(folder);
    let _ = match notes.error() {
        Some(error) if is_placed => eprintln!(rt; "imgcopy: {place}: {error}"),
        Some(error) => eprintln!(rt; "imgcopy: {place}/{MANIFEST}: {error}"),
        None => eprintln!(rt; "imgcopy: {place}/{MANIFEST}: not saved"),
    };
    if let Ok(names) = new_names(rt.alloc(), None, retired) {
        let last = if is_placed { " manifest" } else { "" };
        let _ = eprintln!(rt; "imgcopy: {place}: these have their new file already:{names}{last}");
    }
}
