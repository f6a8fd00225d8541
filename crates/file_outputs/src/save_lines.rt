//! The lines for a person behind a save: why it failed, and which files there are not its own.

ghost use Rattle.std.specs.Prelude.{◌<◌, ◌↔◌, IfSome, IsNone, IsSome, IsTrue};
ghost use Rattle.saved_files.specs.Saved.{parts_of, place_of};

use copy_coverage::Retired;
use copy_vault::{CopyId, MAX_COPIES};
use saved_files::{SaveFault, SavedName};
use std::alloc::{AllocError, Global};
use std::fs;
use std::io::ErrorKind;
use std::path::Path;
use std::rt::Files;
use system_files::{Escaped, Notes};

/// Says why the files were not saved, and which names have their new file already.
pub fn tell_unsaved(
    rt: &HostRuntime,
    folder: &str,
    fault: &SaveFault,
    retired: &Retired,
    notes: &Notes,
) {
    tell_why_unsaved(rt, folder, fault, notes);
    let stopped = match fault {
        SaveFault::Unclaimed(_) => return,
        SaveFault::Unsaved(file, _) => Some(*file),
        SaveFault::Unstored(_) => None,
    };
    let Ok(names) = new_names(rt.alloc(), stopped, retired) else {
        return;
    };
    let folder = Escaped(folder);
    let _ = if names.is_empty() {
        eprintln!(rt; "imgcopy: {folder}: no name has its new file")
    } else {
        eprintln!(rt; "imgcopy: {folder}: these have their new file already:{names}")
    };
}

/// Says what befell the folder, or the file that was not saved.
fn tell_why_unsaved(rt: &impl Eprint, folder: &str, fault: &SaveFault, notes: &Notes) {
    let folder = Escaped(folder);
    let SaveFault::Unsaved(file, _) = fault else {
        let _ = match notes.error() {
            Some(error) => eprintln!(rt; "imgcopy: {folder}: {error}"),
            None => eprintln!(rt; "imgcopy: {folder}: not saved"),
        };
        return;
    };
    let _ = match notes.error() {
        Some(error) if error.kind() == ErrorKind::WouldBlock => {
            eprintln!(rt; "imgcopy: {folder}/{file}: another one has this log open")
        }
        Some(error) => eprintln!(rt; "imgcopy: {folder}/{file}: {error}"),
        None => eprintln!(rt; "imgcopy: {folder}/{file}: not saved"),
    };
}

/// The names of the files of a run that are in their places, each behind a space, where its save
/// stopped at one of them, or at none.
pub fn new_names(
    alloc: Global,
    stopped: Option<SavedName>,
    retired: &Retired,
) -> Result<String, AllocError> {
    let (mut names, stopped) = (String::new(alloc), stopped.as_ref());
    for file in &[SavedName::Log, SavedName::Master] {
        if is_placed(file, stopped) && is_of_run(file, retired) {
            write!(names, " {file}")?;
        }
    }
    for id in 1..=MAX_COPIES {
        let file = &SavedName::Copy(CopyId(id));
        if is_placed(file, stopped) && is_of_run(file, retired) {
            write!(names, " {file}")?;
        }
    }
    Ok(names)
}

/// Whether a file comes before the one at which a save stopped, if it stopped at one.
fn is_placed(file: &SavedName, stopped: Option<&SavedName>) -> bool
    ensures all { IsNone stopped.entry → IsTrue result }
    ensures before { IfSome stopped.entry (λ at. IsTrue result
        ↔ (place_of file.now < place_of at.now)) }
{
    match (file, stopped) {
        (_, None) => true,
        (_, Some(SavedName::Log)) => false,
        (SavedName::Log, Some(_)) => true,
        (_, Some(SavedName::Master)) => false,
        (SavedName::Master, Some(SavedName::Copy(_))) => true,
        (SavedName::Copy(id), Some(SavedName::Copy(at))) => id.0 < at.0,
    }
}

/// Whether a run has such a file.
fn is_of_run(file: &SavedName, retired: &Retired) -> bool
    ensures { IsTrue result ↔ IsSome (parts_of retired.now file.now) }
{
    match file {
        SavedName::Log => true,
        SavedName::Master => retired.master().is_some(),
        SavedName::Copy(id) => retired.vault().complete(*id).is_some(),
    }
}

/// Names the files of a folder that are of another run, by their names: nothing says that they fit
/// the log that was saved beside them.
pub fn tell_stale<R: Files + Eprint>(rt: &R, alloc: Global, folder: &str, retired: &Retired) {
    if let Ok(names) = stale_names(rt, alloc, folder, retired) {
        if !names.is_empty() {
            let folder = Escaped(folder);
            let _ = eprintln!(rt; "imgcopy: {folder}: not of this run:{names}");
        }
    }
}

/// The names of those files, each behind a space.
fn stale_names<R: Files>(
    files: &R,
    alloc: Global,
    folder: &str,
    retired: &Retired,
) -> Result<String, AllocError> {
    let mut names = String::new(alloc);
    if !is_of_run(&SavedName::Master, retired) {
        put_if_there(files, alloc, folder, &SavedName::Master, &mut names)?;
    }
    for id in 1..=MAX_COPIES {
        let file = &SavedName::Copy(CopyId(id));
        if !is_of_run(file, retired) {
            put_if_there(files, alloc, folder, file, &mut names)?;
        }
    }
    Ok(names)
}

/// Puts the name behind the others, where a file has it.
fn put_if_there<R: Files>(
    files: &R,
    alloc: Global,
    folder: &str,
    file: &SavedName,
    names: &mut String,
) -> Result<(), AllocError> {
    let name = format!(in alloc; "{file}")?;
    let place = Path::new(folder).join(alloc, name.as_str())?;
    if let Ok(true) = fs::exists(files, place.as_path()) {
        write!(names, " {file}")?;
    }
    Ok(())
}
