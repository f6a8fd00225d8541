//! What manifests say of the files that a command reads. One stands beside them, as `manifest`, or
//! is told.

ghost use Rattle.std.specs.Prelude.{◌≡◌, ◌<◌, ◌↔◌, All, IfSome, IsSome, IsTrue, OnOk};
ghost use Rattle.checked_files.specs.declared.known.ManifestUse.TheVariants.{Aside};
ghost use Rattle.file_inputs.specs.Manifests.{ArePlaced, ComparesNone, TakesUp, named_in};

use crate::beside::{is_found, manifest_among, read_beside, read_manifest};
use crate::fault_lines::{tell_audited, tell_input};
use crate::input_names::{FIRST_ARCHIVE, InputNames, what_stands};
use crate::other_file::{OtherFile, tell_unnamed};
use crate::paths::parts_of;
use crate::standing::length_at;
use checked_files::{CheckNotes, Expected, Known, ManifestUse, ReadFile, known_file};
use copy_audit::Unsound;
use file_view::ViewFault;
use manifest::Manifest;
use media_restore::RestoreFault;
use std::alloc::AllocError;
use system_files::{Escaped, Notes};

/// The name that a log has beside a manifest.
const LOG: &str = "log";

/// What is known of the files that a command reads, and where one was found to be another one.
#[derive(Drop)]
pub struct Checks<'a> {
    pub expected: Vec<Expected<'a>>,
    pub notes: CheckNotes,
    /// The files that the manifest does not name which counts for them.
    unnamed: Vec<&'a str>,
    choice: ManifestUse<'a>,
}

impl<'a> Checks<'a> {
    /// What manifests say of these files. None where a manifest is refused, which is told.
    pub fn of(rt: &HostRuntime, names: &InputNames<'a>) -> Option<Checks<'a>>
        ensures aside { names.now.manifest ≡ Aside → IfSome result ComparesNone }
        ensures placed { IfSome result (ArePlaced names.now) }
    {
        let mut checks = Checks {
            expected: Vec::new(rt.alloc()),
            notes: CheckNotes::new(),
            unnamed: Vec::new(rt.alloc()),
            choice: names.manifest,
        };
        let done = match names.manifest {
            ManifestUse::Beside => checks.look_beside(rt, names),
            ManifestUse::Told(place) => checks.look_at(rt, names, place),
            ManifestUse::Aside => Ok(true),
        };
        match done {
            Ok(true) => Some(checks),
            Ok(false) => None,
            Err(_) => {
                let _ = rt.eprintln(&ViewFault::OutOfMemory);
                None
            }
        }
    }

    /// Names the file in which a restore met its fault, and says what is wrong with it.
    pub fn tell_input(
        &self,
        rt: &HostRuntime,
        names: &InputNames<'_>,
        fault: &RestoreFault,
        notes: &Notes,
    ) {
        match (fault, self.notes.refused()) {
            (RestoreFault::ReadFault, Some(count)) => self.tell_other(rt, names, notes, count),
            _ => tell_input(rt, names, fault, notes),
        }
    }

    /// Names the file in which an audit met its fault, and says what is wrong with it.
    pub fn tell_audited(
        &self,
        rt: &HostRuntime,
        names: &InputNames<'_>,
        fault: &Unsound,
        notes: &Notes,
    ) {
        match (fault, self.notes.refused()) {
            (Unsound::ReadFault, Some(count)) => self.tell_other(rt, names, notes, count),
            _ => tell_audited(rt, names, fault, notes),
        }
    }

    /// Tells which files the manifest does not name that counts for them.
    pub fn tell_unnamed(&self, rt: &impl Eprint) {
        for name in self.unnamed.as_slice() {
            match self.choice {
                ManifestUse::Told(place) => tell_unnamed(rt, name, &Escaped(place)),
                _ => tell_unnamed(rt, name, &"the manifest beside it"),
            }
        }
    }

    /// Tells that the file that was read last is not the one that the manifest names.
    fn tell_other(&self, rt: &impl Eprint, names: &InputNames<'_>, notes: &Notes, count: u64) {
        let Some(place) = notes.read_last() else {
            return;
        };
        let Some(name) = names.at(place) else {
            return;
        };
        let what = OtherFile {
            place: name,
            what: what_stands(place),
            named: self.named(name),
            count,
        };
        what.tell(rt);
    }

    /// Whether each of these files is compared with what a manifest says of it.
    pub fn compares(&self, files: &[&str]) -> bool
        ensures { IsTrue result → All (λ name. IsSome (named_in self.now.expected.items name.now))
            files.now }
    {
        for name in files {
            if self.named(name).is_none() {
                return false;
            }
        }
        true
    }

    /// How many bytes are named of the file of this name.
    fn named(&self, name: &str) -> Option<u64>
        ensures { result ≡ named_in self.now.expected.items name.now }
    {
        for it in self.expected.as_slice() {
            if it.name == name {
                return Some(it.file.bytes);
            }
        }
        None
    }

    /// Takes up what the manifests say that stand beside the files. Whether none is refused.
    fn look_beside(&mut self, rt: &HostRuntime, names: &InputNames<'a>) -> Result<bool, AllocError>
        ensures { OnOk result (ArePlaced names.now self.old → ArePlaced names.now self.new) }
    {
        let mut found = Vec::new(rt.alloc());
        for place in 0..names.count() {
            let Some(folder) = folder_at(names, place) else {
                continue;
            };
            if !is_found(&found, folder) {
                let Some(beside) = read_beside(rt, folder)? else {
                    return Ok(false);
                };
                found.push(beside)?;
            }
            let log = log_beside(rt, folder)?;
            self.compare(
                names,
                place,
                ManifestUse::Beside,
                manifest_among(&found, folder),
                log,
            )?;
        }
        Ok(true)
    }

    /// Takes up what this manifest says of the files, wherever they stand. Whether it is not refused.
    fn look_at(
        &mut self,
        rt: &HostRuntime,
        names: &InputNames<'a>,
        told: &str,
    ) -> Result<bool, AllocError>
        ensures { OnOk result (ArePlaced names.now self.old → ArePlaced names.now self.new) }
    {
        let Some(manifest) = read_manifest(rt, told) else {
            return Ok(false);
        };
        let log = length_at(rt, names.log);
        for place in 0..names.count() {
            self.compare(names, place, ManifestUse::Told(told), Some(&manifest), log)?;
        }
        Ok(true)
    }

    /// Takes up what this manifest says of the file at a place, if there is one, of whose log so many
    /// bytes stand there.
    fn compare(
        &mut self,
        names: &InputNames<'a>,
        place: usize,
        choice: ManifestUse<'_>,
        stands: Option<&Manifest>,
        log: Option<u64>,
    ) -> Result<(), AllocError>
        ensures { OnOk result (ArePlaced names.now self.old → ArePlaced names.now self.new) }
    {
        let Some(name) = names.at(place) else {
            return Ok(());
        };
        let Some((_, base)) = parts_of(name) else {
            return Ok(());
        };
        let file = ReadFile {
            name: base,
            in_part: is_in_part(names, place),
            log,
        };
        let known = known_file(choice, stands, &file);
        self.take(name, &known)
    }

    /// Takes up what is known of a file.
    fn take(&mut self, name: &'a str, known: &Known) -> Result<(), AllocError>
        ensures { OnOk result (TakesUp name.entry known.now self.old self.new) }
    {
        match known {
            Known::Nothing => Ok(()),
            Known::Unnamed => Ok(self.unnamed.push(name)?),
            Known::Named(file) => Ok(self.expected.push(Expected { name, file: *file })?),
        }
    }
}

/// The folder of the file at a place, if there is one.
fn folder_at<'a>(names: &InputNames<'a>, place: usize) -> Option<&'a str> {
    let (folder, _) = parts_of(names.at(place)?)?;
    Some(folder)
}

/// Of a log that counts up to a record not all is read, and no master record.
fn is_in_part(names: &InputNames<'_>, place: usize) -> bool
    ensures { IsTrue result ↔ (IsSome names.now.until × (place < 2)) }
{
    names.until.is_some() && place < FIRST_ARCHIVE
}

/// How many bytes the log of a folder has.
fn log_beside(rt: &HostRuntime, folder: &str) -> Result<Option<u64>, AllocError> {
    let place = format!(in rt.alloc(); "{folder}/{LOG}")?;
    Ok(length_at(rt, place.as_str()))
}
