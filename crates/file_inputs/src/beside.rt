//! The manifest that stands in a folder.

ghost use Rattle.std.specs.Prelude.{◌≡◌, option_map};
ghost use Rattle.file_inputs.specs.Manifests.{manifest_in};

use crate::standing::{bytes_of, is_absent, may_be_read};
use checked_files::ManifestUse;
use file_view::ViewFault;
use manifest::{Manifest, ManifestFault, decode};
use std::alloc::AllocError;
use system_files::{Escaped, Notes};

/// The name that a manifest has.
pub const MANIFEST: &str = "manifest";

/// What to do where a manifest is none.
const MANIFEST_WAY_ON: &str = "put the files' manifest there, or go on by --no-manifest";

/// A folder, and the manifest that stands there, if one does.
#[derive(Drop)]
pub(crate) struct Beside<'a> {
    pub folder: &'a str,
    pub manifest: Option<Manifest>,
}

/// The manifest that counts for the files of a folder, if one does. None where it is refused, which
/// is told.
pub fn manifest_for(
    rt: &HostRuntime,
    folder: &str,
    choice: ManifestUse<'_>,
) -> Result<Option<Option<Manifest>>, AllocError> {
    match choice {
        ManifestUse::Aside => Ok(Some(None)),
        ManifestUse::Told(place) => match read_manifest(rt, place) {
            Some(manifest) => Ok(Some(Some(manifest))),
            None => Ok(None),
        },
        ManifestUse::Beside => match read_beside(rt, folder)? {
            Some(beside) => Ok(Some(beside.manifest)),
            None => Ok(None),
        },
    }
}

/// The manifest that stands in a folder. None where it is refused, which is told.
pub(crate) fn read_beside<'a>(
    rt: &HostRuntime,
    folder: &'a str,
) -> Result<Option<Beside<'a>>, AllocError> {
    let place = format!(in rt.alloc(); "{folder}/{MANIFEST}")?;
    let manifest = if is_absent(rt, place.as_str()) {
        None
    } else if may_be_read(rt, place.as_str()) {
        let Some(manifest) = read_manifest(rt, place.as_str()) else {
            return Ok(None);
        };
        Some(manifest)
    } else {
        tell_irregular(rt, place.as_str());
        return Ok(None);
    };
    Ok(Some(Beside { folder, manifest }))
}

/// The manifest in a file. None where it is refused, which is told.
pub(crate) fn read_manifest(rt: &HostRuntime, place: &str) -> Option<Manifest> {
    let notes = Notes::new();
    match bytes_of(rt, place, &notes) {
        Ok(bytes) => match decode(rt.alloc(), &bytes) {
            Ok(manifest) => Some(manifest),
            Err(fault) => {
                tell_refused(rt, place, &fault);
                None
            }
        },
        Err(fault) => {
            let _ = rt.eprintln(&fault);
            if let Some(error) = notes.error() {
                let place = Escaped(place);
                let _ = eprintln!(rt; "imgcopy: {place}: {error}");
            }
            None
        }
    }
}

fn tell_irregular(rt: &impl Eprint, place: &str) {
    let place = Escaped(place);
    let _ = rt.eprintln(&ViewFault::ReadFault);
    let _ = eprintln!(rt; "imgcopy: {place}: this is no regular file: {MANIFEST_WAY_ON}");
}

fn tell_refused(rt: &impl Eprint, place: &str, fault: &ManifestFault) {
    let place = Escaped(place);
    let _ = match fault {
        ManifestFault::OutOfMemory => rt.eprintln(&ViewFault::OutOfMemory),
        fault => {
            let _ = rt.eprintln(&ViewFault::ReadFault);
            eprintln!(rt; "imgcopy: {place}: {fault}: {MANIFEST_WAY_ON}")
        }
    };
}

pub(crate) fn is_found(found: &[Beside<'_>], folder: &str) -> bool {
    found.iter().any(|it| it.folder == folder)
}

/// The manifest that was found in a folder.
pub(crate) fn manifest_among<'b>(found: &'b [Beside<'_>], folder: &str) -> Option<&'b Manifest>
    ensures { option_map (λ it. it.now) result ≡ manifest_in found.now folder.now }
{
    for it in found {
        if it.folder == folder {
            return it.manifest.as_ref();
        }
    }
    None
}
