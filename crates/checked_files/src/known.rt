//! Which manifest counts for the files that a command reads, and what it says of one of them.

ghost use Rattle.std.specs.Prelude.{◌≡◌, ◌↔◌, IsTrue, option_map};
ghost use Rattle.checked_files.specs.Known.{FitsLength, is_behind, known_of, use_of};

use manifest::{Extent, FileSum, Manifest};

/// The name that a log has in a manifest, and the name that its master record has.
const LOG: &str = "log";

const MASTER: &str = "master";

/// Which manifest counts for the files that a command reads.
#[derive(Clone, Copy, Debug, PartialEq, Eq)]
pub enum ManifestUse<'a> {
    /// The one that stands beside each file, where one does.
    Beside,
    /// The one in this file, wherever the files stand.
    Told(&'a str),
    /// None, whatever stands there.
    Aside,
}

impl<'a> ManifestUse<'a> {
    /// What the words of a command say: which file is the manifest, or that none counts. None where
    /// they say both.
    pub fn of(told: Option<&'a str>, aside: bool) -> Option<ManifestUse<'a>>
        ensures { result ≡ use_of told.entry aside }
    {
        match (told, aside) {
            (None, false) => Some(ManifestUse::Beside),
            (None, true) => Some(ManifestUse::Aside),
            (Some(file), false) => Some(ManifestUse::Told(file)),
            (Some(_), true) => None,
        }
    }
}

/// A file that a command reads, as a manifest would name it.
#[derive(Clone, Copy)]
pub struct ReadFile<'a> {
    /// Its last name.
    pub name: &'a str,
    /// Whether no more of it may count than a front, as of a log up to one of its records.
    pub in_part: bool,
    /// How many bytes the log has that belongs to it, where that is known.
    pub log: Option<u64>,
}

/// What is known of a file.
#[derive(Clone, Copy, Debug, PartialEq, Eq)]
pub enum Known {
    /// Nothing: it is not compared.
    Nothing,
    /// There is a manifest, which does not name it.
    Unnamed,
    /// It has to be this one.
    Named(FileSum),
}

/// What is known of a file that a command reads, where this manifest stands beside it, or is the one
/// that is told.
pub fn known_file(choice: ManifestUse<'_>, stands: Option<&Manifest>, file: &ReadFile<'_>) -> Known
    ensures { result ≡ known_of choice.entry (option_map (λ it. it.now) stands.entry) file.now }
{
    let Some(manifest) = stands else {
        return Known::Nothing;
    };
    if matches!(choice, ManifestUse::Aside) || file.in_part {
        return Known::Nothing;
    }
    match manifest.entry(file.name) {
        None => Known::Unnamed,
        Some(_) if is_behind(manifest, file) => Known::Nothing,
        Some(it) => Known::Named(it),
    }
}

/// Whether a file is the master record beside a log that has more bytes than are named: a newer one
/// may have taken its place since.
fn is_behind(manifest: &Manifest, file: &ReadFile<'_>) -> bool
    ensures { result ≡ is_behind manifest.now file.now }
{
    if file.name != MASTER {
        return false;
    }
    match (manifest.entry(LOG), file.log) {
        (Some(log), Some(bytes)) => log.extent == Extent::First && log.bytes < bytes,
        _ => false,
    }
}

/// Whether a file of so many bytes may be the one that is named.
pub fn fits_length(file: FileSum, bytes: u64) -> bool
    ensures { IsTrue result ↔ FitsLength file bytes }
{
    match file.extent {
        Extent::Whole => bytes == file.bytes,
        Extent::First => bytes >= file.bytes,
    }
}
