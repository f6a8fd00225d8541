//! The manifest that counts for the files of a folder.

ghost use Rattle.std.specs.Prelude.{IfOk, IfSome};
ghost use Rattle.database_files.specs.Found.{IsFoundIn, SpellsManifest};
ghost use Rattle.folder_reports.specs.Named.{Counts};

use crate::folder_files::DatabaseFiles;
use crate::named_files::{opened_if_there, read_all};
use crate::trouble::Trouble;
use crate::unread::Unread;
use checked_files::ManifestUse;
use database_files::MANIFEST;
use file_view::ViewFault;
use log_records::MAX_LOG_BYTES;
use manifest::{Manifest, decode};
use saved_files::NamedFiles;
use std::alloc::Global;
use std::io::Read;

/// The manifest that counts for the files of a folder, if one does: the one that stands there, or
/// the one that is told, which stands among the other files. At `Err` it is refused.
pub(crate) fn counting_manifest<F: DatabaseFiles, N: NamedFiles>(
    alloc: Global,
    folder: &F,
    others: &N,
    choice: ManifestUse<'_>,
) -> Result<Option<Manifest>, Trouble>
    ensures { IfOk result (Counts (N.bytes others.now) (F.entries folder.now) choice.entry) }
{
    match choice {
        ManifestUse::Aside => Ok(None),
        ManifestUse::Beside => manifest_in(alloc, folder),
        ManifestUse::Told(place) => match others.open(place) {
            Ok(file) => match manifest_of(alloc, file) {
                Ok(manifest) => Ok(Some(manifest)),
                Err(why) => Err(why),
            },
            Err(error) => Err(unread(Unread::from(error))),
        },
    }
}

/// The manifest that stands in a folder, if something has its name.
fn manifest_in<F: DatabaseFiles>(alloc: Global, folder: &F) -> Result<Option<Manifest>, Trouble>
    ensures { IfOk result (IsFoundIn SpellsManifest (F.entries folder.now) MANIFEST.now) }
{
    match opened_if_there(folder, MANIFEST) {
        Ok(None) => Ok(None),
        Ok(Some(file)) => match manifest_of(alloc, file) {
            Ok(manifest) => Ok(Some(manifest)),
            Err(why) => Err(why),
        },
        Err(why) => Err(unread(why)),
    }
}

/// The manifest that a file spells. None has as many bytes as the longest log.
fn manifest_of<R: Read + Drop>(alloc: Global, file: R) -> Result<Manifest, Trouble>
    ensures { IfOk result (λ it. IfSome (R.remaining file) (SpellsManifest it)) }
{
    let bytes = match read_all(alloc, file) {
        Ok(bytes) => bytes,
        Err(why) => return Err(unread(why)),
    };
    if bytes.len() > MAX_LOG_BYTES {
        return Err(Trouble::ManifestUnread(ViewFault::ReadFault, None));
    }
    match decode(alloc, &bytes) {
        Ok(manifest) => Ok(manifest),
        Err(why) => Err(Trouble::BadManifest(why)),
    }
}

/// Why no manifest was read.
fn unread(why: Unread) -> Trouble {
    match why {
        Unread::Fault(fault, code) => Trouble::ManifestUnread(fault, code),
        Unread::NotAFile | Unread::IsCopy(_) => Trouble::ManifestNotAFile,
    }
}
