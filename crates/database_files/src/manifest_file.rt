//! The file of a manifest.

ghost use Rattle.std.specs.Prelude.{OnErr, OnOk, codes};
ghost use Rattle.std.specs.Io.KnownBytes.{Appends};
ghost use Rattle.manifest.specs.Text.{manifest_text};
ghost use Rattle.saved_files.specs.Folder.{Changes, Puts, PutsOrKeeps};
ghost use Rattle.saved_files.specs.PutFault.{bytes_by};
ghost use Rattle.database_files.specs.DatabaseFolder.{HasFile};

use crate::names::MANIFEST;
use crate::whole_file::Bytes;
use manifest::Manifest;
use saved_files::{FileFault, Folder, PutFault, put_in_place};
use std::alloc::Global;

/// Puts the text of a manifest in its place, and has its name last.
pub fn put_text<F: Folder>(
    folder: &mut F,
    alloc: Global,
    manifest: &Manifest,
) -> Result<(), FileFault>
    requires { F.is_claimed folder.old }
    ensures put { OnOk result (HasFile (codes "manifest")
        (bytes_by (λ old new. Appends old new (manifest_text manifest.now)))
        (F.entries folder.new)) }
    ensures changed { OnOk result (Changes
        (Puts (codes "manifest")
        (bytes_by (λ old new. Appends old new (manifest_text manifest.now))))
        (F.entries folder.old) (F.entries folder.new)) }
    ensures left { OnErr result (Changes (PutsOrKeeps (codes "manifest")
        (bytes_by (λ old new. Appends old new (manifest_text manifest.now))))
        (F.entries folder.old) (F.entries folder.new)) }
    ensures stored { OnOk result (F.is_stored folder.new) }
    ensures claimed { F.is_claimed folder.new }
{
    let Ok(text) = manifest.to_text() else {
        return Err(FileFault::OutOfMemory);
    };
    let mut source = Bytes {
        bytes: text.as_bytes(),
    };
    match put_in_place(folder, alloc, MANIFEST, &mut source) {
        Ok(()) => {}
        Err(PutFault::Unmade(why) | PutFault::Unwritten(why) | PutFault::Unplaced(why)) => {
            return Err(why);
        }
    }
    match folder.sync_names() {
        Ok(()) => Ok(()),
        Err(_) => Err(FileFault::WriteFault(0)),
    }
}
