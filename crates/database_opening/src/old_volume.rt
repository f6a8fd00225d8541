//! The volume that stands where a new one is to be made.

ghost use Rattle.std.specs.Prelude.{◌≡◌, ◌↔◌, IfOk, IsTrue, OnOk};
ghost use Rattle.std.specs.Option.{option_map};
ghost use Rattle.saved_files.specs.Folder.{Changes};
ghost use Rattle.database_files.specs.Closed.{KeepsNote};
ghost use Rattle.database_files.specs.Standing.{KeepsFiles};
ghost use Rattle.database_opening.specs.OldVolume.{HasChange, IsHeldAside, IsOldVolumeIn};

use crate::left_out::{Origin, keep_bytes};
use database_files::{
    ChangeFault, DatabaseFolder, Diagnostics, OpenFault, Place, Standing, VOLUME,
};
use page_core::PAGE_BYTES;

/// How many bytes a new page begins with that need not be zeros: its number, and that of the
/// format.
const HEAD_BYTES: usize = 8;

/// Whether a volume has a change: a new one has zeros behind the head of each page.
fn has_change(bytes: &[u8]) -> bool
    ensures { IsTrue result ↔ HasChange bytes.now }
{
    for place in 0..bytes.len() {
        if place % PAGE_BYTES >= HEAD_BYTES && bytes[place] != 0 {
            return true;
        }
    }
    false
}

/// The bytes of the volume that stands beside a log with no header, if it has a change. The log had
/// that change once, so this is refused, unless what is left is to be opened. It only looks.
pub(crate) fn old_volume<F: DatabaseFolder>(
    folder: &F,
    is_salvage: bool,
) -> Result<Option<Vec<u8>>, OpenFault>
    ensures { IfOk result (λ it.
        IsOldVolumeIn is_salvage (F.entries folder.now) (option_map (λ it. it.items) it)) }
{
    let bytes = match folder.whole(VOLUME) {
        Ok(Standing::File(bytes)) => bytes,
        Ok(Standing::NotAFile) => return Err(OpenFault::NotAFile(Place::Volume)),
        Ok(Standing::Absent) => return Ok(None),
        Err(error) => return Err(OpenFault::of(Place::Volume, &error)),
    };
    if !has_change(&bytes) {
        return Ok(None);
    }
    if !is_salvage {
        return Err(OpenFault::LogLost(Place::Volume));
    }
    Ok(Some(bytes))
}

/// Keeps these bytes of a volume in a file of their own, `volume.left-out-1` or one with the next
/// number that is free.
pub(crate) fn keep_volume<F: DatabaseFolder>(
    diagnostics: &Diagnostics<'_>,
    folder: &mut F,
    held: &Option<Vec<u8>>,
) -> Result<(), ChangeFault>
    requires { F.is_claimed folder.old }
    ensures kept { OnOk result (IsHeldAside (option_map (λ it. it.items) held.now)
        (F.entries folder.old) (F.entries folder.new)) }
    ensures note { OnOk result (KeepsNote (F.entries folder.old) (F.entries folder.new)) }
    ensures files { Changes KeepsFiles (F.entries folder.old) (F.entries folder.new) }
    ensures claimed { F.is_claimed folder.new }
{
    match held {
        Some(bytes) => keep_bytes(diagnostics, folder, Origin::Volume, bytes),
        None => Ok(()),
    }
}
