//! The file of a volume.

ghost use Rattle.std.specs.Prelude.{◌≡◌, IfOk, IsTrue, OnOk};
ghost use Rattle.saved_files.specs.Folder.{Changes, KeepsOthers};
ghost use Rattle.database_files.specs.DatabaseFolder.{BeginsAsVolume, HasNoOtherVolume};

use database_files::{
    ChangeFault, DatabaseFolder, OpenFault, Place, Standing, VOLUME, VolumeFault,
};
use page_store::MemStore;

/// How many bytes a volume begins with that are known: the number of page 0, and that of the
/// format.
const KNOWN_BYTES: usize = 8;

/// Where the number of the format stands, which is 1.
const FORMAT_PLACE: usize = 4;

/// Sees that nothing but a volume has the volume's name, or nothing at all. A link is not followed:
/// what it leads to would be emptied.
pub(crate) fn check_volume<F: DatabaseFolder>(folder: &F) -> Result<(), OpenFault>
    ensures { OnOk result (HasNoOtherVolume (F.entries folder.now)) }
{
    // Bytes that are not there are zeros here.
    let mut bytes = [0; KNOWN_BYTES];
    match folder.volume_begins(&mut bytes) {
        Ok(Standing::File(_)) if begins_as_volume(&bytes) => Ok(()),
        Ok(Standing::File(_)) => Err(OpenFault::NoVolume),
        Ok(Standing::NotAFile) => Err(OpenFault::NotAFile(Place::Volume)),
        Ok(Standing::Absent) => Ok(()),
        Err(error) => Err(OpenFault::of(Place::Volume, &error)),
    }
}

/// Whether these are the first bytes of a volume. After a loss of power there may be zeros in their
/// place.
fn begins_as_volume(bytes: &[u8; KNOWN_BYTES]) -> bool
    ensures { IsTrue result → BeginsAsVolume bytes.now }
{
    for place in 0..bytes.len() {
        let is_format = place == FORMAT_PLACE && bytes[place] == 1;
        if bytes[place] != 0 && !is_format {
            return false;
        }
    }
    true
}

/// Makes a volume of these pages in a folder. What its file had is gone, and its name need not last
/// yet.
pub(crate) fn volume_of<F: DatabaseFolder>(
    folder: &mut F,
    pages: MemStore,
) -> Result<F::Volume, ChangeFault>
    requires { F.is_claimed folder.old }
    ensures pages { IfOk result (λ volume. F.Volume.stored volume ≡ pages) }
    ensures others { Changes (KeepsOthers VOLUME.now)
        (F.entries folder.old) (F.entries folder.new) }
    ensures claimed { F.is_claimed folder.new }
{
    match folder.make_volume(pages) {
        Ok(volume) => Ok(volume),
        Err(VolumeFault::NotAFile) => Err(ChangeFault::NotAFile(Place::Volume)),
        Err(VolumeFault::System(error)) => Err(ChangeFault::of(Place::Volume, &error)),
    }
}
