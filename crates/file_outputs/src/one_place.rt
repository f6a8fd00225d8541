//! Whether two paths are of one place, or of one folder.

ghost use Rattle.std.specs.Prelude.{◌≡◌, IsSome, IsTrue};
ghost use Rattle.file_inputs.specs.Paths.{parts_in};
ghost use Rattle.file_outputs.specs.Places.{HaveOneName};

use file_inputs::parts_of;
use system_files::FileIdentity;

/// Whether two paths are of one place: the same name in the same folder.
pub fn is_one_place(rt: &HostRuntime, one: &str, other: &str) -> bool
    ensures named { IsTrue result → HaveOneName (parts_in one.now) (parts_in other.now) }
    ensures one_path { one.now ≡ other.now → IsSome (parts_in one.now) → IsTrue result }
{
    match (parts_of(one), parts_of(other)) {
        (Some((folder, name)), Some((other_folder, other_name))) => {
            name == other_name && is_one_folder(rt, folder, other_folder)
        }
        _ => false,
    }
}

/// Whether two paths name files of one folder.
pub fn have_one_folder(rt: &HostRuntime, one: &str, other: &str) -> bool
    ensures { one.now ≡ other.now → IsSome (parts_in one.now) → IsTrue result }
{
    match (parts_of(one), parts_of(other)) {
        (Some((folder, _)), Some((other_folder, _))) => is_one_folder(rt, folder, other_folder),
        _ => false,
    }
}

/// A folder that is not there is no other one: it cannot be opened later either.
fn is_one_folder(rt: &HostRuntime, one: &str, other: &str) -> bool
    ensures { one.now ≡ other.now → IsTrue result }
{
    if one == other {
        return true;
    }
    match (FileIdentity::at(rt, one), FileIdentity::at(rt, other)) {
        (Some(one), Some(other)) => one == other,
        _ => false,
    }
}
