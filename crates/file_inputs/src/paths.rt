//! The folder and the name that a path has.

ghost use Rattle.std.specs.Prelude.{◌≡◌, option_map};
ghost use Rattle.file_inputs.specs.Paths.{leads_to_folder, parts_in};

/// The folder and the name that a path has, parted by its last slash. A name alone is one of the
/// folder `.`. None where the path can only be a folder's: it ends with a slash, or in `.` or `..`.
pub fn parts_of(path: &str) -> Option<(&str, &str)>
    ensures { option_map (λ it. (it.0.now, it.1.now)) result ≡ parts_in path.now }
{
    let (folder, name) = match path.rsplit_once('/') {
        None => (".", path),
        Some((folder, name)) => (if folder.is_empty() { "/" } else { folder }, name),
    };
    if leads_to_folder(name) {
        None
    } else {
        Some((folder, name))
    }
}

fn leads_to_folder(name: &str) -> bool
    ensures { result ≡ leads_to_folder name.now }
{
    name.is_empty() || name == "." || name == ".."
}
