//! The entries of a manifest, as a list.

ghost use Rattle.std.specs.Prelude.{◌≡◌, ◌<◌, length, take, IfNone, IfSome, slice_index_or};
ghost use Rattle.manifest.specs.Entries.{file_of, Lacks, without};
ghost use Rattle.manifest.specs.Places.{HasNameAt};

use crate::entry::{Entry, FileSum};

/// Where the entry of this name stands.
pub(crate) fn place(entries: &[Entry], name: &str) -> Option<usize>
    ensures found { IfSome result (HasNameAt entries.now name.now) }
    ensures none { IfNone result (Lacks name.now entries.now) }
{
    for (i, entry) in entries.iter().enumerate() {
        if entry.has_name(name) {
            return Some(i);
        }
    }
    None
}

/// What is known of the file of this name.
pub(crate) fn file_in(entries: &[Entry], name: &str) -> Option<FileSum>
    ensures { result ≡ file_of name.now entries.now }
{
    for entry in entries {
        if entry.has_name(name) {
            return Some(entry.file());
        }
    }
    None
}

/// Removes the entry of this name, if there is one.
pub(crate) fn drop_name(entries: &mut Vec<Entry>, name: &str)
    ensures { entries.new.items ≡ without name.now entries.old.items }
{
    entries.retain(|entry| !entry.has_name(name));
}
