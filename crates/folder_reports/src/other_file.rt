//! The line for a file that is not the one that a manifest names.

use database_files::Place;
use std::fmt;
use system_files::Escaped;

/// What is told of a file that a manifest names and that is another one.
const OTHER: &str = "is not the file that the manifest names";

/// What to do then.
const WAY_ON: &str = "put that file there, or go on by --no-manifest";

/// A file of a folder that is not the one that a manifest names. Its text says so, and what to do.
#[derive(Clone, Copy)]
pub(crate) struct OtherFile<'a> {
    pub folder: &'a str,
    pub place: Place,
    /// How many bytes are named.
    pub named: u64,
    /// How many bytes it has; of a log, no more than are named.
    pub count: u64,
}

impl fmt::Display for OtherFile<'_> {
    fn fmt<W: fmt::Write>(&self, f: &mut fmt::Formatter<W>) -> fmt::Result {
        let (folder, place, what) = (Escaped(self.folder), self.place, what_of(self.place));
        let (named, count) = (self.named, self.count);
        write!(f, "imgcopy: {folder}{place} ({what}): {OTHER}")?;
        if named == count {
            write!(f, ", by {count} bytes of it: {WAY_ON}")
        } else {
            write!(f, ": it has {count} bytes, and {named} are named: {WAY_ON}")
        }
    }
}

/// As what a file is read.
fn what_of(place: Place) -> &'static str {
    match place {
        Place::Copy(_) => "image copy",
        _ => "log",
    }
}
