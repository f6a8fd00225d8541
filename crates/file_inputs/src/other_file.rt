//! Lines of a file that a manifest does not name, and of one that it names and that is another one.

use std::fmt::Display;
use system_files::Escaped;

/// What is told of a file that a manifest names and that is another one.
const OTHER: &str = "is not the file that the manifest names";

/// What to do then.
const WAY_ON: &str = "put that file there, or go on by --no-manifest";

/// Tells that a manifest does not name a file.
pub fn tell_unnamed(rt: &impl Eprint, name: &str, manifest: &impl Display) {
    let name = Escaped(name);
    let _ = eprintln!(rt; "imgcopy: {name}: {manifest} does not name it");
}

/// A file that is not the one that a manifest names.
#[derive(Clone, Copy)]
pub struct OtherFile<'a> {
    pub place: &'a str,
    /// As what it is read.
    pub what: &'a str,
    /// How many bytes are named, where that is known.
    pub named: Option<u64>,
    /// How many bytes it has; of a log, no more than are named.
    pub count: u64,
}

impl OtherFile<'_> {
    /// Says so, and what to do.
    pub fn tell(&self, rt: &impl Eprint) {
        let (place, what, count) = (Escaped(self.place), self.what, self.count);
        let _ = match self.named {
            Some(named) if named != count => eprintln!(rt;
                "imgcopy: {place} ({what}): {OTHER}: it has {count} bytes, and {named} are named: {WAY_ON}"
            ),
            _ => eprintln!(rt;
                "imgcopy: {place} ({what}): {OTHER}, by {count} bytes of it: {WAY_ON}"
            ),
        };
    }
}
