//! The names of the files of a run.

use copy_vault::CopyId;
use std::fmt;

/// A file of a run. Its text is its name.
#[derive(Clone, Copy, Debug, PartialEq, Eq)]
pub enum SavedName {
    /// The log, in `log`.
    Log,
    /// The master record, in `master`.
    Master,
    /// An image copy, in `copy-` and its id.
    Copy(CopyId),
}

impl fmt::Display for SavedName {
    ghost use Rattle.std.specs.Prelude.{Some};
    ghost use Rattle.saved_files.specs.Saved.{name_of};

    ghost output = { λ name. Some (name_of name) };

    fn fmt<W: fmt::Write>(&self, f: &mut fmt::Formatter<W>) -> fmt::Result {
        match self {
            SavedName::Log => f.write_str("log"),
            SavedName::Master => f.write_str("master"),
            SavedName::Copy(copy) => {
                let id = copy.0;
                write!(f, "copy-{id}")
            }
        }
    }
}
