//! Why the files of a run were not saved.

use crate::file_fault::FileFault;
use crate::put_fault::PutFault;
use crate::saved_name::SavedName;
use std::error::Error;
use std::fmt;

/// Why the files of a run were not saved. Its text is the line of what befell the folder or the
/// file.
#[derive(Clone, Copy, Debug, PartialEq, Eq)]
pub enum SaveFault {
    /// Another save has the folder, or it cannot be taken. Nothing was changed.
    Unclaimed(FileFault),
    /// This file was not saved, for this reason. Those before it were.
    Unsaved(SavedName, PutFault<FileFault>),
    /// All files were saved, but it is not known that their names outlast the system's end.
    Unstored(FileFault),
}

impl fmt::Display for SaveFault {
    ghost use Rattle.std.specs.Prelude.{Some};
    ghost use Rattle.saved_files.specs.Saved.{line_of_save};

    ghost output = { λ fault. Some (line_of_save fault) };

    fn fmt<W: fmt::Write>(&self, f: &mut fmt::Formatter<W>) -> fmt::Result {
        match self {
            SaveFault::Unclaimed(why)
            | SaveFault::Unsaved(_, PutFault::Unmade(why))
            | SaveFault::Unsaved(_, PutFault::Unwritten(why))
            | SaveFault::Unsaved(_, PutFault::Unplaced(why))
            | SaveFault::Unstored(why) => why.fmt(f),
        }
    }
}

impl Error for SaveFault {}
