//! The note of the log's end that a clean closing leaves.

ghost use Rattle.std.specs.Prelude.{◌≡◌, ◌++◌, [], ◌∷◌, IfOk, OnOk, decimal};
ghost use Rattle.std.specs.Io.KnownBytes.{Appends};
ghost use Rattle.saved_files.specs.FileFault.{Leaves};
ghost use Rattle.saved_files.specs.Folder.{Changes, IsRemoved, KeepsOthers};
ghost use Rattle.database_files.specs.Closed.{SpellsNote, note_of};
ghost use Rattle.database_files.specs.Found.{IsFoundIn, IsReadOf};

use crate::change_fault::ChangeFault;
use crate::database_folder::{DatabaseFolder, Standing};
use crate::fault::OpenFault;
use crate::names::{CLOSED, long_number_of};
use crate::place::Place;
use crate::whole_file::{first_of, read_first};
use page_core::{Lsn, write_out};
use saved_files::{FileFault, Source};
use std::alloc::Global;
use std::io::Write;

/// How many bytes of the file are looked at. A note has fewer.
const MOST_BYTES: usize = 32;

/// Up to where all of the log was forced when the database was closed. Its file has the number of
/// bytes in decimal digits, and a line feed.
#[derive(Clone, Copy, Debug, PartialEq, Eq, Drop)]
pub struct ClosedNote {
    pub end: Lsn,
}

impl Source for ClosedNote {
    type Fault = FileFault;

    ghost gives = { λ it old new. Appends old new (note_of it.end) };

    ghost leaves = { λ it fault old new. Leaves (note_of it.end) old new fault };

    fn write_to<W: Write>(&mut self, alloc: Global, writer: &mut W) -> Result<(), FileFault> {
        let end = self.end.0;
        let Ok(text) = format!(in alloc; "{end}\n") else {
            return Err(FileFault::OutOfMemory);
        };
        match write_out(writer, text.as_bytes()) {
            Ok(()) => Ok(()),
            Err(done) => Err(FileFault::WriteFault(done)),
        }
    }
}

/// What the file of the note says: nothing where it is no note.
pub fn read_note<F: DatabaseFolder>(folder: &F) -> Result<Option<ClosedNote>, OpenFault>
    ensures { IfOk result (IsFoundIn SpellsNote (F.entries folder.now) CLOSED.now) }
{
    let mut bytes = [0; MOST_BYTES];
    match read_first(folder, CLOSED, &mut bytes) {
        Ok(Standing::File(len)) => Ok(note_in(first_of(&bytes, len))),
        Ok(Standing::NotAFile) => Err(OpenFault::NotAFile(Place::Closed)),
        Ok(Standing::Absent) => Err(OpenFault::absent(Place::Closed)),
        Err(error) => Err(OpenFault::of(Place::Closed, &error)),
    }
}

/// The note that these bytes are, if they are one.
pub fn note_in(bytes: &[u8]) -> Option<ClosedNote>
    ensures { IsReadOf SpellsNote bytes.now result }
{
    let Ok(text) = std::str::from_utf8(bytes) else {
        return None;
    };
    let end = long_number_of(text.strip_suffix('\n')?)?;
    Some(ClosedNote { end: Lsn(end) })
}

/// Removes the note, and sees that its name is gone for certain.
pub fn remove_note<F: DatabaseFolder>(folder: &mut F) -> Result<(), ChangeFault>
    requires { F.is_claimed folder.old }
    ensures stored { OnOk result (F.is_stored folder.new) }
    ensures removed { OnOk result
        (Changes (IsRemoved CLOSED.now) (F.entries folder.old) (F.entries folder.new)) }
    ensures others { Changes (KeepsOthers CLOSED.now)
        (F.entries folder.old) (F.entries folder.new) }
    ensures claimed { F.is_claimed folder.new }
{
    match folder.remove(CLOSED) {
        Ok(()) => folder.sync_names().map_err(ChangeFault::of_folder),
        Err(error) => Err(ChangeFault::of(Place::Closed, &error)),
    }
}
