//! The note of a closing, which says where the log of a folder ended.

ghost use Rattle.std.specs.Prelude.{◌≡◌, IfOk, IfSome, take};
ghost use Rattle.database_files.specs.Closed.{SpellsNote};
ghost use Rattle.database_files.specs.Found.{IsFoundIn};

use crate::folder_files::DatabaseFiles;
use crate::named_files::{opened_if_there, read_all};
use crate::unread::Unread;
use database_files::{CLOSED, ClosedNote, note_in};
use std::alloc::Global;
use std::io::Read;

/// How many bytes of the file are looked at. A note has fewer.
const MOST_BYTES: u64 = 32;

/// What stands under the name of the note of a closing.
#[derive(Clone, Copy)]
pub struct FoundNote {
    /// The note, if one is spelled there.
    pub note: Option<ClosedNote>,
    /// Whether a file stands there that is no note.
    pub is_wrong: bool,
}

/// Reads the note of the last closing of a folder.
pub(crate) fn read_note<F: DatabaseFiles>(alloc: Global, folder: &F) -> Result<FoundNote, Unread>
    ensures { IfOk result (λ it. IsFoundIn SpellsNote (F.entries folder.now) CLOSED.now it.note) }
{
    let file = match opened_if_there(folder, CLOSED) {
        Ok(Some(file)) => file,
        Ok(None) => {
            return Ok(FoundNote {
                note: None,
                is_wrong: false,
            });
        }
        Err(why) => return Err(why),
    };
    match first_bytes(alloc, file) {
        Ok(bytes) => {
            let note = note_in(&bytes);
            let is_wrong = note.is_none();
            Ok(FoundNote { note, is_wrong })
        }
        Err(why) => Err(why),
    }
}

/// The first bytes of a file, as many as are looked at.
fn first_bytes<R: Read + Drop>(alloc: Global, file: R) -> Result<Vec<u8>, Unread>
    ensures { IfOk result (λ bytes.
        IfSome (R.remaining file) (λ all. bytes.items ≡ take 32 all)) }
{
    read_all(alloc, file.take(MOST_BYTES))
}
