//! The names of the files of a database, which stand in its folder.

ghost use Rattle.std.specs.Prelude.{IsTrue};
ghost use Rattle.database_files.specs.Found.{IsReadOf, NamesCopy, SpellsNumber};
ghost use Rattle.database_files.specs.Standing.{IsUnfinished};

use copy_vault::CopyId;

/// The log.
pub const LOG: &str = "log";

/// The volume.
pub const VOLUME: &str = "volume";

/// The master record.
pub const MASTER: &str = "master";

/// The note of the log's end at the last clean closing.
pub const CLOSED: &str = "closed";

/// What is known of the bytes of the other files.
pub const MANIFEST: &str = "manifest";

/// Bytes that stood behind a log, before a number.
pub const LEFT_OUT: &str = "log.left-out-";

/// The folder that a file system makes at its top.
const LOST_AND_FOUND: &str = "lost+found";

/// An image copy, before its id.
const COPY: &str = "copy-";

/// What follows the name of a file as long as it is not whole, before a number.
const UNFINISHED: &str = ".unfinished-";

/// The number above 0 that is written so.
pub(crate) fn long_number_of(text: &str) -> Option<u64>
    ensures { IsReadOf (SpellsNumber 64) text.now result }
{
    if text.starts_with('0') || text.starts_with('+') {
        return None;
    }
    text.parse().ok()
}

/// The number above 0, of 32 bits, that is written so.
fn number_of(text: &str) -> Option<u32>
    ensures { IsReadOf (SpellsNumber 32) text.now result }
{
    u32::try_from(long_number_of(text)?).ok()
}

/// The copy whose whole file has this name.
pub fn copy_of(name: &str) -> Option<CopyId>
    ensures { IsReadOf NamesCopy name.now result }
{
    Some(CopyId(number_of(name.strip_prefix(COPY)?)?))
}

/// Whether bytes that stood behind a log have this name.
fn is_left_out(name: &str) -> bool {
    match name.strip_prefix(LEFT_OUT) {
        Some(number) => number_of(number).is_some(),
        None => false,
    }
}

/// Whether a file of a database has this name as long as it is not whole.
pub(crate) fn is_unfinished(name: &str) -> bool
    ensures { IsTrue result → IsUnfinished name.now }
{
    match name.split_once(UNFINISHED) {
        Some((whole, number)) => number_of(number).is_some() && is_put(whole),
        None => false,
    }
}

/// Whether a file of a backup in a second folder has this name as long as it is not whole.
pub fn is_unfinished_backup(name: &str) -> bool
    ensures { IsTrue result → IsUnfinished name.now }
{
    match name.split_once(UNFINISHED) {
        Some((LOG, number)) => number_of(number).is_some(),
        _ => is_unfinished(name),
    }
}

/// Whether a file of this name is written beside its name first.
fn is_put(name: &str) -> bool {
    name == MASTER
        || name == CLOSED
        || name == MANIFEST
        || copy_of(name).is_some()
        || is_left_out(name)
}

/// Whether a new database may stand beside what has this name.
pub(crate) fn is_harmless(name: &str) -> bool {
    name == LOST_AND_FOUND
}
