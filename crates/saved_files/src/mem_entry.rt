//! What stands under a name of a folder in memory.

ghost use Rattle.std.specs.Prelude.{◌≡◌, IfOk};
ghost use Rattle.saved_files.specs.MemFolder.{entry_of};

use std::alloc::AllocError;

/// A file, by its number in its folder.
#[derive(Drop)]
pub(crate) enum MemEntry {
    /// It was not synced.
    Unsynced(u64),
    /// These bytes are stored.
    Stored(u64, Vec<u8>),
}

/// What a name had before it changed.
#[derive(Drop)]
pub(crate) struct Earlier {
    pub name: String,
    pub file: Option<MemEntry>,
}

impl MemEntry {
    /// The file's number.
    pub(crate) fn number(&self) -> u64 {
        match self {
            MemEntry::Unsynced(number) | MemEntry::Stored(number, _) => *number,
        }
    }

    pub(crate) fn copied(&self) -> Result<MemEntry, AllocError>
        ensures { IfOk result (λ copy. entry_of copy ≡ entry_of self.now) }
    {
        match self {
            MemEntry::Unsynced(number) => Ok(MemEntry::Unsynced(*number)),
            MemEntry::Stored(number, bytes) => Ok(MemEntry::Stored(*number, bytes.clone()?)),
        }
    }
}
