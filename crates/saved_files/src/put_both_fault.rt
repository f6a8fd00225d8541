//! Why two files were not put in their places.

use crate::file_fault::FileFault;

/// One of two files.
#[derive(Clone, Copy, Debug, PartialEq, Eq)]
pub enum Which {
    First,
    Second,
}

/// Why two files were not put in their places, where `E` is why their bytes could not be written.
#[derive(Clone, Copy, Debug, PartialEq, Eq)]
pub enum PutBothFault<E> {
    /// This one could not be made beside its name.
    Unmade(Which, FileFault),
    /// Their bytes could not all be written.
    Unwritten(E),
    /// All bytes were written, and this one could not be synced. No name has its new file.
    Unsynced(Which, FileFault),
    /// Both were synced, and this one could not be renamed. The first one is in its place where it
    /// is the second.
    Unplaced(Which, FileFault),
    /// This one is in its place, but it is not known that its name outlasts the system's end.
    Unstored(Which, FileFault),
}
