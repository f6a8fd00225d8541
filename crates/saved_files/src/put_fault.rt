//! Why a file was not put in its place.

use crate::file_fault::FileFault;

/// Why a file was not put in its place, where `E` is why its bytes could not be written.
#[derive(Clone, Copy, Debug, PartialEq, Eq)]
pub enum PutFault<E> {
    /// It could not be made beside its name.
    Unmade(FileFault),
    /// Its bytes could not all be written.
    Unwritten(E),
    /// All of its bytes were written, and it could not be synced or renamed.
    Unplaced(FileFault),
}
