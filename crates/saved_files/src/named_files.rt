//! Files that are opened and read by their names.

ghost use Rattle.std.specs.Prelude.{ℕ, ◌≡◌, List, Option, IfOk};

use std::io;
use std::io::Read;

/// Files that are read by their names.
pub trait NamedFiles {
    /// An open file.
    type File: Read + Drop;

    /// The bytes of the file of this name, as far as they are known.
    ghost bytes: { Self → List ℕ → Option (List ℕ) };

    /// Opens the file of this name, to be read from its first byte on.
    fn open(&self, name: &str) -> io::Result<Self::File>
        ensures { IfOk result (λ file. Self.File.remaining file ≡ bytes self.now name.now) };

    /// Is told that the file at this place is being read, before each read of it: 0 is the log, 1
    /// the master record, and the archives of the chain follow.
    fn tell_read(&self, place: usize);
}
