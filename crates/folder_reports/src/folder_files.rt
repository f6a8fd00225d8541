//! The files of a database, to be read.

ghost use Rattle.std.specs.Prelude.{ℕ, List, IfOk, Option, map, string_bytes};
ghost use Rattle.saved_files.specs.Folder.{Entries};

use database_files::Standing;
use std::io;
use std::io::Read;

/// A folder in which the files of a database stand. They are only read, and nothing is locked: an
/// open database may change them meanwhile.
pub trait DatabaseFiles {
    ghost use Rattle.database_files.specs.DatabaseFolder.{ListsAll, Tells};
    ghost use Rattle.folder_reports.specs.Reading.{Measures, OpensFile};

    /// A file that is open to be read.
    type Reader: Read + Send + Drop;

    /// What stands under each name, as far as that is known.
    ghost entries: { Self → Option Entries };

    /// The names of all that stands there, in no order.
    fn names(&self) -> io::Result<Vec<String>>
        ensures { IfOk result (λ names.
            ListsAll (entries self.now) (map string_bytes names.items)) };

    /// Whether something has this name, be it a link that leads nowhere.
    fn has(&self, name: &str) -> io::Result<bool>
        ensures { IfOk result (Tells (entries self.now) name.now) };

    /// How many bytes the file of this name has. A link is followed.
    fn length(&self, name: &str) -> io::Result<Standing<u64>>
        ensures { IfOk result (λ it. Measures it (entries self.now) name.now) };

    /// Opens the file of this name. A link is followed. What is no file is not opened: of a pipe an
    /// open may never end.
    fn open_file(&self, name: &str) -> io::Result<Standing<Self::Reader>>
        ensures { IfOk result (λ it.
            OpensFile it Self.Reader.remaining (entries self.now) name.now) };
}
