//! The folder of a database.

ghost use Rattle.std.specs.Prelude.{ℕ, ◌≡◌, [], IfOk, IfSome, List, OnErr, OnOk, Option, Some};
ghost use Rattle.std.specs.Prelude.{codes};
ghost use Rattle.std.specs.Prelude.{length, map, string_bytes};
ghost use Rattle.file_devices.specs.FileLog.{bytes_of};
ghost use Rattle.saved_files.specs.Folder.{Changes, IsRemoved, IsSame, KeepsOthers};

use crate::log_file::LogFile;
use file_devices::FileLog;
use page_store::{MemStore, PageStore};
use saved_files::Folder;
use sqlite_disk::Disk;
use std::alloc::{AllocError, Global};
use std::io;
use std::io::Read;
use system_files::ClaimFault;

/// Where a system has random bytes.
pub const RANDOM: &str = "/dev/urandom";

/// What stands under a name.
#[derive(Drop)]
pub enum Standing<T> {
    Absent,
    /// Something that is no regular file.
    NotAFile,
    File(T),
}

/// Why the file of a log was not opened, or not made.
#[derive(Drop)]
pub enum LogFault {
    /// What has its name is no regular file.
    NotAFile,
    /// What has its name is a link that leads nowhere.
    LinkToNothing,
    /// Another one has it open, perhaps by another name.
    Locked,
    System(io::Error),
}

impl From<io::Error> for LogFault {
    fn from(error: io::Error) -> LogFault {
        LogFault::System(error)
    }
}

/// Why there is no volume.
#[derive(Drop)]
pub enum VolumeFault {
    /// What has its name is no file, or not the one that was looked at.
    NotAFile,
    System(io::Error),
}

impl From<io::Error> for VolumeFault {
    fn from(error: io::Error) -> VolumeFault {
        VolumeFault::System(error)
    }
}

/// A folder in which the files of a database stand.
pub trait DatabaseFolder: Folder {
    ghost use Rattle.database_files.specs.DatabaseFolder.{AreFirstOf, BeginsIn, ListsAll, Opens};
    ghost use Rattle.database_files.specs.DatabaseFolder.{OpensLog, Tells};

    /// A file that is open to be read.
    type Reader: Read + Drop;

    /// The file of a log, of which nothing was asked yet. It is locked as long as it is open.
    type Log: Drop;

    /// The disk that such a file is.
    type LogDisk: Disk + Drop;

    /// A store of pages on the file of the volume.
    type Volume: PageStore + Drop;

    /// All bytes of the file of a log, as far as they are known.
    ghost held: { Self.Log → Option (List ℕ) };

    /// What has this name was asked for, to be read. Only `open_file` tells so.
    ghost was_asked: { Self → List ℕ → Type 0 };

    /// Claims the folder, until it is dropped. It is asked for again for a while where another one
    /// has it.
    fn claim_or_wait(&mut self) -> Result<(), ClaimFault>
        ensures claimed { OnOk result (Self.is_claimed self.new) }
        ensures same { Changes IsSame (Self.entries self.old) (Self.entries self.new) };

    /// The names of all that stands there, in no order.
    fn names(&self) -> io::Result<Vec<String>>
        ensures { IfOk result (λ names.
            ListsAll (Self.entries self.now) (map string_bytes names.items)) };

    /// Whether something has this name, be it a link that leads nowhere.
    fn has(&self, name: &str) -> io::Result<bool>
        ensures { IfOk result (Tells (Self.entries self.now) name.now) };

    /// Opens the file of this name. A link is followed. What is no file is not opened: of a pipe an
    /// open may never end.
    fn open_file(&self, name: &str) -> io::Result<Standing<Self::Reader>>
        ensures opened { IfOk result (λ it.
            Opens it Self.Reader.remaining (Self.entries self.now) name.now) }
        ensures asked { Self.was_asked self.now name.now };

    /// All bytes of the file of this name. A link is followed.
    fn whole(&self, name: &str) -> io::Result<Standing<Vec<u8>>>
        ensures { IfOk result (λ it.
            Opens it (λ bytes. Some bytes.items) (Self.entries self.now) name.now) };

    /// Removes the file of this name.
    fn remove(&mut self, name: &str) -> io::Result<()>
        requires { Self.is_claimed self.old }
        ensures removed { OnOk result (Changes (IsRemoved name.now)
            (Self.entries self.old) (Self.entries self.new)) }
        ensures others { OnErr result (Changes (KeepsOthers name.now)
            (Self.entries self.old) (Self.entries self.new)) }
        ensures claimed { Self.is_claimed self.new };

    /// Opens the file of the log, if it is there, and locks it: a log that has two names, by a
    /// link, is open once. It is told whether the file is written.
    fn open_log(&self, writes: bool) -> Result<Option<LogFile<Self::Log>>, LogFault>
        ensures { IfOk result (OpensLog (Self.entries self.now) held) };

    /// Makes the file of a new log, and locks it. Its name need not last yet.
    fn make_log(&mut self) -> Result<Self::Log, LogFault>
        requires { Self.is_claimed self.old }
        ensures others { Changes (KeepsOthers (codes "log"))
            (Self.entries self.old) (Self.entries self.new) }
        ensures claimed { Self.is_claimed self.new };

    /// Fills the buffer with the first bytes of the file of a log.
    fn log_begins(log: &Self::Log, bytes: &mut [u8]) -> io::Result<()>
        ensures first { OnOk result (AreFirstOf (held log.now) bytes.new) }
        ensures length { length bytes.new ≡ length bytes.old };

    /// A log's device on its file, which is emptied.
    fn emptied(alloc: Global, log: Self::Log) -> io::Result<FileLog<Self::LogDisk>>
        ensures { IfOk result (λ device. bytes_of device ≡ []) };

    /// A log's device on its file, which has a log already. It fills the buffer with the first
    /// bytes of the file, and waits until they last.
    fn resumed(
        alloc: Global,
        log: Self::Log,
        bytes: &mut [u8],
    ) -> io::Result<FileLog<Self::LogDisk>>
        ensures first { OnOk result (AreFirstOf (held log) bytes.new) }
        ensures has { IfOk result (λ device. bytes_of device ≡ bytes.new) }
        ensures lasts { IfOk result (λ device. device.end ≡ length bytes.new) }
        ensures length { length bytes.new ≡ length bytes.old };

    /// The first bytes of the file of the volume, as many as the buffer has room for, and how many
    /// these are. A link is no file here.
    fn volume_begins(&self, bytes: &mut [u8]) -> io::Result<Standing<usize>>
        ensures { IfOk result (λ it. IfSome (Self.entries self.now) (λ there.
            BeginsIn it bytes.new (there (codes "volume")))) };

    /// Makes a volume of these pages. What its file had is gone, and its name need not last yet.
    fn make_volume(&mut self, pages: MemStore) -> Result<Self::Volume, VolumeFault>
        requires { Self.is_claimed self.old }
        ensures pages { IfOk result (λ volume. Self.Volume.stored volume ≡ pages) }
        ensures others { Changes (KeepsOthers (codes "volume"))
            (Self.entries self.old) (Self.entries self.new) }
        ensures claimed { Self.is_claimed self.new };

    /// How many bytes a file may have, where that is less than the longest log has.
    fn low_limit(&self) -> Result<Option<u64>, AllocError>;

    /// Fills the buffer with random bytes.
    fn draw(&self, bytes: &mut [u8]) -> io::Result<()>;
}
