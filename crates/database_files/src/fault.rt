//! Why a database was not opened.

use crate::change_fault::ChangeFault;
use crate::evidence::ForcedEndEvidence;
use crate::place::Place;
use aries_core::Refusal;
use engine_restart::{FoundFault, RestartFault};
use manifest::ManifestFault;
use page_core::FaultName;
use saved_files::FileFault;
use std::alloc::{AllocError, AllocFailed};
use std::io;
use std::io::ErrorKind;
use system_files::ClaimFault;

/// The number that the system has for a file that is not there.
pub(crate) const NO_ENTRY: i32 = 2;

/// Why a database was not opened. At all of these but a fault of a change an opening has only
/// looked at the folder.
#[derive(Debug, Drop)]
pub enum OpenFault {
    OutOfMemory,
    /// The folder was not claimed.
    Unclaimed(ClaimFault),
    /// The system did not do what was asked of this place, and has this number for why.
    System(Place, Option<i32>),
    /// Here stands what is no regular file.
    NotAFile(Place),
    /// The log is a link that leads nowhere.
    LinkToNothing,
    /// Another one has the log open, perhaps by another name.
    LogOpen,
    /// The file of the log has so many bytes, more than are read.
    TooLong(u64),
    /// The file of the log has no header of a log that is written.
    Found(FoundFault),
    /// There is no log, but this is there, which no folder has that had none.
    LogLost(Place),
    /// What has the manifest's name is none.
    BadManifest(ManifestFault),
    /// No name of a database was drawn. The system has this number for why.
    NoName(Option<i32>),
    /// The log lacks records that were forced.
    Lost(ForcedEndEvidence),
    /// There is no log.
    NoLog,
    /// No note of a closing says where the log ends.
    NotClosed,
    /// The volume needs so many records, and may need so many.
    TooFull { needed: u64, most: u64 },
    /// There is something of this name, where nothing may be.
    Taken(String),
    /// The database that was made has other numbers than the one that it was made of.
    OtherNumbers,
    /// A call for the new database was refused.
    Unfilled(Refusal),
    /// In the second folder this is of another database, or newer.
    OtherDatabase(Place),
    /// A file was not put in its place.
    Unput(Place, FileFault),
    /// There is no log, and something of this name is there.
    Stranger(String),
    /// What has the volume's name is no volume.
    NoVolume,
    /// There is no log, and it is not told how many pages a new database has.
    NoCount,
    /// The volume has so many pages, and so many were told.
    OtherCount { there: u32, told: u32 },
    /// A file may have so many bytes at most, and a log may need more.
    SmallFiles(u64),
    /// What was open in the log could not be taken back in memory.
    Restart(RestartFault),
    /// The folder was being changed for a new life, and this failed.
    Change(ChangeFault),
}

impl OpenFault {
    /// What an error of the system is at this place.
    pub fn of(place: Place, error: &io::Error) -> OpenFault {
        match error.kind() {
            ErrorKind::OutOfMemory => OpenFault::OutOfMemory,
            _ => OpenFault::System(place, error.raw_os_error()),
        }
    }

    /// What an error of the system is at the folder.
    pub fn of_folder(error: io::Error) -> OpenFault {
        OpenFault::of(Place::Folder, &error)
    }

    /// What it is that nothing stands at this place.
    pub fn absent(place: Place) -> OpenFault {
        OpenFault::System(place, Some(NO_ENTRY))
    }

    /// The name of the fault in its first line, if it has one, and what that line says is not told
    /// otherwise.
    pub fn name(&self) -> Option<FaultName> {
        match self {
            OpenFault::OutOfMemory
            | OpenFault::BadManifest(ManifestFault::OutOfMemory)
            | OpenFault::Found(FoundFault::OutOfMemory)
            | OpenFault::Restart(RestartFault::OutOfMemory) => Some(FaultName::OutOfMemory),
            OpenFault::System(
                Place::Log | Place::Master | Place::Closed | Place::Manifest | Place::Copy(_),
                _,
            )
            | OpenFault::BadManifest(_)
            | OpenFault::NoName(_)
            | OpenFault::NotAFile(_)
            | OpenFault::LinkToNothing
            | OpenFault::Found(FoundFault::ReadFault)
            | OpenFault::LogLost(_) => Some(FaultName::ReadFault),
            OpenFault::Unclaimed(ClaimFault::Unopened(_)) => Some(FaultName::ReadFault),
            OpenFault::Unclaimed(ClaimFault::Busy | ClaimFault::Unlocked(_)) => {
                Some(FaultName::WriteFault)
            }
            OpenFault::System(Place::Volume, _) | OpenFault::NoVolume => {
                Some(FaultName::StoreFault)
            }
            OpenFault::System(Place::Folder, _)
            | OpenFault::LogOpen
            | OpenFault::Unput(_, _)
            | OpenFault::SmallFiles(_) => Some(FaultName::WriteFault),
            OpenFault::Found(_) => Some(FaultName::BadHeader),
            OpenFault::TooLong(_) => Some(FaultName::TooLong),
            OpenFault::NoLog
            | OpenFault::NotClosed
            | OpenFault::TooFull { .. }
            | OpenFault::Taken(_)
            | OpenFault::OtherNumbers
            | OpenFault::Unfilled(_)
            | OpenFault::OtherDatabase(_)
            | OpenFault::Lost(_)
            | OpenFault::Stranger(_)
            | OpenFault::NoCount
            | OpenFault::OtherCount { .. } => None,
            OpenFault::Restart(RestartFault::LogFull) => Some(FaultName::LogFull),
            OpenFault::Restart(RestartFault::LogFault) => Some(FaultName::LogFault),
            OpenFault::Change(why) => Some(why.name()),
        }
    }
}

impl From<AllocError> for OpenFault {
    fn from(_error: AllocError) -> OpenFault {
        OpenFault::OutOfMemory
    }
}

impl<T: Drop> From<AllocFailed<T>> for OpenFault {
    fn from(_error: AllocFailed<T>) -> OpenFault {
        OpenFault::OutOfMemory
    }
}

impl From<ClaimFault> for OpenFault {
    fn from(fault: ClaimFault) -> OpenFault {
        OpenFault::Unclaimed(fault)
    }
}

impl From<ChangeFault> for OpenFault {
    ghost use Rattle.std.specs.Prelude.{◌≡◌};
    ghost use Rattle.database_files.specs.declared.fault.OpenFault.TheVariants.{Change};

    ghost from_gives = { λ why fault. fault ≡ Change why };

    fn from(why: ChangeFault) -> OpenFault {
        OpenFault::Change(why)
    }
}
