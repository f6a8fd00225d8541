//! What differed from what was expected.

use std::alloc::{AllocError, AllocFailed};
use std::{fmt, io};

/// What differed. Its text is its line.
#[derive(Clone, Copy, Debug)]
pub enum Wrong {
    OutOfMemory,
    /// A read of a living engine gave another number.
    Read {
        found: u64,
        wanted: u64,
    },
    /// A transaction took back another count of changes.
    Undo {
        left: u64,
    },
    /// The disk was asked to change or sync bytes once a sync had failed.
    Misused,
    /// No database was opened, though no call failed.
    NotOpened,
    /// The log has other forced records: the first one of these that differs.
    Forced {
        record: u64,
    },
    /// The volume has another count of pages.
    PageCount {
        found: u64,
        wanted: u64,
    },
    /// A slot has not the committed number.
    Number {
        page: u32,
        slot: u16,
        found: u64,
        wanted: u64,
    },
    /// A complete copy was not taken up.
    NotTakenUp {
        copy: u32,
    },
    /// A complete copy was not restored.
    NotRestored {
        copy: u32,
    },
    /// A complete copy restored another volume.
    OtherVolume {
        copy: u32,
    },
    /// What was typed and told could not be heard.
    NotHeard,
    /// A file that has its name is not whole.
    NotWhole {
        file: u64,
    },
    /// A folder was refused in which nothing is wrong, or was not closed well.
    Refused,
    /// What is left of a folder was not opened.
    NotSalvaged,
    /// A folder that was refused has other files.
    Touched,
    /// A volume of a closed database is not whole.
    NoVolume,
    /// Bytes that a manifest names are damaged, and the log was opened.
    BelowManifest {
        at: u64,
    },
    /// The file of a complete copy, or of its checkpoint, is not there.
    Gone {
        copy: u32,
    },
}

impl fmt::Display for Wrong {
    fn fmt<W: fmt::Write>(&self, f: &mut fmt::Formatter<W>) -> fmt::Result {
        match self {
            Wrong::OutOfMemory => f.write_str("memory ran out"),
            Wrong::Read { found, wanted } => write!(f, "a read gave {found}, not {wanted}"),
            Wrong::Undo { left } => write!(f, "{left} changes were not taken back"),
            Wrong::Misused => f.write_str("the disk was used after a sync had failed"),
            Wrong::NotOpened => f.write_str("the log was not opened"),
            Wrong::Forced { record } => write!(f, "the forced record {record} is another"),
            Wrong::PageCount { found, wanted } => write!(f, "{found} pages, not {wanted}"),
            Wrong::Number {
                page,
                slot,
                found,
                wanted,
            } => write!(f, "page {page} slot {slot} has {found}, not {wanted}"),
            Wrong::NotTakenUp { copy } => write!(f, "copy {copy} was not taken up"),
            Wrong::NotRestored { copy } => write!(f, "copy {copy} was not restored"),
            Wrong::OtherVolume { copy } => write!(f, "copy {copy} restored another volume"),
            Wrong::NotHeard => f.write_str("what was typed and told was not heard"),
            Wrong::NotWhole { file } => write!(f, "file {file} has its name and is not whole"),
            Wrong::Refused => f.write_str("a folder was refused, and nothing was wrong"),
            Wrong::NotSalvaged => f.write_str("what is left was not salvaged"),
            Wrong::Touched => f.write_str("a folder that was refused has other files"),
            Wrong::NoVolume => f.write_str("the volume of a closed database is not whole"),
            Wrong::BelowManifest { at } => write!(f, "byte {at} is damaged, and was named"),
            Wrong::Gone { copy } => write!(f, "the file of copy {copy} is gone"),
        }
    }
}

impl From<AllocError> for Wrong {
    fn from(_error: AllocError) -> Wrong {
        Wrong::OutOfMemory
    }
}

impl From<io::Error> for Wrong {
    fn from(_error: io::Error) -> Wrong {
        Wrong::OutOfMemory
    }
}

impl<T: Drop> From<AllocFailed<T>> for Wrong {
    fn from(_error: AllocFailed<T>) -> Wrong {
        Wrong::OutOfMemory
    }
}
