//! Why a copy in a folder is not taken up.

use copy_vault::{AddFault, ArchiveFault, CopyId};
use engine_restart::AddCopyFault;
use std::{fmt, io};

/// Why a copy in a folder is not taken up. Its text is for a person.
#[derive(Clone, Copy, Debug)]
pub enum CopyTrouble {
    /// The system gives no bytes of the file, and has this number for why.
    System(Option<i32>),
    /// It is no regular file.
    NotAFile,
    /// Its bytes are no archive.
    Archive(ArchiveFault),
    /// It is the archive of another copy.
    OtherId(CopyId),
    /// It knows of records that the log lacks, so that its file was moved aside.
    KnowsMore,
    /// It is none that the log and the copies before it allow.
    Add(AddCopyFault),
}

impl fmt::Display for CopyTrouble {
    fn fmt<W: fmt::Write>(&self, f: &mut fmt::Formatter<W>) -> fmt::Result {
        match self {
            CopyTrouble::System(Some(code)) => {
                let error = io::Error::from_raw_os_error(*code);
                write!(f, "{error}")
            }
            CopyTrouble::System(None) => f.write_str("not read"),
            CopyTrouble::NotAFile => f.write_str("this is no regular file"),
            CopyTrouble::Archive(ArchiveFault::BadArchive(0)) => {
                f.write_str("no archive begins like this")
            }
            CopyTrouble::Archive(ArchiveFault::BadArchive(at)) => {
                write!(f, "no page of the archive stands at {at}")
            }
            CopyTrouble::Archive(ArchiveFault::CountDiffers) => {
                f.write_str("it has not as many pages as its header says")
            }
            CopyTrouble::Archive(fault) => write!(f, "{fault}"),
            CopyTrouble::OtherId(id) => write!(f, "it is copy {number}", number = id.0),
            CopyTrouble::KnowsMore => f.write_str("it knows of more than the log, and is not used"),
            CopyTrouble::Add(AddCopyFault::OfOtherLog) => {
                f.write_str("it did not begin in this log")
            }
            CopyTrouble::Add(AddCopyFault::Unsound(page)) => {
                write!(
                    f,
                    "page {number} is not what the log made of it",
                    number = page.0
                )
            }
            CopyTrouble::Add(AddCopyFault::Refused(AddFault::NoParent)) => {
                f.write_str("the copy that it stands on was not taken up")
            }
            CopyTrouble::Add(AddCopyFault::Refused(AddFault::TooManyCopies)) => {
                f.write_str("no copy has an id above 1024")
            }
            CopyTrouble::Add(fault) => write!(f, "{fault}"),
        }
    }
}
