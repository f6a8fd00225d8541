//! The reasons why no log was found in a file.

ghost use Rattle.std.specs.Prelude.{◌≡◌};
ghost use Rattle.engine_restart.specs.declared.log_file_fault.FoundLogFault.TheVariants.{OutOfMemory};

use crate::found_fault::FoundFault;
use file_devices::{FailedFile, FileLog};
use page_core::FaultName;
use std::alloc::AllocError;
use std::error::Error;
use std::fmt;

/// Why no log was found in a file.
#[derive(Drop)]
pub enum FoundLogFault {
    /// Memory ran out.
    OutOfMemory,
    /// The file has so many bytes, more than are read. It was not read.
    TooLong(u64),
    /// The file did not give so many bytes, or did not sync.
    File(FailedFile),
    /// The bytes of the file, all of which were read, have no log that an engine may go on with. This
    /// hands the file back.
    Found(FoundFault, FileLog),
}

impl fmt::Display for FoundLogFault {
    ghost use Rattle.engine_restart.specs.LogFile.{text_of};

    ghost output = { λ fault. text_of fault };

    fn fmt<W: fmt::Write>(&self, f: &mut fmt::Formatter<W>) -> fmt::Result {
        match self {
            FoundLogFault::OutOfMemory => write!(f, "{}", FaultName::OutOfMemory),
            FoundLogFault::TooLong(_) => write!(f, "{}", FaultName::TooLong),
            FoundLogFault::File(why) => write!(f, "{why}"),
            FoundLogFault::Found(why, _) => write!(f, "{why}"),
        }
    }
}

impl fmt::Debug for FoundLogFault {
    fn fmt<W: fmt::Write>(&self, f: &mut fmt::Formatter<W>) -> fmt::Result {
        fmt::Display::fmt(self, f)
    }
}

impl Error for FoundLogFault {}

impl From<AllocError> for FoundLogFault {
    ghost from_gives = { λ _ why. why ≡ OutOfMemory };

    fn from(_error: AllocError) -> FoundLogFault {
        FoundLogFault::OutOfMemory
    }
}
