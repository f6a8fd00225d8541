//! The reasons why a volume and its log are not restored from files.

ghost use Rattle.std.specs.Prelude.{◌≡◌};
ghost use Rattle.media_restore.specs.FilesLog.{told_fault};
ghost use Rattle.media_restore.specs.declared.files_fault.RestoreFault.TheVariants as fault;
ghost use Rattle.media_restore.specs.declared.with_log_fault.WithLogFault.TheVariants.{OfVolume};

use crate::files_fault::RestoreFault;
use std::alloc::AllocError;
use std::error::Error;
use std::fmt;

/// Why a volume and its log are not restored from files, or not both written whole. Its text is that
/// of `told`.
#[derive(Clone, Copy, Debug, PartialEq, Eq)]
pub enum WithLogFault {
    /// The writer of the log failed, took nothing, or was interrupted 17 times in a row. So many
    /// bytes went out, the first ones of the log, and none of the volume.
    OfLog(u64),
    /// The volume is not restored, and nothing was written. Or its writer failed, as a `WriteFault`
    /// says, and the log was written whole.
    OfVolume(RestoreFault),
}

impl WithLogFault {
    /// The fault as `restore_files` would report it: that of a writer, or of the files.
    pub fn told(&self) -> RestoreFault
        ensures { result ≡ told_fault self.now }
    {
        match *self {
            WithLogFault::OfLog(done) => RestoreFault::WriteFault(done),
            WithLogFault::OfVolume(fault) => fault,
        }
    }
}

impl fmt::Display for WithLogFault {
    ghost use Rattle.std.specs.Prelude.{Some};
    ghost use Rattle.media_restore.specs.FilesFault.{line_of};
    ghost use Rattle.media_restore.specs.FilesLog.{told_fault};

    ghost output = { λ fault. Some (line_of (told_fault fault)) };

    fn fmt<W: fmt::Write>(&self, f: &mut fmt::Formatter<W>) -> fmt::Result {
        write!(f, "{}", self.told())
    }
}

impl Error for WithLogFault {}

impl From<AllocError> for WithLogFault {
    ghost from_gives = { λ _ e. e ≡ OfVolume fault.OutOfMemory };

    fn from(_error: AllocError) -> WithLogFault {
        WithLogFault::OfVolume(RestoreFault::OutOfMemory)
    }
}

impl From<RestoreFault> for WithLogFault {
    ghost from_gives = { λ why e. e ≡ OfVolume why };

    fn from(why: RestoreFault) -> WithLogFault {
        WithLogFault::OfVolume(why)
    }
}
