//! A database on two files that is opened again.

ghost use Rattle.std.specs.Prelude.{◌≡◌, IfErr, IfOk};
ghost use Rattle.buffer_pool.specs.Pool.{IsFrameCount};
ghost use Rattle.log_prefix.specs.Front.{IsFrontOf};
ghost use Rattle.log_records.specs.Log.{log_bytes};
ghost use Rattle.engine_restart.specs.LogFile.{GoesOnFromFile, LastsOnFile, WasReadAndKept};
ghost use Rattle.engine_rules.specs.EngineState.{log_of};
ghost use Rattle.imgcopy_engine.specs.Reopened.{IsNotReopened};
ghost use Rattle.imgcopy_engine.specs.Taken.{TakesUp};

use crate::taking_up::{RefusedCopy, take_up};
use aries_core::Engine;
use copy_vault::CompleteCopy;
use engine_restart::{
    FoundFault, FoundLog, FoundLogFault, RestartFault, found_log, restart, store_of,
};
use file_devices::{FailedFile, FileLog, FileStore};
use log_prefix::Cut;
use page_core::FaultName;
use std::alloc::{AllocError, Global};
use std::fmt;
use std::fs::File;

/// An engine whose log and volume are files.
pub type FileEngine = Engine<FileStore, FileLog>;

/// A database that was opened again.
#[derive(Drop)]
pub struct Reopened {
    pub engine: FileEngine,
    /// Where and why the bytes behind its log were left out.
    pub cut: Option<Cut>,
    /// The copies that were not taken up, in their order, and why. All others were.
    pub refused: Vec<RefusedCopy>,
}

/// Why a database was not opened again.
#[derive(Drop)]
pub enum ReopenFault {
    OutOfMemory,
    /// The file of the log has so many bytes, more than `MAX_FILE_BYTES`. It was not read.
    TooLong(u64),
    /// The file of the log cannot be read, or that of the volume not be written.
    File(FailedFile),
    /// The file of the log has no header of a log. This hands it back.
    Found(FoundFault, FileLog),
    /// What was open in the log could not be taken back, or a call of the log's file failed before
    /// that, once the log was found. This hands the file back. All of the log still lasts there, but
    /// for a failed call before undo.
    Restart(RestartFault, FileLog),
}

impl fmt::Display for ReopenFault {
    ghost use Rattle.imgcopy_engine.specs.Reopened.{text_of};

    ghost output = { λ fault. text_of fault };

    fn fmt<W: fmt::Write>(&self, f: &mut fmt::Formatter<W>) -> fmt::Result {
        match self {
            ReopenFault::OutOfMemory => write!(f, "{}", FaultName::OutOfMemory),
            ReopenFault::TooLong(_) => write!(f, "{}", FaultName::TooLong),
            ReopenFault::File(why) => write!(f, "{why}"),
            ReopenFault::Found(why, _) => write!(f, "{why}"),
            ReopenFault::Restart(why, _) => write!(f, "{why}"),
        }
    }
}

impl From<AllocError> for ReopenFault {
    ghost use Rattle.std.specs.Prelude.{◌≡◌};
    ghost use Rattle.imgcopy_engine.specs.declared.reopen.ReopenFault.TheVariants.{OutOfMemory};

    ghost from_gives = { λ _ fault. fault ≡ OutOfMemory };

    fn from(_: AllocError) -> ReopenFault {
        ReopenFault::OutOfMemory
    }
}

impl From<FoundLogFault> for ReopenFault {
    ghost use Rattle.std.specs.Prelude.{◌≡◌};
    ghost use Rattle.imgcopy_engine.specs.Reopened.{of_found};

    ghost from_gives = { λ why fault. fault ≡ of_found why };

    fn from(fault: FoundLogFault) -> ReopenFault {
        match fault {
            FoundLogFault::OutOfMemory => ReopenFault::OutOfMemory,
            FoundLogFault::TooLong(len) => ReopenFault::TooLong(len),
            FoundLogFault::File(why) => ReopenFault::File(why),
            FoundLogFault::Found(why, file) => ReopenFault::Found(why, file),
        }
    }
}

/// Opens a database again from the file of its log, which has so many bytes, and from the archives
/// of the copies that are at hand, those on which others stand first. All of the file is read; what
/// stands behind the log in it is cut off; what was open is taken back on the log, and each slot has
/// its committed number. The file of the volume is emptied, and gets the pages that the log makes.
///
/// `TooLong` comes before anything is asked of the log's file. `Found` and `Restart` hand that file
/// back: `Found` where it was read alone, and `Restart` as it says. `File` tells the calls of the
/// file that failed.
pub fn reopen_files(
    alloc: Global,
    frames: u32,
    log: (File, u64),
    copies: Vec<CompleteCopy>,
    volume: File,
) -> Result<Reopened, ReopenFault>
    requires frames { IsFrameCount frames }
    ensures goes_on { IfOk result (λ it.
        GoesOnFromFile log.1 it.cut it.engine.device.calls it.engine.state) }
    ensures copies { IfOk result (λ it. TakesUp (log_of it.engine.state) copies.items
        it.refused.items it.engine.state.copies) }
    ensures fault { IfErr result (IsNotReopened log.1) }
{
    let (file, len) = log;
    let FoundLog { front, device, .. } = log_alone(alloc, file, len)?;
    let cut = front.cut();
    // A log that is read is one.
    let _count = front.log().pages();
    let (mut restarted, device) = match restart(alloc, front, device) {
        Ok(it) => it,
        Err((fault, device)) => return Err(ReopenFault::Restart(fault, device)),
    };
    let refused = take_up(alloc, &mut restarted, copies)?;
    let store = match FileStore::new(volume, store_of(alloc, restarted.pages())?) {
        Ok(store) => store,
        Err(why) => return Err(ReopenFault::File(why)),
    };
    match restarted.into_engine(alloc, frames, store, device) {
        Ok(engine) => Ok(Reopened {
            engine,
            cut,
            refused,
        }),
        Err(_) => Err(ReopenFault::OutOfMemory),
    }
}

/// The log in its file of so many bytes, which has it alone then. What stands behind the log is cut
/// off, and that lasts, before a record is stored there: else a loss of power might leave old records
/// behind new ones.
fn log_alone(alloc: Global, file: File, len: u64) -> Result<FoundLog, ReopenFault>
    ensures read { IfOk result (λ it.
        WasReadAndKept len it.bytes.items (log_bytes it.front.log) it.device.calls) }
    ensures front { IfOk result (λ it. IsFrontOf it.bytes.items it.front) }
    ensures lasting { IfOk result (λ it. LastsOnFile it.front.log it.device) }
    ensures fault { IfErr result (IsNotReopened len) }
{
    let mut found = found_log(alloc, file, len)?;
    match found.keep_front() {
        Ok(()) => Ok(found),
        Err(_) => Err(ReopenFault::Restart(RestartFault::LogFault, found.device)),
    }
}
