//! The file of a log.

ghost use Rattle.std.specs.Prelude.{◌≡◌, true, IfOk, IsTrue, length};
ghost use Rattle.engine_restart.specs.LogFile.{LastsOnFile};
ghost use Rattle.log_prefix.specs.Front.{IsFrontOf};
ghost use Rattle.log_rules.specs.Linked.{IsLinked};
ghost use Rattle.database_files.specs.DatabaseFolder.{AreFirstOf, AreZeros, IsHeadless};

use crate::database_folder::{DatabaseFolder, LogFault};
use crate::fault::OpenFault;
use crate::place::Place;
use engine_restart::{FoundLog, MAX_FILE_BYTES, log_on};
use file_devices::FileLog;
use log_records::HEADER_BYTES;
use page_core::zeros;
use std::alloc::Global;
use std::io;

/// The file of a log, which is locked as long as it is open.
#[derive(Drop)]
pub struct LogFile<L> {
    pub file: L,
    /// How many bytes it has.
    pub len: u64,
}

/// Whether a log never had a header: it was cut off while it was made. A header is stored by one
/// write, so after a loss of power its place, and that of records behind it, may be there with zeros
/// in it.
pub fn is_headless<F: DatabaseFolder>(
    alloc: Global,
    log: &LogFile<F::Log>,
) -> Result<bool, OpenFault>
    ensures { IfOk result (λ is. is ≡ true → IsHeadless (F.held log.now.file) log.now.len) }
{
    if log.len < HEADER_BYTES as u64 {
        return Ok(true);
    }
    let mut header = [0; HEADER_BYTES];
    if let Err(error) = F::log_begins(&log.file, &mut header) {
        return Err(of_log(error));
    }
    if header != [0; HEADER_BYTES] {
        return Ok(false);
    }
    let bytes = bytes_of::<F>(alloc, log)?;
    Ok(are_zeros(&bytes))
}

/// Whether all bytes are zeros.
fn are_zeros(bytes: &[u8]) -> bool
    ensures { IsTrue result → AreZeros bytes.now }
{
    bytes.iter().all(|byte| *byte == 0)
}

pub fn of_log(error: io::Error) -> OpenFault {
    OpenFault::of(Place::Log, &error)
}

impl From<LogFault> for OpenFault {
    fn from(fault: LogFault) -> OpenFault {
        match fault {
            LogFault::NotAFile => OpenFault::NotAFile(Place::Log),
            LogFault::LinkToNothing => OpenFault::LinkToNothing,
            LogFault::Locked => OpenFault::LogOpen,
            LogFault::System(error) => of_log(error),
        }
    }
}

/// Reads the file of a log, and finds the log in it.
pub fn found_in<F: DatabaseFolder>(
    alloc: Global,
    log: LogFile<F::Log>,
) -> Result<FoundLog<FileLog<F::LogDisk>>, OpenFault>
    ensures whole { IfOk result (λ it. length it.bytes.items ≡ log.len) }
    ensures first { IfOk result (λ it. AreFirstOf (F.held log.file) it.bytes.items) }
    ensures front { IfOk result (λ it. IsFrontOf it.bytes.items it.front) }
    ensures linked { IfOk result (λ it. IsLinked it.front.log.records) }
    ensures lasting { IfOk result (λ it. LastsOnFile it.front.log it.device) }
{
    let LogFile { file, len } = log;
    if len > MAX_FILE_BYTES as u64 {
        return Err(OpenFault::TooLong(len));
    }
    let mut bytes = zeros(alloc, len as usize)?;
    let device = match F::resumed(alloc, file, &mut bytes) {
        Ok(device) => device,
        Err(error) => return Err(of_log(error)),
    };
    match log_on(alloc, bytes, device) {
        Ok(found) => Ok(found),
        Err((why, _)) => Err(OpenFault::Found(why)),
    }
}

/// All bytes of a log's file.
pub fn bytes_of<F: DatabaseFolder>(
    alloc: Global,
    log: &LogFile<F::Log>,
) -> Result<Vec<u8>, OpenFault>
    ensures whole { IfOk result (λ bytes. length bytes.items ≡ log.now.len) }
    ensures first { IfOk result (λ bytes. AreFirstOf (F.held log.now.file) bytes.items) }
{
    if log.len > MAX_FILE_BYTES as u64 {
        return Err(OpenFault::TooLong(log.len));
    }
    let mut bytes = zeros(alloc, log.len as usize)?;
    match F::log_begins(&log.file, &mut bytes) {
        Ok(()) => Ok(bytes),
        Err(error) => Err(of_log(error)),
    }
}
