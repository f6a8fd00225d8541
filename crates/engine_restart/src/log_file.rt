//! The log in a file, and the device that has it.

ghost use Rattle.std.specs.Prelude.{◌≡◌, ◌<◌, false, drop, length, take, Err, IfErr, IfOk, OnErr, OnOk};
ghost use Rattle.file_devices.specs.FileLog.{KeepFails, bytes_of};
ghost use Rattle.log_prefix.specs.Front.{IsFrontOf, end_of};
ghost use Rattle.log_records.specs.Log.{log_bytes};
ghost use Rattle.log_rules.specs.Linked.{IsLinked};
ghost use Rattle.engine_restart.specs.Found.{FindsNone};
ghost use Rattle.engine_restart.specs.LogFile.{HasNoLog, IsReadWhole, KeepsFront};
ghost use Rattle.engine_restart.specs.LogFile.{LastsOnFile};
ghost use Rattle.engine_restart.specs.declared.log_file_fault.FoundLogFault.TheVariants.{TooLong};

use crate::found::log_in;
use crate::found_fault::FoundFault;
use crate::log_file_fault::FoundLogFault;
use file_devices::FileLog;
use log_prefix::Front;
use log_records::MAX_LOG_BYTES;
use log_store::DeviceFault;
use page_core::zeros;
use sqlite_disk::{Disk, Wary};
use std::alloc::Global;
use std::fs::File;

/// How many bytes a log's file may have at most to be read. The longest log has half of them; the
/// others may be what an older life has left behind its log.
pub const MAX_FILE_BYTES: usize = 2 * MAX_LOG_BYTES;

/// A log that was found in a file, and the device that has it.
#[derive(Drop)]
pub struct FoundLog<T = FileLog> {
    /// The longest front of the bytes that is a linked log, and where and why it was cut.
    pub front: Front,
    /// All bytes of the file, as it was read.
    pub bytes: Vec<u8>,
    pub device: T,
    ghost spelled: { take (end_of front.log) bytes.items ≡ log_bytes front.log },
}

impl<T> FoundLog<T> {
    /// The bytes behind the log.
    pub fn behind(&self) -> &[u8]
        ensures { result.now ≡ drop (end_of self.now.front.log) self.now.bytes.items }
    {
        let end = self.front.log().end().0 as usize;
        self.bytes.get(end..).unwrap_or(&[])
    }
}

impl<D: Disk + Drop> FoundLog<FileLog<D>> {
    /// Stores the log again as the first bytes of its file, cuts off what stands behind it, and waits
    /// until that lasts.
    ///
    /// An `Err` comes where a call of the file fails, and no call follows that one. Then the file may
    /// have anything. It takes no memory.
    pub fn keep_front(&mut self) -> Result<(), DeviceFault>
        ensures front { self.new.front ≡ self.old.front }
        ensures read { self.new.bytes ≡ self.old.bytes }
        ensures lasting { OnOk result (LastsOnFile self.new.front.log self.new.device) }
        ensures alone { OnOk result
            (bytes_of self.new.device ≡ log_bytes self.new.front.log) }
        // What the file gave is taken at its word no longer.
        ensures written { OnOk result (self.new.device.is_read ≡ false) }
        ensures calls { OnOk result
            (KeepsFront (log_bytes self.old.front.log)
            self.old.device.calls self.new.device.calls) }
        ensures failed { OnErr result
            (KeepFails self.old.device (log_bytes self.old.front.log) self.new.device) }
    {
        let end = self.front.log().end().0 as usize;
        self.device.keep(&self.bytes[..end])
    }
}

/// Reads the file of a log, which has so many bytes, and finds the log in it: the longest front of
/// the bytes that is a linked log, in which each record is that was forced. All of the file is read,
/// and then it waits until what was read lasts; it writes nothing. The file is open for reading and
/// writing, and not for appending.
///
/// `TooLong` comes where there are more than `MAX_FILE_BYTES`, and then nothing is asked of the file;
/// `OutOfMemory` where memory for the bytes is refused; `File` where the file has fewer bytes, or a
/// call of it fails; and `Found` with the faults of `log_in`.
pub fn found_log(alloc: Global, file: File, len: u64) -> Result<FoundLog, FoundLogFault>
    ensures whole { IfOk result (λ it. IsReadWhole len it.bytes.items it.device.calls) }
    ensures front { IfOk result (λ it. IsFrontOf it.bytes.items it.front) }
    ensures linked { IfOk result (λ it. IsLinked it.front.log.records) }
    ensures lasting { IfOk result (λ it. LastsOnFile it.front.log it.device) }
    ensures too_long { MAX_FILE_BYTES < len → result ≡ Err (TooLong len) }
    ensures none { IfErr result (HasNoLog len) }
{
    if len > MAX_FILE_BYTES as u64 {
        return Err(FoundLogFault::TooLong(len));
    }
    let mut bytes = zeros(alloc, len as usize)?;
    let device = match FileLog::resume(alloc, file, Wary, &mut bytes) {
        Ok(device) => device,
        Err(why) => return Err(FoundLogFault::File(why)),
    };
    match log_on(alloc, bytes, device) {
        Ok(found) => Ok(found),
        Err((fault, device)) => Err(FoundLogFault::Found(fault, device)),
    }
}

/// Finds the log in these bytes, which a device on any disk has, and which all last there: the longest
/// front of them that is a linked log.
///
/// An `Err` has the faults of `log_in`, and hands the device back.
pub fn log_on<D: Disk + Drop>(
    alloc: Global,
    bytes: Vec<u8>,
    device: FileLog<D>,
) -> Result<FoundLog<FileLog<D>>, (FoundFault, FileLog<D>)>
    requires has { bytes_of device ≡ bytes.items }
    requires lasts { device.end ≡ length bytes.items }
    ensures read { IfOk result (λ it. it.bytes.items ≡ bytes.items) }
    ensures device { IfOk result (λ it. it.device ≡ device) }
    ensures front { IfOk result (λ it. IsFrontOf bytes.items it.front) }
    ensures linked { IfOk result (λ it. IsLinked it.front.log.records) }
    ensures lasting { IfOk result (λ it. LastsOnFile it.front.log it.device) }
    ensures none { IfErr result (λ e. FindsNone bytes.items e.0) }
    ensures untouched { IfErr result (λ e. e.1 ≡ device) }
{
    match log_in(alloc, &bytes) {
        Ok(front) => Ok(FoundLog {
            front,
            bytes,
            device,
        }),
        Err(fault) => Err((fault, device)),
    }
}
