//! A device in memory.

ghost use Rattle.std.specs.Prelude.{◌≡◌, ◌+◌, ◌*◌, ◌≤◌, [], length, IfOk, Ok};
ghost use Rattle.page_core.specs.declared.numbers.TheConstants.{LSN_STEP};
ghost use Rattle.log_store.specs.MemDevice.{Stores, empty_memory, after_failure};

use crate::device::{DeviceFault, LogDevice};
use log_records::{HEADER_BYTES, RECORD_BYTES};
use page_core::Failures;
use std::alloc::{AllocError, Global};
use std::marker::Model;

/// A device in memory, with a fixed room. It fails just where a store would pass this room.
#[derive(Drop)]
pub struct MemDevice {
    bytes: Vec<u8>,
    room: usize,
    failures: Failures,
}

impl Model for MemDevice {
    ghost use Rattle.std.specs.Prelude.{◌≤◌, vec_len};
    ghost use Rattle.std.specs.Vec.{vec_capacity};
    ghost use Rattle.page_core.specs.Failures.{failure_count};
    ghost use Rattle.log_store.specs.MemDevice.{Memory};

    ghost Value = { Memory };

    ghost view = { λ device. record {
      bytes = device.bytes.items;
      room = device.room;
      failures = failure_count device.failures;
    } };

    ghost invariant = { λ device.
        (vec_len device.bytes ≤ device.room) × (device.room ≤ vec_capacity device.bytes) };
}

impl MemDevice {
    /// An empty device with room for a log's header and so many records, 64 bytes each. It takes
    /// all of its memory here. `AllocError` comes where that is refused.
    pub fn new(alloc: Global, records: usize) -> Result<MemDevice, AllocError>
        ensures { IfOk result (λ device. device ≡ empty_memory (LSN_STEP * (records + 1))) }
    {
        let room = records
            .checked_mul(RECORD_BYTES)
            .and_then(|bytes| bytes.checked_add(HEADER_BYTES))
            .ok_or(AllocError)?;
        Ok(MemDevice {
            bytes: Vec::with_capacity(alloc, room)?,
            room,
            failures: Failures::None,
        })
    }

    /// What is on the device.
    pub fn bytes(&self) -> &[u8]
        ensures { result.now ≡ self.now.bytes }
    {
        &self.bytes
    }

    /// A call that fails. What is on the device stays.
    pub(crate) fn fail(&mut self) -> DeviceFault
        ensures { self.new ≡ after_failure self.old }
    {
        self.failures.add_one();
        DeviceFault
    }
}

impl LogDevice for MemDevice {
    ghost bytes = { λ device. device.bytes };

    ghost called = { λ old from next result new. Stores old from next new result };

    ghost synced = { λ old result new. (result ≡ Ok tt) × (new ≡ old) };

    ghost lasting = { λ device. length device.bytes };

    ghost failures = { λ device. device.failures };

    ghost fails_from = { λ device. device.room + 1 };

    /// An `Err` comes where the store would pass the room. It leaves the bytes as they were. The
    /// call takes no memory.
    fn store(&mut self, from: u64, next: &[u8]) -> Result<(), DeviceFault>
        requires { from ≤ length self.old.bytes }
        ensures exact { Stores self.old from next.now self.new result }
    {
        let from = from as usize;
        if next.len() > self.room - from {
            return Err(self.fail());
        }
        self.bytes.truncate(from);
        // There is room for these bytes, so this takes no memory.
        self.bytes.extend_from_slice(next).unwrap();
        Ok(())
    }

    /// There is nothing to wait for.
    fn sync(&mut self) -> Result<(), DeviceFault>
        ensures idle { (result ≡ Ok tt) × (self.new ≡ self.old) }
    {
        Ok(())
    }
}
