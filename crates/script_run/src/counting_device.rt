//! A device for a log that nobody reads back: it keeps no byte.

ghost use Rattle.std.specs.Prelude.{◌≡◌, ◌+◌, ◌*◌, ◌≤◌, ◌++◌, length, take, IfOk, OnOk};
ghost use Rattle.page_core.specs.declared.numbers.TheConstants.{LSN_STEP};
ghost use Rattle.log_store.specs.MemDevice.{empty_memory};
ghost use Rattle.script_run.specs.CountingDevice.{stored_bytes};

use log_records::{HEADER_BYTES, RECORD_BYTES};
use log_store::{DeviceFault, LogDevice};
use page_core::Failures;
use std::alloc::AllocError;
use std::marker::Model;
use std::snapshot::Snapshot;

/// What was stored. It has that for contracts alone, and takes one byte.
#[derive(Drop)]
pub(crate) enum Stored {
    Nothing,
    /// The first bytes of what was there.
    First(Snapshot<Stored>, Snapshot<u64>),
    /// And one byte more.
    With(Snapshot<Stored>, Snapshot<u8>),
}

impl Stored {
    /// Replaces what is stored from an offset on by these bytes.
    fn put(&mut self, from: u64, next: &[u8])
        ensures { stored_bytes self.new ≡ take from (stored_bytes self.old) ++ next.now }
    {
        let before = Snapshot::of(self);
        *self = Stored::First(before, Snapshot::of(&from));
        for byte in next {
            let before = Snapshot::of(self);
            *self = Stored::With(before, Snapshot::of(byte));
        }
    }
}

/// A device with a fixed room. It takes no memory for it, since only contracts see what is stored.
/// It fails just where a store would pass its room.
#[derive(Drop)]
pub(crate) struct CountingDevice {
    stored: Stored,
    room: usize,
    failures: Failures,
}

impl Model for CountingDevice {
    ghost use Rattle.std.specs.Prelude.{◌≤◌, length};
    ghost use Rattle.page_core.specs.Failures.{failure_count};
    ghost use Rattle.log_store.specs.MemDevice.{Memory};
    ghost use Rattle.script_run.specs.CountingDevice.{stored_bytes};

    ghost Value = { Memory };

    ghost view = { λ device. record {
      bytes = stored_bytes device.stored;
      room = device.room;
      failures = failure_count device.failures;
    } };

    ghost invariant = { λ device. length (stored_bytes device.stored) ≤ device.room };
}

impl CountingDevice {
    /// An empty device with room for a log's header and so many records. `AllocError` comes where
    /// these are more than memory has bytes.
    pub(crate) fn new(records: usize) -> Result<CountingDevice, AllocError>
        ensures { IfOk result (λ device. device ≡ empty_memory (LSN_STEP * (records + 1))) }
    {
        let room = records
            .checked_mul(RECORD_BYTES)
            .and_then(|bytes| bytes.checked_add(HEADER_BYTES))
            .ok_or(AllocError)?;
        Ok(CountingDevice {
            stored: Stored::Nothing,
            room,
            failures: Failures::None,
        })
    }
}

impl LogDevice for CountingDevice {
    ghost bytes = { λ device. device.bytes };

    ghost called = { λ _ _ _ _ _. Unit {0} };

    ghost synced = { λ _ _ _. Unit {0} };

    ghost lasting = { λ device. length device.bytes };

    ghost failures = { λ device. device.failures };

    ghost fails_from = { λ device. device.room + 1 };

    /// An `Err` comes where the store would pass the room.
    fn store(&mut self, from: u64, next: &[u8]) -> Result<(), DeviceFault> {
        if next.len() > self.room - from as usize {
            self.failures.add_one();
            return Err(DeviceFault);
        }
        self.stored.put(from, next);
        Ok(())
    }

    /// There is nothing to wait for.
    fn sync(&mut self) -> Result<(), DeviceFault> {
        Ok(())
    }
}
