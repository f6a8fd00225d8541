//! A device that fails at one call, to test what stands on a device.

ghost use Rattle.std.specs.Prelude.{◌≡◌, ◌≤◌, false, length, true, Ok};
ghost use Rattle.log_store.specs.FaultyDevice.{FaultyStores, after_fault};

use crate::device::{DeviceFault, LogDevice};
use crate::mem_device::MemDevice;
use std::marker::Model;

/// A device in memory that fails at one call of `store`.
#[derive(Drop)]
pub struct FaultyDevice {
    device: MemDevice,
    calls_to_fault: u64,
    /// Whether the call that is to fail stores its bytes.
    is_late: bool,
}

impl Model for FaultyDevice {
    ghost use Rattle.log_store.specs.FaultyDevice.{Faulty};

    ghost Value = { Faulty };

    ghost view = { λ faulty. record {
      memory = faulty.device;
      calls_to_fault = faulty.calls_to_fault;
      is_late = faulty.is_late;
    } };
}

impl FaultyDevice {
    /// A device whose `k`-th call of `store` fails, counted from 1, and leaves the bytes as they
    /// were. Each other call goes on to `device`. At 0 all of them do.
    pub fn new(device: MemDevice, k: u64) -> FaultyDevice
        ensures { result ≡ record { memory = device; calls_to_fault = k; is_late = false } }
    {
        FaultyDevice {
            device,
            calls_to_fault: k,
            is_late: false,
        }
    }

    /// A device whose `k`-th call of `store` fails late: it stores its bytes, if there is room for
    /// them, and then fails.
    pub fn late(device: MemDevice, k: u64) -> FaultyDevice
        ensures { result ≡ record { memory = device; calls_to_fault = k; is_late = true } }
    {
        FaultyDevice {
            device,
            calls_to_fault: k,
            is_late: true,
        }
    }

    /// What is on the device.
    pub fn bytes(&self) -> &[u8]
        ensures { result.now ≡ self.now.memory.bytes }
    {
        self.device.bytes()
    }

    /// The call that is to fail.
    fn fail_store(&mut self, from: u64, next: &[u8]) -> DeviceFault
        requires { from ≤ length self.old.memory.bytes }
        ensures { self.new ≡ record self.old { memory = after_fault self.old from next.now } }
    {
        if self.is_late {
            if let Err(fault) = self.device.store(from, next) {
                return fault;
            }
        }
        self.device.fail()
    }
}

impl LogDevice for FaultyDevice {
    ghost bytes = { λ faulty. faulty.memory.bytes };

    ghost called = { λ old from next result new. FaultyStores old from next new result };

    ghost synced = { λ old result new. (result ≡ Ok tt) × (new ≡ old) };

    ghost lasting = { λ faulty. length faulty.memory.bytes };

    ghost failures = { λ faulty. faulty.memory.failures };

    ghost fails_from = { λ _. 0 };

    /// An `Err` comes at the call that is to fail, and where a store would pass the room of the
    /// device in memory. It leaves the bytes as they were, except that a device that fails late has
    /// stored them at the call that is to fail. The call takes no memory.
    fn store(&mut self, from: u64, next: &[u8]) -> Result<(), DeviceFault>
        requires { from ≤ length self.old.memory.bytes }

        ensures exact { FaultyStores self.old from next.now self.new result }
    {
        let is_to_fail = self.calls_to_fault == 1;
        self.calls_to_fault = self.calls_to_fault.saturating_sub(1);
        if is_to_fail {
            return Err(self.fail_store(from, next));
        }
        self.device.store(from, next)
    }

    /// There is nothing to wait for, so this is no call that fails.
    fn sync(&mut self) -> Result<(), DeviceFault>
        ensures idle { (result ≡ Ok tt) × (self.new ≡ self.old) }
    {
        Ok(())
    }
}
