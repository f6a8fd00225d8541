//! The device that stores a log: stable storage, in the words of ARIES.

ghost use Rattle.std.specs.Prelude.{ℕ, ◌≡◌, ◌+◌, ◌<◌, ◌≤◌, ◌++◌, List, length, min, take};
ghost use Rattle.std.specs.Prelude.{OnErr, OnOk};
ghost use Rattle.std.specs.Prelude.{Result};
ghost use Rattle.log_store.specs.Device.{KeepsFirst};
ghost use Rattle.log_store.specs.declared.device.DeviceFault.{DeviceFault};

use std::error::Error;
use std::fmt;

/// A device that stores a log. It has bytes, and each is named by its offset from the first.
pub trait LogDevice {
    /// What is on the device.
    ghost bytes: { Self → List ℕ };

    /// What one call of `store` did: the device before it, the offset, the bytes, what it answered,
    /// and the device after it. A caller that is written for any device has no other way to show
    /// this than to make the call. A device of which no more is to be known than what follows may
    /// say that it always holds.
    ghost called: { Self → ℕ → List ℕ → Result Unit DeviceFault → Self → Type 0 };

    /// What a call of `sync` did: the device before it, what it answered, and the device after it.
    /// As with `called`, there is no other way to show it than to make the call.
    ghost synced: { Self → Result Unit DeviceFault → Self → Type 0 };

    /// How many of its first bytes last: they outlast a loss of power, and a call that fails.
    ghost lasting: { Self → ℕ };

    /// How often the device has failed. Contracts count this, and no code can read it; it may
    /// always grow by one more.
    ghost failures: { Self → ℕ };

    /// Where its stores may fail: none that ends before this offset does, and no sync of fewer
    /// bytes. It never changes, and is 0 where any call may fail.
    ghost fails_from: { Self → ℕ };

    /// Replaces all bytes of the device from an offset on by these bytes.
    ///
    /// An `Err` comes where the device fails, and of nothing else. The bytes before the offset
    /// stand even then. Of the bytes from there on nothing is said.
    fn store(&mut self, from: u64, next: &[u8]) -> Result<(), DeviceFault>
        requires { from ≤ length (bytes self.old) }

        ensures stored { OnOk result (bytes self.new ≡ take from (bytes self.old) ++ next.now) }
        ensures kept { OnErr result (KeepsFirst from (bytes self.old) (bytes self.new)) }

        ensures called { called self.old from next.now result self.new }
        ensures no_failure { OnOk result (failures self.new ≡ failures self.old) }
        ensures failure { OnErr result (failures self.old < failures self.new) }

        // The bytes before the offset last as they did.
        ensures lasting { min from (lasting self.old) ≤ lasting self.new }

        ensures same_bound { fails_from self.new ≡ fails_from self.old }
        ensures past_bound { OnErr result (fails_from self.old ≤ from + length next.now) };

    /// Waits until all bytes of the device last. A device in memory, whose bytes end with the
    /// program, has nothing to wait for.
    ///
    /// An `Err` comes where the device fails, and of nothing else. The bytes that lasted stand even
    /// then, and still last. Of the others nothing is said: they may be gone.
    fn sync(&mut self) -> Result<(), DeviceFault>
        ensures same { OnOk result (bytes self.new ≡ bytes self.old) }
        ensures all { OnOk result (length (bytes self.new) ≤ lasting self.new) }
        ensures kept { OnErr result
            (KeepsFirst (lasting self.old) (bytes self.old) (bytes self.new)) }
        ensures lasting { OnErr result (lasting self.old ≤ lasting self.new) }

        ensures synced { synced self.old result self.new }
        ensures no_failure { OnOk result (failures self.new ≡ failures self.old) }
        ensures failure { OnErr result (failures self.old < failures self.new) }

        ensures same_bound { fails_from self.new ≡ fails_from self.old }
        ensures past_bound { OnErr result (fails_from self.old ≤ length (bytes self.old)) };
}

/// The device failed. `LogDevice` says of each call what is on it then.
#[derive(Clone, Copy, Debug, PartialEq, Eq)]
pub struct DeviceFault;

impl fmt::Display for DeviceFault {
    ghost use Rattle.std.specs.Prelude.{Some, codes};

    ghost output = { λ _. Some (codes "the log's device failed") };

    fn fmt<W: fmt::Write>(&self, f: &mut fmt::Formatter<W>) -> fmt::Result {
        f.write_str("the log's device failed")
    }
}

impl Error for DeviceFault {}
