//! The disk of a log whose power is cut after so many calls, and an engine on it.

ghost use Rattle.std.specs.Prelude.{ℕ, IfOk, IsTrue, List};
ghost use Rattle.log_prefix.specs.Front.{IsLongestFront};
ghost use Rattle.log_records.specs.Log.{Log};
ghost use Rattle.open_database.specs.PowerCuts.{HasForced};

use crate::platter::Platter;
use crate::trouble::Trouble;
use aries_core::Engine;
use file_devices::FileLog;
use open_database::power_cuts_lose_no_commit;
use page_store::MemStore;
use sqlite_disk::{Disk, Fuse, Memory};
use std::alloc::{AllocError, Global};

/// A disk in memory, of which it is known what was not synced, and whose calls fail once its power is
/// cut.
pub type Drive = Fuse<Platter<Memory>>;

/// An engine whose log is on such a disk.
pub type LogEngine = Engine<MemStore, FileLog<Drive>>;

/// A disk that has these bytes, and such trouble to come.
pub fn drive_of(alloc: Global, bytes: &[u8], trouble: Trouble) -> Result<Drive, AllocError>
    ensures { IfOk result (λ it. IsTrue (⟦<Drive as Disk>⟧.is_usable it)) }
{
    let mut memory = Memory::new(alloc);
    if memory.write_at(0, bytes).is_err() || memory.sync().is_err() {
        return Err(AllocError);
    }
    let synced = Vec::from_slice(alloc, bytes)?;
    Ok(Fuse::new(Platter::new(memory, synced, trouble), trouble.calls))
}

/// Whatever a crash leaves of the disk of such an engine, the front that is read of it begins with
/// each forced record. This is `power_cuts_lose_no_commit` where what that supposes is so: a disk in
/// memory gives what it has. So it holds, too, where the log was read from the disk and not stored
/// again, as behind a closing.
pub fn crashes_leave_what_is_forced(engine: &LogEngine)
    ensures { (content : List ℕ) (log : Log)
        → ⟦<Drive as Disk>⟧.may_leave engine.now.device.disk content
        → IsLongestFront content log → HasForced engine.now.state log }
{
    power_cuts_lose_no_commit(engine);
}
