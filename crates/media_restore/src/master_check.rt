//! The check of a master record against its log, without a restore.

ghost use Rattle.std.specs.Prelude.{◌≡◌, IfErr, OnOk};
ghost use Rattle.media_restore.specs.MasterCheck.{CheckStopsIn, IsRightMaster, RefusesMaster};

use crate::files_fault::RestoreFault;
use crate::files_master::read_master;
use loser_undo::read_changes;
use std::alloc::Global;
use std::io::Read;

/// Reads a log and its master record, and sees that the master record names a complete checkpoint
/// of the log, as `restore_files` does before it looks at the archives. The faults are those that
/// it has of the two.
pub fn check_master<L: Read, M: Read>(
    alloc: Global,
    log: &mut L,
    master: &mut M,
) -> Result<(), RestoreFault>
    ensures right { OnOk result (IsRightMaster (L.remaining log.old) (M.remaining master.old)) }
    ensures refused { IfErr result
        (RefusesMaster (L.remaining log.old) (M.remaining master.old)) }
    // It reads to the first of the two that is refused, and of none behind it.
    ensures stops { IfErr result (CheckStopsIn (L.remaining log.old) (L.remaining log.new)
        (M.remaining master.old) (M.remaining master.new) (master.new ≡ master.old)) }
{
    let (kept, _table) = read_changes(alloc, log)?;
    read_master(master, &kept)?;
    Ok(())
}
