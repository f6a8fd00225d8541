//! The check of a master record from named files.

ghost use Rattle.std.specs.Prelude.{IfErr, OnOk};
ghost use Rattle.media_restore.specs.MasterCheck.{IsRightMaster, RefusesMaster};

use crate::named_files::NamedFiles;
use crate::restore::{LOG, MASTER, told_late};
use media_restore::{RestoreFault, check_master as check_readers};
use std::alloc::Global;

/// Checks a master record against a log, as a restore does before it looks at the archives, from
/// the files of these names.
pub fn check_master<N: NamedFiles>(
    files: &N,
    alloc: Global,
    log: &str,
    master: &str,
) -> Result<(), RestoreFault>
    ensures right { OnOk result
        (IsRightMaster (N.bytes files.now log.now) (N.bytes files.now master.now)) }
    ensures refused { IfErr result
        (RefusesMaster (N.bytes files.now log.now) (N.bytes files.now master.now)) }
{
    let mut log = told_late(files, LOG, log);
    let mut master = told_late(files, MASTER, master);
    check_readers(alloc, &mut log, &mut master)
}
