//! Restores a volume and its log from named files.

ghost use Rattle.std.specs.Prelude.{map, IfErr, OnOk};
ghost use Rattle.media_restore.specs.FilesLog.{LeavesBoth, WritesBoth};

use crate::named_files::NamedFiles;
use crate::restore::{LOG, MASTER, told_late, told_readers};
use media_restore::{WithLogFault, restore_with_log};
use std::alloc::Global;
use std::io::Write;
use std::thread::Threads;

/// Restores a volume from the files of these names, as `restore_volume` does, and writes the log after
/// undo before it. The faults are those of `restore_with_log`. Neither writer is flushed.
pub fn restore_volume_with_log<N: NamedFiles, W: Write, K: Write>(
    files: &N,
    rt: &(impl Threads + Sync),
    alloc: Global,
    log: &str,
    master: &str,
    archives: &[&str],
    writer: &mut W,
    log_writer: &mut K,
) -> Result<(), WithLogFault>
    ensures ok { OnOk result (WritesBoth
        (record {
          log = N.bytes files.now log.now;
          master = N.bytes files.now master.now;
          archives = map (λ name. N.bytes files.now name.now) archives.now;
        })
        (W.contents writer.old) (W.contents writer.new)
        (K.contents log_writer.old) (K.contents log_writer.new)) }
    ensures err { IfErr result (LeavesBoth
        (record {
          log = N.bytes files.now log.now;
          master = N.bytes files.now master.now;
          archives = map (λ name. N.bytes files.now name.now) archives.now;
        })
        (W.contents writer.old) (W.contents writer.new)
        (K.contents log_writer.old) (K.contents log_writer.new)) }
{
    let mut readers = told_readers(alloc, files, archives)?;
    let mut log = told_late(files, LOG, log);
    let mut master = told_late(files, MASTER, master);
    restore_with_log(
        rt,
        alloc,
        &mut log,
        &mut master,
        &mut readers,
        writer,
        log_writer,
    )
}
