//! The writing of a log.

ghost use Rattle.std.specs.Prelude.{IfErr, OnOk};
ghost use Rattle.std.specs.Io.KnownBytes.{Appends};
ghost use Rattle.log_records.specs.Log.{SpellsLog, log_bytes};
ghost use Rattle.saved_files.specs.FileFault.{Leaves};

use crate::file_fault::FileFault;
use log_records::RECORD_BYTES;
use log_store::LogImage;
use page_core::zeros;
use std::alloc::Global;
use std::io::Write;

/// How many records are written at once, at most.
const BUFFER_RECORDS: usize = 4_096;

/// Writes a log: its header, and its records, the oldest first. The writer is not flushed.
pub fn write_log<W: Write>(alloc: Global, log: &LogImage, writer: &mut W) -> Result<(), FileFault>
    ensures ok { OnOk result (Appends (W.contents writer.old) (W.contents writer.new)
        (log_bytes log.now)) }
    ensures spelled { SpellsLog log.now (log_bytes log.now) }
    ensures err { IfErr result (Leaves (log_bytes log.now)
        (W.contents writer.old) (W.contents writer.new)) }
{
    let pages = log.pages();
    let Ok(mut buffer) = zeros(alloc, BUFFER_RECORDS * RECORD_BYTES) else {
        return Err(FileFault::OutOfMemory);
    };
    match media_restore::write_log(writer, pages, log.records(), &mut buffer) {
        Ok(()) => Ok(()),
        Err(done) => Err(FileFault::WriteFault(done)),
    }
}
