//! A log up to one of its records: its last complete checkpoint, and its volume.

ghost use Rattle.std.specs.Prelude.{◌≡◌, ◌↔◌, IfErr, IfOk, IsTrue, OnOk, Some};
ghost use Rattle.log_records.specs.Log.{Log};
ghost use Rattle.log_store.specs.Analysis.{IsAnalysisOf};
ghost use Rattle.log_store.specs.Fault.{IsPlace};
ghost use Rattle.media_restore.specs.Until.{EndsElsewhere, IsLogUntil, LeavesUntil};
ghost use Rattle.media_restore.specs.Until.{RefusesCheckpoint};
ghost use Rattle.media_restore.specs.Until.{RefusesUntil, WritesUntil, last_checkpoint};

use crate::files::BUFFER_PAGES;
use crate::until_fault::UntilFault;
use log_records::{HEADER_BYTES, MAX_LOG_BYTES, RECORD_BYTES};
use log_store::{Analysis, LogReadFault, Master, Scan, scan_log};
use page_core::{LSN_STEP, Lsn, PAGE_BYTES, zeros};
use page_redo::write_volume;
use std::alloc::Global;
use std::io::{Read, Write};

/// The last complete checkpoint of a log up to the record at an LSN, that one included, as a master
/// record names it.
///
/// `NoRecord` comes where no record of the log begins there, and `NoCheckpoint` where no checkpoint
/// is complete by then. The other faults are those of `scan_log`, of the log up to there: what
/// follows the record is not read.
pub fn checkpoint_until<R: Read>(
    alloc: Global,
    reader: &mut R,
    until: Lsn,
) -> Result<Master, UntilFault>
    ensures found { IfOk result (λ master. (log : Log)
        × (IsLogUntil (R.remaining reader.old) until log × (last_checkpoint log ≡ Some master))) }
    ensures place { OnOk result (IsPlace until) }
    ensures err { IfErr result (RefusesCheckpoint (R.remaining reader.old) until) }
    ensures no_record { IfErr result (EndsElsewhere (R.remaining reader.old) until) }
{
    let found = log_until(alloc, reader, until)?;
    match found.complete.last() {
        Some(point) => Ok(Master {
            begin: point.begin,
            end: point.end,
        }),
        None => Err(UntilFault::NoCheckpoint),
    }
}

/// Reads a log up to the record at an LSN, that one included, and writes the volume that it makes
/// from formatted pages, as `redo_stream` does of a whole log. Nothing is written before the log is
/// read so far and found right.
///
/// `NoRecord` comes where no record of the log begins there. `WriteFault` comes where the writer
/// fails, takes nothing, or is interrupted 17 times in a row. The writer is not flushed.
pub fn redo_until<R: Read, W: Write>(
    alloc: Global,
    reader: &mut R,
    until: Lsn,
    writer: &mut W,
) -> Result<(), UntilFault>
    ensures ok { OnOk result (WritesUntil (R.remaining reader.old) until
        (W.contents writer.old) (W.contents writer.new)) }
    ensures err { IfErr result (LeavesUntil (R.remaining reader.old) until
        (W.contents writer.old) (W.contents writer.new)) }
    ensures no_record { IfErr result (EndsElsewhere (R.remaining reader.old) until) }
{
    let found = log_until(alloc, reader, until)?;
    let Ok(mut buffer) = zeros(alloc, BUFFER_PAGES * PAGE_BYTES) else {
        return Err(UntilFault::OfLog(LogReadFault::OutOfMemory));
    };
    match write_volume(writer, &found.pages, &mut buffer) {
        Ok(()) => Ok(()),
        Err(done) => Err(UntilFault::WriteFault(done)),
    }
}

/// What a log says up to the record at an LSN, that one included.
fn log_until<R: Read>(alloc: Global, reader: &mut R, until: Lsn) -> Result<Analysis, UntilFault>
    ensures found { IfOk result (λ it. (log : Log)
        × (IsLogUntil (R.remaining reader.old) until log × IsAnalysisOf log it)) }
    ensures place { OnOk result (IsPlace until) }
    ensures err { IfErr result (RefusesUntil (R.remaining reader.old) until) }
    ensures no_record { IfErr result (EndsElsewhere (R.remaining reader.old) until) }
{
    if !is_place(until) {
        return Err(UntilFault::NoRecord(until));
    }
    let mut front = Read::take(reader, until.0 + RECORD_BYTES as u64);
    let scan: Scan<()> = scan_log(alloc, &mut front)?;
    let found = scan.history.into_analysis();
    if found.records as u64 != until.0 / LSN_STEP {
        return Err(UntilFault::NoRecord(until));
    }
    Ok(found)
}

/// Whether a record may begin at this offset of a log.
fn is_place(at: Lsn) -> bool
    ensures { IsTrue result ↔ IsPlace at }
{
    at.0 % LSN_STEP == 0 && at.0 >= HEADER_BYTES as u64 && at.0 < MAX_LOG_BYTES as u64
}
