//! Restores a volume from files together with the log that belongs to it.

ghost use Rattle.std.specs.Prelude.{◌≡◌, map, IfOk, IfErr, OnOk};
ghost use Rattle.media_restore.specs.Files.{Files, IsRedoneFrom};
ghost use Rattle.media_restore.specs.FilesLog.{IsRestoredWithLog, LeavesBoth, WritesBoth};
ghost use Rattle.media_restore.specs.FilesLog.{told_fault};
ghost use Rattle.media_restore.specs.FilesStop.{AreReadWhole, StopsIn};

use crate::files::{BUFFER_PAGES, ReadFiles, read_files};
use crate::files_fault::RestoreFault;
use crate::log_output::write_log;
use crate::with_log_fault::WithLogFault;
use log_records::Record;
use log_store::LogImage;
use loser_undo::undo_into;
use page_core::{PAGE_BYTES, Page, zeros};
use page_redo::write_volume;
use std::alloc::{AllocError, Global};
use std::io::{Read, Write};
use std::thread::Threads;

/// Restores a volume from files as `restore_files` does, and writes two things: the bytes of the
/// log after undo, which has the records that undo appends, and then those of the volume. A
/// database can go on with the two: no transaction is open at the end of the log, and the LSN of
/// each page is that of a record of it.
///
/// The log is read into memory whole. The faults are those of `restore_files`, in the same order.
/// Until all of the files are found right, nothing is written. `OfLog` comes where the log's writer
/// fails, takes nothing, or is interrupted 17 times in a row; then nothing of the volume was
/// written. Neither writer is flushed.
pub fn restore_with_log<L: Read, M: Read, A: Read, W: Write, K: Write>(
    rt: &(impl Threads + Sync),
    alloc: Global,
    log: &mut L,
    master: &mut M,
    archives: &mut [A],
    writer: &mut W,
    log_writer: &mut K,
) -> Result<(), WithLogFault>
    ensures ok { OnOk result (WritesBoth
        (record {
          log = L.remaining log.old;
          master = M.remaining master.old;
          archives = map (λ a. A.remaining a) archives.old;
        })
        (W.contents writer.old) (W.contents writer.new)
        (K.contents log_writer.old) (K.contents log_writer.new)) }
    ensures err { IfErr result (LeavesBoth
        (record {
          log = L.remaining log.old;
          master = M.remaining master.old;
          archives = map (λ a. A.remaining a) archives.old;
        })
        (W.contents writer.old) (W.contents writer.new)
        (K.contents log_writer.old) (K.contents log_writer.new)) }
    // It reads to the first file that is refused, and of none behind it.
    ensures stops { IfErr result (λ fault. StopsIn
        (record {
          log = L.remaining log.old;
          master = M.remaining master.old;
          archives = map (λ a. A.remaining a) archives.old;
        })
        (record {
          log = L.remaining log.new;
          master = M.remaining master.new;
          archives = map (λ a. A.remaining a) archives.new;
        })
        (master.new ≡ master.old) (archives.new ≡ archives.old) (told_fault fault)) }
    ensures end { OnOk result (AreReadWhole
        (record {
          log = L.remaining log.old;
          master = M.remaining master.old;
          archives = map (λ a. A.remaining a) archives.old;
        })
        (record {
          log = L.remaining log.new;
          master = M.remaining master.new;
          archives = map (λ a. A.remaining a) archives.new;
        })) }
{
    let read = read_files::<L, M, A, LogImage>(rt, alloc, log, master, archives)?;
    let (first_count, records, pages) = undone(read)?;
    let mut buffer = zeros(alloc, BUFFER_PAGES * PAGE_BYTES)?;
    if let Err(done) = write_log(log_writer, first_count, &records, &mut buffer) {
        return Err(WithLogFault::OfLog(done));
    }
    match write_volume(writer, &pages, &mut buffer) {
        Ok(()) => Ok(()),
        Err(done) => Err(WithLogFault::OfVolume(RestoreFault::WriteFault(done))),
    }
}

/// Undoes the transactions that are open at the log's end, on the pages and behind the records. It
/// answers the page count of the log's header, the records of the log after undo, and the pages.
fn undone(read: ReadFiles<LogImage>) -> Result<(u32, Vec<Record>, Vec<Page>), AllocError>
    requires { (files : Files)
        × IsRedoneFrom files read.kept read.losers read.count read.pages.items }
    ensures { IfOk result (λ it. (files : Files)
        → IsRedoneFrom files read.kept read.losers read.count read.pages.items
        → IsRestoredWithLog files it.2.items (record { pages = it.0; records = it.1.items })) }
{
    let ReadFiles {
        kept,
        losers,
        count,
        pages,
    } = read;
    let (first_count, mut records) = kept.into_parts();
    records.reserve(losers.owed() as usize)?;
    let mut sink = (records, pages);
    undo_into(losers, count, &mut sink);
    Ok((first_count, sink.0, sink.1))
}
