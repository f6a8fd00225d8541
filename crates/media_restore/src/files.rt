//! Restores a volume from files: a log, its master record and the archives of a chain.

ghost use Rattle.std.specs.Prelude.{◌≡◌, map, IfOk, IfErr, OnOk};
ghost use Rattle.log_records.specs.Log.{Log};
ghost use Rattle.media_restore.specs.Files.{IsRedoneFrom, Leaves, Refused, WritesVolume};
ghost use Rattle.media_restore.specs.FilesStop.{AreReadWhole, StopsIn};

use crate::files_fault::RestoreFault;
use crate::files_master::read_master;
use copy_vault::read_chain_pages_into;
use log_records::MAX_RECORDS;
use log_store::RecordSink;
use loser_undo::{ReadLog, read_changes_and, undo_into};
use page_core::{PAGE_BYTES, Page, zeros};
use page_redo::{redo_changes, write_volume};
use std::alloc::Global;
use std::io::{Read, Write};
use std::thread::Threads;
use txn_table::Losers;

/// How many pages are written at once.
pub(crate) const BUFFER_PAGES: usize = 512;

/// Restores a volume from files (ARIES, section 8), and writes its bytes. It reads a log, its
/// master record and the archives of a chain of copies, the full one first, redoes the log over the
/// pages of the chain from the redo point of the last copy on, and undoes the transactions that are
/// open at the log's end.
///
/// It does so whoever wrote the files, and whatever their copies lack. Where these lack no change
/// below that redo point, the volume is that of the log after undo, and has what was committed. The
/// archives are read side by side, so that beside the volume just one page of each is kept, and of
/// the log 16 bytes of each change, and what the transactions have pending that are open at its
/// end.
///
/// The faults of the log come first, those of `read_log`; then those of the master record:
/// `BadHeader` where its bytes spell none, `BadChain` where it names no complete checkpoint of the
/// log; then those of the archives, in the order in which `read_chain_pages` meets them; then
/// `LogFull`, and `OutOfMemory` where memory is refused. Until then nothing is written.
/// `WriteFault` comes where the writer fails, takes nothing, or is interrupted 17 times in a row.
/// The writer is not flushed. `ReadFault` comes where a reader fails or does not come to an end,
/// and what it gave holds no fault.
pub fn restore_files<L: Read, M: Read, A: Read, W: Write>(
    rt: &(impl Threads + Sync),
    alloc: Global,
    log: &mut L,
    master: &mut M,
    archives: &mut [A],
    writer: &mut W,
) -> Result<(), RestoreFault>
    ensures ok { OnOk result (WritesVolume
        (record {
          log = L.remaining log.old;
          master = M.remaining master.old;
          archives = map (λ a. A.remaining a) archives.old;
        })
        (W.contents writer.old) (W.contents writer.new)) }
    ensures err { IfErr result (Leaves
        (record {
          log = L.remaining log.old;
          master = M.remaining master.old;
          archives = map (λ a. A.remaining a) archives.old;
        })
        (W.contents writer.old) (W.contents writer.new)) }
    // It reads to the first file that is refused, and of none behind it.
    ensures stops { IfErr result (StopsIn
        (record {
          log = L.remaining log.old;
          master = M.remaining master.old;
          archives = map (λ a. A.remaining a) archives.old;
        })
        (record {
          log = L.remaining log.new;
          master = M.remaining master.new;
          archives = map (λ a. A.remaining a) archives.new;
        })
        (master.new ≡ master.old) (archives.new ≡ archives.old)) }
    ensures end { OnOk result (AreReadWhole
        (record {
          log = L.remaining log.old;
          master = M.remaining master.old;
          archives = map (λ a. A.remaining a) archives.old;
        })
        (record {
          log = L.remaining log.new;
          master = M.remaining master.new;
          archives = map (λ a. A.remaining a) archives.new;
        })) }
{
    let ReadFiles {
        losers,
        count,
        mut pages,
        ..
    } = read_files::<L, M, A, ()>(rt, alloc, log, master, archives)?;
    undo_into(losers, count, &mut pages);
    let mut buffer = zeros(alloc, BUFFER_PAGES * PAGE_BYTES)?;
    match write_volume(writer, &pages, &mut buffer) {
        Ok(()) => Ok(()),
        Err(done) => Err(RestoreFault::WriteFault(done)),
    }
}

/// The files are read, and the log is redone over the pages of the chain.
#[derive(Drop)]
pub(crate) struct ReadFiles<K> {
    /// What a sink keeps of the log.
    pub(crate) kept: K,
    /// The transactions that are open at its end.
    pub(crate) losers: Losers,
    /// How many records it has.
    pub(crate) count: usize,
    pub(crate) pages: Vec<Page>,
}

/// Reads the files, sees that undo has room, and redoes the log over the pages of the chain from the
/// redo point of the last copy on. A sink takes the records of the log besides.
pub(crate) fn read_files<L: Read, M: Read, A: Read, K: RecordSink + Drop>(
    rt: &(impl Threads + Sync),
    alloc: Global,
    log: &mut L,
    master: &mut M,
    archives: &mut [A],
) -> Result<ReadFiles<K>, RestoreFault>
    ensures ok { IfOk result (λ it. (found : Log) × (K.holds it.kept found × IsRedoneFrom
        (record {
          log = L.remaining log.old;
          master = M.remaining master.old;
          archives = map (λ a. A.remaining a) archives.old;
        }) found it.losers it.count it.pages.items)) }
    ensures err { IfErr result (Refused
        (record {
          log = L.remaining log.old;
          master = M.remaining master.old;
          archives = map (λ a. A.remaining a) archives.old;
        })) }
    ensures stops { IfErr result (StopsIn
        (record {
          log = L.remaining log.old;
          master = M.remaining master.old;
          archives = map (λ a. A.remaining a) archives.old;
        })
        (record {
          log = L.remaining log.new;
          master = M.remaining master.new;
          archives = map (λ a. A.remaining a) archives.new;
        })
        (master.new ≡ master.old) (archives.new ≡ archives.old)) }
    ensures end { OnOk result (AreReadWhole
        (record {
          log = L.remaining log.old;
          master = M.remaining master.old;
          archives = map (λ a. A.remaining a) archives.old;
        })
        (record {
          log = L.remaining log.new;
          master = M.remaining master.new;
          archives = map (λ a. A.remaining a) archives.new;
        })) }
{
    let ReadLog {
        changes,
        kept,
        losers,
        pages,
    } = read_changes_and::<L, K>(alloc, log)?;
    read_master(master, &changes)?;
    let end = changes.end();
    // Where the log's pages stand there is room for those of the chain.
    let (mut pages, redo) = read_chain_pages_into(alloc, archives, changes.counts(), end, pages)?;
    let count = changes.count();
    if count as u64 + losers.owed() > MAX_RECORDS as u64 {
        return Err(RestoreFault::LogFull);
    }
    redo_changes(rt, &mut pages, changes.changes(), redo);
    Ok(ReadFiles {
        kept,
        losers,
        count,
        pages,
    })
}
