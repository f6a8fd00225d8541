//! Reads a log, and keeps what a restore needs of it.

ghost use Rattle.std.specs.Prelude.{◌≡◌, [], IfOk, IfErr, IfSome, OnOk};
ghost use Rattle.std.specs.Io.KnownBytes.{IsAtEnd};
ghost use Rattle.page_core.specs.Input.{StaysKnown};
ghost use Rattle.log_rules.specs.Linked.{IsLinked};
ghost use Rattle.log_records.specs.Image.{redo_all};
ghost use Rattle.log_records.specs.Log.{IsLog, Log, SpellsLog, page_count};
ghost use Rattle.log_store.specs.Fault.{GaveNoFault, Refuses};
ghost use Rattle.loser_undo.specs.Losers.{losers_of};
ghost use Rattle.loser_undo.specs.Kept.{kept_of};
ghost use Rattle.page_redo.specs.Placed.{placed_in};

use crate::log_changes::{Changes, LogChanges};
use log_records::Record;
use log_store::{Analysis, LogReadFault, RecordSink, scan_log};
use page_core::Page;
use std::alloc::{AllocError, Global};
use std::io::Read;
use txn_table::Losers;

/// What was read of a log.
#[derive(Drop)]
pub struct ReadLog<K> {
    /// What a restore needs of it.
    pub changes: LogChanges,
    /// What else is kept of it.
    pub kept: K,
    /// The transactions that are open at its end, with their pending changes.
    pub losers: Losers,
    /// The pages that it makes of formatted ones. A restore needs just their room.
    pub pages: Vec<Page>,
}

/// Keeps the changes of a log, and what another sink keeps.
#[derive(Drop)]
struct ChangesAnd<K> {
    changes: Changes,
    kept: K,
}

impl<K: RecordSink> RecordSink for ChangesAnd<K> {
    ghost holds = { λ sink log. (sink.changes.list.items ≡ placed_in log.records)
        × K.holds sink.kept log };

    fn start(alloc: Global, pages: u32) -> Result<ChangesAnd<K>, AllocError> {
        Ok(ChangesAnd {
            changes: Changes::start(alloc, pages)?,
            kept: K::start(alloc, pages)?,
        })
    }

    fn take(&mut self, next: &[Record]) -> Result<(), AllocError> {
        self.changes.take(next)?;
        self.kept.take(next)
    }
}

/// Reads a whole log, to the input's end, and answers what a restore needs of it, what a sink keeps
/// of it besides, the transactions that are open at its end with their pending changes, and the
/// pages of its volume: reading has made these, since they decide which record may follow.
///
/// The faults, and where the reader stands after one, are those of `scan_log`.
pub fn read_changes_and<R: Read, K: RecordSink + Drop>(
    alloc: Global,
    reader: &mut R,
) -> Result<ReadLog<K>, LogReadFault>
    ensures known { StaysKnown (R.remaining reader.old) (R.remaining reader.new) }
    ensures found { IfOk result (λ it. (log : Log) × ((it.changes ≡ kept_of log)
        × (K.holds it.kept log × ((it.losers ≡ losers_of log.records)
        × ((it.pages.items ≡ redo_all log.records (page_count log)) × (IsLinked log.records
        × (IsLog log × IfSome (R.remaining reader.old) (SpellsLog log)))))))) }
    ensures end { OnOk result (IsAtEnd (R.remaining reader.new)) }
    // The fault is the first one.
    ensures first { IfErr result (λ fault. IfSome (R.remaining reader.old)
        (λ input. Refuses input fault)) }
    // Where the reader failed, what it gave until then holds none.
    ensures unread { IfErr result (GaveNoFault [] (R.remaining reader.old)
        (R.remaining reader.new)) }
{
    let scan = scan_log::<R, ChangesAnd<K>>(alloc, reader)?;
    let ChangesAnd { changes, kept } = scan.sink;
    let Analysis {
        records,
        txns,
        complete,
        counts,
        pages,
        ..
    } = scan.history.into_analysis();
    Ok(ReadLog {
        changes: LogChanges::new(changes, records, counts, complete),
        kept,
        losers: txns.into_losers(),
        pages,
    })
}

/// Reads a whole log as `read_changes_and` does, and keeps nothing besides.
pub fn read_changes<R: Read>(
    alloc: Global,
    reader: &mut R,
) -> Result<(LogChanges, Losers), LogReadFault>
    ensures known { StaysKnown (R.remaining reader.old) (R.remaining reader.new) }
    ensures found { IfOk result (λ it. (log : Log)
        × ((it.0 ≡ kept_of log) × ((it.1 ≡ losers_of log.records) × (IsLinked log.records
        × (IsLog log × IfSome (R.remaining reader.old) (SpellsLog log)))))) }
    ensures end { OnOk result (IsAtEnd (R.remaining reader.new)) }
    // The fault is the first one.
    ensures first { IfErr result (λ fault. IfSome (R.remaining reader.old)
        (λ input. Refuses input fault)) }
    // Where the reader failed, what it gave until then holds none.
    ensures unread { IfErr result (GaveNoFault [] (R.remaining reader.old)
        (R.remaining reader.new)) }
{
    let read = read_changes_and::<R, ()>(alloc, reader)?;
    Ok((read.changes, read.losers))
}
