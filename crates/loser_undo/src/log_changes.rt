//! A log of which only what a restore needs is kept.

ghost use Rattle.std.specs.Prelude.{ℕ, ◌≡◌, ◌↔◌, ◌<◌, ◌≤◌, ◌++◌, IsTrue, OnOk};
ghost use Rattle.std.specs.Option.{option_to_list};
ghost use Rattle.log_records.specs.declared.limits.TheConstants.{MAX_RECORDS};
ghost use Rattle.log_records.specs.Record.{IsRecord, own_lsn};
ghost use Rattle.log_rules.specs.Checkpoint.{IsCompleteCheckpoint};
ghost use Rattle.log_rules.specs.Linked.{IsLinked};
ghost use Rattle.log_records.specs.Log.{Log, counts_of, lsn_of};
ghost use Rattle.loser_undo.specs.Kept.{kept_of};
ghost use Rattle.page_redo.specs.Placed.{placed_by, placed_in};

use log_records::Record;
use log_store::{CkptPoint, Master, RecordSink};
use page_core::{LSN_STEP, Lsn, PageCounts};
use page_redo::PlacedChange;
use std::alloc::{AllocError, Global};
use std::marker::Model;

/// What a restore needs of a log: of each change 16 bytes, the page counts that were given, and the
/// checkpoints that were completed.
#[derive(Drop)]
pub struct LogChanges {
    counts: PageCounts,
    count: usize,
    changes: Vec<PlacedChange>,
    checkpoints: Vec<CkptPoint>,
}

impl Model for LogChanges {
    ghost use Rattle.std.specs.Prelude.{◌≤◌};
    ghost use Rattle.log_records.specs.declared.limits.TheConstants.{MAX_RECORDS};
    ghost use Rattle.loser_undo.specs.Kept.{Kept};

    ghost Value = { Kept };

    ghost view = { λ it. record {
      counts = it.counts;
      count = it.count;
      changes = it.changes.items;
      checkpoints = it.checkpoints.items;
    } };

    ghost invariant = { λ it. it.count ≤ MAX_RECORDS };
}

impl LogChanges {
    /// The changes of a log of so many records, and what its analysis says of it.
    pub(crate) fn new(
        changes: Changes,
        count: usize,
        counts: PageCounts,
        checkpoints: Vec<CkptPoint>,
    ) -> LogChanges
        requires { count ≤ MAX_RECORDS }
        ensures { result ≡ record {
          counts = counts;
          count = count;
          changes = changes.list.items;
          checkpoints = checkpoints.items;
        } }
    {
        LogChanges {
            counts,
            count,
            changes: changes.list,
            checkpoints,
        }
    }

    /// The page counts of the volume, as the log goes on.
    pub fn counts(&self) -> &PageCounts
        ensures { (log : Log) → self.now ≡ kept_of log → result.now ≡ counts_of log }
    {
        &self.counts
    }

    /// How many records the log has.
    pub fn count(&self) -> usize
        ensures { result ≡ self.now.count }
    {
        self.count
    }

    /// The LSN after the last record.
    pub fn end(&self) -> Lsn
        ensures { result ≡ lsn_of self.now.count }
    {
        Lsn(LSN_STEP * (self.count as u64 + 1))
    }

    /// The changes, in the order of the log.
    pub fn changes(&self) -> &[PlacedChange]
        ensures { result.now ≡ self.now.changes }
    {
        &self.changes
    }

    /// Whether a master record names a complete checkpoint of the log.
    pub fn has_completed(&self, master: &Master) -> bool
        ensures { (log : Log) → self.now ≡ kept_of log → IsLinked log.records → (IsTrue result
            ↔ IsCompleteCheckpoint log.records master.now.begin master.now.end) }
    {
        for checkpoint in &self.checkpoints {
            if checkpoint.begin == master.begin && checkpoint.end == master.end {
                return true;
            }
        }
        false
    }
}

/// Keeps the changes of a log, as redo needs them.
#[derive(Drop)]
pub struct Changes {
    list: Vec<PlacedChange>,
}

impl RecordSink for Changes {
    ghost holds = { λ sink log. sink.list.items ≡ placed_in log.records };

    fn start(alloc: Global, _pages: u32) -> Result<Changes, AllocError> {
        Ok(Changes {
            list: Vec::new(alloc),
        })
    }

    fn take(&mut self, next: &[Record]) -> Result<(), AllocError> {
        for record in next {
            keep_change(&mut self.list, record)?;
        }
        Ok(())
    }
}

/// Keeps the change of a record, if it makes one.
fn keep_change(changes: &mut Vec<PlacedChange>, next: &Record) -> Result<(), AllocError>
    requires valid { IsRecord next.now }
    requires stands { (n : ℕ) × ((n < MAX_RECORDS) × (own_lsn next.now ≡ lsn_of n)) }
    ensures { OnOk result (changes.new.items
        ≡ changes.old.items ++ option_to_list (placed_by next.now)) }
{
    if let Some(change) = next.change() {
        changes.push(PlacedChange::new(next.lsn(), change))?;
    }
    Ok(())
}
