//! The records of undo, one after another.

ghost use Rattle.std.specs.Prelude.{ℕ, ◌≡◌, ◌+◌, ◌<◌, ◌≤◌, [], List, length, MatchOption};
ghost use Rattle.std.specs.Prelude.{slice_index_or, slice_set};
ghost use Rattle.std.specs.List.{remove};
ghost use Rattle.page_core.specs.Change.{undo_of};
ghost use Rattle.log_records.specs.declared.limits.TheConstants.{MAX_OPEN, MAX_RECORDS};
ghost use Rattle.log_records.specs.declared.record.Record.{Record};
ghost use Rattle.log_records.specs.declared.record.Record.TheVariants.{Comp, End};
ghost use Rattle.log_records.specs.Log.{Log, lsn_of};
ghost use Rattle.log_rules.specs.Table.{TxnEntry, compensated};
ghost use Rattle.loser_undo.specs.LastChanges.{AreLastChanges, last_change_at};
ghost use Rattle.loser_undo.specs.UndoRecords.{HasYielded, IsNext, YieldsNext};

use log_records::{MAX_OPEN, Record};
use log_rules::PendingChange;
use page_core::{LSN_STEP, Lsn, undo_of};
use std::marker::Model;
use txn_table::{Losers, TxnState};

/// The records that undo appends to a log (ARIES, section 6.3), made one after another; none is
/// kept. First comes an End for each open transaction that has nothing pending, and then each
/// pending change is compensated, the last one first; where nothing is left of a transaction, its
/// End comes at once.
#[derive(Drop)]
pub struct UndoRecords {
    losers: Losers,
    /// The LSN of the last pending change of each, by its place: these numbers stand side by side,
    /// so a step looks at no transaction but the one whose turn it is.
    last_changes: [Option<Lsn>; MAX_OPEN],
    /// How many records the log would have by now.
    count: usize,
}

impl Model for UndoRecords {
    ghost use Rattle.loser_undo.specs.LastChanges.{AreLastChanges};
    ghost use Rattle.loser_undo.specs.UndoRecords.{UndoView};

    ghost Value = { UndoView };

    ghost view = { λ it. record { losers = it.losers; count = it.count } };

    ghost invariant = { λ it. AreLastChanges it.losers it.last_changes };
}

/// The LSN of the last pending change of the one at this place; None where it has none or nobody is
/// there.
fn last_change_at(losers: &Losers, place: usize) -> Option<Lsn>
    ensures { result ≡ last_change_at losers.now place }
{
    losers.last_pending_at(place).map(|change| change.lsn)
}

/// The LSN of the last pending change at each place, as far as there is one.
fn last_changes_of(losers: &Losers) -> [Option<Lsn>; MAX_OPEN]
    ensures { AreLastChanges losers.now result }
{
    let mut last_changes = [None; MAX_OPEN];
    for place in 0..MAX_OPEN {
        last_changes[place] = last_change_at(losers, place);
    }
    last_changes
}

impl UndoRecords {
    /// Those of a log with so many records, at whose end these transactions are open.
    pub fn new(losers: Losers, count: usize) -> UndoRecords
        ensures { result ≡ record { losers = losers; count = count } }
    {
        UndoRecords {
            last_changes: last_changes_of(&losers),
            losers,
            count,
        }
    }

    /// The next record; None where no transaction is open any more. It looks at one number of each
    /// open transaction, and takes no memory.
    pub fn next_record(&mut self) -> Option<Record>
        requires { (log : Log) × ((behind : List Record) × HasYielded log behind self.old) }
        ensures { (log : Log) (behind : List Record) → HasYielded log behind self.old
            → YieldsNext log behind self.new result }
    {
        let place = self.next_place()?;
        let state = self.losers.state_at(place)?;
        match self.losers.last_pending_at(place) {
            Some(change) => Some(self.compensation_for(place, &state, &change)),
            None => Some(self.end(place, &state)),
        }
    }

    /// The place of the transaction of which the next record is.
    fn next_place(&self) -> Option<usize>
        requires { length self.now.losers ≤ MAX_OPEN }
        ensures { MatchOption result (self.now.losers ≡ []) (IsNext self.now.losers) }
    {
        let mut best = None;
        let mut greatest = Lsn(0);
        for place in 0..self.losers.count() {
            let Some(lsn) = self.last_changes[place] else {
                return Some(place);
            };
            if lsn >= greatest {
                greatest = lsn;
                best = Some(place);
            }
        }
        best
    }

    /// Where the next record is to stand. It counts as made.
    fn next_lsn(&mut self) -> Lsn
        requires { self.old.count < MAX_RECORDS }
        ensures lsn { result ≡ lsn_of self.old.count }
        ensures counted { self.new ≡ record self.old { count = self.old.count + 1 } }
    {
        let lsn = Lsn(LSN_STEP * (self.count as u64 + 1));
        self.count += 1;
        lsn
    }

    /// The End of the transaction at this place, which has these numbers.
    fn end(&mut self, place: usize, state: &TxnState) -> Record
        requires place { place < length self.old.losers }
        requires room { self.old.count < MAX_RECORDS }
        ensures made { result ≡ End (lsn_of self.old.count) state.now.txn state.now.last }
        ensures left { self.new ≡ record {
          losers = remove self.old.losers place;
          count = self.old.count + 1;
        } }
    {
        let lsn = self.next_lsn();
        self.losers.end(place);
        self.last_changes = last_changes_of(&self.losers);
        Record::End {
            lsn,
            txn: state.txn,
            prev: state.last,
        }
    }

    /// The compensation of the last pending change of the transaction at this place.
    fn compensation_for(&mut self, place: usize, state: &TxnState, change: &PendingChange) -> Record
        requires place { place < length self.old.losers }
        requires few { length self.old.losers ≤ MAX_OPEN }
        requires room { self.old.count < MAX_RECORDS }
        ensures made { result ≡ Comp (lsn_of self.old.count) state.now.txn state.now.last
            change.now.prev change.now.page change.now.slot (undo_of change.now.change) }
        ensures left { (d : TxnEntry) → self.new ≡ record {
          losers = slice_set self.old.losers place
              (compensated (lsn_of self.old.count) (slice_index_or self.old.losers place d));
          count = self.old.count + 1;
        } }
    {
        let lsn = self.next_lsn();
        self.losers.compensate(place, lsn);
        self.last_changes[place] = last_change_at(&self.losers, place);
        Record::Comp {
            lsn,
            txn: state.txn,
            prev: state.last,
            undo_next: change.prev,
            page: change.page,
            slot: change.slot,
            change: undo_of(&change.change),
        }
    }
}
