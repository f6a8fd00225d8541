//! The transactions that are open at the end of a log.

ghost use Rattle.std.specs.Prelude.{◌≡◌, ◌<◌, ◌++◌, ◌∷◌, [], length, min, OnErr, OnOk};
ghost use Rattle.std.specs.Prelude.{slice_get, slice_index_or, slice_set};
ghost use Rattle.std.specs.List.{remove, sum_by};
ghost use Rattle.std.specs.Option.{option_and_then, option_map};
ghost use Rattle.txn_table.specs.OpenEntry.{entry_view};
ghost use Rattle.txn_table.specs.OpenList.{IsSound};
ghost use Rattle.log_rules.specs.Table.{TxnEntry, compensated, owed_by_entry};
ghost use Rattle.log_rules.specs.Transactions.{last_of};
ghost use Rattle.txn_table.specs.TxnState.{state_of};
ghost use Rattle.log_records.specs.declared.limits.TheConstants.{MAX_OPEN};

use crate::open_entry::OpenEntry;
use crate::open_list::OpenList;
use crate::txn_state::TxnState;
use log_records::MAX_OPEN;
use log_rules::PendingChange;
use page_core::Lsn;
use std::alloc::{AllocError, Global};
use std::marker::Model;

/// The transactions that are open at the end of a log, in order of their numbers, with what undo is
/// to take back. Undo's own records are all that come yet, so it keeps no claims on slots.
#[derive(Drop)]
pub struct Losers {
    list: OpenList,
}

impl Model for Losers {
    ghost use Rattle.std.specs.Prelude.{List, map};
    ghost use Rattle.txn_table.specs.OpenEntry.{entry_view};
    ghost use Rattle.txn_table.specs.OpenList.{IsSound, entries_in};
    ghost use Rattle.log_rules.specs.Table.{TxnEntry};

    ghost Value = { List TxnEntry };

    ghost view = { λ it. map entry_view (entries_in it.list) };

    ghost invariant = { λ it. IsSound it.list };
}

impl Losers {
    ghost use Rattle.std.specs.Prelude.{ℕ, map};
    ghost use Rattle.txn_table.specs.OpenList.{entries_in};

    /// Nobody is open.
    pub fn new(alloc: Global) -> Losers
        ensures { result ≡ [] }
    {
        Losers {
            list: OpenList::new(alloc),
        }
    }

    /// Those of a list.
    pub(crate) fn of(list: OpenList) -> Losers
        requires { IsSound list }
        ensures { result ≡ map entry_view (entries_in list) }
    {
        Losers { list }
    }

    /// One more, with a number above all others. An `Err` changes nothing.
    pub fn push(&mut self, loser: OpenEntry) -> Result<(), AllocError>
        requires { length self.old < MAX_OPEN }
        ensures ok { OnOk result (self.new ≡ self.old ++ entry_view loser ∷ []) }
        ensures err { OnErr result (self.new ≡ self.old) }
    {
        let place = self.list.len();
        self.list.add(loser.txn, loser.first)?;
        let row = self.list.order[place] as usize;
        let entry = &mut self.list.rows[row];
        entry.replace_by(loser);
        Ok(())
    }

    /// How many are open.
    pub fn count(&self) -> usize
        ensures { result ≡ length self.now }
    {
        self.list.len()
    }

    /// The numbers of the one at this place, the least at 0; None where there is none.
    pub fn state_at(&self, place: usize) -> Option<TxnState>
        ensures { result ≡ option_map state_of (slice_get self.now place) }
    {
        match self.list.row_at(place) {
            Some(row) => Some(self.list.rows[row as usize].state()),
            None => None,
        }
    }

    /// The last pending change of the one at this place; None where it has none or nobody is there.
    pub fn last_pending_at(&self, place: usize) -> Option<PendingChange>
        ensures { result ≡ option_and_then (λ e. last_of e.pending) (slice_get self.now place) }
    {
        match self.list.row_at(place) {
            Some(row) => self.list.rows[row as usize].last_pending(),
            None => None,
        }
    }

    /// A pending change of the one at this place, the oldest at index 0; None where there is none.
    pub fn pending_at(&self, place: usize, index: usize) -> Option<PendingChange>
        ensures { result
            ≡ option_and_then (λ e. slice_get e.pending index) (slice_get self.now place) }
    {
        match self.list.row_at(place) {
            Some(row) => self.list.rows[row as usize].pending_at(index),
            None => None,
        }
    }

    /// How many records they may still need: of each one for each pending change, an Abort if it
    /// has none, and its last. A number that is too large for the type is cut to the largest one.
    pub fn owed(&self) -> u64
        ensures { result ≡ min (sum_by owed_by_entry self.now) u64.MAX }
    {
        self.list.owed()
    }

    /// The last pending change of the one at this place is taken back, by a record of this LSN.
    pub fn compensate(&mut self, place: usize, lsn: Lsn)
        requires { place < length self.old }
        ensures { (d : TxnEntry) → self.new
            ≡ slice_set self.old place (compensated lsn (slice_index_or self.old place d)) }
    {
        let row = self.list.order[place] as usize;
        let entry = &mut self.list.rows[row];
        entry.undo_last(lsn);
    }

    /// The one at this place is open no more.
    pub fn end(&mut self, place: usize)
        requires { place < length self.old }
        ensures { self.new ≡ remove self.old place }
    {
        let row = self.list.order[place];
        self.list.remove(row);
    }
}
