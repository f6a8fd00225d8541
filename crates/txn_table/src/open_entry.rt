//! One open transaction: its numbers, and its pending changes as a stack.

ghost use Rattle.std.specs.Prelude.{ℕ, ◌≡◌, ◌<◌, ◌↔◌, [], IsSomeAnd, IsTrue, OnErr, OnOk};
ghost use Rattle.std.specs.Prelude.{true, false, vec_capacity, vec_len};
ghost use Rattle.slot_claims.specs.Claims.{KeepsHolds, has_room};
ghost use Rattle.txn_table.specs.CountUpTo.{IsCountUpTo};
ghost use Rattle.log_rules.specs.Linked.{Compensates};
ghost use Rattle.txn_table.specs.OpenEntry.{IsBegun, IsHeld, KeepsOtherRows, Pushes};
ghost use Rattle.txn_table.specs.OpenEntry.{changes_of, entry_has_room};
ghost use Rattle.log_rules.specs.Transactions.{without_last};

use crate::pending::Pending;
use crate::txn_state::TxnState;
use log_rules::PendingChange;
use page_core::{Change, Lsn, PageNo, SlotNo, TxnNo, undo_of};
use slot_claims::{Claims, ROWS};
use std::alloc::{AllocError, Global};

/// An open transaction.
#[derive(Drop)]
pub struct OpenEntry {
    pub(crate) txn: TxnNo,
    /// Its place in the sets of rows, as long as it is open.
    pub(crate) row: u8,
    pub(crate) first: Lsn,
    pub(crate) last: Lsn,
    pub(crate) rolling: bool,
    /// The oldest first.
    pub(crate) pending: Vec<Pending>,
}

/// Adds a pending change and takes its slot, unless another transaction keeps it out. Answers
/// whether it did. There is room for both.
#[inline(always)]
fn push_pending(
    pending: &mut Vec<Pending>,
    claims: &mut Claims,
    row: u8,
    change: PendingChange,
) -> bool
    requires row { row < ROWS }
    requires held { IsHeld claims.old row pending.old.items }
    requires spare { vec_len pending.old < vec_capacity pending.old }
    requires room { has_room claims.old change.page change.slot row ≡ true }
    ensures pushed { Pushes claims.old pending.old.items pending.new.items row change result }
    ensures held { IsHeld claims.new row pending.new.items }
    ensures others { KeepsOtherRows row claims.old claims.new }
{
    let kind = change.change.kind();
    let Some(before) = claims.take(change.page, change.slot, row, kind) else {
        return false;
    };
    pending.push_reserved(Pending::of(change, before));
    true
}

/// Takes the last pending change away, and what it kept out.
#[inline(always)]
fn pop_pending(pending: &mut Vec<Pending>, claims: &mut Claims, row: u8)
    requires row { row < ROWS }
    requires held { IsHeld claims.old row pending.old.items }
    ensures changes { changes_of pending.new.items ≡ without_last (changes_of pending.old.items) }
    ensures held { IsHeld claims.new row pending.new.items }
    ensures others { KeepsOtherRows row claims.old claims.new }
{
    if let Some(last) = pending.pop() {
        let change = last.change();
        claims.release(change.page, change.slot, row, last.before());
    }
}

/// Takes all pending changes away, and what they kept out.
fn drain_pending(pending: &mut Vec<Pending>, claims: &mut Claims, row: u8)
    requires row { row < ROWS }
    requires held { IsHeld claims.old row pending.old.items }
    ensures changes { pending.new.items ≡ [] }
    ensures held { IsHeld claims.new row pending.new.items }
    ensures others { KeepsOtherRows row claims.old claims.new }
{
    while !pending.is_empty() {
        pop_pending(pending, claims, row);
    }
}

/// How many pending changes have an LSN up to this one, where their LSNs rise.
fn count_up_to(pending: &[Pending], lsn: Lsn) -> usize
    ensures { IsCountUpTo (changes_of pending.now) lsn result }
{
    let mut low = 0;
    let mut high = pending.len();
    'halves: while low < high {
        let middle = low + (high - low) / 2;
        if pending[middle].lsn() <= lsn {
            low = middle + 1;
        } else {
            high = middle;
        }
    }
    low
}

impl OpenEntry {
    ghost use Rattle.std.specs.Prelude.{min, slice_get, true};
    ghost use Rattle.txn_table.specs.OpenEntry.{IsBegun, KeepsRow, Updates, entry_view};
    ghost use Rattle.txn_table.specs.TxnState.{state_of};
    ghost use Rattle.log_rules.specs.Table.{IsActiveEntry, IsChained, compensated, owed_by_entry};
    ghost use Rattle.log_rules.specs.Transactions.{last_of};

    /// A transaction with these numbers and pending changes, the oldest first. It has no row yet.
    pub fn new(txn: TxnNo, first: Lsn, last: Lsn, rolling: bool, pending: Vec<Pending>) -> OpenEntry
        ensures { entry_view result ≡ record {
          txn = txn;
          first = first;
          last = last;
          rolling = rolling;
          pending = changes_of pending.items;
        } }
    {
        OpenEntry {
            txn,
            row: 0,
            first,
            last,
            rolling,
            pending,
        }
    }

    /// Another transaction takes this one's row.
    pub(crate) fn replace_by(&mut self, other: OpenEntry)
        ensures entry { entry_view self.new ≡ entry_view other }
        ensures row { self.new.row ≡ self.old.row }
    {
        let OpenEntry {
            txn,
            first,
            last,
            rolling,
            pending,
            ..
        } = other;
        self.txn = txn;
        self.first = first;
        self.last = last;
        self.rolling = rolling;
        self.pending = pending;
    }

    /// The transaction takes its last pending change back, by a compensation record of this LSN,
    /// where nobody asks any more what it keeps out.
    pub(crate) fn undo_last(&mut self, lsn: Lsn)
        ensures entry { entry_view self.new ≡ compensated lsn (entry_view self.old) }
        ensures row { self.new.row ≡ self.old.row }
    {
        let _ = self.pending.pop();
        self.last = lsn;
    }

    /// A transaction begins on this row, where another one sat.
    pub fn begin(&mut self, txn: TxnNo, row: u8, lsn: Lsn)
        ensures { IsBegun self.new txn row lsn }
    {
        self.txn = txn;
        self.row = row;
        self.first = lsn;
        self.last = lsn;
        self.rolling = false;
        self.pending.clear();
    }

    /// Makes room for a change of a slot: `update` needs no memory then. An `Err` comes where
    /// memory for it is refused, or no page has the slot. The transaction stays.
    #[inline(always)]
    pub fn make_room(
        &mut self,
        claims: &mut Claims,
        page: PageNo,
        slot: SlotNo,
    ) -> Result<(), AllocError>
        requires row { self.old.row < ROWS }
        requires held { IsHeld claims.old self.old.row self.old.pending.items }
        ensures room { OnOk result (entry_has_room claims.new self.new page slot ≡ true) }
        ensures needed { OnErr result (entry_has_room claims.old self.old page slot ≡ false) }
        ensures entry { entry_view self.new ≡ entry_view self.old }
        ensures claims { KeepsHolds claims.old claims.new }
        ensures kept { KeepsRow self.old self.new claims.old claims.new }
    {
        self.pending.reserve(1)?;
        claims.make_room(page, slot, self.row)
    }

    /// The transaction makes a change for which there is room, unless another one keeps it out: its
    /// Update has this change's LSN. Answers whether it did.
    #[inline(always)]
    pub fn update(&mut self, claims: &mut Claims, change: PendingChange) -> bool
        requires row { self.old.row < ROWS }
        requires held { IsHeld claims.old self.old.row self.old.pending.items }
        requires room { entry_has_room claims.old self.old change.page change.slot ≡ true }
        ensures updated { Updates claims.old self.old self.new change result }
        ensures kept { KeepsRow self.old self.new claims.old claims.new }
    {
        let lsn = change.lsn;
        let may = push_pending(&mut self.pending, claims, self.row, change);
        if may {
            self.last = lsn;
        }
        may
    }

    /// The transaction takes its last pending change back, by a compensation record of this LSN.
    pub fn compensate(&mut self, claims: &mut Claims, lsn: Lsn)
        requires row { self.old.row < ROWS }
        requires held { IsHeld claims.old self.old.row self.old.pending.items }
        ensures entry { entry_view self.new ≡ compensated lsn (entry_view self.old) }
        ensures kept { KeepsRow self.old self.new claims.old claims.new }
    {
        pop_pending(&mut self.pending, claims, self.row);
        self.last = lsn;
    }

    /// The transaction begins to roll back, by an Abort of this LSN.
    pub fn abort(&mut self, lsn: Lsn)
        ensures entry { entry_view self.new ≡ record (entry_view self.old) {
          last = lsn;
          rolling = true;
        } }
        ensures same { (self.new.row ≡ self.old.row)
            × (self.new.pending.items ≡ self.old.pending.items) }
    {
        self.last = lsn;
        self.rolling = true;
    }

    /// It does not roll back, and this is the LSN of its last record.
    pub fn is_active(&self, prev: Lsn) -> bool
        ensures { IsTrue result ↔ IsActiveEntry prev (entry_view self.now) }
    {
        self.last == prev && !self.rolling
    }

    /// This is the LSN of its last record, and the change takes its last pending change back.
    pub fn may_compensate(
        &self,
        prev: Lsn,
        undo_next: Lsn,
        page: PageNo,
        slot: SlotNo,
        change: Change,
    ) -> bool
        ensures { IsTrue result ↔ (IsChained prev (entry_view self.now)
            × IsSomeAnd (last_of (entry_view self.now).pending)
            (Compensates undo_next page slot change)) }
    {
        self.last == prev
            && match self.last_pending() {
                Some(last) => compensates(undo_next, page, slot, change, &last),
                None => false,
            }
    }

    /// This is the LSN of its last record, and all its changes are taken back.
    pub fn may_end(&self, prev: Lsn) -> bool
        ensures { IsTrue result ↔ (IsChained prev (entry_view self.now)
            × ((entry_view self.now).pending ≡ [])) }
    {
        self.last == prev && self.pending.is_empty()
    }

    /// Its numbers.
    pub fn state(&self) -> TxnState
        ensures { result ≡ state_of (entry_view self.now) }
    {
        TxnState {
            txn: self.txn,
            first: self.first,
            last: self.last,
            rolling: self.rolling,
            pending: self.pending.len(),
        }
    }

    /// How many records it may still need: one for each pending change, its Abort, and its last.
    pub fn owed(&self) -> u64
        ensures { result ≡ min (owed_by_entry (entry_view self.now)) u64.MAX }
    {
        let last = if self.rolling { 1 } else { 2 };
        (self.pending.len() as u64).saturating_add(last)
    }

    /// Its last pending change, if it has one.
    pub fn last_pending(&self) -> Option<PendingChange>
        ensures { result ≡ last_of (entry_view self.now).pending }
    {
        self.pending.last().map(|pending| pending.change())
    }

    /// Its pending change at this place, the oldest at 0.
    pub fn pending_at(&self, place: usize) -> Option<PendingChange>
        ensures { result ≡ slice_get (entry_view self.now).pending place }
    {
        self.pending.get(place).map(|pending| pending.change())
    }

    /// How many of its pending changes have an LSN up to this one, where their LSNs rise.
    pub fn pending_up_to(&self, lsn: Lsn) -> usize
        ensures { IsCountUpTo (entry_view self.now).pending lsn result }
    {
        count_up_to(&self.pending, lsn)
    }

    /// The transaction keeps nothing out any more.
    pub fn release(&mut self, claims: &mut Claims)
        requires row { self.old.row < ROWS }
        requires held { IsHeld claims.old self.old.row self.old.pending.items }
        ensures changes { self.new.pending.items ≡ [] }
        ensures kept { KeepsRow self.old self.new claims.old claims.new }
    {
        drain_pending(&mut self.pending, claims, self.row);
    }
}

/// An open transaction with only its Begin.
pub fn begun_entry(alloc: Global, txn: TxnNo, row: u8, lsn: Lsn) -> OpenEntry
    ensures { IsBegun result txn row lsn }
{
    OpenEntry {
        txn,
        row,
        first: lsn,
        last: lsn,
        rolling: false,
        pending: Vec::new(alloc),
    }
}

/// The change, with this UndoNxt, takes the pending change back.
pub fn compensates(
    undo_next: Lsn,
    page: PageNo,
    slot: SlotNo,
    change: Change,
    last: &PendingChange,
) -> bool
    ensures { IsTrue result ↔ Compensates undo_next page slot change last.now }
{
    undo_next == last.prev
        && page == last.page
        && slot == last.slot
        && change == undo_of(&last.change)
}
