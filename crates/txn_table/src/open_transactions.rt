//! The table of open transactions.

ghost use Rattle.std.specs.Prelude.{ℕ, ◌≡◌, ◌↔◌, min, IfOk, IsTrue, IsSomeAnd, OnOk, OnErr};
ghost use Rattle.std.specs.Prelude.{MatchOption, IfSome, IsSome, None, [], false, length, true};
ghost use Rattle.std.specs.Prelude.{slice_get};
ghost use Rattle.std.specs.Option.{option_and_then, option_map};
ghost use Rattle.txn_table.specs.CountUpTo.{IsCountUpTo};
ghost use Rattle.log_rules.specs.Linked.{Compensates};
ghost use Rattle.log_rules.specs.CheckpointTable.{HasOldEntries};
ghost use Rattle.log_rules.specs.Table.{IsEntryNow};
ghost use Rattle.log_rules.specs.Table.{IsActiveEntry, IsChained, MayNote, entry_in, holder_in};
ghost use Rattle.log_rules.specs.Table.{noted, owed_in};
ghost use Rattle.txn_table.specs.OpenTransactions.{HasRoomFor, NotesIfMay, has_room_in};
ghost use Rattle.log_rules.specs.Transactions.{last_of};
ghost use Rattle.log_records.specs.declared.record.Record.TheVariants.{Begin, Update, Comp, Commit};
ghost use Rattle.log_records.specs.declared.record.Record.TheVariants.{Abort, End};

use crate::losers::Losers;
use crate::open_entry::compensates;
use crate::open_list::OpenList;
use crate::txn_state::TxnState;
use log_records::{MAX_OPEN, Record, TxnPhase};
use log_rules::PendingChange;
use page_core::{Change, ChangeKind, Lsn, PageNo, SlotNo, TxnNo};
use slot_claims::Claims;
use std::alloc::{AllocError, Global};
use std::marker::Model;

/// The open transactions: what each of them has done, what it may still undo, and which slots it
/// holds against the others (ARIES, sections 3 and 4). It takes the records of a log one by one.
#[derive(Drop)]
pub struct OpenTransactions {
    begun: u32,
    list: OpenList,
    claims: Claims,
}

impl Model for OpenTransactions {
    ghost use Rattle.txn_table.specs.OpenTransactions.{OpenView};

    ghost Value = { OpenView };

    ghost use Rattle.std.specs.Prelude.{map};
    ghost use Rattle.txn_table.specs.OpenEntry.{entry_view};
    ghost use Rattle.txn_table.specs.OpenList.{entries_in};
    ghost use Rattle.txn_table.specs.OpenTransactions.{IsStored};

    ghost view = { λ t. record {
      table = record { begun = t.begun; entries = map entry_view (entries_in t.list) };
      claims = t.claims;
      entries = entries_in t.list;
    } };

    ghost invariant = { λ t. IsStored t.begun t.claims t.list };
}

impl OpenTransactions {
    ghost use Rattle.txn_table.specs.TxnState.{next_in, state_of};

    /// Before the first record: no transaction began.
    pub fn new(alloc: Global) -> OpenTransactions
        ensures { result.table ≡ record { begun = 0; entries = [] } }
    {
        OpenTransactions::ended(alloc, 0)
    }

    /// Where so many transactions began, and none is open.
    pub fn ended(alloc: Global, begun: u32) -> OpenTransactions
        ensures { result.table ≡ record { begun = begun; entries = [] } }
    {
        OpenTransactions {
            begun,
            list: OpenList::new(alloc),
            claims: Claims::new(alloc),
        }
    }

    /// The open ones at the end of the log, where no more records come but those of undo.
    pub fn into_losers(self) -> Losers
        ensures { result ≡ self.table.entries }
    {
        let OpenTransactions { list, .. } = self;
        Losers::of(list)
    }

    /// How many transactions began. The next one has the number after this.
    pub fn begun(&self) -> u32
        ensures { result ≡ self.now.table.begun }
    {
        self.begun
    }

    /// How many transactions are open.
    pub fn open_count(&self) -> usize
        ensures { result ≡ length self.now.table.entries }
    {
        self.list.len()
    }

    /// The least other open transaction that holds a slot against a change of this kind by `txn`;
    /// None where nobody does. It looks at one claim, and at no pending change.
    pub fn holder(&self, page: PageNo, slot: SlotNo, kind: ChangeKind, txn: TxnNo) -> Option<TxnNo>
        ensures { result ≡ holder_in self.now.table page slot kind txn }
    {
        let rows = self.claims.claim(page, slot).against(kind);
        self.list.first_other(rows, txn)
    }

    /// Prefetches what a change of a slot will look at first. What it answers says nothing, but a
    /// compiler must keep the look for it.
    pub fn look(&self, page: PageNo, slot: SlotNo) -> u8 {
        self.claims.look(page, slot)
    }

    /// The numbers of an open transaction; None where it is not open.
    pub fn state(&self, txn: TxnNo) -> Option<TxnState>
        ensures { result ≡ option_map state_of (entry_in self.now.table txn) }
    {
        match self.list.row_of(txn) {
            Some(row) => Some(self.list.rows[row as usize].state()),
            None => None,
        }
    }

    /// The last pending change of an open transaction; None where it has none or is not open.
    pub fn last_pending(&self, txn: TxnNo) -> Option<PendingChange>
        ensures { MatchOption (entry_in self.now.table txn) (result ≡ None)
            (λ e. result ≡ last_of e.pending) }
    {
        match self.list.row_of(txn) {
            Some(row) => self.list.rows[row as usize].last_pending(),
            None => None,
        }
    }

    /// The pending change of an open transaction at this place, the oldest at 0; None where there
    /// is none.
    pub fn pending_at(&self, txn: TxnNo, place: usize) -> Option<PendingChange>
        ensures { MatchOption (entry_in self.now.table txn) (result ≡ None)
            (λ e. result ≡ slice_get e.pending place) }
    {
        match self.list.row_of(txn) {
            Some(row) => self.list.rows[row as usize].pending_at(place),
            None => None,
        }
    }

    /// How many pending changes of an open transaction have an LSN up to this one, where their LSNs
    /// rise. The time is logarithmic in their number.
    pub fn pending_up_to(&self, txn: TxnNo, lsn: Lsn) -> usize
        ensures { IfSome (entry_in self.now.table txn) (λ e. IsCountUpTo e.pending lsn result) }
    {
        match self.list.row_of(txn) {
            Some(row) => self.list.rows[row as usize].pending_up_to(lsn),
            None => 0,
        }
    }

    /// The open transaction with the least number at or above `from`; None where there is none.
    pub fn next_from(&self, from: TxnNo) -> Option<TxnState>
        ensures { result ≡ option_map state_of
            (option_and_then (entry_in self.now.table) (next_in self.now.table from)) }
    {
        match self.list.first_from(from) {
            Some(row) => Some(self.list.rows[row as usize].state()),
            None => None,
        }
    }

    /// How many records the open transactions may still need: one for each pending change, an Abort
    /// of each that has none, and the last of each. A number that is too large for the type is cut
    /// to the largest one.
    pub fn owed(&self) -> u64
        ensures { result ≡ min (owed_in self.now.table) u64.MAX }
    {
        self.list.owed()
    }

    /// The record may come next, as far as the transactions say (ARIES, section 3). Whether a Set
    /// names the number that is in its slot, and what the open checkpoint has, they do not say.
    #[inline(always)]
    pub fn may_note(&self, next: &Record) -> bool
        ensures { IsTrue result ↔ MayNote self.now.table next.now }
    {
        match *next {
            Record::Begin { txn, .. } => {
                txn.0 as u64 == self.begun as u64 + 1 && self.list.len() < MAX_OPEN
            }
            Record::Update {
                txn,
                prev,
                page,
                slot,
                change,
                ..
            } => {
                self.is_active(txn, prev) && self.holder(page, slot, change.kind(), txn).is_none()
            }
            Record::Comp {
                txn,
                prev,
                undo_next,
                page,
                slot,
                change,
                ..
            } => self.may_compensate(txn, prev, undo_next, page, slot, change),
            Record::Commit { txn, prev, .. } | Record::Abort { txn, prev, .. } => {
                self.is_active(txn, prev)
            }
            Record::End { txn, prev, .. } => match self.state(txn) {
                Some(state) => state.last == prev && state.pending == 0,
                None => false,
            },
            Record::ChkptTxns {
                txn,
                state,
                last,
                undo_next,
                ..
            } => self.is_now(txn, state, last, undo_next),
            _ => true,
        }
    }

    /// The transaction is open and does not roll back, and `prev` is its last record.
    fn is_active(&self, txn: TxnNo, prev: Lsn) -> bool
        ensures { IsTrue result ↔ IsSomeAnd (entry_in self.now.table txn) (IsActiveEntry prev) }
    {
        match self.state(txn) {
            Some(state) => state.last == prev && !state.rolling,
            None => false,
        }
    }

    /// The transaction is open, and these are its state, the LSN of its last record, and its
    /// UndoNxt.
    #[inline(always)]
    fn is_now(&self, txn: TxnNo, phase: TxnPhase, last: Lsn, undo_next: Lsn) -> bool
        ensures { IsTrue result ↔ IsSomeAnd (entry_in self.now.table txn)
            (IsEntryNow phase last undo_next) }
    {
        match self.state(txn) {
            Some(state) => state.phase() == phase
                && state.last == last
                && match self.last_pending(txn) {
                    Some(change) => change.lsn == undo_next,
                    None => state.first == undo_next,
                },
            None => false,
        }
    }

    /// Each open transaction that began before an LSN is among these.
    pub fn began_before_are_among(&self, lsn: Lsn, txns: &[u32]) -> bool
        ensures { IsTrue result ↔ HasOldEntries self.now.table lsn txns.now }
    {
        self.list.are_among(lsn, txns)
    }

    /// The change takes the transaction's last pending change back.
    fn may_compensate(
        &self,
        txn: TxnNo,
        prev: Lsn,
        undo_next: Lsn,
        page: PageNo,
        slot: SlotNo,
        change: Change,
    ) -> bool
        ensures { IsTrue result ↔ IsSomeAnd (entry_in self.now.table txn) (λ e. IsChained prev e
            × IsSomeAnd (last_of e.pending) (Compensates undo_next page slot change)) }
    {
        match self.state(txn) {
            Some(state) => state.last == prev
                && match self.last_pending(txn) {
                    Some(last) => compensates(undo_next, page, slot, change, &last),
                    None => false,
                },
            None => false,
        }
    }

    /// Takes the record as the next one. Only a Begin and an Update need memory: where there is
    /// none, nothing changes. A Commit or an End takes time in proportion to the changes that the
    /// transaction still had pending.
    pub fn note(&mut self, next: &Record) -> Result<(), AllocError>
        requires { MayNote self.old.table next.now }
        ensures ok { OnOk result (self.new.table ≡ noted self.old.table next.now) }
        ensures err { OnErr result (self.new.table ≡ self.old.table) }
        ensures needed { OnErr result (¬ HasRoomFor self.old next.now) }
    {
        let _ = self.note_if_may(next)?;
        Ok(())
    }

    /// Takes the record as the next one if it may come next, as `may_note` says, and answers
    /// whether it may. Memory and time are as for `note`.
    #[inline(always)]
    pub fn note_if_may(&mut self, next: &Record) -> Result<bool, AllocError>
        ensures ok { IfOk result (NotesIfMay self.old.table self.new.table next.now) }
        ensures err { OnErr result (self.new.table ≡ self.old.table) }
        ensures needed { OnErr result (¬ HasRoomFor self.old next.now) }
    {
        match *next {
            Record::Begin { lsn, txn } => self.begin(lsn, txn),
            Record::Update {
                lsn,
                txn,
                prev,
                page,
                slot,
                change,
            } => self.update(
                txn,
                PendingChange {
                    lsn,
                    prev,
                    page,
                    slot,
                    change,
                },
            ),
            Record::Comp {
                lsn,
                txn,
                prev,
                undo_next,
                page,
                slot,
                change,
            } => Ok(self.compensate(lsn, txn, prev, undo_next, page, slot, change)),
            Record::Commit { txn, prev, .. } => Ok(self.commit(txn, prev)),
            Record::Abort { lsn, txn, prev } => Ok(self.abort(lsn, txn, prev)),
            Record::End { txn, prev, .. } => Ok(self.end(txn, prev)),
            Record::ChkptTxns {
                txn,
                state,
                last,
                undo_next,
                ..
            } => Ok(self.is_now(txn, state, last, undo_next)),
            _ => Ok(true),
        }
    }

    /// Makes room for a change of a slot by an open transaction: to note it needs no memory then.
    /// An `Err` comes where memory for it is refused, or no page has the slot. The transactions
    /// stay.
    #[inline(always)]
    pub fn make_room(&mut self, txn: TxnNo, page: PageNo, slot: SlotNo) -> Result<(), AllocError>
        ensures room { OnOk result (IsSome (entry_in self.old.table txn)
            → has_room_in self.new txn page slot ≡ true) }
        ensures needed { OnErr result (has_room_in self.old txn page slot ≡ false) }
        ensures same { self.new.table ≡ self.old.table }
    {
        let Some(row) = self.list.row_of(txn) else {
            return Ok(());
        };
        let entry = &mut self.list.rows[row as usize];
        entry.make_room(&mut self.claims, page, slot)
    }

    /// A transaction begins.
    #[inline(always)]
    fn begin(&mut self, lsn: Lsn, txn: TxnNo) -> Result<bool, AllocError>
        ensures ok { IfOk result (NotesIfMay self.old.table self.new.table (Begin lsn txn)) }
        ensures err { OnErr result (self.new.table ≡ self.old.table) }
    {
        if txn.0 as u64 != self.begun as u64 + 1 || self.list.len() >= MAX_OPEN {
            return Ok(false);
        }
        self.list.add(txn, lsn)?;
        self.begun = txn.0;
        Ok(true)
    }

    /// A transaction makes a change.
    #[inline(always)]
    fn update(&mut self, txn: TxnNo, change: PendingChange) -> Result<bool, AllocError>
        ensures ok { IfOk result (NotesIfMay self.old.table self.new.table
            (Update change.lsn txn change.prev change.page change.slot change.change)) }
        ensures err { OnErr result (self.new.table ≡ self.old.table) }
        ensures needed { OnErr result (has_room_in self.old txn change.page change.slot ≡ false) }
    {
        let Some(row) = self.list.row_of(txn) else {
            return Ok(false);
        };
        let entry = &mut self.list.rows[row as usize];
        if !entry.is_active(change.prev) {
            return Ok(false);
        }
        entry.make_room(&mut self.claims, change.page, change.slot)?;
        Ok(entry.update(&mut self.claims, change))
    }

    /// A transaction takes its last pending change back.
    #[inline(always)]
    fn compensate(
        &mut self,
        lsn: Lsn,
        txn: TxnNo,
        prev: Lsn,
        undo_next: Lsn,
        page: PageNo,
        slot: SlotNo,
        change: Change,
    ) -> bool
        ensures { NotesIfMay self.old.table self.new.table
            (Comp lsn txn prev undo_next page slot change) result }
    {
        let Some(row) = self.list.row_of(txn) else {
            return false;
        };
        let entry = &mut self.list.rows[row as usize];
        if !entry.may_compensate(prev, undo_next, page, slot, change) {
            return false;
        }
        entry.compensate(&mut self.claims, lsn);
        true
    }

    /// A transaction begins to roll back.
    fn abort(&mut self, lsn: Lsn, txn: TxnNo, prev: Lsn) -> bool
        ensures { NotesIfMay self.old.table self.new.table (Abort lsn txn prev) result }
    {
        let Some(row) = self.list.row_of(txn) else {
            return false;
        };
        let entry = &mut self.list.rows[row as usize];
        if !entry.is_active(prev) {
            return false;
        }
        entry.abort(lsn);
        true
    }

    /// A transaction ends, and its changes are to last.
    #[inline(always)]
    fn commit(&mut self, txn: TxnNo, prev: Lsn) -> bool
        ensures { (lsn : ℕ) → NotesIfMay self.old.table self.new.table (Commit lsn txn prev)
            result }
    {
        let Some(row) = self.list.row_of(txn) else {
            return false;
        };
        let entry = &mut self.list.rows[row as usize];
        if !entry.is_active(prev) {
            return false;
        }
        entry.release(&mut self.claims);
        self.list.remove(row);
        true
    }

    /// A transaction ends whose changes are all taken back.
    fn end(&mut self, txn: TxnNo, prev: Lsn) -> bool
        ensures { (lsn : ℕ) → NotesIfMay self.old.table self.new.table (End lsn txn prev) result }
    {
        let Some(row) = self.list.row_of(txn) else {
            return false;
        };
        if !self.list.rows[row as usize].may_end(prev) {
            return false;
        }
        self.list.remove(row);
        true
    }
}
