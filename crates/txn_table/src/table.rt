//! The table of open transactions.

ghost use Rattle.std.specs.Prelude.{ℕ, ◌≡◌, ◌+◌, ◌<◌, ◌≤◌, ◌++◌, ◌∷◌, [], List, length, IfOk, OnOk};
ghost use Rattle.std.specs.Prelude.{◌-◌, ◌↔◌, OnErr, IsSomeAnd, IsTrue, slice_get, true, false};
ghost use Rattle.std.specs.Prelude.{min};
ghost use Rattle.std.specs.Prelude.{if◌then◌else◌, Some, None};
ghost use Rattle.log_records.specs.declared.record.Record.{Record};
ghost use Rattle.txn_table.specs.CountUpTo.{IsCountUpTo};
ghost use Rattle.log_rules.specs.Linked.{MayFollow};
ghost use Rattle.log_rules.specs.Transactions.{begun, holder, is_open, is_rolling, last_of};
ghost use Rattle.log_rules.specs.Transactions.{open_in};
ghost use Rattle.log_rules.specs.Transactions.{owed, owed_by, pending};
ghost use Rattle.log_rules.specs.Table.{entry_of, table_of};
ghost use Rattle.txn_table.specs.TxnState.{state_of};
ghost use Rattle.log_rules.specs.declared.pending_change.PendingChange.{PendingChange};
ghost use Rattle.txn_table.specs.Returns.{return_of};
ghost use Rattle.txn_table.specs.OpenTransactions.{HasRoomFor, has_room_in};
ghost use Rattle.txn_table.specs.TxnTable.{IsTableOf, next_open};
ghost use Rattle.std.specs.Option.{option_map};

use crate::open_transactions::OpenTransactions;
use crate::returns::Return;
use crate::txn_state::TxnState;
use log_records::Record;
use log_rules::PendingChange;
use page_core::{ChangeKind, Lsn, PageNo, SlotNo, TxnNo};
use std::alloc::{AllocError, Global};
use std::marker::Model;

/// The open transactions of a log (ARIES, section 4.3): which they are, their last records and
/// their pending changes, and who holds which slot. The log is the list of records that were noted.
#[derive(Drop)]
pub struct TxnTable {
    open: OpenTransactions,
    /// How many records the open transactions may still need: kept, since each change asks for it.
    owed: u64,
}

impl Model for TxnTable {
    ghost use Rattle.txn_table.specs.OpenTransactions.{OpenView};

    ghost Value = { OpenView };

    ghost view = { λ table. table.open };

    ghost use Rattle.txn_table.specs.TxnTable.{IsOwed};

    ghost invariant = { λ table. IsOwed table.open.table table.owed };
}

impl From<OpenTransactions> for TxnTable {
    ghost from_gives = { λ txns table. table ≡ txns };

    /// The table of a log whose open transactions are known, as a reader of the log has made them.
    fn from(txns: OpenTransactions) -> TxnTable {
        let owed = txns.owed();
        TxnTable { open: txns, owed }
    }
}

impl TxnTable {
    /// The table of a log without records.
    pub fn new(alloc: Global) -> TxnTable
        ensures { result.table ≡ table_of [] }
    {
        TxnTable {
            open: OpenTransactions::new(alloc),
            owed: 0,
        }
    }

    /// The table of a log in which so many transactions began, and none is open.
    pub fn ended(alloc: Global, count: u32) -> TxnTable
        ensures { (rs : List Record) → open_in rs ≡ [] → count ≡ length (begun rs)
            → result.table ≡ table_of rs }
    {
        TxnTable {
            open: OpenTransactions::ended(alloc, count),
            owed: 0,
        }
    }

    /// The number of the next transaction.
    pub fn begin(&self) -> TxnNo
        requires { (rs : List Record) × IsTableOf rs self.now.table }
        ensures { (rs : List Record) → IsTableOf rs self.now.table
            → result ≡ length (begun rs) + 1 }
    {
        TxnNo(self.open.begun() + 1)
    }

    /// The transaction that holds a slot against a change of this kind: the least other open one
    /// that does. Where none does, the change may be made.
    pub fn may_change(
        &self,
        txn: TxnNo,
        page: PageNo,
        slot: SlotNo,
        kind: ChangeKind,
    ) -> Option<TxnNo>
        ensures { (rs : List Record) → IsTableOf rs self.now.table
            → result ≡ holder rs page slot kind txn }
    {
        self.open.holder(page, slot, kind, txn)
    }

    /// Notes the next record of the log. `Err` changes nothing; it comes only for a Begin and an
    /// Update, where room for it is refused.
    pub fn note(&mut self, next: &Record) -> Result<(), AllocError>
        requires { (rs : List Record) × (IsTableOf rs self.old.table × MayFollow rs next.now) }
        ensures ok { OnOk result ((rs : List Record) → IsTableOf rs self.old.table
            → MayFollow rs next.now → self.new.table ≡ table_of (rs ++ next.now ∷ [])) }
        ensures err { OnErr result (self.new.table ≡ self.old.table) }
        ensures needed { OnErr result (¬ HasRoomFor self.old next.now) }
    {
        let owed = self.owed_after(next);
        self.open.note(next)?;
        self.owed = owed;
        Ok(())
    }

    /// Makes room for a change of a slot by an open transaction: its Update is noted by
    /// `note_in_room`. An `Err` comes where memory for it is refused, or no page has the slot. The
    /// table stays.
    #[inline(always)]
    pub fn make_room(&mut self, txn: TxnNo, page: PageNo, slot: SlotNo) -> Result<(), AllocError>
        ensures room { OnOk result ((rs : List Record) → IsTableOf rs self.old.table
            → is_open rs txn ≡ true → has_room_in self.new txn page slot ≡ true) }
        ensures needed { OnErr result (has_room_in self.old txn page slot ≡ false) }
        ensures same { self.new.table ≡ self.old.table }
    {
        self.open.make_room(txn, page, slot)
    }

    /// Notes the next record of the log, for which there is room. It takes no memory.
    pub fn note_in_room(&mut self, next: &Record)
        requires follows { (rs : List Record) × (IsTableOf rs self.old.table
            × MayFollow rs next.now) }
        requires room { HasRoomFor self.old next.now }
        ensures { (rs : List Record) → IsTableOf rs self.old.table → MayFollow rs next.now
            → self.new.table ≡ table_of (rs ++ next.now ∷ []) }
    {
        if self.note(next).is_err() {
            unreachable!();
        }
    }

    /// How many transactions are open.
    pub fn open_txns(&self) -> usize
        ensures { (rs : List Record) → IsTableOf rs self.now.table → result ≡ length (open_in rs) }
    {
        self.open.open_count()
    }

    /// What the table has of a transaction, if it is open.
    pub fn entry(&self, txn: TxnNo) -> Option<TxnState>
        ensures { (rs : List Record) → IsTableOf rs self.now.table
            → result ≡ (if is_open rs txn then Some (state_of (entry_of rs txn)) else None) }
    {
        self.open.state(txn)
    }

    /// What the table has of the open transaction with the least number at or past the cursor; None
    /// where there is none.
    pub fn next_from(&self, cursor: TxnNo) -> Option<TxnState>
        ensures { (rs : List Record) → IsTableOf rs self.now.table
            → result ≡ option_map (λ t. state_of (entry_of rs t)) (next_open rs cursor) }
    {
        self.open.next_from(cursor)
    }

    /// The last pending change of a transaction, if it is open and has one.
    pub fn last_pending(&self, txn: TxnNo) -> Option<PendingChange>
        ensures { (rs : List Record) → IsTableOf rs self.now.table
            → result ≡ (if is_open rs txn then last_of (pending rs txn) else None) }
    {
        self.open.last_pending(txn)
    }

    /// How many pending changes of an open transaction have an LSN up to this one, where their LSNs
    /// rise. The time is logarithmic in their number.
    pub(crate) fn pending_up_to(&self, txn: TxnNo, lsn: Lsn) -> usize
        ensures { (rs : List Record) → IsTableOf rs self.now.table → is_open rs txn ≡ true
            → IsCountUpTo (pending rs txn) lsn result }
    {
        self.open.pending_up_to(txn, lsn)
    }

    /// Of the first so many pending changes of an open transaction the last one has this LSN.
    pub(crate) fn is_update(&self, txn: TxnNo, count: usize, lsn: Lsn) -> bool
        ensures { (rs : List Record) → IsTableOf rs self.now.table → is_open rs txn ≡ true
            → IsTrue result ↔ ((0 < count)
            × IsSomeAnd (slice_get (pending rs txn) (count - 1)) (λ p. p.lsn ≡ lsn)) }
    {
        if count == 0 {
            return false;
        }
        match self.open.pending_at(txn, count - 1) {
            Some(change) => change.lsn == lsn,
            None => false,
        }
    }

    /// What the next record of the log shows, if it is a Comp that goes back to a savepoint.
    pub fn return_of(&self, next: &Record) -> Option<Return>
        requires { (rs : List Record) × (IsTableOf rs self.now.table × MayFollow rs next.now) }
        ensures { (rs : List Record) → IsTableOf rs self.now.table → MayFollow rs next.now
            → result ≡ return_of rs next.now }
    {
        match *next {
            Record::Comp { lsn, txn, .. } => self.return_by(lsn, txn),
            _ => None,
        }
    }

    /// What a Comp of an open transaction shows that takes its last pending change back.
    fn return_by(&self, lsn: Lsn, txn: TxnNo) -> Option<Return>
        ensures { (rs : List Record) → IsTableOf rs self.now.table → is_open rs txn ≡ true
            → result ≡ (if is_rolling rs txn then None else Some (record {
              lsn = lsn;
              txn = txn;
              left = length (pending rs txn) - 1;
            })) }
    {
        match self.open.state(txn) {
            Some(state) => return_in(lsn, txn, &state),
            None => None,
        }
    }

    /// How many records the open transactions may still need.
    pub fn owed(&self) -> u64
        ensures { (rs : List Record) → IsTableOf rs self.now.table → result ≡ owed rs }
    {
        self.owed
    }

    /// How many records they may still need after the next record of the log.
    fn owed_after(&self, next: &Record) -> u64
        requires { (rs : List Record) × (IsTableOf rs self.now.table × MayFollow rs next.now) }
        ensures { (rs : List Record) → IsTableOf rs self.now.table → MayFollow rs next.now
            → result ≡ owed (rs ++ next.now ∷ []) }
    {
        match *next {
            Record::Begin { .. } => self.owed + 2,
            Record::Update { .. } => self.owed + 1,
            Record::Comp { .. } => self.owed - 1,
            Record::Abort { .. } => self.owed - 1,
            Record::Commit { txn, .. } => self.owed - self.owed_by(txn),
            Record::End { txn, .. } => self.owed - self.owed_by(txn),
            _ => self.owed,
        }
    }

    /// How many records an open transaction may still need: one for each pending change, its Abort,
    /// and its last.
    fn owed_by(&self, txn: TxnNo) -> u64
        ensures { (rs : List Record) → IsTableOf rs self.now.table → is_open rs txn ≡ true
            → owed_by rs txn ≤ u64.MAX → result ≡ owed_by rs txn }
    {
        match self.open.state(txn) {
            Some(state) => owed_in_state(&state),
            None => 0,
        }
    }
}

/// What a Comp of a transaction in this state shows.
fn return_in(lsn: Lsn, txn: TxnNo, state: &TxnState) -> Option<Return>
    ensures { result ≡ (if state.now.rolling then None else Some (record {
      lsn = lsn;
      txn = txn;
      left = state.now.pending - 1;
    })) }
{
    if state.rolling {
        return None;
    }
    Some(Return {
        lsn,
        txn,
        left: state.pending.saturating_sub(1),
    })
}

/// How many records a transaction in this state may still need, as far as the type can count them.
fn owed_in_state(state: &TxnState) -> u64
    ensures { result ≡ min (state.now.pending + (if state.now.rolling then 1 else 2)) u64.MAX }
{
    let last = if state.rolling { 1 } else { 2 };
    (state.pending as u64).saturating_add(last)
}
