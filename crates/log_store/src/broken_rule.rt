//! Why a record may not follow those before it.

ghost use Rattle.std.specs.Prelude.{ℕ, ◌≡◌, Some, IfErr, IfOk, IsSomeAnd, MatchOption};
ghost use Rattle.std.specs.Option.{option_map};
ghost use Rattle.log_records.specs.declared.record.Record.TheVariants.{Begin, End};
ghost use Rattle.log_rules.specs.Table.{IsActiveEntry, MayNote, entry_in};
ghost use Rattle.log_rules.specs.Transactions.{txn_of};
ghost use Rattle.log_store.specs.BrokenRule.{IsBrokenIn, NeedsActive, prev_of};
ghost use Rattle.txn_table.specs.TxnState.{state_of};

use log_records::{MAX_OPEN, Record};
use page_core::{Lsn, PageNo, SlotNo, TxnNo};
use txn_table::{OpenTransactions, TxnState};

/// A rule of logs that a record breaks, so that it may not follow those before it (ARIES,
/// section 3).
#[derive(Clone, Copy, Debug, PartialEq, Eq)]
pub enum BrokenRule {
    /// A transaction begins, and the next one to begin has another number.
    OutOfTurn {
        txn: TxnNo,
        next: u64,
    },
    /// A transaction begins, and as many are open as may be.
    TooManyOpen,
    /// Its transaction is not open.
    NotOpen {
        txn: TxnNo,
    },
    /// Its PrevLSN is not the LSN of the last record of its transaction.
    NotChained {
        txn: TxnNo,
        prev: Lsn,
        last: Lsn,
    },
    /// Its transaction is rolling back, and only takes changes back, and ends.
    RollingBack {
        txn: TxnNo,
    },
    /// Another transaction holds the slot that it changes.
    Held {
        page: PageNo,
        slot: SlotNo,
        holder: TxnNo,
    },
    /// It replaces a number that is not in the slot.
    NotReplaced {
        page: PageNo,
        slot: SlotNo,
    },
    /// It is not the compensation of the last pending change of its transaction.
    NotUndo {
        txn: TxnNo,
    },
    /// It ends a transaction that has pending changes.
    Pending {
        txn: TxnNo,
    },
    /// It does not go with the open checkpoint, or with there being none.
    Checkpoint,
    /// It gives a checkpoint a transaction that is not open, or not as it is.
    NotAsRecorded {
        txn: TxnNo,
    },
    /// It gives the volume so many pages, and there are as many already.
    NotLarger {
        given: u32,
        present: usize,
    },
}

/// The rule of transactions that a record breaks; None where they let it come next.
pub fn rule_of_txns(txns: &OpenTransactions, next: &Record) -> Option<BrokenRule>
    ensures { MatchOption result (MayNote txns.now.table next.now)
        (IsBrokenIn txns.now.table next.now) }
{
    match *next {
        Record::Begin { txn, .. } => rule_of_begin(txns, next, txn),
        Record::Update {
            txn,
            prev,
            page,
            slot,
            change,
            ..
        } => match rule_of_active(txns, next, txn, prev) {
            Some(rule) => Some(rule),
            None => match txns.holder(page, slot, change.kind(), txn) {
                Some(holder) => Some(BrokenRule::Held { page, slot, holder }),
                None => None,
            },
        },
        Record::Comp { txn, prev, .. } => match chained(txns, next, txn, prev) {
            Ok(_) if txns.may_note(next) => None,
            Ok(_) => Some(BrokenRule::NotUndo { txn }),
            Err(rule) => Some(rule),
        },
        Record::Commit { txn, prev, .. } | Record::Abort { txn, prev, .. } => {
            rule_of_active(txns, next, txn, prev)
        }
        Record::End { txn, prev, .. } => rule_of_end(txns, next, txn, prev),
        Record::ChkptTxns { txn, .. } if !txns.may_note(next) => {
            Some(BrokenRule::NotAsRecorded { txn })
        }
        _ => None,
    }
}

/// The rule that a Begin of this transaction breaks; None where it may come next.
fn rule_of_begin(txns: &OpenTransactions, next: &Record, txn: TxnNo) -> Option<BrokenRule>
    requires { (lsn : ℕ) × (next.now ≡ Begin lsn txn) }
    ensures { MatchOption result (MayNote txns.now.table next.now)
        (IsBrokenIn txns.now.table next.now) }
{
    if txns.may_note(next) {
        return None;
    }
    if txns.open_count() >= MAX_OPEN {
        return Some(BrokenRule::TooManyOpen);
    }
    let next = txns.begun() as u64 + 1;
    Some(BrokenRule::OutOfTurn { txn, next })
}

/// The open transaction with which a record goes on behind its last record, or the rule that the
/// record breaks.
fn chained(
    txns: &OpenTransactions,
    next: &Record,
    txn: TxnNo,
    prev: Lsn,
) -> Result<TxnState, BrokenRule>
    requires own { txn_of next.now ≡ txn }
    requires prev { prev_of next.now ≡ Some prev }
    ensures ok { IfOk result (λ state. (option_map state_of (entry_in txns.now.table txn)
        ≡ Some state) × (prev ≡ state.last)) }
    ensures err { IfErr result (IsBrokenIn txns.now.table next.now) }
{
    let Some(state) = txns.state(txn) else {
        return Err(BrokenRule::NotOpen { txn });
    };
    let last = state.last;
    if last == prev {
        Ok(state)
    } else {
        Err(BrokenRule::NotChained { txn, prev, last })
    }
}

/// The rule that a record breaks which goes on with an active transaction; None where it goes on.
fn rule_of_active(
    txns: &OpenTransactions,
    next: &Record,
    txn: TxnNo,
    prev: Lsn,
) -> Option<BrokenRule>
    requires own { txn_of next.now ≡ txn }
    requires prev { prev_of next.now ≡ Some prev }
    requires kind { NeedsActive next.now }
    ensures { MatchOption result (IsSomeAnd (entry_in txns.now.table txn) (IsActiveEntry prev))
        (IsBrokenIn txns.now.table next.now) }
{
    match chained(txns, next, txn, prev) {
        Ok(state) if state.rolling => Some(BrokenRule::RollingBack { txn }),
        Ok(_) => None,
        Err(rule) => Some(rule),
    }
}

/// The rule that an End breaks; None where it may come next.
fn rule_of_end(txns: &OpenTransactions, next: &Record, txn: TxnNo, prev: Lsn) -> Option<BrokenRule>
    requires { (lsn : ℕ) × (next.now ≡ End lsn txn prev) }
    ensures { MatchOption result (MayNote txns.now.table next.now)
        (IsBrokenIn txns.now.table next.now) }
{
    match chained(txns, next, txn, prev) {
        Ok(state) if state.pending == 0 => None,
        Ok(_) => Some(BrokenRule::Pending { txn }),
        Err(rule) => Some(rule),
    }
}
