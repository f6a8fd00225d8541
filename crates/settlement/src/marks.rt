//! The records that receipts name.

ghost use Rattle.std.specs.Prelude.{ℕ, ◌≡◌, ◌<◌, ◌≤◌, ◌⊎◌, true, false, length, take, IfErr};
ghost use Rattle.std.specs.Prelude.{IfNone};
ghost use Rattle.std.specs.Prelude.{◌++◌, List};
ghost use Rattle.std.specs.Prelude.{IfSome, OnErr, OnOk, slice_index_or, slice_set};
ghost use Rattle.log_records.specs.Log.{lsn_of};
ghost use Rattle.settlement.specs.Receipt.{IsChangeOf, IsForced, IsLogged, IsRecordOf, IsStepOf};
ghost use Rattle.settlement.specs.Receipt.{IsUpdateOf};
ghost use Rattle.settlement.specs.Receipt.{is_read, position, written};
ghost use Rattle.settlement.specs.Marks.{AreLogged, AreMarked, IsUnlogged};
ghost use Rattle.settlement.specs.declared.receipt.Receipt.{Receipt};

use crate::receipt::{ChangeReceipt, Receipt, TxnStep};
use log_records::{MAX_RECORDS, Record};
use page_core::{Change, ChangeKind, LSN_STEP, Lsn, TxnNo};

/// Marks the records that the receipts of a session speak of. An `Err` has the position of a
/// receipt whose record the log has not there, or whose record is marked already.
pub fn mark_records(
    records: &[Record],
    forced_end: Lsn,
    receipts: &[Receipt],
    marks: &mut [bool],
) -> Result<(), Lsn>
    requires lengths { length marks.old ≡ length records.now }
    ensures logged { OnOk result (AreLogged records.now forced_end receipts.now) }
    ensures marked { OnOk result ((lsns : List ℕ) → AreMarked marks.old lsns
        → AreMarked marks.new (lsns ++ written receipts.now)) }
    ensures err { IfErr result (λ at. (i : ℕ) × (i < length receipts.now)
        × ((d : Receipt) → IsUnlogged records.now forced_end marks.old (take i receipts.now)
        (slice_index_or receipts.now i d) at)) }
    ensures same_length { length marks.new ≡ length marks.old }
{
    for receipt in receipts {
        if receipt.is_read() {
            continue;
        }
        if let Err(at) = mark(records, forced_end, receipt, marks) {
            return Err(at);
        }
    }
    Ok(())
}

/// Marks the record that a receipt speaks of. An `Err` has the receipt's position, where the log
/// has no such record there, or where that one is marked already.
fn mark(
    records: &[Record],
    forced_end: Lsn,
    receipt: &Receipt,
    marks: &mut [bool],
) -> Result<(), Lsn>
    requires written { is_read receipt.now ≡ false }
    requires lengths { length marks.old ≡ length records.now }
    ensures ok { OnOk result (IsLogged records.now forced_end receipt.now) }
    ensures marked { OnOk result ((i : ℕ) × (position receipt.now ≡ lsn_of i)
        × (i < length marks.old) × (slice_index_or marks.old i false ≡ false)
        × (marks.new ≡ slice_set marks.old i true)) }
    ensures at { IfErr result (λ at. at ≡ position receipt.now) }
    ensures err { OnErr result ((¬ IsLogged records.now forced_end receipt.now)
        ⊎ ((i : ℕ) × (position receipt.now ≡ lsn_of i)
        × (slice_index_or marks.old i false ≡ true))) }
    ensures same { OnErr result (marks.new ≡ marks.old) }
{
    let at = receipt.position();
    let Some(index) = index_of(at, records.len()) else {
        return Err(at);
    };
    if marks[index] || !is_record_of(receipt, &records[index]) || !is_forced(forced_end, receipt) {
        return Err(at);
    }
    marks[index] = true;
    Ok(())
}

/// The index of the record at an LSN, if there are so many.
pub(crate) fn index_of(at: Lsn, count: usize) -> Option<usize>
    ensures some { IfSome result (λ i. (at ≡ lsn_of i) × (i < count)) }
    ensures none { IfNone result ((i : ℕ) → at ≡ lsn_of i → count ≤ i) }
{
    if at.0 % LSN_STEP != 0 {
        return None;
    }
    let index = (at.0 / LSN_STEP).checked_sub(1)? as usize;
    (index < count).then_some(index)
}

/// Whether a record is the one that a receipt speaks of.
fn is_record_of(receipt: &Receipt, record: &Record) -> bool
    ensures yes { result ≡ true → IsRecordOf receipt.now «record».now }
    ensures no { result ≡ false → ¬ IsRecordOf receipt.now «record».now }
{
    match *receipt {
        Receipt::Changed(it) => is_update_of(&it, record),
        Receipt::Stepped(it) => is_step_of(it.txn, it.step, record),
        Receipt::Read(_) => false,
    }
}

/// Whether a record is the Update that a receipt speaks of.
fn is_update_of(receipt: &ChangeReceipt, record: &Record) -> bool
    ensures yes { result ≡ true → IsUpdateOf receipt.now.txn receipt.now.page receipt.now.slot
        (IsChangeOf receipt.now.kind receipt.now.number) «record».now }
    ensures no { result ≡ false → ¬ IsUpdateOf receipt.now.txn receipt.now.page receipt.now.slot
        (IsChangeOf receipt.now.kind receipt.now.number) «record».now }
{
    let ChangeReceipt {
        txn,
        page,
        slot,
        kind,
        number,
        ..
    } = *receipt;
    match *record {
        Record::Update {
            txn: t,
            page: p,
            slot: s,
            change,
            ..
        } => t == txn && p == page && s == slot && is_change_of(kind, number, &change),
        _ => false,
    }
}

/// Whether a change is of this kind, and sets or adds this number.
fn is_change_of(kind: ChangeKind, number: u64, change: &Change) -> bool
    ensures yes { result ≡ true → IsChangeOf kind number change.now }
    ensures no { result ≡ false → ¬ IsChangeOf kind number change.now }
{
    match (*change, kind) {
        (Change::Set { after, .. }, ChangeKind::Set) => after == number,
        (Change::Add { amount }, ChangeKind::Add) => amount == number,
        _ => false,
    }
}

/// Whether a record says that this transaction took this step.
fn is_step_of(txn: TxnNo, step: TxnStep, record: &Record) -> bool
    ensures yes { result ≡ true → IsStepOf txn step «record».now }
    ensures no { result ≡ false → ¬ IsStepOf txn step «record».now }
{
    match *record {
        Record::Begin { txn: t, .. } => t == txn && step == TxnStep::Begin,
        Record::Comp { txn: t, .. } => t == txn && step == TxnStep::Comp,
        Record::Commit { txn: t, .. } => {
            t == txn && (step == TxnStep::Commit || step == TxnStep::Unsure)
        }
        Record::Abort { txn: t, .. } => t == txn && step == TxnStep::Abort,
        Record::End { txn: t, .. } => t == txn && step == TxnStep::End,
        _ => false,
    }
}

/// Whether a receipt is of no commit that was answered, or of one that is forced.
fn is_forced(forced_end: Lsn, receipt: &Receipt) -> bool
    ensures yes { result ≡ true → IsForced forced_end receipt.now }
    ensures no { result ≡ false → ¬ IsForced forced_end receipt.now }
{
    match *receipt {
        Receipt::Stepped(it) => it.step != TxnStep::Commit || it.lsn < forced_end,
        _ => true,
    }
}
