//! The open transactions of a log, by its last records alone.

ghost use Rattle.std.specs.Prelude.{ℕ, ◌≡◌, ◌<◌, ◌≤◌, drop, length, IfOk, OnOk, slice_get, Some};
ghost use Rattle.std.specs.Prelude.{slice_index_or};
ghost use Rattle.log_records.specs.declared.record.Record.TheVariants.{BeginChkpt};
ghost use Rattle.log_rules.specs.Checkpoint.{IsCompleteCheckpoint};
ghost use Rattle.log_rules.specs.Linked.{IsLinked};
ghost use Rattle.log_records.specs.Log.{IsLog, Log, lsn_of};
ghost use Rattle.loser_undo.specs.Tail.{IsTailOf, open_txns, told, with_txn, without_txn};

use log_records::Record;
use log_store::{LogImage, Master};
use page_core::{Lsn, TxnNo};
use std::alloc::{AllocError, Global};

/// An open transaction, and the LSN of its last record.
#[derive(Clone, Copy, Debug, PartialEq, Eq)]
pub struct OpenTxn {
    pub txn: TxnNo,
    pub last: Lsn,
}

/// Finds who is open at the end of a log, and the LSN of each one's last record, sorted by the
/// transaction's number. It reads nothing that stands before the BeginChkpt of a complete
/// checkpoint (the analysis of ARIES, section 6.1). A transaction that began before them is known
/// by its entry in the checkpoint, which says what held where the entry stands. So a transaction
/// that ends before its entry would come has none. An `Err` comes where memory for the answer is
/// refused.
pub fn open_by_tail(alloc: Global, tail: &[Record]) -> Result<Vec<OpenTxn>, AllocError>
    ensures { IfOk result (λ found. (log : Log) → IsTailOf log tail.now
        → found.items ≡ open_txns log.records) }
{
    let mut known = Vec::new(alloc);
    for next in tail {
        note(&mut known, next)?;
    }
    Ok(known)
}

/// Finds who is open at the end of a whole log. It starts at the BeginChkpt of the complete
/// checkpoint that the master record names, and reads no record before it.
pub fn open_at_end(
    alloc: Global,
    log: &LogImage,
    master: &Master,
) -> Result<Vec<OpenTxn>, AllocError>
    requires linked { IsLinked log.now.records }
    requires complete { IsCompleteCheckpoint log.now.records master.now.begin master.now.end }
    ensures open { IfOk result (λ found. found.items ≡ open_txns log.now.records) }
    ensures valid { IsLog log.now }
{
    let records = log.records();
    let first = count_before(master.begin);
    open_by_tail(alloc, behind(records, first))
}

/// The records behind the first ones.
fn behind(records: &[Record], first: usize) -> &[Record]
    requires { first ≤ length records.now }
    ensures { result.now ≡ drop first records.now }
{
    &records[first..]
}

/// How many records stand before the one at an LSN.
pub(crate) fn count_before(lsn: Lsn) -> usize
    ensures { (n : ℕ) → lsn ≡ lsn_of n → result ≡ n }
{
    lsn.records_below()
}

/// Notes what a record says of the open transactions.
fn note(known: &mut Vec<OpenTxn>, next: &Record) -> Result<(), AllocError>
    ensures { OnOk result (known.new.items ≡ told known.old.items next.now) }
{
    match *next {
        Record::Begin { lsn, txn }
        | Record::Update { lsn, txn, .. }
        | Record::Comp { lsn, txn, .. }
        | Record::Abort { lsn, txn, .. } => put(known, OpenTxn { txn, last: lsn }),
        Record::ChkptTxns { txn, last, .. } => put(known, OpenTxn { txn, last }),
        Record::Commit { txn, .. } | Record::End { txn, .. } => {
            take_out(known, txn);
            Ok(())
        }
        _ => Ok(()),
    }
}

/// Puts a transaction into its place, or in place of what is known of it.
fn put(known: &mut Vec<OpenTxn>, one: OpenTxn) -> Result<(), AllocError>
    ensures { OnOk result (known.new.items ≡ with_txn one known.old.items) }
{
    let place = place_of(known, one.txn);
    if place < known.len() && known[place].txn == one.txn {
        known[place] = one;
        return Ok(());
    }
    known.insert(place, one)?;
    Ok(())
}

/// The place of a transaction: how many have a number below it.
fn place_of(known: &[OpenTxn], txn: TxnNo) -> usize
    ensures within { result ≤ length known.now }
    ensures below { (k : ℕ) (d : OpenTxn) → k < result → (slice_index_or known.now k d).txn < txn }
    ensures from { (d : OpenTxn) → result < length known.now
        → txn ≤ (slice_index_or known.now result d).txn }
{
    for (place, there) in known.iter().enumerate() {
        if there.txn.0 >= txn.0 {
            return place;
        }
    }
    known.len()
}

/// Takes a transaction out, if it is there.
fn take_out(known: &mut Vec<OpenTxn>, txn: TxnNo)
    ensures { known.new.items ≡ without_txn txn known.old.items }
{
    known.retain(|one| one.txn.0 != txn.0);
}

/// What stands in a linked log from where a complete checkpoint begins is such a tail.
pub fn complete_checkpoints_begin_tails()
    ensures place { (log : Log) (begin end : ℕ) → IsLog log
        → IsCompleteCheckpoint log.records begin end
        → (n : ℕ) × (begin ≡ lsn_of n) × (slice_get log.records n ≡ Some (BeginChkpt begin)) }
    ensures tail { (log : Log) (begin end n : ℕ) → IsLog log → IsLinked log.records
        → IsCompleteCheckpoint log.records begin end → begin ≡ lsn_of n
        → IsTailOf log (drop n log.records) }
{}
