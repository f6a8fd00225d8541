//! What the records of an open transaction tell of it, from its last one back.

ghost use Rattle.std.specs.Prelude.{ℕ, ◌≡◌, ◌++◌, true, List, reverse, IfOk, OnOk};
ghost use Rattle.std.specs.List.{filter_map};
ghost use Rattle.std.specs.Option.{option_to_list};
ghost use Rattle.log_records.specs.declared.record.Record.{Record};
ghost use Rattle.log_records.specs.Log.{IsLog};
ghost use Rattle.log_rules.specs.Linked.{IsLinked};
ghost use Rattle.log_rules.specs.Table.{entry_of};
ghost use Rattle.log_rules.specs.Transactions.{first_lsn, is_abort, is_open, is_rolling};
ghost use Rattle.log_rules.specs.Transactions.{last_lsn, pending};
ghost use Rattle.txn_table.specs.OpenEntry.{changes_of, entry_view};
ghost use Rattle.loser_undo.specs.Losers.{Leads, LeadsToAbort, StandsAtLsn, before_comp};
ghost use Rattle.loser_undo.specs.Losers.{change_by, way_back};

use crate::tail::{OpenTxn, count_before};
use log_records::Record;
use log_rules::PendingChange;
use log_store::LogImage;
use page_core::Lsn;
use std::alloc::{AllocError, Global};
use txn_table::{OpenEntry, Pending};

/// What the log has of an open transaction, of which the last record is known.
pub(crate) fn trace(alloc: Global, log: &LogImage, one: OpenTxn) -> Result<OpenEntry, AllocError>
    requires valid { IsLog log.now }
    requires linked { IsLinked log.now.records }
    requires open { is_open log.now.records one.txn ≡ true }
    requires last { one.last ≡ last_lsn log.now.records one.txn }
    ensures { IfOk result (λ loser. entry_view loser ≡ entry_of log.now.records one.txn) }
{
    let rolling = is_rolling(log, &one);
    let (first, pending) = pending_of(alloc, log, &one)?;
    Ok(OpenEntry::new(one.txn, first, one.last, rolling, pending))
}

/// The record that stands at an LSN.
fn record_at(log: &LogImage, at: Lsn) -> &Record
    requires { (r : Record) × StandsAtLsn log.now.records at r }
    ensures is { (r : Record) → StandsAtLsn log.now.records at r → result.now ≡ r }
    ensures valid { IsLog log.now }
{
    &log.records()[count_before(at)]
}

/// Where the search for the pending changes goes on behind a record: at the UndoNxt of a Comp, and
/// at the PrevLSN of an Update or an Abort.
fn way_back(met: &Record) -> Option<Lsn>
    ensures { result ≡ way_back met.now }
{
    match *met {
        Record::Update { prev, .. } | Record::Abort { prev, .. } => Some(prev),
        Record::Comp { undo_next, .. } => Some(undo_next),
        _ => None,
    }
}

/// Keeps the change that an Update made.
fn keep_change(found: &mut Vec<Pending>, met: &Record) -> Result<(), AllocError>
    ensures { OnOk result (changes_of found.new.items
        ≡ changes_of found.old.items ++ option_to_list (change_by met.now)) }
{
    match *met {
        Record::Update {
            lsn,
            prev,
            page,
            slot,
            change,
            ..
        } => {
            found.push(Pending::new(PendingChange {
                lsn,
                prev,
                page,
                slot,
                change,
            }))?;
        }
        _ => {}
    }
    Ok(())
}

/// The LSN of the transaction's Begin, and its pending changes, the oldest first: they are found
/// from the last one back.
fn pending_of(
    alloc: Global,
    log: &LogImage,
    one: &OpenTxn,
) -> Result<(Lsn, Vec<Pending>), AllocError>
    requires leads { (way : List Record)
        × (Leads log.now.records one.now.txn (first_lsn log.now.records one.now.txn)
        one.now.last way
        × (filter_map change_by way ≡ reverse (pending log.now.records one.now.txn))) }
    ensures first { IfOk result (λ it. it.0 ≡ first_lsn log.now.records one.now.txn) }
    ensures pending { IfOk result (λ it.
        changes_of it.1.items ≡ pending log.now.records one.now.txn) }
{
    let mut found = Vec::new(alloc);
    let mut at = one.last;
    'back: while let Some(next) = way_back(record_at(log, at)) {
        keep_change(&mut found, record_at(log, at))?;
        at = next;
    }
    found.reverse();
    Ok((at, found))
}

/// The transaction has an Abort. Only Comps may stand behind it.
fn is_rolling(log: &LogImage, one: &OpenTxn) -> bool
    requires { (comps : List ℕ) × LeadsToAbort log.now.records
        (is_rolling log.now.records one.now.txn) one.now.last comps }
    ensures { result ≡ is_rolling log.now.records one.now.txn }
{
    let mut at = one.last;
    'comps: while let Some(prev) = before_comp(record_at(log, at)) {
        at = prev;
    }
    is_abort(record_at(log, at))
}

/// The PrevLSN of a Comp.
fn before_comp(met: &Record) -> Option<Lsn>
    ensures { result ≡ before_comp met.now }
{
    match *met {
        Record::Comp { prev, .. } => Some(prev),
        _ => None,
    }
}

fn is_abort(met: &Record) -> bool
    ensures { result ≡ is_abort met.now }
{
    matches!(*met, Record::Abort { .. })
}
