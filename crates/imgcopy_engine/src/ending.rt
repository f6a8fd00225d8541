//! The ends of a transaction.

ghost use Rattle.std.specs.Prelude.{◌≡◌, Err, IfErr, IfOk, OnOk};
ghost use Rattle.engine_calls.specs.declared.event.Event.TheVariants as event;
ghost use Rattle.imgcopy_engine.specs.Ending.{Aborts, Commits, EndsAs, EndsRefused, EndsStopped};
ghost use Rattle.imgcopy_engine.specs.Ending.{Goes, LeavesNone, RollsBack, StaysBehind, StaysOpen};
ghost use Rattle.imgcopy_engine.specs.Ending.{StepsBack};

use crate::calls::Calls;
use crate::stop::{Committed, NotDone, Stop};
use aries_core::{Refusal, SteppedBack};
use log_records::MAX_RECORDS;
use page_core::{Lsn, TxnNo};
use settlement::TxnStep;

/// Takes all changes of a transaction back and ends it, and answers the LSN of its End. It may be
/// called again where it was refused, once something was done about that: it then goes on.
/// Refusals are those of `Session::abort`, but for `TxnRolling`, and of `Session::undo_step`.
pub fn roll_back<C: Calls>(client: &mut C, txn: TxnNo) -> Result<Lsn, Refusal>
    ensures ended { IfOk result (λ lsn.
        RollsBack C.receipts C.called txn lsn client.old client.new) }
    ensures refused { IfErr result (λ why.
        StaysOpen C.receipts C.called txn why client.old client.new) }
    ensures kept { Goes (C.receipts client.old) (C.receipts client.new) }
{
    begin_rolling(client, txn)?;
    for _ in 0..MAX_RECORDS {
        let undone = client.undo_step(txn)?;
        if let TxnStep::End = undone.step {
            return Ok(undone.lsn);
        }
    }
    // No transaction has made more changes than a log has records.
    Err(Refusal::TxnRolling)
}

/// Has a transaction roll back, if it does not yet.
fn begin_rolling<C: Calls>(client: &mut C, txn: TxnNo) -> Result<(), Refusal>
    ensures rolling { OnOk result (Aborts C.receipts C.called txn client.old client.new) }
    ensures refused { IfErr result (λ why.
        LeavesNone C.receipts C.called client.old (event.Abort txn) (Err why) client.new) }
{
    match client.abort(txn) {
        Ok(_) | Err(Refusal::TxnRolling) => Ok(()),
        Err(why) => Err(why),
    }
}

/// Takes the changes of a transaction back that it made behind a savepoint. It goes on.
/// Refusals are those of `Session::undo_to`.
pub fn step_back<C: Calls>(client: &mut C, txn: TxnNo, savepoint: Lsn) -> Result<(), Refusal>
    ensures reached { OnOk result
        (StepsBack C.receipts C.called txn savepoint client.old client.new) }
    ensures refused { IfErr result (λ why.
        StaysBehind C.receipts C.called txn savepoint why client.old client.new) }
    ensures kept { Goes (C.receipts client.old) (C.receipts client.new) }
{
    for _ in 0..MAX_RECORDS {
        if let SteppedBack::Reached = client.undo_to(txn, savepoint)? {
            return Ok(());
        }
    }
    // No transaction has made more changes than a log has records.
    Err(Refusal::NoSavepoint)
}

/// Ends a transaction as its work has ended: commits it at `Ok`, and else takes all its changes
/// back.
pub fn finish<C: Calls, T: Drop, E: Drop>(
    client: &mut C,
    txn: TxnNo,
    outcome: Result<T, Stop<E>>,
) -> Result<Committed<T>, NotDone<E>>
    ensures ends { EndsAs C.receipts C.called txn client.old outcome result client.new }
    ensures kept { Goes (C.receipts client.old) (C.receipts client.new) }
{
    match outcome {
        Ok(value) => {
            let lsn = commit(client, txn)?;
            Ok(Committed { value, lsn })
        }
        Err(stop) => Err(stopped(client, txn, stop)),
    }
}

/// Commits a transaction, or takes all its changes back where that is refused.
fn commit<C: Calls, E: Drop>(client: &mut C, txn: TxnNo) -> Result<Lsn, NotDone<E>>
    ensures committed { IfOk result (λ lsn.
        Commits C.receipts C.called txn lsn client.old client.new) }
    ensures refused { IfErr result (λ told.
        EndsRefused C.receipts C.called txn client.old told client.new) }
    ensures kept { Goes (C.receipts client.old) (C.receipts client.new) }
{
    let why = match client.commit(txn) {
        Ok(it) => return Ok(it.lsn),
        Err(why) => why,
    };
    match why {
        Refusal::CommitUnsure(lsn) => Err(NotDone::Unsure(lsn)),
        _ => Err(stopped(client, txn, Stop::Refused(why))),
    }
}

/// Takes all changes of a transaction back that was stopped so.
fn stopped<C: Calls, E: Drop>(client: &mut C, txn: TxnNo, stop: Stop<E>) -> NotDone<E>
    ensures ends { EndsStopped C.receipts C.called txn client.old stop result client.new }
    ensures kept { Goes (C.receipts client.old) (C.receipts client.new) }
{
    match roll_back(client, txn) {
        Ok(_) => NotDone::Stopped(stop),
        Err(why) => NotDone::Left(txn, why),
    }
}
