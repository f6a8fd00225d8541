//! A transaction whose work is a closure.

ghost use Rattle.std.specs.Prelude.{ℕ, ◌≡◌, true, false, IfErr, IfOk};
ghost use Rattle.std.specs.Fn.{CalledWithState};
ghost use Rattle.imgcopy_engine.specs.Trying.{Attempts, IsBusy, IsSlotBusy, ReturnsWithState};
ghost use Rattle.imgcopy_engine.specs.Trying.{Transacts, Tries};

use crate::calls::Calls;
use crate::ending::{finish, step_back};
use crate::stop::{Committed, NotDone, Stop};
use aries_core::Refusal;
use page_core::TxnNo;
use std::thread;

/// Begins a transaction, does its work, and ends it as the work ends: at `Ok` it is committed, and
/// else all its changes are taken back. Where the work met a slot that is busy, it is tried again,
/// at most so many times, each time in a transaction of its own; the one before has ended then, with
/// all its changes taken back. If the slot is busy even then, it answers `Stopped` with that
/// refusal, as it does with any other one.
pub fn transact<C: Calls, T: Drop, E: Drop, F: FnMut(&mut C, TxnNo) -> Result<T, Stop<E>>>(
    client: &mut C,
    tries: u32,
    mut work: F,
) -> Result<Committed<T>, NotDone<E>>
    requires { F.IsAlwaysCallable work }
    ensures { Transacts C.receipts C.called (CalledWithState F.FnMut) tries client.old work result
        client.new }
{
    for _ in 0..tries {
        let ended = try_once(client, &mut work);
        if !is_busy(&ended) {
            return ended;
        }
        thread::yield_now();
    }
    try_once(client, &mut work)
}

/// Whether a transaction met a slot that is busy, and has ended.
fn is_busy<T, E>(ended: &Result<Committed<T>, NotDone<E>>) -> bool
    ensures yes { result ≡ true → IsBusy ended.now }
    ensures no { result ≡ false → ¬ IsBusy ended.now }
{
    match ended {
        Err(NotDone::Stopped(Stop::Refused(why))) => is_slot_busy(why),
        Err(NotDone::Stopped(Stop::Own(_))) => false,
        Err(NotDone::NotBegun(_) | NotDone::Left(_, _) | NotDone::Unsure(_)) => false,
        Ok(_) => false,
    }
}

/// Whether a slot is busy.
fn is_slot_busy(why: &Refusal) -> bool
    ensures yes { result ≡ true → IsSlotBusy why.now }
    ensures no { result ≡ false → ¬ IsSlotBusy why.now }
{
    matches!(why, Refusal::SlotBusy(_))
}

/// Begins a transaction, does its work, and ends it as the work ends.
fn try_once<C: Calls, T: Drop, E: Drop, F: FnMut(&mut C, TxnNo) -> Result<T, Stop<E>>>(
    client: &mut C,
    work: &mut F,
) -> Result<Committed<T>, NotDone<E>>
    requires { F.IsAlwaysCallable work.old }
    ensures again { F.IsAlwaysCallable work.new }
    ensures tries { Tries C.receipts C.called (CalledWithState F.FnMut) client.old work.old result
        work.new client.new }
{
    let txn = match client.begin() {
        Ok(begun) => begun.txn,
        Err(why) => return Err(NotDone::NotBegun(why)),
    };
    let outcome = work(client, txn);
    finish(client, txn, outcome)
}

/// Does a part of a transaction. Where it is stopped, its changes are taken back to where it began,
/// and the transaction goes on. `NotBegun` tells that it has no place to go back to, and was not
/// done; `Left`, that going back was refused.
pub fn attempt<C: Calls, T: Drop, E: Drop, F: FnOnce(&mut C, TxnNo) -> Result<T, Stop<E>>>(
    client: &mut C,
    txn: TxnNo,
    part: F,
) -> Result<T, NotDone<E>>
    requires { F.IsAlwaysCallable part }
    ensures { Attempts C.receipts C.called (ReturnsWithState F.FnOnce part) txn client.old result
        client.new }
{
    let savepoint = match client.savepoint(txn) {
        Ok(savepoint) => savepoint,
        Err(why) => return Err(NotDone::NotBegun(why)),
    };
    match part(client, txn) {
        Ok(value) => Ok(value),
        Err(stop) => match step_back(client, txn, savepoint) {
            Ok(()) => Err(NotDone::Stopped(stop)),
            Err(why) => Err(NotDone::Left(txn, why)),
        },
    }
}
