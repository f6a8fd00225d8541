//! Steps back through the pending changes of a transaction: those of its rollback, and those to a
//! savepoint.

ghost use Rattle.std.specs.Prelude.{◌≡◌, IfErr, IfOk, None, OnOk, false, is_none};
ghost use Rattle.log_rules.specs.Savepoints.{savepoint};
ghost use Rattle.log_rules.specs.Transactions.{last_lsn};
ghost use Rattle.engine_rules.specs.Asked.{asked};
ghost use Rattle.engine_rules.specs.EngineState.{comp_record, taken_back};
ghost use Rattle.engine_rules.specs.Refusal.{active_refusal};
ghost use Rattle.engine_rules.specs.Step.{Step, reply_of, step_back_answer, undo_answer};
ghost use Rattle.engine_rules.specs.Uses.{AsksStore};
ghost use Rattle.engine_calls.specs.declared.event.Answer.TheVariants as answer;
ghost use Rattle.engine_calls.specs.declared.event.Event.TheVariants as event;

use crate::engine::Engine;
use engine_calls::{Refusal, SteppedBack, Undone};
use log_records::Record;
use log_rules::PendingChange;
use log_store::LogDevice;
use page_core::{Lsn, TxnNo, undo_of};
use page_store::PageStore;

impl<S: PageStore, D: LogDevice> Engine<S, D> {
    /// Undoes the last pending change of a transaction that is rolling back, or ends the
    /// transaction if none is left; answers the LSN of the Comp or End. The page of the change is
    /// read from the store first, where it is not in memory; to end a transaction no page is
    /// needed. Refusals in order: `NoTxn`, `NotRolling`, `PoolFull`, `OutOfMemory`, `StoreFault`.
    pub fn undo_step(&mut self, txn: TxnNo) -> Result<Undone, Refusal>
        ensures step { Step self.old.state (event.UndoStep txn) (reply_of undo_answer result)
            self.new.state }
        ensures device { self.new.device ≡ self.old.device }
        ensures store { AsksStore S.gave S.wrote S.grew S.failures
            (asked self.old.state (event.UndoStep txn)) self.old result self.new }
    {
        let prev = self.find_rolling(txn)?;
        let lsn = self.log.end();
        match self.txns.last_pending(txn) {
            Some(last) => {
                self.find_frame(last.page)?;
                self.append_fetching(last.page, self.comp(txn, prev, last))?;
                Ok(Undone::Undid(lsn))
            }
            None => {
                self.append(Record::End { lsn, txn, prev })?;
                Ok(Undone::Ended(lsn))
            }
        }
    }

    /// Names the place to which a transaction may go back from here on (`undo_to`), by the LSN of
    /// its last record. It takes no memory and changes nothing. Refusals in order: `NoTxn`,
    /// `TxnRolling`.
    pub fn savepoint(&self, txn: TxnNo) -> Result<Lsn, Refusal>
        ensures step { Step self.now.state (event.Savepoint txn) (reply_of answer.Saved result)
            self.now.state }
    {
        self.find_active(txn)
    }

    /// Goes back one step to a savepoint: undoes the last pending change of a transaction, and
    /// answers the LSN of its Comp, or answers that those are pending that were pending there. The
    /// transaction goes on. The page of the change is read from the store first, where it is not in
    /// memory; where the savepoint is reached, this takes no page and no memory. Refusals in order:
    /// `NoTxn`, `TxnRolling`, `NoSavepoint`, `PoolFull`, `OutOfMemory`, `StoreFault`.
    pub fn undo_to(&mut self, txn: TxnNo, savepoint: Lsn) -> Result<SteppedBack, Refusal>
        ensures step { Step self.old.state (event.UndoTo txn savepoint)
            (reply_of step_back_answer result) self.new.state }
        ensures device { self.new.device ≡ self.old.device }
        ensures store { AsksStore S.gave S.wrote S.grew S.failures
            (asked self.old.state (event.UndoTo txn savepoint)) self.old result self.new }
    {
        let prev = self.find_active(txn)?;
        match self.find_past(txn, savepoint)? {
            Some(last) => {
                self.find_frame(last.page)?;
                let lsn = self.log.end();
                self.append_fetching(last.page, self.comp(txn, prev, last))?;
                Ok(SteppedBack::Undid(lsn))
            }
            None => Ok(SteppedBack::Reached),
        }
    }

    /// The last pending change of an active transaction, where more are pending than were at a
    /// savepoint.
    fn find_past(&self, txn: TxnNo, at: Lsn) -> Result<Option<PendingChange>, Refusal>
        requires { active_refusal self.now.state txn ≡ None }
        ensures refused { IfErr result (λ why. (why ≡ Refusal.NoSavepoint)
            × (savepoint self.now.state.log txn at ≡ None)) }
        ensures known { OnOk result (is_none (savepoint self.now.state.log txn at) ≡ false) }
        ensures found { IfOk result (λ last. last ≡ taken_back self.now.state txn at) }
    {
        let Some(left) = self.returns.savepoint(&self.txns, txn, at) else {
            return Err(Refusal::NoSavepoint);
        };
        match self.txns.entry(txn) {
            Some(state) if left < state.pending => Ok(self.txns.last_pending(txn)),
            _ => Ok(None),
        }
    }

    /// The compensation of a pending change of a transaction, whose last record stands at `prev`.
    fn comp(&self, txn: TxnNo, prev: Lsn, undone: PendingChange) -> Record
        requires { prev ≡ last_lsn self.now.state.log txn }
        ensures { result ≡ comp_record self.now.state txn undone }
    {
        Record::Comp {
            lsn: self.log.end(),
            txn,
            prev,
            undo_next: undone.prev,
            page: undone.page,
            slot: undone.slot,
            change: undo_of(&undone.change),
        }
    }
}
