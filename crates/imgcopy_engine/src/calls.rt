//! The calls of a session at its engine.

ghost use Rattle.std.specs.Prelude.{◌≡◌, ◌++◌, [], ◌∷◌, List, Result, IfErr, IfOk, OnErr};
ghost use Rattle.page_core.specs.declared.change.ChangeKind.TheVariants as kind;
ghost use Rattle.settlement.specs.declared.receipt.Receipt.{Receipt};
ghost use Rattle.settlement.specs.declared.receipt.Receipt.TheVariants.{Changed, Read, Stepped};
ghost use Rattle.settlement.specs.declared.receipt.TxnStep.TheVariants as step;
ghost use Rattle.settlement.specs.Receipt.{change_receipt, read_receipt, step_receipt};
ghost use Rattle.engine_rules.specs.Step.{reply_of, step_back_answer};
ghost use Rattle.engine_calls.specs.declared.event.Answer.{Answer};
ghost use Rattle.engine_calls.specs.declared.event.Answer.TheVariants as answer;
ghost use Rattle.engine_calls.specs.declared.event.Event.{Event};
ghost use Rattle.engine_calls.specs.declared.event.Event.TheVariants as event;
ghost use Rattle.engine_calls.specs.declared.refusal.Refusal.{Refusal};
ghost use Rattle.engine_run.specs.Replies.{EngineCall, ForcesCommit, IsTold, ReadsAt};
ghost use Rattle.engine_run.specs.Replies.{RepliesBy};
ghost use Rattle.engine_run.specs.Undoing.{IsUndoStep, step_back_receipts, undone_answer};
ghost use Rattle.engine_run.specs.Undoing.{unsure_receipts};

use aries_core::{Refusal, SteppedBack};
use page_core::{Lsn, PageNo, SlotNo, TxnNo};
use settlement::{ChangeReceipt, ReadReceipt, StepReceipt};

/// One user of a database: the calls of a session, which say where they go by themselves. Refusals
/// are those of `Session`.
pub trait Calls {
    /// The receipts of its calls, in order.
    ghost receipts: { Self → List Receipt };

    /// What is known of a call of its engine: the state before it, the event, the reply, and the
    /// state after it.
    ghost made: { EngineCall };

    /// What one call did: the user before it, the event, what it was told, and the user after it. A
    /// caller that is written for any user has no other way to show this than to make the call.
    ghost called: { Self → Event → Result Answer Refusal → Self → Type 0 };

    /// Begins a transaction, and answers its receipt, which names the transaction.
    fn begin(&mut self) -> Result<StepReceipt, Refusal>
        ensures called { called self.old event.Begin
            (reply_of (λ it. answer.Began it.txn it.lsn) result) self.new }
        ensures receipt { IfOk result (λ it.
            receipts self.new ≡ receipts self.old ++ Stepped it ∷ []) }
        ensures names { IfOk result (λ it. it ≡ step_receipt it.lsn it.txn step.Begin) }
        ensures refused { OnErr result (receipts self.new ≡ receipts self.old) };

    /// Puts a number into a slot, and answers the receipt of the change.
    fn set(
        &mut self,
        txn: TxnNo,
        page: PageNo,
        slot: SlotNo,
        number: u64,
    ) -> Result<ChangeReceipt, Refusal>
        ensures called { called self.old (event.Set txn page slot number)
            (reply_of (λ it. answer.Logged it.lsn) result) self.new }
        ensures receipt { IfOk result (λ it.
            receipts self.new ≡ receipts self.old ++ Changed it ∷ []) }
        ensures names { IfOk result (λ it.
            it ≡ change_receipt it.lsn txn page slot kind.Set number) }
        ensures refused { OnErr result (receipts self.new ≡ receipts self.old) };

    /// Adds to the number in a slot, modulo 2^64, and answers the receipt of the change.
    fn add(
        &mut self,
        txn: TxnNo,
        page: PageNo,
        slot: SlotNo,
        amount: u64,
    ) -> Result<ChangeReceipt, Refusal>
        ensures called { called self.old (event.Add txn page slot amount)
            (reply_of (λ it. answer.Logged it.lsn) result) self.new }
        ensures receipt { IfOk result (λ it.
            receipts self.new ≡ receipts self.old ++ Changed it ∷ []) }
        ensures names { IfOk result (λ it.
            it ≡ change_receipt it.lsn txn page slot kind.Add amount) }
        ensures refused { OnErr result (receipts self.new ≡ receipts self.old) };

    /// The number in a slot, with the changes of all transactions so far, and where the log ended
    /// then.
    fn read(&mut self, page: PageNo, slot: SlotNo) -> Result<ReadReceipt, Refusal>
        ensures called { called self.old (event.Read page slot)
            (reply_of (λ it. answer.Number it.number) result) self.new }
        ensures at_once { IfOk result (λ it. ReadsAt made page slot it.end it.number) }
        ensures receipt { IfOk result (λ it.
            receipts self.new ≡ receipts self.old ++ Read it ∷ []) }
        ensures names { IfOk result (λ it. it ≡ read_receipt it.end page slot it.number) }
        ensures refused { OnErr result (receipts self.new ≡ receipts self.old) };

    /// The number in a slot, as `read` tells it, without a receipt.
    fn peek(&self, page: PageNo, slot: SlotNo) -> Result<u64, Refusal>
        ensures { RepliesBy made (event.Read page slot) (reply_of answer.Number result) };

    /// Commits a transaction, and answers the receipt of its Commit, which is forced then. A commit
    /// that is unsure leaves a receipt too.
    fn commit(&mut self, txn: TxnNo) -> Result<StepReceipt, Refusal>
        ensures called { called self.old (event.Commit txn)
            (reply_of (λ it. answer.Logged it.lsn) result) self.new }
        ensures forced { IfOk result (λ it. ForcesCommit made txn it.lsn) }
        ensures receipt { IfOk result (λ it.
            receipts self.new ≡ receipts self.old ++ Stepped it ∷ []) }
        ensures names { IfOk result (λ it. it ≡ step_receipt it.lsn txn step.Commit) }
        ensures refused { IfErr result (λ why.
            receipts self.new ≡ receipts self.old ++ unsure_receipts txn why) };

    /// Begins to take the changes of a transaction back, and answers the receipt of its Abort.
    fn abort(&mut self, txn: TxnNo) -> Result<StepReceipt, Refusal>
        ensures called { called self.old (event.Abort txn)
            (reply_of (λ it. answer.Logged it.lsn) result) self.new }
        ensures receipt { IfOk result (λ it.
            receipts self.new ≡ receipts self.old ++ Stepped it ∷ []) }
        ensures names { IfOk result (λ it. it ≡ step_receipt it.lsn txn step.Abort) }
        ensures refused { OnErr result (receipts self.new ≡ receipts self.old) };

    /// Takes the last pending change of a transaction that rolls back out again, or ends it. The
    /// receipt is of its Comp, or of its End.
    fn undo_step(&mut self, txn: TxnNo) -> Result<StepReceipt, Refusal>
        ensures called { called self.old (event.UndoStep txn)
            (reply_of undone_answer result) self.new }
        ensures receipt { IfOk result (λ it.
            receipts self.new ≡ receipts self.old ++ Stepped it ∷ []) }
        ensures names { IfOk result (λ it. (it.txn ≡ txn) × IsUndoStep it.step) }
        ensures refused { OnErr result (receipts self.new ≡ receipts self.old) };

    /// Names the place to which a transaction may go back from here on. It leaves no receipt.
    fn savepoint(&self, txn: TxnNo) -> Result<Lsn, Refusal>
        ensures called { called self.now (event.Savepoint txn) (reply_of answer.Saved result)
            self.now }
        ensures replies { RepliesBy made (event.Savepoint txn) (reply_of answer.Saved result) };

    /// Takes one change back that was made behind a savepoint, or answers that none is left.
    fn undo_to(&mut self, txn: TxnNo, savepoint: Lsn) -> Result<SteppedBack, Refusal>
        ensures called { called self.old (event.UndoTo txn savepoint)
            (reply_of step_back_answer result) self.new }
        ensures receipt { IfOk result (λ done.
            receipts self.new ≡ receipts self.old ++ step_back_receipts txn done) }
        ensures refused { OnErr result (receipts self.new ≡ receipts self.old) };

    /// So each call is told what an engine that is fit replies, or that there was no room for its
    /// receipt.
    ghost told: { (old new : Self) (event : Event) (reply : Result Answer Refusal)
        → called old event reply new → IsTold made event reply };
}
