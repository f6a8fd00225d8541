//! A session: one user of a shared engine, with the receipts of its calls.

ghost use Rattle.std.specs.Prelude.{◌≡◌, ◌+◌, ◌<◌, ◌≤◌, ◌++◌, [], ◌∷◌, IfErr, IfOk, OnErr, OnOk};
ghost use Rattle.std.specs.Prelude.{ℕ, vec_capacity, vec_len};
ghost use Rattle.std.specs.Option.{option_map_or};
ghost use Rattle.page_core.specs.declared.change.ChangeKind.TheVariants as kind;
ghost use Rattle.settlement.specs.declared.receipt.Receipt.TheVariants.{Changed, Read, Stepped};
ghost use Rattle.settlement.specs.declared.receipt.TxnStep.TheVariants as step;
ghost use Rattle.settlement.specs.Counts.{written_in};
ghost use Rattle.settlement.specs.Receipt.{change_receipt, read_receipt, step_receipt};
ghost use Rattle.engine_rules.specs.Step.{reply_of, step_back_answer};
ghost use Rattle.engine_calls.specs.declared.event.Answer.TheVariants as answer;
ghost use Rattle.engine_calls.specs.declared.event.Event.TheVariants as event;
ghost use Rattle.engine_run.specs.Replies.{ForcesCommit, IsTold, MadeOn, ReadsAt, RepliesBy};
ghost use Rattle.engine_run.specs.Undoing.{IsUndoStep, step_back_receipts, undone_answer};
ghost use Rattle.engine_run.specs.Undoing.{unsure_receipts};

use crate::folder::Folder;
use crate::life::Life;
use crate::shared::Shared;
use aries_core::{Refusal, SteppedBack, Undone};
use log_store::LogDevice;
use page_core::{ChangeKind, Lsn, PageNo, SlotNo, TxnNo};
use page_store::PageStore;
use settlement::{ChangeReceipt, ReadReceipt, Receipt, StepReceipt, TxnStep};
use std::alloc::Global;
use std::marker::Model;
use std::sync::Wait;
use std::sync::ledger::Share;

/// One user of a shared engine. It keeps a receipt of each call that was answered, in order, and a
/// share of the ledger, whose amount is the number of records that its calls have appended.
#[derive(Drop)]
pub struct Session<G: Life> {
    share: Share<G>,
    receipts: Vec<Receipt>,
    written: usize,
}

impl<G: Life> Model for Session<G> {
    ghost use Rattle.std.specs.Prelude.{◌≡◌, List};
    ghost use Rattle.settlement.specs.Counts.{written_in};
    ghost use Rattle.settlement.specs.declared.receipt.Receipt.{Receipt};

    ghost Value = { List Receipt };

    ghost view = { λ it. it.receipts.items };

    ghost invariant = { λ it. (it.share.parts ≡ 1) × (G.parts ≡ 65)
        × (it.share.amount ≡ written_in it.receipts.items)
        × (it.written ≡ written_in it.receipts.items) };
}

impl<G: Life> Session<G> {
    /// A session that made no call yet, of a share that counts none.
    pub(crate) fn new(alloc: Global, share: Share<G>) -> Session<G>
        requires sessions { G.parts ≡ 65 }
        requires part { share.parts ≡ 1 }
        requires none { share.amount ≡ 0 }
        ensures { result ≡ [] }
    {
        Session {
            share,
            receipts: Vec::new(alloc),
            written: 0,
        }
    }

    /// The receipts of its calls, in order.
    pub fn receipts(&self) -> &[Receipt]
        ensures { result.now ≡ self.now }
    {
        &self.receipts
    }

    /// Ends the session, and hands its receipts out. Its share goes, so this is for sessions whose
    /// run has ended.
    pub fn into_receipts(self) -> Vec<Receipt>
        ensures { result.items ≡ self }
    {
        self.receipts
    }

    /// How many of them are of records, that is, no reads: the amount of its share.
    pub fn written(&self) -> usize
        ensures { result ≡ written_in self.now }
    {
        self.written
    }

    /// Begins a transaction, and answers its receipt, which names the transaction. Refusals are those
    /// of `Engine::begin`; `OutOfMemory` comes first, where there is no room for the receipt.
    pub fn begin<S: PageStore, D: LogDevice>(
        &mut self,
        rt: &impl Wait,
        shared: &Shared<S, D, G>,
    ) -> Result<StepReceipt, Refusal>
        ensures receipt { IfOk result (λ it. self.new ≡ self.old ++ Stepped it ∷ []) }
        ensures names { IfOk result (λ it. it ≡ step_receipt it.lsn it.txn step.Begin) }
        ensures refused { OnErr result (self.new ≡ self.old) }
        ensures told { IsTold (MadeOn S.PageStore D.LogDevice) event.Begin
            (reply_of (λ it. answer.Began it.txn it.lsn) result) }
    {
        make_room(&mut self.receipts)?;
        let (txn, lsn) = shared.held.lock(rt).begin(&mut self.share)?;
        self.written += 1;
        Ok(keep_step(&mut self.receipts, lsn, txn, TxnStep::Begin))
    }

    /// Puts a number into a slot, and answers the receipt of the change. Refusals are those of
    /// `Engine::set`; `OutOfMemory` comes first, where there is no room for the receipt.
    pub fn set<S: PageStore, D: LogDevice>(
        &mut self,
        rt: &impl Wait,
        shared: &Shared<S, D, G>,
        txn: TxnNo,
        page: PageNo,
        slot: SlotNo,
        number: u64,
    ) -> Result<ChangeReceipt, Refusal>
        ensures receipt { IfOk result (λ it. self.new ≡ self.old ++ Changed it ∷ []) }
        ensures names { IfOk result (λ it.
            it ≡ change_receipt it.lsn txn page slot kind.Set number) }
        ensures refused { OnErr result (self.new ≡ self.old) }
        ensures told { IsTold (MadeOn S.PageStore D.LogDevice) (event.Set txn page slot number)
            (reply_of (λ it. answer.Logged it.lsn) result) }
    {
        make_room(&mut self.receipts)?;
        let lsn = shared
            .held
            .lock(rt)
            .set(txn, page, slot, number, &mut self.share)?;
        self.written += 1;
        Ok(keep_change(
            &mut self.receipts,
            &ChangeReceipt {
                lsn,
                txn,
                page,
                slot,
                kind: ChangeKind::Set,
                number,
            },
        ))
    }

    /// Adds to the number in a slot, modulo 2^64, and answers the receipt of the change. Refusals
    /// are those of `Engine::add`; `OutOfMemory` comes first, where there is no room for the
    /// receipt.
    pub fn add<S: PageStore, D: LogDevice>(
        &mut self,
        rt: &impl Wait,
        shared: &Shared<S, D, G>,
        txn: TxnNo,
        page: PageNo,
        slot: SlotNo,
        amount: u64,
    ) -> Result<ChangeReceipt, Refusal>
        ensures receipt { IfOk result (λ it. self.new ≡ self.old ++ Changed it ∷ []) }
        ensures names { IfOk result (λ it.
            it ≡ change_receipt it.lsn txn page slot kind.Add amount) }
        ensures refused { OnErr result (self.new ≡ self.old) }
        ensures told { IsTold (MadeOn S.PageStore D.LogDevice) (event.Add txn page slot amount)
            (reply_of (λ it. answer.Logged it.lsn) result) }
    {
        make_room(&mut self.receipts)?;
        let lsn = shared
            .held
            .lock(rt)
            .add(txn, page, slot, amount, &mut self.share)?;
        self.written += 1;
        Ok(keep_change(
            &mut self.receipts,
            &ChangeReceipt {
                lsn,
                txn,
                page,
                slot,
                kind: ChangeKind::Add,
                number: amount,
            },
        ))
    }

    /// The number in a slot, with the changes of all transactions so far, and where the log ended
    /// then, by one hold. Refusals are those of `Engine::read`; `OutOfMemory` comes first, where
    /// there is no room for the receipt.
    pub fn read<S: PageStore, D: LogDevice>(
        &mut self,
        rt: &impl Wait,
        shared: &Shared<S, D, G>,
        page: PageNo,
        slot: SlotNo,
    ) -> Result<ReadReceipt, Refusal>
        ensures receipt { IfOk result (λ it. self.new ≡ self.old ++ Read it ∷ []) }
        ensures names { IfOk result (λ it. it ≡ read_receipt it.end page slot it.number) }
        ensures refused { OnErr result (self.new ≡ self.old) }
        ensures told { IsTold (MadeOn S.PageStore D.LogDevice) (event.Read page slot)
            (reply_of (λ it. answer.Number it.number) result) }
        ensures at_once { IfOk result (λ it.
            ReadsAt (MadeOn S.PageStore D.LogDevice) page slot it.end it.number) }
    {
        make_room(&mut self.receipts)?;
        let (end, number) = shared.held.lock(rt).read(page, slot)?;
        Ok(keep_read(&mut self.receipts, end, page, slot, number))
    }

    /// The number in a slot, as `read` tells it, without a receipt: the session stays as it is and
    /// takes no memory, and `settle` does not compare what was read. All that is known of the answer
    /// is that an engine which is fit answers so. Refusals are those of `Engine::read`, whose
    /// `OutOfMemory` is for a page that it brings in.
    pub fn peek<S: PageStore, D: LogDevice>(
        &self,
        rt: &impl Wait,
        shared: &Shared<S, D, G>,
        page: PageNo,
        slot: SlotNo,
    ) -> Result<u64, Refusal>
        ensures { RepliesBy (MadeOn S.PageStore D.LogDevice) (event.Read page slot)
            (reply_of answer.Number result) }
    {
        let (_, number) = shared.held.lock(rt).read(page, slot)?;
        Ok(number)
    }

    /// Commits a transaction, and answers the receipt of its Commit, which is forced then. Refusals
    /// are those of `Engine::commit`; `OutOfMemory` comes first, where there is no room for the
    /// receipt. A commit that is answered `CommitUnsure` has a Commit in the log, so it leaves a
    /// receipt too, of a step `Unsure`.
    pub fn commit<S: PageStore, D: LogDevice>(
        &mut self,
        rt: &impl Wait,
        shared: &Shared<S, D, G>,
        txn: TxnNo,
    ) -> Result<StepReceipt, Refusal>
        ensures receipt { IfOk result (λ it. self.new ≡ self.old ++ Stepped it ∷ []) }
        ensures names { IfOk result (λ it. it ≡ step_receipt it.lsn txn step.Commit) }
        ensures refused { IfErr result (λ why. self.new ≡ self.old ++ unsure_receipts txn why) }
        ensures told { IsTold (MadeOn S.PageStore D.LogDevice) (event.Commit txn)
            (reply_of (λ it. answer.Logged it.lsn) result) }
        ensures forced { IfOk result (λ it.
            ForcesCommit (MadeOn S.PageStore D.LogDevice) txn it.lsn) }
    {
        make_room(&mut self.receipts)?;
        let result = shared.held.lock(rt).commit(txn, &mut self.share);
        let why = match result {
            Ok(lsn) => {
                self.written += 1;
                return Ok(keep_step(&mut self.receipts, lsn, txn, TxnStep::Commit));
            }
            Err(why) => why,
        };
        match why {
            Refusal::CommitUnsure(lsn) => {
                self.written += 1;
                keep_step(&mut self.receipts, lsn, txn, TxnStep::Unsure);
                Err(why)
            }
            _ => Err(why),
        }
    }

    /// Begins to take the changes of a transaction back, and answers the receipt of its Abort.
    /// Refusals are those of `Engine::abort`; `OutOfMemory` comes first, where there is no room for
    /// the receipt.
    pub fn abort<S: PageStore, D: LogDevice>(
        &mut self,
        rt: &impl Wait,
        shared: &Shared<S, D, G>,
        txn: TxnNo,
    ) -> Result<StepReceipt, Refusal>
        ensures receipt { IfOk result (λ it. self.new ≡ self.old ++ Stepped it ∷ []) }
        ensures names { IfOk result (λ it. it ≡ step_receipt it.lsn txn step.Abort) }
        ensures refused { OnErr result (self.new ≡ self.old) }
        ensures told { IsTold (MadeOn S.PageStore D.LogDevice) (event.Abort txn)
            (reply_of (λ it. answer.Logged it.lsn) result) }
    {
        make_room(&mut self.receipts)?;
        let lsn = shared.held.lock(rt).abort(txn, &mut self.share)?;
        self.written += 1;
        Ok(keep_step(&mut self.receipts, lsn, txn, TxnStep::Abort))
    }

    /// Takes the last pending change of a transaction that rolls back out again, or ends it where
    /// none is left. The receipt is of its Comp, or of its End. Refusals are those of
    /// `Engine::undo_step`; `OutOfMemory` comes first, where there is no room for the receipt.
    pub fn undo_step<S: PageStore, D: LogDevice>(
        &mut self,
        rt: &impl Wait,
        shared: &Shared<S, D, G>,
        txn: TxnNo,
    ) -> Result<StepReceipt, Refusal>
        ensures receipt { IfOk result (λ it. self.new ≡ self.old ++ Stepped it ∷ []) }
        ensures names { IfOk result (λ it. (it.txn ≡ txn) × IsUndoStep it.step) }
        ensures refused { OnErr result (self.new ≡ self.old) }
        ensures told { IsTold (MadeOn S.PageStore D.LogDevice) (event.UndoStep txn)
            (reply_of undone_answer result) }
    {
        make_room(&mut self.receipts)?;
        let done = shared.held.lock(rt).undo_step(txn, &mut self.share)?;
        self.written += 1;
        Ok(match done {
            Undone::Undid(lsn) => keep_step(&mut self.receipts, lsn, txn, TxnStep::Comp),
            Undone::Ended(lsn) => keep_step(&mut self.receipts, lsn, txn, TxnStep::End),
        })
    }

    /// Names the place to which a transaction may go back from here on, by the LSN of its last
    /// record. It changes nothing, takes no memory and leaves no receipt. Refusals are those of
    /// `Engine::savepoint`.
    pub fn savepoint<S: PageStore, D: LogDevice>(
        &self,
        rt: &impl Wait,
        shared: &Shared<S, D, G>,
        txn: TxnNo,
    ) -> Result<Lsn, Refusal>
        ensures { RepliesBy (MadeOn S.PageStore D.LogDevice) (event.Savepoint txn)
            (reply_of answer.Saved result) }
    {
        shared.held.lock(rt).savepoint(txn)
    }

    /// Takes one change of a transaction back that was made behind a savepoint, or answers that
    /// none is left; the transaction goes on. Refusals are those of `Engine::undo_to`;
    /// `OutOfMemory` comes first, where there is no room for the receipt. Where the savepoint is
    /// reached, it leaves none.
    pub fn undo_to<S: PageStore, D: LogDevice>(
        &mut self,
        rt: &impl Wait,
        shared: &Shared<S, D, G>,
        txn: TxnNo,
        savepoint: Lsn,
    ) -> Result<SteppedBack, Refusal>
        ensures receipt { IfOk result (λ done.
            self.new ≡ self.old ++ step_back_receipts txn done) }
        ensures refused { OnErr result (self.new ≡ self.old) }
        ensures told { IsTold (MadeOn S.PageStore D.LogDevice) (event.UndoTo txn savepoint)
            (reply_of step_back_answer result) }
    {
        make_room(&mut self.receipts)?;
        let done = shared
            .held
            .lock(rt)
            .undo_to(txn, savepoint, &mut self.share)?;
        if let SteppedBack::Undid(lsn) = done {
            self.written += 1;
            keep_step(&mut self.receipts, lsn, txn, TxnStep::Comp);
        }
        Ok(done)
    }

    /// Takes it apart, to wait: its share goes to those of all that wait.
    pub(crate) fn put_away(self, shares: Option<Share<G>>) -> (Folder, Share<G>)
        ensures receipts { result.0 ≡ self }
        ensures parts { result.1.parts ≡ option_map_or (λ it. it.parts) shares 0 + 1 }
        ensures amount { result.1.amount
            ≡ option_map_or (λ it. it.amount) shares 0 + written_in self }
        ensures sessions { G.parts ≡ 65 }
        ensures few { result.1.parts ≤ 65 }
    {
        let Session {
            mut share,
            receipts,
            written,
        } = self;
        let mut all = match shares {
            Some(all) => all,
            None => share.empty(),
        };
        all.merge(share);
        (Folder::new(receipts, written), all)
    }

    /// Puts it together again, with its share out of those of all that wait.
    pub(crate) fn taken_out(folder: Folder, shares: &mut Share<G>) -> Session<G>
        requires sessions { G.parts ≡ 65 }
        requires part { 0 < shares.old.parts }
        requires amount { written_in folder ≤ shares.old.amount }
        requires last { shares.old.parts ≡ 1 → shares.old.amount ≡ written_in folder }
        ensures receipts { result ≡ folder }
        ensures parts { shares.new.parts + 1 ≡ shares.old.parts }
        ensures amount { shares.new.amount + written_in folder ≡ shares.old.amount }
    {
        let written = folder.written();
        let share = shares.split_off(1, written as u64);
        Session {
            share,
            receipts: folder.into_receipts(),
            written,
        }
    }
}

/// Makes room for one receipt more.
fn make_room(receipts: &mut Vec<Receipt>) -> Result<(), Refusal>
    ensures room { OnOk result (vec_len receipts.new < vec_capacity receipts.new) }
    ensures same { receipts.new.items ≡ receipts.old.items }
    ensures err { IfErr result (λ why. why ≡ Refusal.OutOfMemory) }
{
    if receipts.reserve(1).is_err() {
        return Err(Refusal::OutOfMemory);
    }
    Ok(())
}

/// Keeps the receipt of a step of a transaction, and answers it.
fn keep_step(receipts: &mut Vec<Receipt>, lsn: Lsn, txn: TxnNo, step: TxnStep) -> StepReceipt
    requires room { vec_len receipts.old < vec_capacity receipts.old }
    ensures kept { receipts.new.items ≡ receipts.old.items ++ Stepped result ∷ [] }
    ensures names { result ≡ step_receipt lsn txn step }
{
    receipts.push_reserved(Receipt::Stepped(StepReceipt { lsn, txn, step }));
    StepReceipt { lsn, txn, step }
}

/// Keeps the receipt of a change, and answers it.
fn keep_change(receipts: &mut Vec<Receipt>, receipt: &ChangeReceipt) -> ChangeReceipt
    requires room { vec_len receipts.old < vec_capacity receipts.old }
    ensures kept { receipts.new.items ≡ receipts.old.items ++ Changed result ∷ [] }
    ensures names { result ≡ receipt.now }
{
    receipts.push_reserved(Receipt::Changed(*receipt));
    *receipt
}

/// Keeps the receipt of a read, and answers it.
fn keep_read(
    receipts: &mut Vec<Receipt>,
    end: Lsn,
    page: PageNo,
    slot: SlotNo,
    number: u64,
) -> ReadReceipt
    requires room { vec_len receipts.old < vec_capacity receipts.old }
    ensures kept { receipts.new.items ≡ receipts.old.items ++ Read result ∷ [] }
    ensures names { result ≡ read_receipt end page slot number }
{
    receipts.push_reserved(Receipt::Read(ReadReceipt {
        end,
        page,
        slot,
        number,
    }));
    ReadReceipt {
        end,
        page,
        slot,
        number,
    }
}
