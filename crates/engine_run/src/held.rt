//! What lies under the lock: the engine, and the book that counts the records of its transactions.

ghost use Rattle.std.specs.Prelude.{◌≡◌, ◌+◌, ◌<◌, true, false, IfOk, OnErr, OnOk};
ghost use Rattle.settlement.specs.Counts.{txn_records_in};
ghost use Rattle.engine_rules.specs.Asked.{asked};
ghost use Rattle.engine_rules.specs.EngineState.{end, volume_pages};
ghost use Rattle.engine_rules.specs.Step.{Step, reply_of, step_back_answer, undo_answer};
ghost use Rattle.engine_rules.specs.Uses.{AsksStore, ForcesDevice};
ghost use Rattle.engine_calls.specs.declared.event.Answer.TheVariants as answer;
ghost use Rattle.engine_calls.specs.declared.event.Event.TheVariants as event;
ghost use Rattle.engine_run.specs.Replies.{ForcesCommit, MadeOn, ReadsAt, RepliesBy};
ghost use Rattle.engine_run.specs.Undoing.{commit_count, step_back_count};

use crate::life::Life;
use aries_core::{Engine, Refusal, SteppedBack, Undone};
use log_store::LogDevice;
use page_core::{Lsn, PageNo, SlotNo, TxnNo};
use page_store::PageStore;
use std::marker::Model;
use std::sync::ledger::{Book, Share};

/// An engine, and the book of the ledger in which each session has a share: its total is the number
/// of records of transactions in the log. It is what the lock of a shared engine guards. Its life is
/// known: calls, one after another, have led to it from the engine that it was made of. Each method
/// is the call of that name of the engine, and so one event. A call of a transaction counts the
/// record that it appends in the share of the session that made it, so who has no share makes none.
#[derive(Drop)]
pub struct Held<S: PageStore, D: LogDevice, G: Life> {
    pub(crate) engine: Engine<S, D>,
    pub(crate) book: Book<G>,
}

impl<S: PageStore, D: LogDevice, G: Life> Model for Held<S, D, G> {
    ghost use Rattle.engine_run.specs.Held.{HeldView, IsCounted};
    ghost use Rattle.engine_run.specs.Life.{IsLifeOf};

    ghost Value = { HeldView S D };

    ghost view = { λ it. record { engine = it.engine; total = it.book.total } };

    ghost invariant = { λ it. IsCounted (record { engine = it.engine; total = it.book.total })
        × IsLifeOf G.before it.engine.state };
}

impl<S: PageStore, D: LogDevice, G: Life> Held<S, D, G> {
    /// An engine, and a book that has counted the records of transactions in its log.
    pub fn new(engine: Engine<S, D>, book: Book<G>) -> Held<S, D, G>
        requires counted { book.total ≡ txn_records_in engine.state.log }
        requires before { G.before ≡ engine.state.log }
        ensures engine { result.engine ≡ engine }
    {
        let _ = engine.log_end();
        Held { engine, book }
    }

    /// The page count of the volume.
    pub fn pages(&self) -> u32
        ensures { result ≡ volume_pages self.now.engine.state }
    {
        self.engine.log().pages()
    }

    /// Begins a transaction, as `Engine::begin` does, and counts its Begin.
    pub fn begin(&mut self, share: &mut Share<G>) -> Result<(TxnNo, Lsn), Refusal>
        requires part { 0 < share.old.parts }
        ensures step { Step self.old.engine.state event.Begin
            (reply_of (λ a. answer.Began a.0 a.1) result) self.new.engine.state }
        ensures store { self.new.engine.store ≡ self.old.engine.store }
        ensures device { self.new.engine.device ≡ self.old.engine.device }
        ensures counted { OnOk result (share.new.amount ≡ share.old.amount + 1) }
        ensures uncounted { OnErr result (share.new.amount ≡ share.old.amount) }
        ensures same_parts { share.new.parts ≡ share.old.parts }
        ensures replies { RepliesBy (MadeOn S.PageStore D.LogDevice) event.Begin
            (reply_of (λ a. answer.Began a.0 a.1) result) }
    {
        let _ = self.engine.log_end();
        let result = self.engine.begin();
        let _ = self.engine.log();
        if result.is_ok() {
            self.book.add(share, 1);
        }
        result
    }

    /// Puts a number into a slot, as `Engine::set` does, and counts the change. Nothing is counted
    /// at a refusal.
    pub fn set(
        &mut self,
        txn: TxnNo,
        page: PageNo,
        slot: SlotNo,
        number: u64,
        share: &mut Share<G>,
    ) -> Result<Lsn, Refusal>
        requires part { 0 < share.old.parts }
        ensures step { Step self.old.engine.state (event.Set txn page slot number)
            (reply_of answer.Logged result) self.new.engine.state }
        ensures store { AsksStore S.gave S.wrote S.grew S.failures
            (asked self.old.engine.state (event.Set txn page slot number)) self.old.engine result
            self.new.engine }
        ensures device { self.new.engine.device ≡ self.old.engine.device }
        ensures counted { OnOk result (share.new.amount ≡ share.old.amount + 1) }
        ensures uncounted { OnErr result (share.new.amount ≡ share.old.amount) }
        ensures same_parts { share.new.parts ≡ share.old.parts }
        ensures replies { RepliesBy (MadeOn S.PageStore D.LogDevice) (event.Set txn page slot number)
            (reply_of answer.Logged result) }
    {
        let _ = self.engine.log_end();
        let result = self.engine.set(txn, page, slot, number);
        let _ = self.engine.log();
        if result.is_ok() {
            self.book.add(share, 1);
        }
        result
    }

    /// Adds to the number in a slot, as `Engine::add` does, and counts the change as `set` does.
    pub fn add(
        &mut self,
        txn: TxnNo,
        page: PageNo,
        slot: SlotNo,
        amount: u64,
        share: &mut Share<G>,
    ) -> Result<Lsn, Refusal>
        requires part { 0 < share.old.parts }
        ensures step { Step self.old.engine.state (event.Add txn page slot amount)
            (reply_of answer.Logged result) self.new.engine.state }
        ensures store { AsksStore S.gave S.wrote S.grew S.failures
            (asked self.old.engine.state (event.Add txn page slot amount)) self.old.engine result
            self.new.engine }
        ensures device { self.new.engine.device ≡ self.old.engine.device }
        ensures counted { OnOk result (share.new.amount ≡ share.old.amount + 1) }
        ensures uncounted { OnErr result (share.new.amount ≡ share.old.amount) }
        ensures same_parts { share.new.parts ≡ share.old.parts }
        ensures replies { RepliesBy (MadeOn S.PageStore D.LogDevice) (event.Add txn page slot amount)
            (reply_of answer.Logged result) }
    {
        let _ = self.engine.log_end();
        let result = self.engine.add(txn, page, slot, amount);
        let _ = self.engine.log();
        if result.is_ok() {
            self.book.add(share, 1);
        }
        result
    }

    /// The log's end, and the number in a slot at that moment, as `Engine::read` tells it.
    pub fn read(&mut self, page: PageNo, slot: SlotNo) -> Result<(Lsn, u64), Refusal>
        ensures step { Step self.old.engine.state (event.Read page slot)
            (reply_of (λ a. answer.Number a.1) result) self.new.engine.state }
        ensures end { IfOk result (λ a. a.0 ≡ end self.old.engine.state) }
        ensures log { self.new.engine.state.log ≡ self.old.engine.state.log }
        ensures store { AsksStore S.gave S.wrote S.grew S.failures
            (asked self.old.engine.state (event.Read page slot)) self.old.engine result
            self.new.engine }
        ensures device { self.new.engine.device ≡ self.old.engine.device }
        ensures replies { RepliesBy (MadeOn S.PageStore D.LogDevice) (event.Read page slot)
            (reply_of (λ a. answer.Number a.1) result) }
        ensures at_once { IfOk result (λ a.
            ReadsAt (MadeOn S.PageStore D.LogDevice) page slot a.0 a.1) }
    {
        let end = self.engine.log_end();
        let result = self.engine.read(page, slot);
        let _ = self.engine.log();
        let number = match result {
            Ok(number) => number,
            Err(why) => return Err(why),
        };
        Ok((end, number))
    }

    /// Commits a transaction, as `Engine::commit` does, and counts its Commit, which an unsure one
    /// has, too.
    pub fn commit(&mut self, txn: TxnNo, share: &mut Share<G>) -> Result<Lsn, Refusal>
        requires part { 0 < share.old.parts }
        ensures step { Step self.old.engine.state (event.Commit txn) (reply_of answer.Logged result)
            self.new.engine.state }
        ensures store { self.new.engine.store ≡ self.old.engine.store }
        ensures device { ForcesDevice D.called D.synced D.failures D.fails_from self.old.engine
            result self.new.engine }
        ensures counted { share.new.amount ≡ share.old.amount + commit_count result }
        ensures same_parts { share.new.parts ≡ share.old.parts }
        ensures replies { RepliesBy (MadeOn S.PageStore D.LogDevice) (event.Commit txn)
            (reply_of answer.Logged result) }
        ensures forced { IfOk result (ForcesCommit (MadeOn S.PageStore D.LogDevice) txn) }
    {
        let _ = self.engine.log_end();
        let result = self.engine.commit(txn);
        let _ = self.engine.log();
        if has_commit(&result) {
            self.book.add(share, 1);
        }
        result
    }

    /// Begins to take the changes of a transaction back, as `Engine::abort` does, and counts its
    /// Abort.
    pub fn abort(&mut self, txn: TxnNo, share: &mut Share<G>) -> Result<Lsn, Refusal>
        requires part { 0 < share.old.parts }
        ensures step { Step self.old.engine.state (event.Abort txn) (reply_of answer.Logged result)
            self.new.engine.state }
        ensures store { self.new.engine.store ≡ self.old.engine.store }
        ensures device { self.new.engine.device ≡ self.old.engine.device }
        ensures counted { OnOk result (share.new.amount ≡ share.old.amount + 1) }
        ensures uncounted { OnErr result (share.new.amount ≡ share.old.amount) }
        ensures same_parts { share.new.parts ≡ share.old.parts }
        ensures replies { RepliesBy (MadeOn S.PageStore D.LogDevice) (event.Abort txn)
            (reply_of answer.Logged result) }
    {
        let _ = self.engine.log_end();
        let result = self.engine.abort(txn);
        let _ = self.engine.log();
        if result.is_ok() {
            self.book.add(share, 1);
        }
        result
    }

    /// Takes one change of a transaction back, or ends it, as `Engine::undo_step` does, and counts
    /// its Comp or End.
    pub fn undo_step(&mut self, txn: TxnNo, share: &mut Share<G>) -> Result<Undone, Refusal>
        requires part { 0 < share.old.parts }
        ensures step { Step self.old.engine.state (event.UndoStep txn) (reply_of undo_answer result)
            self.new.engine.state }
        ensures store { AsksStore S.gave S.wrote S.grew S.failures
            (asked self.old.engine.state (event.UndoStep txn)) self.old.engine result
            self.new.engine }
        ensures device { self.new.engine.device ≡ self.old.engine.device }
        ensures counted { OnOk result (share.new.amount ≡ share.old.amount + 1) }
        ensures uncounted { OnErr result (share.new.amount ≡ share.old.amount) }
        ensures same_parts { share.new.parts ≡ share.old.parts }
        ensures replies { RepliesBy (MadeOn S.PageStore D.LogDevice) (event.UndoStep txn)
            (reply_of undo_answer result) }
    {
        let _ = self.engine.log_end();
        let result = self.engine.undo_step(txn);
        let _ = self.engine.log();
        if result.is_ok() {
            self.book.add(share, 1);
        }
        result
    }

    /// Names the place to which a transaction may go back from here on, as `Engine::savepoint`
    /// does.
    pub fn savepoint(&self, txn: TxnNo) -> Result<Lsn, Refusal>
        ensures step { Step self.now.engine.state (event.Savepoint txn)
            (reply_of answer.Saved result) self.now.engine.state }
        ensures replies { RepliesBy (MadeOn S.PageStore D.LogDevice) (event.Savepoint txn)
            (reply_of answer.Saved result) }
    {
        let _ = self.engine.log_end();
        let result = self.engine.savepoint(txn);
        let _ = self.engine.log();
        result
    }

    /// Takes one change of a transaction back that was made behind a savepoint, as
    /// `Engine::undo_to` does, and counts its Comp. Where the savepoint is reached there is none.
    pub fn undo_to(
        &mut self,
        txn: TxnNo,
        savepoint: Lsn,
        share: &mut Share<G>,
    ) -> Result<SteppedBack, Refusal>
        requires part { 0 < share.old.parts }
        ensures step { Step self.old.engine.state (event.UndoTo txn savepoint)
            (reply_of step_back_answer result) self.new.engine.state }
        ensures store { AsksStore S.gave S.wrote S.grew S.failures
            (asked self.old.engine.state (event.UndoTo txn savepoint)) self.old.engine result
            self.new.engine }
        ensures device { self.new.engine.device ≡ self.old.engine.device }
        ensures counted { share.new.amount ≡ share.old.amount + step_back_count result }
        ensures same_parts { share.new.parts ≡ share.old.parts }
        ensures replies { RepliesBy (MadeOn S.PageStore D.LogDevice) (event.UndoTo txn savepoint)
            (reply_of step_back_answer result) }
    {
        let _ = self.engine.log_end();
        let result = self.engine.undo_to(txn, savepoint);
        let _ = self.engine.log();
        if has_comp(&result) {
            self.book.add(share, 1);
        }
        result
    }
}

/// Whether a commit that is answered so has its Commit in the log.
fn has_commit(done: &Result<Lsn, Refusal>) -> bool
    ensures yes { result ≡ true → commit_count done.now ≡ 1 }
    ensures no { result ≡ false → commit_count done.now ≡ 0 }
{
    matches!(done, Ok(_) | Err(Refusal::CommitUnsure(_)))
}

/// Whether a step back that is answered so has its Comp in the log.
fn has_comp(done: &Result<SteppedBack, Refusal>) -> bool
    ensures yes { result ≡ true → step_back_count done.now ≡ 1 }
    ensures no { result ≡ false → step_back_count done.now ≡ 0 }
{
    matches!(done, Ok(SteppedBack::Undid(_)))
}
