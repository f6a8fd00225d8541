//! The engine. Each call appends its record, updates the table of open transactions and changes the
//! page, so that log, table and pool always agree.

ghost use Rattle.std.specs.Prelude.{◌≡◌, ◌+◌, ◌<◌, ◌≤◌, ◌^◌, not, true, Some, None};
ghost use Rattle.std.specs.Prelude.{IfOk, IfErr, IfSome, OnOk, OnErr};
ghost use Rattle.buffer_pool.specs.Frames.{IsResident};
ghost use Rattle.buffer_pool.specs.Pool.{IsFrameCount};
ghost use Rattle.page_core.specs.Volume.{formatted_pages};
ghost use Rattle.log_records.specs.Log.{IsPageCount};
ghost use Rattle.log_records.specs.Record.{change_of};
ghost use Rattle.log_rules.specs.Transactions.{is_open, last_lsn};
ghost use Rattle.engine_rules.specs.Asked.{asked};
ghost use Rattle.engine_rules.specs.Call.{Calls};
ghost use Rattle.engine_rules.specs.EngineState.{IsFit, with_appended, end, forced_to, new_state};
ghost use Rattle.engine_rules.specs.Refusal.{active_refusal, change_refusal, frame_refusal};
ghost use Rattle.engine_rules.specs.Refusal.{has_no_room, page_refusal, rolling_refusal};
ghost use Rattle.engine_rules.specs.Step.{FailsForcing, ForcedPart, Forces, LeavesDevice, Step};
ghost use Rattle.engine_rules.specs.Step.{reply_of};
ghost use Rattle.engine_rules.specs.Uses.{AsksStore, ForcesDevice};
ghost use Rattle.engine_calls.specs.declared.event.Answer.TheVariants as answer;
ghost use Rattle.engine_calls.specs.declared.event.Event.TheVariants as event;

use crate::open_ckpt::OpenCkpt;
use buffer_pool::Pool;
use copy_vault::Vault;
use engine_calls::{
    Answer, Event, Gathered, PlayFault, Refusal, Reply, Setup, SteppedBack, Took, Undone,
};
use fuzzy_ckpt::Point;
use log_records::{MAX_OPEN, MAX_RECORDS, Record};
use log_rules::PendingChange;
use log_store::{DeviceFault, Log, LogDevice};
use page_core::{Change, ChangeKind, Lsn, PageNo, SLOTS, SlotNo, TxnNo};
use page_store::PageStore;
use std::alloc::Global;
use std::marker::Model;
use txn_table::{Returns, TxnState, TxnTable};

/// An engine for one thread, over a store of pages and a device that keeps its log. Each call is
/// one event.
#[derive(Drop)]
pub struct Engine<S: PageStore, D: LogDevice> {
    pub(crate) log: Log<D>,
    pub(crate) txns: TxnTable,
    /// The Comps that go back to savepoints.
    pub(crate) returns: Returns,
    pub(crate) pool: Pool<S>,
    /// The last complete checkpoint whose end is forced.
    pub(crate) master: Option<Point>,
    /// The checkpoint that is open in the log.
    pub(crate) session: Option<OpenCkpt>,
    /// The image copies.
    pub(crate) vault: Vault,
    /// What the copies take memory of.
    pub(crate) alloc: Global,
}

impl<S: PageStore, D: LogDevice> Model for Engine<S, D> {
    ghost use Rattle.engine_rules.specs.EngineView.{EngineView, IsConsistent, engine_view};
    ghost use Rattle.aries_core.specs.OpenCkpt.{media_view};

    ghost Value = { EngineView S D };

    ghost view = { λ it. engine_view S.stored it.log it.pool
        (media_view it.master it.session it.vault.copies it.returns.made) };

    ghost invariant = { λ it.
        IsConsistent S.stored
        (engine_view S.stored it.log it.pool
        (media_view it.master it.session it.vault.copies it.returns.made)).state
        it.txns.table it.pool (media_view it.master it.session it.vault.copies it.returns.made) };
}

impl<S: PageStore + Drop, D: LogDevice + Drop> Engine<S, D> {
    ghost use Rattle.log_store.specs.Stores.{StoresHeader};
    ghost use Rattle.engine_rules.specs.Storage.{FailsAtHeader};

    /// An engine over a formatted volume, with a log without records, whose header is stored by one
    /// call of the device and synced by one. No page is in memory yet. The store is not called but
    /// for its count.
    ///
    /// A fault hands the device back: where memory ran out, it was not called. The store is dropped
    /// then.
    pub fn new(
        alloc: Global,
        setup: Setup,
        store: S,
        device: D,
    ) -> Result<Engine<S, D>, (PlayFault, D)>
        requires pages { IsPageCount setup.pages }
        requires frames { IsFrameCount setup.frames }
        requires formatted { S.stored store ≡ formatted_pages setup.pages }

        ensures empty { IfOk result (λ it.
            it.state ≡ new_state setup.pages setup.frames) }
        ensures store { IfOk result (λ it. it.store ≡ store) }
        ensures header { IfOk result (λ it.
            StoresHeader D.called D.synced setup.pages device it.device) }
        ensures no_failure { IfOk result (λ it. D.failures it.device ≡ D.failures device) }
        ensures untouched { IfErr result (λ e. e.0 ≡ PlayFault.OutOfMemory → e.1 ≡ device) }
        ensures cause { IfErr result (λ e. e.0 ≡ PlayFault.LogFault
            → FailsAtHeader D.called D.synced D.failures setup.pages device e.1) }
        ensures same_bound { IfOk result (λ it. D.fails_from it.device ≡ D.fails_from device) }
        ensures past_bound { IfErr result (λ e. e.0 ≡ PlayFault.LogFault
            → D.fails_from device ≤ 64) }
    {
        let Ok(pool) = Pool::new(alloc, store, setup.frames) else {
            return Err((PlayFault::OutOfMemory, device));
        };
        match Log::new(alloc, setup.pages, device) {
            Ok(log) => Ok(Engine {
                log,
                txns: TxnTable::new(alloc),
                returns: Returns::new(alloc),
                pool,
                master: None,
                session: None,
                vault: Vault::new(alloc),
                alloc,
            }),
            Err((_, device)) => Err((PlayFault::LogFault, device)),
        }
    }
}

impl<S: PageStore, D: LogDevice> Engine<S, D> {
    /// Makes the call that an event stands for. Refusals are those of the call of that name.
    pub fn apply(&mut self, event: Event) -> Reply
        ensures step { Step self.old.state event result self.new.state }
        ensures store { AsksStore S.gave S.wrote S.grew S.failures (asked self.old.state event)
            self.old result self.new }
        ensures device { ForcesDevice D.called D.synced D.failures D.fails_from self.old result
            self.new }
        ensures no_device { LeavesDevice event → self.new.device ≡ self.old.device }
    {
        match event {
            Event::Begin => self.begin().map(|(txn, lsn)| Answer::Began { txn, lsn }),
            Event::Set {
                txn,
                page,
                slot,
                number,
            } => self.set(txn, page, slot, number).map(Answer::Logged),
            Event::Add {
                txn,
                page,
                slot,
                amount,
            } => self.add(txn, page, slot, amount).map(Answer::Logged),
            Event::Read { page, slot } => self.read(page, slot).map(Answer::Number),
            Event::Commit(txn) => self.commit(txn).map(Answer::Logged),
            Event::Abort(txn) => self.abort(txn).map(Answer::Logged),
            Event::UndoStep(txn) => self.undo_step(txn).map(|done| match done {
                Undone::Undid(lsn) => Answer::Undid(lsn),
                Undone::Ended(lsn) => Answer::Ended(lsn),
            }),
            Event::Savepoint(txn) => self.savepoint(txn).map(Answer::Saved),
            Event::UndoTo { txn, savepoint } => {
                self.undo_to(txn, savepoint).map(|done| match done {
                    SteppedBack::Undid(lsn) => Answer::Undid(lsn),
                    SteppedBack::Reached => Answer::Reached,
                })
            }
            Event::Force => self.force().map(Answer::Forced),
            Event::WriteBegin(page) => self.write_begin(page).map(Answer::Writing),
            Event::WriteEnd(page) => self.write_end(page).map(Answer::Written),
            Event::CkptBegin => self.ckpt_begin().map(Answer::Logged),
            Event::CkptGather => self.ckpt_gather().map(|done| match done {
                Gathered::More => Answer::More,
                Gathered::Done => Answer::Done,
            }),
            Event::CkptEnd => self.ckpt_end().map(|point| Answer::Point {
                begin: point.begin,
                end: point.end,
                redo: point.redo,
            }),
            Event::CopyFull => self.copy_full().map(Answer::Copied),
            Event::CopyInc(parent) => self.copy_inc(parent).map(Answer::Copied),
            Event::Take { copy, page } => self.take(copy, page).map(|done| match done {
                Took::Taken(lsn) => Answer::Taken(lsn),
                Took::Kept => Answer::Kept,
            }),
            Event::Seal(copy) => self.seal(copy).map(Answer::Sealed),
            Event::DropCopy(copy) => self.drop_copy(copy).map(|_| Answer::Dropped),
            Event::Repair { copy, page } => self.repair(copy, page).map(Answer::Repaired),
            Event::Extend(count) => self.extend(count).map(Answer::Logged),
        }
    }

    /// Begins a transaction, and answers its number and the LSN of its Begin. Refusals in order:
    /// `TooManyTxns`, `LogFull`, `OutOfMemory`.
    pub fn begin(&mut self) -> Result<(TxnNo, Lsn), Refusal>
        ensures step { Step self.old.state event.Begin (reply_of (λ a. answer.Began a.0 a.1) result)
            self.new.state }
        ensures store { self.new.store ≡ self.old.store }
        ensures device { self.new.device ≡ self.old.device }
    {
        if self.txns.open_txns() >= MAX_OPEN {
            return Err(Refusal::TooManyTxns);
        }
        if !self.has_room(3) {
            return Err(Refusal::LogFull);
        }
        let lsn = self.log.end();
        let txn = self.txns.begin();
        self.append(Record::Begin { lsn, txn })?;
        Ok((txn, lsn))
    }

    /// Puts a number into a slot, and answers the LSN of its Update. A page that is not in memory
    /// is read from the store first. Refusals in order: `NoTxn`, `TxnRolling`, `PageOut`,
    /// `SlotOut`, `SlotBusy`, `LogFull`, `PoolFull`, `OutOfMemory`, `StoreFault`.
    pub fn set(
        &mut self,
        txn: TxnNo,
        page: PageNo,
        slot: SlotNo,
        number: u64,
    ) -> Result<Lsn, Refusal>
        ensures step { Step self.old.state (event.Set txn page slot number)
            (reply_of answer.Logged result) self.new.state }
        ensures device { self.new.device ≡ self.old.device }
        ensures store { AsksStore S.gave S.wrote S.grew S.failures
            (asked self.old.state (event.Set txn page slot number)) self.old result self.new }
    {
        let prev = self.find_changeable(txn, page, slot, ChangeKind::Set)?;
        // The number before is read where the page is in memory.
        let change = Change::Set {
            before: 0,
            after: number,
        };
        self.update(txn, prev, page, slot, change)
    }

    /// Adds to the number in a slot, modulo 2^64, and answers the LSN of its Update. Refusals are
    /// those of `set`.
    pub fn add(
        &mut self,
        txn: TxnNo,
        page: PageNo,
        slot: SlotNo,
        amount: u64,
    ) -> Result<Lsn, Refusal>
        ensures step { Step self.old.state (event.Add txn page slot amount)
            (reply_of answer.Logged result) self.new.state }
        ensures device { self.new.device ≡ self.old.device }
        ensures store { AsksStore S.gave S.wrote S.grew S.failures
            (asked self.old.state (event.Add txn page slot amount)) self.old result self.new }
    {
        let prev = self.find_changeable(txn, page, slot, ChangeKind::Add)?;
        self.update(txn, prev, page, slot, Change::Add { amount })
    }

    /// The number in a slot, with the changes of all transactions so far. A page that is not in
    /// memory is read from the store first; of one that is, this takes no memory. Refusals in
    /// order: `PageOut`, `SlotOut`, `PoolFull`, `OutOfMemory`, `StoreFault`.
    pub fn read(&mut self, page: PageNo, slot: SlotNo) -> Result<u64, Refusal>
        ensures step { Step self.old.state (event.Read page slot) (reply_of answer.Number result)
            self.new.state }
        ensures log { self.new.state.log ≡ self.old.state.log }
        ensures device { self.new.device ≡ self.old.device }
        ensures store { AsksStore S.gave S.wrote S.grew S.failures
            (asked self.old.state (event.Read page slot)) self.old result self.new }
    {
        self.find_slot(page, slot)?;
        self.find_frame(page)?;
        self.bring_in(page)?;
        Ok(self.number(page, slot))
    }

    /// Commits a transaction, forces the log through its Commit, and answers its LSN. Refusals in
    /// order: `NoTxn`, `TxnRolling`, `OutOfMemory`, `CommitUnsure`.
    pub fn commit(&mut self, txn: TxnNo) -> Result<Lsn, Refusal>
        ensures step { Step self.old.state (event.Commit txn) (reply_of answer.Logged result)
            self.new.state }
        ensures store { self.new.store ≡ self.old.store }
        ensures device { ForcesDevice D.called D.synced D.failures D.fails_from self.old result
            self.new }
    {
        let prev = self.find_active(txn)?;
        let lsn = self.log.end();
        self.append(Record::Commit { lsn, txn, prev })?;
        match self.force_log() {
            Ok(()) => Ok(lsn),
            Err(_) => Err(Refusal::CommitUnsure(lsn)),
        }
    }

    /// Begins to roll back a transaction, and answers the LSN of its Abort. Refusals in order:
    /// `NoTxn`, `TxnRolling`, `OutOfMemory`.
    pub fn abort(&mut self, txn: TxnNo) -> Result<Lsn, Refusal>
        ensures step { Step self.old.state (event.Abort txn) (reply_of answer.Logged result)
            self.new.state }
        ensures store { self.new.store ≡ self.old.store }
        ensures device { self.new.device ≡ self.old.device }
    {
        let prev = self.find_active(txn)?;
        let lsn = self.log.end();
        self.append(Record::Abort { lsn, txn, prev })?;
        Ok(lsn)
    }

    /// Forces the whole log, and answers its forced end. `LogFault` comes where the device fails.
    pub fn force(&mut self) -> Result<Lsn, Refusal>
        ensures step { Step self.old.state event.Force (reply_of answer.Forced result)
            self.new.state }
        ensures store { self.new.store ≡ self.old.store }
        ensures device { ForcesDevice D.called D.synced D.failures D.fails_from self.old result
            self.new }
    {
        match self.force_log() {
            Ok(()) => Ok(self.log.end()),
            Err(_) => Err(Refusal::LogFault),
        }
    }

    /// The LSN that the next record will have.
    pub fn log_end(&self) -> Lsn
        ensures end { result ≡ end self.now.state }
        ensures fit { IsFit self.now.state }
    {
        self.log.end()
    }

    /// Stores the records that are not forced yet.
    fn force_log(&mut self) -> Result<(), DeviceFault>
        ensures ok { OnOk result (self.new.state ≡ forced_to self.old.state (end self.old.state)) }
        ensures store { self.new.store ≡ self.old.store }
        ensures err { OnErr result (ForcedPart (end self.old.state) self.old.state self.new.state) }
        ensures called { OnOk result (Forces D.called D.synced self.old self.new) }
        ensures last_call { OnErr result (FailsForcing D.called D.synced self.old self.new) }
        ensures no_failure { OnOk result
            (D.failures self.new.device ≡ D.failures self.old.device) }
        ensures cause { OnErr result
            (D.failures self.old.device < D.failures self.new.device) }
        ensures same_bound { D.fails_from self.new.device ≡ D.fails_from self.old.device }
        ensures past_bound { OnErr result (D.fails_from self.old.device ≤ end self.new.state) }
    {
        self.log.force()
    }

    fn find_slot(&self, page: PageNo, slot: SlotNo) -> Result<(), Refusal>
        ensures refused { IfErr result (λ why. page_refusal self.now.state page slot ≡ Some why) }
        ensures there { OnOk result (page_refusal self.now.state page slot ≡ None) }
    {
        if page.0 >= self.log.pages() {
            return Err(Refusal::PageOut);
        }
        if slot.0 as usize >= SLOTS {
            return Err(Refusal::SlotOut);
        }
        Ok(())
    }

    /// The LSN of the last record of an active transaction.
    pub(crate) fn find_active(&self, txn: TxnNo) -> Result<Lsn, Refusal>
        ensures refused { IfErr result (λ why. active_refusal self.now.state txn ≡ Some why) }
        ensures active { OnOk result (active_refusal self.now.state txn ≡ None) }
        ensures last { IfOk result (λ last. last ≡ last_lsn self.now.state.log txn) }
    {
        let Some(state) = self.txns.entry(txn) else {
            return Err(Refusal::NoTxn);
        };
        if state.rolling {
            return Err(Refusal::TxnRolling);
        }
        Ok(state.last)
    }

    /// The LSN of the last record of a transaction that rolls back.
    pub(crate) fn find_rolling(&self, txn: TxnNo) -> Result<Lsn, Refusal>
        ensures refused { IfErr result (λ why. rolling_refusal self.now.state txn ≡ Some why) }
        ensures rolling { OnOk result (rolling_refusal self.now.state txn ≡ None) }
        ensures last { IfOk result (λ last. last ≡ last_lsn self.now.state.log txn) }
        ensures still_open { OnOk result (is_open self.now.state.log txn ≡ true) }
    {
        let Some(state) = self.txns.entry(txn) else {
            return Err(Refusal::NoTxn);
        };
        if !state.rolling {
            return Err(Refusal::NotRolling);
        }
        Ok(state.last)
    }

    /// The LSN of the last record of a transaction that may make a change.
    fn find_changeable(
        &self,
        txn: TxnNo,
        page: PageNo,
        slot: SlotNo,
        kind: ChangeKind,
    ) -> Result<Lsn, Refusal>
        ensures refused { IfErr result (λ why.
            change_refusal self.now.state txn page slot kind ≡ Some why) }
        ensures free { OnOk result (change_refusal self.now.state txn page slot kind ≡ None) }
        ensures place { OnOk result (page_refusal self.now.state page slot ≡ None) }
        ensures frame { OnOk result (frame_refusal self.now.state page ≡ None) }
        ensures last { IfOk result (λ last. last ≡ last_lsn self.now.state.log txn) }
    {
        let last = self.find_active(txn)?;
        self.find_slot(page, slot)?;
        if let Some(holder) = self.txns.may_change(txn, page, slot, kind) {
            return Err(Refusal::SlotBusy(holder));
        }
        if !self.has_room(2) {
            return Err(Refusal::LogFull);
        }
        self.find_frame(page)?;
        Ok(last)
    }

    /// Whether records and owed records stay within the limit, with so many more.
    pub(crate) fn has_room(&self, more: u64) -> bool
        requires { more ≤ 3 }
        ensures { result ≡ not (has_no_room self.now.state more) }
    {
        self.log.records().len() as u64 + self.txns.owed() + more <= MAX_RECORDS as u64
    }

    /// Appends the record of an accepted call, notes it and makes its change, whose page is in
    /// memory.
    pub(crate) fn append(&mut self, next: Record) -> Result<(), Refusal>
        requires called { Calls self.old.state next }
        requires there { IfSome (change_of next) (λ c. IsResident self.old.state.resident c.page) }
        ensures ok { OnOk result (self.new.state ≡ with_appended self.old.state next) }
        ensures err { IfErr result (λ why. (why ≡ Refusal.OutOfMemory)
            × (self.new.state ≡ self.old.state)) }
        ensures store { self.new.store ≡ self.old.store }
        ensures device { self.new.device ≡ self.old.device }
    {
        let back = self.txns.return_of(&next);
        if self.log.make_room().is_err()
            || self.returns.make_room(&back).is_err()
            || self.txns.note(&next).is_err()
        {
            return Err(Refusal::OutOfMemory);
        }
        self.log.append(next);
        self.returns.add(&back);
        self.pool.change(&next);
        Ok(())
    }
}
