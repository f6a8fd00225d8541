//! The engine's work on a page that it may have to read from the store first. All memory that a
//! call takes is taken before that, so a fault of the store leaves everything as it was; and once
//! the page is there, nothing can fail.

ghost use Rattle.std.specs.Prelude.{◌≡◌, ◌<◌, false, length, IfErr, IfOk, IfSome, OnOk, OnErr, None};
ghost use Rattle.std.specs.Prelude.{Some};
ghost use Rattle.page_core.specs.declared.page.TheConstants.{SLOTS};
ghost use Rattle.log_records.specs.Log.{Log};
ghost use Rattle.log_records.specs.Record.{change_of};
ghost use Rattle.log_rules.specs.Growth.{MayGrow};
ghost use Rattle.log_rules.specs.Linked.{number_in};
ghost use Rattle.log_rules.specs.Transactions.{last_lsn};
ghost use Rattle.buffer_pool.specs.Frames.{IsResident, is_resident};
ghost use Rattle.buffer_pool.specs.Pool.{IsPoolOf};
ghost use Rattle.engine_rules.specs.Asked.{page_asked};
ghost use Rattle.engine_rules.specs.Call.{Calls};
ghost use Rattle.engine_rules.specs.EngineState.{with_appended, end, update_record, with_page};
ghost use Rattle.engine_rules.specs.EngineState.{volume_pages};
ghost use Rattle.engine_rules.specs.Refusal.{frame_refusal, page_refusal};
ghost use Rattle.engine_rules.specs.Step.{FailsFetching};
ghost use Rattle.engine_rules.specs.Uses.{AsksStore};
ghost use Rattle.aries_core.specs.Fetching.{CanComeIn, FailsReading, ReadsPage, StaysBeside};
ghost use Rattle.aries_core.specs.Fetching.{resident_with, with_before};

use crate::engine::Engine;
use buffer_pool::Pool;
use engine_calls::Refusal;
use log_records::Record;
use log_store::LogDevice;
use page_core::{Change, Lsn, PageNo, SlotNo, TxnNo};
use page_store::PageStore;

/// The change, with this number before it where it is a Set.
fn with_number(change: Change, number: u64) -> Change
    ensures { result ≡ with_before change number }
{
    match change {
        Change::Set { after, .. } => Change::Set {
            before: number,
            after,
        },
        Change::Add { amount } => Change::Add { amount },
    }
}

/// Brings a page into a pool, where it is not there. Refusals in order: `OutOfMemory`,
/// `StoreFault`.
fn bring_into<S: PageStore>(pool: &mut Pool<S>, page: PageNo) -> Result<(), Refusal>
    requires within { page < length pool.old.states }
    requires frame { (log : Log) × (IsPoolOf S.stored log pool.old × CanComeIn log page pool.old) }
    ensures there { OnOk result (IsResident pool.new.resident page) }
    ensures came { OnOk result ((log : Log) → IsPoolOf S.stored log pool.old
        → pool.new.resident ≡ resident_with S.stored log page pool.old) }
    ensures stays { OnErr result (pool.new.resident ≡ pool.old.resident) }
    ensures rest { StaysBeside S.stored pool.old pool.new }
    ensures kept { (log : Log) → IsPoolOf S.stored log pool.old → IsPoolOf S.stored log pool.new }
    ensures store { ReadsPage S.gave S.stored S.failures (is_resident pool.old.resident page) page
        pool.old.store result pool.new.store }
    ensures err { IfErr result (FailsReading (is_resident pool.old.resident page)) }
    ensures absent { OnErr result (is_resident pool.old.resident page ≡ false) }
{
    if pool.is_resident(page) {
        return Ok(());
    }
    if pool.make_room().is_err() {
        return Err(Refusal::OutOfMemory);
    }
    if pool.fetch(page).is_err() {
        return Err(Refusal::StoreFault);
    }
    Ok(())
}

impl<S: PageStore, D: LogDevice> Engine<S, D> {
    /// Whether a frame can be had for a page, where it has none.
    pub(crate) fn find_frame(&self, page: PageNo) -> Result<(), Refusal>
        ensures refused { IfErr result (λ why. frame_refusal self.now.state page ≡ Some why) }
        ensures free { OnOk result (frame_refusal self.now.state page ≡ None) }
    {
        if !self.pool.is_resident(page) && self.pool.is_full() {
            return Err(Refusal::PoolFull);
        }
        Ok(())
    }

    /// The number in a slot of a page in memory.
    pub(crate) fn number(&self, page: PageNo, slot: SlotNo) -> u64
        requires slot { slot < SLOTS }
        requires there { IsResident self.now.state.resident page }
        ensures { result ≡ number_in self.now.state.log page slot }
    {
        self.pool.current(page).slots[slot.0 as usize]
    }

    /// Brings a page into memory, where it is not. Refusals in order: `OutOfMemory`, `StoreFault`.
    pub(crate) fn bring_in(&mut self, page: PageNo) -> Result<(), Refusal>
        requires within { page < volume_pages self.old.state }
        requires frame { frame_refusal self.old.state page ≡ None }
        ensures ok { OnOk result (self.new.state ≡ with_page self.old.state page) }
        ensures there { OnOk result (IsResident self.new.state.resident page) }
        ensures err { IfErr result (λ why. FailsFetching self.old.state page why) }
        ensures same { OnErr result (self.new.state ≡ self.old.state) }
        ensures absent { OnErr result (is_resident self.old.state.resident page ≡ false) }
        ensures device { self.new.device ≡ self.old.device }
        ensures store { AsksStore S.gave S.wrote S.grew S.failures (page_asked self.old.state page)
            self.old result self.new }
    {
        bring_into(&mut self.pool, page)
    }

    /// Appends the Update of a change that may be made. Where it is a Set, the number before it is
    /// read here. Refusals are those of `bring_in`.
    pub(crate) fn update(
        &mut self,
        txn: TxnNo,
        prev: Lsn,
        page: PageNo,
        slot: SlotNo,
        change: Change,
    ) -> Result<Lsn, Refusal>
        requires last { prev ≡ last_lsn self.old.state.log txn }
        requires place { page_refusal self.old.state page slot ≡ None }
        requires frame { frame_refusal self.old.state page ≡ None }
        requires called { Calls self.old.state (update_record self.old.state txn page slot
            (with_before change (number_in self.old.state.log page slot))) }
        ensures ok { IfOk result (λ lsn. (lsn ≡ end self.old.state)
            × (self.new.state ≡ with_appended (with_page self.old.state page)
            (update_record self.old.state txn page slot
            (with_before change (number_in self.old.state.log page slot))))) }
        ensures err { IfErr result (λ why. FailsFetching self.old.state page why) }
        ensures same { OnErr result (self.new.state ≡ self.old.state) }
        ensures device { self.new.device ≡ self.old.device }
        ensures store { AsksStore S.gave S.wrote S.grew S.failures (page_asked self.old.state page)
            self.old result self.new }
    {
        if self.log.make_room().is_err() || self.txns.make_room(txn, page, slot).is_err() {
            return Err(Refusal::OutOfMemory);
        }
        bring_into(&mut self.pool, page)?;
        let lsn = self.log.end();
        let before = self.pool.current(page).slots[slot.0 as usize];
        let next = Record::Update {
            lsn,
            txn,
            prev,
            page,
            slot,
            change: with_number(change, before),
        };
        self.txns.note_in_room(&next);
        self.log.append(next);
        self.pool.change(&next);
        Ok(lsn)
    }

    /// Appends the record of an accepted call that changes this page and takes no memory in the
    /// table of transactions. Refusals are those of `bring_in`.
    pub(crate) fn append_fetching(&mut self, page: PageNo, next: Record) -> Result<(), Refusal>
        requires called { Calls self.old.state next }
        requires page { IfSome (change_of next) (λ c. c.page ≡ page) }
        requires within { page < volume_pages self.old.state }
        requires settled { ¬ MayGrow next }
        requires frame { frame_refusal self.old.state page ≡ None }
        ensures ok { OnOk result
            (self.new.state ≡ with_appended (with_page self.old.state page) next) }
        ensures err { IfErr result (λ why. FailsFetching self.old.state page why) }
        ensures same { OnErr result (self.new.state ≡ self.old.state) }
        ensures device { self.new.device ≡ self.old.device }
        ensures store { AsksStore S.gave S.wrote S.grew S.failures (page_asked self.old.state page)
            self.old result self.new }
    {
        let back = self.txns.return_of(&next);
        if self.log.make_room().is_err() || self.returns.make_room(&back).is_err() {
            return Err(Refusal::OutOfMemory);
        }
        bring_into(&mut self.pool, page)?;
        self.txns.note_in_room(&next);
        self.log.append(next);
        self.returns.add(&back);
        self.pool.change(&next);
        Ok(())
    }
}
