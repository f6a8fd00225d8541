//! Those who work at the bank, each in a thread of its own.

use crate::accounts::{ACCOUNT_PAGES, ACCOUNTS, OPENING, PAGES, place_of};
use crate::acknowledged::Acknowledged;
use crate::case::Workers;
use crate::draws::{Draws, Transfer};
use crate::halt::Halt;
use crate::watch::Watch;
use imgcopy_engine::{
    HoldGate, Life, LogDevice, MAX_SESSIONS, PageNo, PageStore, Refusal, Session, Shared, SlotNo,
    StepReceipt, TxnNo, TxnStep, Work,
};
use std::alloc::Global;
use std::sync::Wait;
use std::thread;

/// A bank: a shared engine over this store and this device.
pub type Bank<S, D, G> = Shared<S, D, G>;

/// How often a call is made at most that is refused each time.
pub const MOST_TRIES: u32 = 1_000;

/// Has others come first before each hold of a flush pass or a checkpoint.
pub struct Polite;

impl HoldGate for Polite {
    fn before(&self, _worker: u32, _page: PageNo) {
        thread::yield_now();
    }
}

/// One who helps a clerk whose call was refused.
pub trait Helper {
    /// Whether the clerk may go on. An `Err` says why it may not.
    fn may_go_on(&self) -> Result<(), Halt>;

    /// Does something about the refusal of a call on this page, at which the store has failed so
    /// many times before. Then it may be made again. Where nothing can be done, the clerk ends.
    fn help<S: PageStore, D: LogDevice, G: Life, R: Wait>(
        &self,
        rt: &R,
        bank: &Bank<S, D, G>,
        page: PageNo,
        why: Refusal,
        faults: u32,
    ) -> Result<(), Halt>;
}

/// Where the clerks work.
#[derive(Drop)]
pub struct Office<'a, S: PageStore, D: LogDevice, G: Life, H: Helper> {
    pub bank: &'a Bank<S, D, G>,
    pub watch: &'a Watch,
    pub helper: &'a H,
}

/// What a clerk does.
#[derive(Clone, Copy, Drop)]
pub enum Duty {
    /// Moves money, as it is drawn.
    Teller(Draws),
    /// Writes dirty pages.
    Flusher,
    /// Takes checkpoints.
    Checkpointer,
    /// Makes full copies and incremental ones on them, each by so many workers.
    Copier { full: Workers, incremental: Workers },
}

/// A call of a session that needs a page in memory.
#[derive(Clone, Copy)]
pub enum PageCall {
    /// The transaction puts this number into the slot.
    Set(TxnNo, u64),
    /// The transaction adds this number to that in the slot.
    Add(TxnNo, u64),
    /// Reads the slot.
    Read,
    /// Takes the last change of the transaction back, which is on the page, or ends it.
    UndoStep(TxnNo),
}

/// One who works at the bank, with what it was answered.
#[derive(Drop)]
pub struct Clerk<G: Life> {
    pub duty: Duty,
    pub session: Session<G>,
    pub works: Vec<Work>,
    pub ended: Result<(), Halt>,
}

impl<G: Life> Clerk<G> {
    /// A clerk of this duty, with a session of its own. `TooManyTxns` stands for too many sessions.
    pub fn hire<S: PageStore + Drop, D: LogDevice + Drop>(
        alloc: Global,
        bank: &mut Bank<S, D, G>,
        duty: Duty,
    ) -> Result<Clerk<G>, Refusal> {
        if bank.sessions() >= MAX_SESSIONS {
            return Err(Refusal::TooManyTxns);
        }
        Ok(Clerk {
            duty,
            session: bank.session(alloc),
            works: Vec::new(alloc),
            ended: Ok(()),
        })
    }

    /// Makes a call once.
    fn call<S: PageStore, D: LogDevice>(
        &mut self,
        rt: &impl Wait,
        bank: &Bank<S, D, G>,
        page: PageNo,
        slot: SlotNo,
        call: &PageCall,
    ) -> Result<Option<StepReceipt>, Refusal> {
        match call {
            PageCall::Set(txn, number) => {
                self.session.set(rt, bank, *txn, page, slot, *number)?;
            }
            PageCall::Add(txn, number) => {
                self.session.add(rt, bank, *txn, page, slot, *number)?;
            }
            PageCall::Read => {
                self.session.read(rt, bank, page, slot)?;
            }
            PageCall::UndoStep(txn) => {
                return Ok(Some(self.session.undo_step(rt, bank, *txn)?));
            }
        }
        Ok(None)
    }

    /// Makes a call, and makes it again where it was refused and somebody could help.
    pub fn ask<S: PageStore, D: LogDevice, H: Helper>(
        &mut self,
        rt: &impl Wait,
        office: &Office<'_, S, D, G, H>,
        page: PageNo,
        slot: SlotNo,
        call: &PageCall,
    ) -> Result<Option<StepReceipt>, Halt> {
        let mut faults = 0u32;
        for _ in 0..MOST_TRIES {
            office.helper.may_go_on()?;
            let why = match self.call(rt, office.bank, page, slot, call) {
                Ok(answer) => return Ok(answer),
                Err(why) => why,
            };
            office.helper.help(rt, office.bank, page, why, faults)?;
            if why == Refusal::StoreFault {
                faults = faults.saturating_add(1);
            }
        }
        Ok(self.call(rt, office.bank, page, slot, call)?)
    }

    /// Opens each account, and each reserve, in one transaction.
    pub fn open_accounts<S: PageStore, D: LogDevice, H: Helper>(
        &mut self,
        rt: &impl Wait,
        office: &Office<'_, S, D, G, H>,
    ) -> Result<Acknowledged, Halt> {
        let txn = self.session.begin(rt, office.bank)?.txn;
        let call = PageCall::Set(txn, OPENING);
        for account in 0..ACCOUNTS {
            let (page, slot) = place_of(account);
            self.ask(rt, office, page, slot, &call)?;
        }
        for page in ACCOUNT_PAGES..PAGES {
            self.ask(rt, office, PageNo(page), SlotNo(0), &call)?;
        }
        Ok(Acknowledged::commit(&mut self.session, rt, office.bank, txn)?)
    }

    /// Adds to an account, modulo 2^64.
    pub fn pay<S: PageStore, D: LogDevice, H: Helper>(
        &mut self,
        rt: &impl Wait,
        office: &Office<'_, S, D, G, H>,
        txn: TxnNo,
        account: u32,
        amount: u64,
    ) -> Result<(), Halt> {
        let (page, slot) = place_of(account);
        let behind = office.watch.before_change(page);
        self.ask(rt, office, page, slot, &PageCall::Add(txn, amount))?;
        office.watch.after_change(page, behind);
        Ok(())
    }

    /// Takes the money of a transfer out of one account.
    pub fn take_from<S: PageStore, D: LogDevice, H: Helper>(
        &mut self,
        rt: &impl Wait,
        office: &Office<'_, S, D, G, H>,
        txn: TxnNo,
        transfer: &Transfer,
    ) -> Result<(), Halt> {
        let amount = transfer.amount.wrapping_neg();
        self.pay(rt, office, txn, transfer.from, amount)
    }

    /// Adds it to the other one.
    pub fn give_to<S: PageStore, D: LogDevice, H: Helper>(
        &mut self,
        rt: &impl Wait,
        office: &Office<'_, S, D, G, H>,
        txn: TxnNo,
        transfer: &Transfer,
    ) -> Result<(), Halt> {
        self.pay(rt, office, txn, transfer.to, transfer.amount)
    }

    /// Moves money, looks at what is left, and commits, or takes it back. The answer is the
    /// acknowledgement of the commit, if there was one.
    pub fn transfer<S: PageStore, D: LogDevice, H: Helper>(
        &mut self,
        rt: &impl Wait,
        office: &Office<'_, S, D, G, H>,
        transfer: &Transfer,
    ) -> Result<Option<Acknowledged>, Halt> {
        office.helper.may_go_on()?;
        let txn = self.session.begin(rt, office.bank)?.txn;
        self.take_from(rt, office, txn, transfer)?;
        let (page, slot) = place_of(transfer.from);
        self.ask(rt, office, page, slot, &PageCall::Read)?;
        self.give_to(rt, office, txn, transfer)?;
        office.helper.may_go_on()?;
        if transfer.is_taken_back {
            self.take_back(rt, office, txn, transfer)?;
            return Ok(None);
        }
        let commit = Acknowledged::commit(&mut self.session, rt, office.bank, txn)?;
        Ok(Some(commit))
    }

    /// Takes both changes of a transfer back, the last one first, and ends its transaction.
    fn take_back<S: PageStore, D: LogDevice, H: Helper>(
        &mut self,
        rt: &impl Wait,
        office: &Office<'_, S, D, G, H>,
        txn: TxnNo,
        transfer: &Transfer,
    ) -> Result<(), Halt> {
        self.session.abort(rt, office.bank, txn)?;
        for account in [transfer.to, transfer.from, transfer.from] {
            let (page, slot) = place_of(account);
            let done = self.ask(rt, office, page, slot, &PageCall::UndoStep(txn))?;
            if done.is_some_and(|it| it.step == TxnStep::End) {
                break;
            }
        }
        Ok(())
    }

    /// Keeps what a checkpoint or a copy answered.
    pub fn keep(&mut self, work: Work) -> Result<(), Refusal> {
        match self.works.push(work) {
            Ok(()) => Ok(()),
            Err(_) => Err(Refusal::OutOfMemory),
        }
    }
}

/// Writes the pages that are dirty, so often.
pub fn flush<S: PageStore, D: LogDevice, G: Life>(
    rt: &impl Wait,
    bank: &Bank<S, D, G>,
    passes: u32,
) -> Result<(), Refusal> {
    for _ in 0..passes {
        bank.flush_pass(rt, &Polite)?;
    }
    Ok(())
}
