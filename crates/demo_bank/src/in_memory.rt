//! What the clerks do in a day in memory.

use crate::accounts::{ACCOUNT_PAGES, ACCOUNTS};
use crate::case::Workers;
use crate::clerk::{Bank, Clerk, Duty, Helper, Office, PageCall, Polite, flush};
use crate::draws::Draws;
use crate::halt::Halt;
use crate::watch::{Pace, Which};
use imgcopy_engine::{
    CopyId, CopyKind, Life, LogDevice, MemDevice, MemStore, PageNo, PageStore, Refusal, SlotNo,
};
use std::alloc::Global;
use std::sync::Wait;
use std::thread;
use std::thread::Threads;

/// A bank in memory.
pub type MemBank<G> = Bank<MemStore, MemDevice, G>;

/// Where its clerks work.
pub type MemOffice<'a, G> = Office<'a, MemStore, MemDevice, G, NoHelp>;

/// How many transfers a teller makes, how many passes a flusher, and how many checkpoints are
/// taken.
pub const TRANSFERS: u32 = 200;

/// How many of them are made before a teller waits for the copies to begin.
const BEFORE_FULL: u32 = 100;

/// How many of them are made before a teller waits for the incremental copy to begin.
pub const BEFORE_INCREMENTAL: u32 = 150;

const PASSES: u32 = 20;

const CHECKPOINTS: u32 = 8;

/// Nobody helps: in memory each refusal ends a clerk's work.
pub struct NoHelp;

impl Helper for NoHelp {
    fn may_go_on(&self) -> Result<(), Halt> {
        Ok(())
    }

    fn help<S: PageStore, D: LogDevice, G: Life, R: Wait>(
        &self,
        _rt: &R,
        _bank: &Bank<S, D, G>,
        _page: PageNo,
        why: Refusal,
        _faults: u32,
    ) -> Result<(), Halt> {
        Err(Halt::Refused(why))
    }
}

impl<G: Life> Clerk<G> {
    /// Begins the next transfer, and does not end it. Every second one has not come to its account.
    pub fn leave_open(
        &mut self,
        rt: &impl Wait,
        office: &MemOffice<'_, G>,
        has_come: bool,
    ) -> Result<(), Halt> {
        if let Duty::Teller(draws) = &mut self.duty {
            let transfer = draws.transfer();
            let txn = self.session.begin(rt, office.bank)?.txn;
            self.take_from(rt, office, txn, &transfer)?;
            if has_come {
                self.give_to(rt, office, txn, &transfer)?;
            }
        }
        Ok(())
    }

    /// Makes transfers, some of them once the full copy is read, and some once the incremental one
    /// is. Others come first before each next one.
    fn transfers(
        &mut self,
        rt: &impl Wait,
        office: &MemOffice<'_, G>,
        mut draws: Draws,
    ) -> Result<(), Halt> {
        for made in 0..TRANSFERS {
            if made == BEFORE_FULL {
                office.watch.wait_for(Which::Full);
            }
            if made == BEFORE_INCREMENTAL {
                office.watch.wait_for(Which::Incremental);
            }
            let transfer = draws.transfer();
            self.transfer(rt, office, &transfer)?;
            office.watch.note_transfer();
            thread::yield_now();
        }
        self.duty = Duty::Teller(draws);
        Ok(())
    }

    /// Takes checkpoints, and keeps what they answer.
    fn checkpoint(&mut self, rt: &impl Wait, bank: &MemBank<G>) -> Result<(), Halt> {
        for _ in 0..CHECKPOINTS {
            let work = bank.checkpoint(rt, &Polite)?;
            self.keep(work)?;
        }
        Ok(())
    }

    /// Gives the first account of each page 1 of what the last account has.
    fn share_out(&mut self, rt: &impl Wait, office: &MemOffice<'_, G>) -> Result<(), Halt> {
        let txn = self.session.begin(rt, office.bank)?.txn;
        for page in 0..ACCOUNT_PAGES {
            self.pay(rt, office, txn, ACCOUNTS - 1, 1u64.wrapping_neg())?;
            self.ask(rt, office, PageNo(page), SlotNo(0), &PageCall::Add(txn, 1))?;
        }
        self.session.commit(rt, office.bank, txn)?;
        Ok(())
    }
}

impl<G: Life + Send + Sync> Clerk<G> {
    /// Does what is its duty.
    pub fn work<R: Threads + Wait + Sync>(
        &mut self,
        rt: &R,
        alloc: Global,
        office: &MemOffice<'_, G>,
    ) {
        let duty = self.duty;
        self.ended = match duty {
            Duty::Teller(draws) => self.transfers(rt, office, draws),
            Duty::Flusher => self.flush_often(rt, office.bank),
            Duty::Checkpointer => self.checkpoint(rt, office.bank),
            Duty::Copier { full, incremental } => self.copy(rt, alloc, office, full, incremental),
        };
    }

    /// Writes the pages that are dirty, some times.
    fn flush_often(&self, rt: &impl Wait, bank: &MemBank<G>) -> Result<(), Halt> {
        Ok(flush(rt, bank, PASSES)?)
    }

    /// Makes a full copy, and one on it. In between it changes each page of accounts, and sees to
    /// it that the change is stored, by a second pass where another one had begun a write before
    /// it.
    fn copy<R: Threads + Wait + Sync>(
        &mut self,
        rt: &R,
        alloc: Global,
        office: &MemOffice<'_, G>,
        full: Workers,
        incremental: Workers,
    ) -> Result<(), Halt> {
        let bank = office.bank;
        let mut pace = Pace {
            watch: office.watch,
            which: Which::Full,
        };
        let first = bank.copy_with(rt, alloc, CopyKind::Full, full.count(), &pace)?;
        self.keep(first)?;
        self.share_out(rt, office)?;
        flush(rt, bank, 2)?;
        pace.which = Which::Incremental;
        let kind = CopyKind::Inc(CopyId(1));
        let second = bank.copy_with(rt, alloc, kind, incremental.count(), &pace)?;
        Ok(self.keep(second)?)
    }
}
