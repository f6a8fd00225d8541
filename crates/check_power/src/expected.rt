//! What the replies alone say of a volume: it knows no record and no page.

use crate::numbers::{Numbers, SlotChange};
use crate::open_txn::OpenTxn;
use crate::wrong::Wrong;
use aries_core::{Answer, Event, Refusal, Reply};
use page_core::{Lsn, Page, PageNo, SlotNo, TxnNo};
use std::alloc::{AllocError, Global};

/// What a call made that was not known to be forced when it was answered.
#[derive(Drop)]
enum Made {
    /// The changes of a transaction that committed.
    Commit(Vec<SlotChange>),
    /// The volume grew.
    Growth(u32),
}

/// What such a call made, with the LSN of its record.
#[derive(Drop)]
struct Unsure {
    lsn: Lsn,
    made: Made,
}

impl Unsure {
    fn copied(&self, alloc: Global) -> Result<Unsure, AllocError> {
        let made = match &self.made {
            Made::Commit(changes) => Made::Commit(Vec::from_slice(alloc, changes)?),
            Made::Growth(pages) => Made::Growth(*pages),
        };
        Ok(Unsure {
            lsn: self.lsn,
            made,
        })
    }
}

/// The numbers that are committed for certain; what came behind them, in order of the LSNs; and the
/// transactions that are open.
#[derive(Drop)]
pub struct Expected {
    sure: Numbers,
    unsure: Vec<Unsure>,
    txns: Vec<OpenTxn>,
    /// How many pages the volume has.
    pub pages: u32,
    /// How many commits were answered.
    pub commits: u64,
}

impl Expected {
    /// What is known of a new volume.
    pub fn new(alloc: Global, pages: u32) -> Result<Expected, AllocError> {
        Ok(Expected {
            sure: Numbers::new(alloc, pages)?,
            unsure: Vec::new(alloc),
            txns: Vec::new(alloc),
            pages,
            commits: 0,
        })
    }

    /// A copy of this value.
    pub fn copied(&self, alloc: Global) -> Result<Expected, AllocError> {
        let mut unsure = Vec::new(alloc);
        for it in &self.unsure {
            unsure.push(it.copied(alloc)?)?;
        }
        let mut txns = Vec::new(alloc);
        for it in &self.txns {
            txns.push(it.copied(alloc)?)?;
        }
        Ok(Expected {
            sure: self.sure.copied(alloc)?,
            unsure,
            txns,
            pages: self.pages,
            commits: self.commits,
        })
    }

    /// Takes note of a call that was not answered: it may be done.
    pub fn leave_open(&mut self, event: &Event) -> Result<(), Wrong> {
        let lsn = Lsn(u64::MAX);
        match event {
            Event::Commit(txn) if !self.is_rolling(*txn) => self.end(*txn, lsn),
            Event::Extend(pages) if *pages > self.pages => {
                let made = Made::Growth(*pages);
                self.unsure.push(Unsure { lsn, made })?;
                Ok(())
            }
            _ => Ok(()),
        }
    }

    fn is_rolling(&self, txn: TxnNo) -> bool {
        self.txns.iter().any(|it| it.txn == txn && it.is_rolling)
    }

    /// The open transactions.
    pub fn txns(&self) -> &[OpenTxn] {
        &self.txns
    }

    /// Takes note of a call and its reply.
    pub fn note(&mut self, event: &Event, reply: &Reply) -> Result<(), Wrong> {
        match reply {
            Ok(answer) => self.note_answer(event, answer),
            Err(Refusal::CommitUnsure(lsn)) => match event {
                Event::Commit(txn) => self.end(*txn, *lsn),
                _ => Ok(()),
            },
            Err(_) => Ok(()),
        }
    }

    fn note_answer(&mut self, event: &Event, answer: &Answer) -> Result<(), Wrong> {
        match (event, answer) {
            (Event::Begin, Answer::Began { txn, .. }) => self.begin(*txn),
            (Event::Commit(txn), Answer::Logged(lsn)) => {
                self.commits = self.commits.saturating_add(1);
                self.end(*txn, *lsn)?;
                self.force(*lsn)
            }
            (Event::Extend(pages), Answer::Logged(lsn)) => {
                self.pages = *pages;
                let made = Made::Growth(*pages);
                self.unsure.push(Unsure { lsn: *lsn, made })?;
                Ok(())
            }
            (Event::Read { page, slot }, Answer::Number(found)) => {
                self.check_read(*page, *slot, *found)
            }
            (_, Answer::Forced(end)) => self.force(Lsn(end.0.saturating_sub(1))),
            (_, Answer::Point { end, .. }) => self.force(*end),
            (_, Answer::Writing(lsn) | Answer::Repaired(lsn)) => self.force(*lsn),
            _ => self.note_txn(event, answer),
        }
    }

    /// Takes note of a call of a transaction that stays open or was rolled back.
    fn note_txn(&mut self, event: &Event, answer: &Answer) -> Result<(), Wrong> {
        let Some(number) = txn_of(event) else {
            return Ok(());
        };
        let Some(index) = self.txns.iter().position(|it| it.txn == number) else {
            return Ok(());
        };
        match self.txns.get_mut(index) {
            Some(txn) => txn.note(event, answer)?,
            None => return Ok(()),
        }
        if matches!(answer, Answer::Ended(_)) && index < self.txns.len() {
            let _ = self.txns.remove(index);
        }
        Ok(())
    }

    fn begin(&mut self, txn: TxnNo) -> Result<(), Wrong> {
        let alloc = *self.txns.allocator();
        self.txns.push(OpenTxn::new(alloc, txn))?;
        Ok(())
    }

    /// A transaction has ended by a Commit at this LSN.
    fn end(&mut self, txn: TxnNo, lsn: Lsn) -> Result<(), Wrong> {
        let index = self.txns.iter().position(|it| it.txn == txn);
        if let Some(index) = index
            && index < self.txns.len()
        {
            let made = Made::Commit(self.txns.remove(index).into_changes());
            self.unsure.push(Unsure { lsn, made })?;
        }
        Ok(())
    }

    /// All records up to this LSN are forced.
    fn force(&mut self, lsn: Lsn) -> Result<(), Wrong> {
        for _ in 0..self.unsure.len() {
            let is_forced = match self.unsure.first() {
                Some(it) => it.lsn.0 <= lsn.0,
                None => false,
            };
            if is_forced {
                self.take_first();
            }
        }
        Ok(())
    }

    /// The first one that was unsure is certain now.
    fn take_first(&mut self) {
        if self.unsure.is_empty() {
            return;
        }
        match self.unsure.remove(0).made {
            Made::Commit(changes) => self.sure.make(&changes),
            Made::Growth(pages) => self.sure.pages = pages,
        }
    }

    /// Compares a number that was read with what all transactions have made of it.
    fn check_read(&self, page: PageNo, slot: SlotNo, found: u64) -> Result<(), Wrong> {
        let mut wanted = self.sure.number(page, slot);
        for it in &self.unsure {
            if let Made::Commit(changes) = &it.made {
                wanted = number_after(changes, page, slot, wanted);
            }
        }
        for txn in &self.txns {
            wanted = number_after(txn.changes(), page, slot, wanted);
        }
        if wanted == found {
            Ok(())
        } else {
            Err(Wrong::Read { found, wanted })
        }
    }

    /// Compares the volume that a loss has left: it has what is certain, perhaps the first ones of
    /// what is not, and nothing else. From then on it is what is certain.
    pub fn check_left(&mut self, pages: &[Page]) -> Result<(), Wrong> {
        let Some(wrong) = self.sure.difference(pages) else {
            self.begin_life(pages);
            return Ok(());
        };
        for _ in 0..self.unsure.len() {
            self.take_first();
            if self.sure.difference(pages).is_none() {
                self.begin_life(pages);
                return Ok(());
            }
        }
        Err(wrong)
    }

    /// Takes the volume as it is: nothing is open, and all is certain.
    pub fn begin_life(&mut self, pages: &[Page]) {
        self.sure.take(pages);
        self.pages = self.sure.pages;
        self.unsure.clear();
        self.txns.clear();
    }
}

/// The transaction of a call.
fn txn_of(event: &Event) -> Option<TxnNo> {
    match event {
        Event::Set { txn, .. }
        | Event::Add { txn, .. }
        | Event::Abort(txn)
        | Event::UndoStep(txn)
        | Event::Savepoint(txn)
        | Event::UndoTo { txn, .. } => Some(*txn),
        _ => None,
    }
}

/// What changes make of the number of a slot.
fn number_after(changes: &[SlotChange], page: PageNo, slot: SlotNo, before: u64) -> u64 {
    let mut number = before;
    for change in changes {
        number = change.after(page, slot, number);
    }
    number
}
