//! What the clerks do in a day on files.

ghost use Rattle.std.specs.Prelude.{◌≤◌};

use crate::accounts::{ACCOUNT_PAGES, PAGES};
use crate::clerk::{Bank, Clerk, Duty, Helper, Office, PageCall, Polite};
use crate::draws::Draws;
use crate::hall::{Hall, MOST_REPAIRS};
use crate::halt::Halt;
use crate::line::Line;
use crate::put::{put_copy, put_master};
use imgcopy_engine::{
    CopyId, CopyKind, FileLog, FileStore, HoldGate, Life, PageNo, Refusal, SlotNo, Work,
};
use std::alloc::Global;
use std::sync::Wait;
use std::sync::atomic::{AtomicU64, Ordering};
use std::thread;
use std::thread::Threads;

/// A bank on files.
pub type FileBank<G> = Bank<FileStore, FileLog, G>;

/// Where its clerks work.
pub type FileOffice<'a, G> = Office<'a, FileStore, FileLog, G, Hall<'a>>;

/// How many transfers are made between two flush passes, two checkpoints and two copies.
const TO_FLUSH: u64 = 10;

const TO_CHECKPOINT: u64 = 20;

const TO_COPY: u64 = 100;

/// Each copy of this number begins a chain.
const OF_CHAIN: u32 = 4;

/// The gate of a copy, which has others come first and notes the page that was asked for last. Of a
/// copy by one worker that is the page of a refusal.
#[derive(Drop)]
struct LastPage {
    number: AtomicU64,
}

impl LastPage {
    fn page(&self) -> PageNo {
        PageNo(u32::try_from(self.number.load(Ordering::SeqCst)).unwrap_or(0))
    }
}

impl HoldGate for LastPage {
    fn before(&self, _worker: u32, page: PageNo) {
        self.number.store(page.0 as u64, Ordering::SeqCst);
        thread::yield_now();
    }
}

/// How many copies a day has at most, but for the first one and the last.
const MOST_COPIES: u64 = 500;

/// The chain of copies that the next copy may go on with.
#[derive(Clone, Copy)]
struct Chain {
    last: Option<CopyId>,
    len: u32,
}

impl Chain {
    /// What the next copy is on.
    fn next_kind(&self) -> CopyKind {
        match self.last {
            Some(parent) if self.len < OF_CHAIN => CopyKind::Inc(parent),
            _ => CopyKind::Full,
        }
    }

    /// Notes a copy.
    fn note(&mut self, kind: &CopyKind, id: CopyId) {
        self.last = Some(id);
        self.len = match kind {
            CopyKind::Full => 1,
            CopyKind::Inc(_) => self.len.saturating_add(1),
        };
    }
}

impl<G: Life> Clerk<G> {
    /// Makes so many transfers, and acknowledges each commit.
    fn tell_transfers(
        &mut self,
        rt: &impl Wait,
        office: &FileOffice<'_, G>,
        mut draws: Draws,
        count: u32,
    ) -> Result<(), Halt> {
        for _ in 0..count {
            let transfer = draws.transfer();
            if let Some(commit) = self.transfer(rt, office, &transfer)? {
                office.helper.tell(rt, &Line::Committed(commit, &transfer))?;
            }
            office.watch.note_transfer();
            thread::yield_now();
        }
        Ok(())
    }

    /// Writes dirty pages and looks at the reserves, again and again, so that other pages leave the
    /// memory and are read back from the file. The last pass comes behind the last transfer.
    fn flush_on(&mut self, rt: &impl Wait, office: &FileOffice<'_, G>) -> Result<(), Halt> {
        for _ in rt.forever() {
            let (made, is_last) = (office.watch.made(), office.helper.is_closing());
            office.helper.may_go_on()?;
            office.helper.flush(rt, office.bank)?;
            for page in ACCOUNT_PAGES..PAGES {
                self.ask(rt, office, PageNo(page), SlotNo(0), &PageCall::Read)?;
            }
            if is_last {
                break;
            }
            office
                .helper
                .wait_for(rt, office.watch, made.saturating_add(TO_FLUSH));
        }
        Ok(())
    }

    /// Takes a checkpoint, and has its master record put in place.
    pub fn checkpoint_on_file(
        &mut self,
        rt: &impl Wait,
        office: &FileOffice<'_, G>,
    ) -> Result<(), Halt> {
        office.helper.may_go_on()?;
        let work = office.bank.checkpoint(rt, &Polite)?;
        if let Work::Pointed(point) = &work {
            put_master(office.helper, point)?;
            office.helper.tell(rt, &Line::Checkpoint(point))?;
        }
        Ok(self.keep(work)?)
    }

    /// Takes checkpoints again and again, the last one behind the last transfer.
    fn checkpoint_on(&mut self, rt: &impl Wait, office: &FileOffice<'_, G>) -> Result<(), Halt> {
        for _ in rt.forever() {
            let (made, is_last) = (office.watch.made(), office.helper.is_closing());
            self.checkpoint_on_file(rt, office)?;
            if is_last {
                break;
            }
            office
                .helper
                .wait_for(rt, office.watch, made.saturating_add(TO_CHECKPOINT));
        }
        Ok(())
    }
}

impl<G: Life + Send + Sync> Clerk<G> {
    /// Does what is its duty, as long as there are tellers, and notes how it ended.
    pub fn work_on_files<R: Threads + Wait + Sync>(&mut self, rt: &R, office: &FileOffice<'_, G>) {
        let (duty, alloc) = (self.duty, office.helper.files.alloc());
        let transfers = office.helper.transfers;
        self.ended = match duty {
            Duty::Teller(draws) => self.tell_transfers(rt, office, draws, transfers),
            Duty::Flusher => self.flush_on(rt, office),
            Duty::Checkpointer => self.checkpoint_on(rt, office),
            Duty::Copier { full, incremental } => {
                let all = office.watch.tellers().saturating_mul(transfers as u64);
                self.copy_on(rt, alloc, office, full.count(), incremental.count(), all)
            }
        };
        office.helper.note(rt, &self.ended);
        if let Duty::Teller(_) = duty {
            office.helper.note_teller();
        }
    }

    /// Makes copies again and again, each but the first of a chain on the one before it, and puts
    /// their files in place. The last one begins behind the last transfer.
    fn copy_on<R: Threads + Wait + Sync>(
        &mut self,
        rt: &R,
        alloc: Global,
        office: &FileOffice<'_, G>,
        full: u32,
        incremental: u32,
        all: u64,
    ) -> Result<(), Halt>
        requires full { (1 ≤ full) × (full ≤ 64) }
        requires incremental { (1 ≤ incremental) × (incremental ≤ 64) }
    {
        let mut chain = Chain { last: None, len: 0 };
        for _ in rt.forever() {
            let (made, is_last) = (office.watch.made(), office.helper.is_closing());
            let kind = chain.next_kind();
            let workers = match &kind {
                CopyKind::Full => full,
                CopyKind::Inc(_) => incremental,
            };
            let id = self.copy_to_file(rt, alloc, office, &kind, workers)?;
            chain.note(&kind, id);
            if is_last {
                break;
            }
            let next = made.saturating_add(TO_COPY.max(all / MOST_COPIES));
            office.helper.wait_for(rt, office.watch, next);
        }
        Ok(())
    }

    /// Makes a copy, and puts its file in place.
    pub fn copy_to_file<R: Threads + Wait + Sync>(
        &mut self,
        rt: &R,
        alloc: Global,
        office: &FileOffice<'_, G>,
        kind: &CopyKind,
        workers: u32,
    ) -> Result<CopyId, Halt>
        requires { (1 ≤ workers) × (workers ≤ 64) }
    {
        let work = copy_again(rt, alloc, office, kind, workers)?;
        let Some(id) = id_of(&work) else {
            return Err(Halt::Refused(Refusal::NoCopy));
        };
        self.keep(work)?;
        office.helper.note_copy(id);
        put_copy(rt, office.helper, office.bank, id)?;
        office.helper.tell(rt, &Line::Copied(id, kind))?;
        Ok(id)
    }
}

/// The id of a copy that was made.
fn id_of(work: &Work) -> Option<CopyId> {
    match work {
        Work::Copied { id, .. } => Some(*id),
        Work::Pointed(_) => None,
    }
}

/// A copy of this value.
fn again(kind: &CopyKind) -> CopyKind {
    match kind {
        CopyKind::Full => CopyKind::Full,
        CopyKind::Inc(parent) => CopyKind::Inc(*parent),
    }
}

/// Makes a copy. Where a page cannot be read, the copy is made again by one worker, so that it is
/// known which page that is, and the page is repaired.
fn copy_again<G: Life + Send + Sync, R: Threads + Wait + Sync>(
    rt: &R,
    alloc: Global,
    office: &FileOffice<'_, G>,
    kind: &CopyKind,
    workers: u32,
) -> Result<Work, Halt>
    requires { (1 ≤ workers) × (workers ≤ 64) }
{
    let last = LastPage {
        number: AtomicU64::new(0),
    };
    match office
        .bank
        .copy_with(rt, alloc, again(kind), workers, &last)
    {
        Ok(work) => return Ok(work),
        Err(Refusal::StoreFault) => {}
        Err(why) => return Err(Halt::Refused(why)),
    }
    for faults in 0..MOST_REPAIRS {
        office.helper.may_go_on()?;
        match office.bank.copy_with(rt, alloc, again(kind), 1, &last) {
            Ok(work) => return Ok(work),
            Err(why) => office
                .helper
                .help(rt, office.bank, last.page(), why, faults)?,
        }
    }
    Err(Halt::Refused(Refusal::StoreFault))
}
