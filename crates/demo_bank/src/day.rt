//! A day of the bank in memory, up to its crash.

ghost use Rattle.std.specs.Prelude.{[], ◌≡◌};

use crate::accounts::PAGES;
use crate::case::Case;
use crate::clerk::{Bank, Clerk, Duty, Office, flush};
use crate::draws::Draws;
use crate::fault::Fault;
use crate::halt::Halt;
use crate::in_memory::{MemBank, MemOffice, NoHelp};
use crate::watch::{Watch, Which};
use imgcopy_engine::{
    Life, LogDevice, MemDevice, MemStore, OpenGate, PageStore, Retired, Session, Setup, Work,
    settle,
};
use std::alloc::{AllocError, Global};
use std::sync::Wait;
use std::sync::ledger::Blank;
use std::thread;
use std::thread::Threads;

/// For how many records the device has room.
const RECORDS: usize = 65_536;

/// Opens the bank: a shared engine over formatted pages.
fn open_bank<G: Life>(alloc: Global, blank: Blank) -> Result<MemBank<G>, Fault>
    requires name { blank.name ≡ G.name }
    requires parts { blank.parts ≡ G.parts }
    requires before { G.before ≡ [] }
    requires sessions { blank.parts ≡ 65 }
{
    let setup = Setup {
        pages: PAGES,
        frames: PAGES,
    };
    let store = MemStore::new(alloc, PAGES)?;
    let device = MemDevice::new(alloc, RECORDS)?;
    Ok(MemBank::<G>::new(alloc, blank, setup, store, device)?)
}

/// Hires a teller for each row.
pub fn hire_tellers<S: PageStore + Drop, D: LogDevice + Drop, G: Life>(
    alloc: Global,
    bank: &mut Bank<S, D, G>,
    case: &Case,
    clerks: &mut Vec<Clerk<G>>,
) -> Result<(), Fault> {
    for row in 0..case.tellers {
        let duty = Duty::Teller(Draws::new(case.seed, row));
        clerks.push(Clerk::hire(alloc, bank, duty)?)?;
    }
    Ok(())
}

/// All who work there: the copier first, so that its copies begin soon; then the tellers, and one
/// of each other duty.
fn hire_all<G: Life>(
    alloc: Global,
    bank: &mut MemBank<G>,
    case: &Case,
    clerks: &mut Vec<Clerk<G>>,
) -> Result<(), Fault> {
    let copier = Duty::Copier {
        full: case.full,
        incremental: case.incremental,
    };
    clerks.push(Clerk::hire(alloc, bank, copier)?)?;
    hire_tellers(alloc, bank, case, clerks)?;
    for duty in [Duty::Flusher, Duty::Checkpointer] {
        clerks.push(Clerk::hire(alloc, bank, duty)?)?;
    }
    Ok(())
}

/// Has this clerk open the accounts, stores their pages, and takes a checkpoint.
fn open_accounts<G: Life>(
    rt: &impl Wait,
    office: &MemOffice<'_, G>,
    clerk: &mut Clerk<G>,
) -> Result<(), Halt> {
    clerk.open_accounts(rt, office)?;
    flush(rt, office.bank, 1)?;
    let work = office.bank.checkpoint(rt, &OpenGate)?;
    Ok(clerk.keep(work)?)
}

/// What the clerks were answered: their sessions, and their checkpoints and copies.
#[derive(Drop)]
pub struct Answers<G: Life> {
    sessions: Vec<Session<G>>,
    works: Vec<Work>,
}

/// The checkpoints and the copies of all clerks.
fn works_of<G: Life>(alloc: Global, clerks: &[Clerk<G>]) -> Result<Vec<Work>, AllocError> {
    let mut works = Vec::new(alloc);
    for clerk in clerks {
        for work in &clerk.works {
            works.push(*work)?;
        }
    }
    Ok(works)
}

/// What these clerks were answered.
pub fn answers_of<G: Life>(alloc: Global, clerks: Vec<Clerk<G>>) -> Result<Answers<G>, AllocError> {
    let works = works_of(alloc, &clerks)?;
    let mut sessions = Vec::with_capacity(alloc, clerks.len())?;
    for clerk in clerks {
        sessions.push(clerk.session)?;
    }
    Ok(Answers { sessions, works })
}

/// Ends the run of a bank, where it is settled with what all were answered.
pub fn end_run<S: PageStore + Drop, D: LogDevice + Drop, G: Life>(
    alloc: Global,
    answers: Answers<G>,
    bank: Bank<S, D, G>,
) -> Result<Retired, Fault> {
    match settle(alloc, answers.sessions, &answers.works, bank) {
        Ok(retired) => Ok(retired),
        Err(back) => Err(Fault::Settle(back.fault)),
    }
}

/// The first refusal that a clerk met.
fn first_refusal<G: Life>(clerks: &[Clerk<G>]) -> Result<(), Halt> {
    for clerk in clerks {
        clerk.ended?;
    }
    Ok(())
}

/// Has each teller begin a transfer. In every second one the money does not come to its account.
fn leave_open<G: Life>(
    rt: &impl Wait,
    office: &MemOffice<'_, G>,
    clerks: &mut [Clerk<G>],
) -> Result<(), Halt> {
    let mut has_come = true;
    for clerk in clerks.iter_mut() {
        if let Duty::Teller(_) = clerk.duty {
            clerk.leave_open(rt, office, has_come)?;
            has_come = !has_come;
        }
    }
    Ok(())
}

/// Has all clerks work at the same time, each in a thread of its own.
fn all_work<G: Life + Send + Sync, R: Threads + Wait + Sync>(
    rt: &R,
    alloc: Global,
    office: &MemOffice<'_, G>,
    clerks: &mut [Clerk<G>],
) {
    let count = clerks.len();
    if count > 0 {
        thread::for_each_mut(
            rt,
            clerks,
            count,
            &|_, clerk: &mut Clerk<G>| clerk.work(rt, alloc, office),
        );
    }
}

/// The work of a day, from the opening of the accounts to the transfers that are left open.
fn work_day<G: Life + Send + Sync, R: Threads + Wait + Sync>(
    rt: &R,
    alloc: Global,
    office: &MemOffice<'_, G>,
    clerks: &mut [Clerk<G>],
) -> Result<(), Halt> {
    if let Some(clerk) = clerks.first_mut() {
        open_accounts(rt, office, clerk)?;
    }
    all_work(rt, alloc, office, clerks);
    first_refusal(clerks)?;
    leave_open(rt, office, clerks)
}

/// How many pages were changed behind each copy.
#[derive(Clone, Copy, Drop)]
pub struct Behind {
    pub full: u32,
    pub incremental: u32,
}

/// Works a day by clerks that are hired for it: what they were answered, and what was changed behind
/// the copies.
fn worked<G: Life + Send + Sync, R: Threads + Wait + Sync>(
    rt: &R,
    alloc: Global,
    bank: &mut MemBank<G>,
    case: &Case,
) -> Result<(Answers<G>, Behind), Fault> {
    let watch = Watch::new(alloc, case.tellers)?;
    let mut clerks = Vec::new(alloc);
    hire_all(alloc, bank, case, &mut clerks)?;
    let office = Office {
        bank,
        watch: &watch,
        helper: &NoHelp,
    };
    work_day(rt, alloc, &office, &mut clerks)?;
    let behind = Behind {
        full: watch.changed_behind(Which::Full),
        incremental: watch.changed_behind(Which::Incremental),
    };
    Ok((answers_of(alloc, clerks)?, behind))
}

/// What a day leaves: what the engine does, and how many pages were changed behind each copy.
#[derive(Drop)]
pub struct Settled {
    pub retired: Retired,
    pub behind: Behind,
}

/// Opens the bank, has all clerks work at the same time, and settles. At the end each teller has
/// begun a transfer, and in every second one the money has not come to its account.
pub fn day<G: Life + Send + Sync, R: Threads + Wait + Sync>(
    rt: &R,
    alloc: Global,
    blank: Blank,
    case: &Case,
) -> Result<Settled, Fault>
    requires name { blank.name ≡ G.name }
    requires parts { blank.parts ≡ G.parts }
    requires before { G.before ≡ [] }
    requires sessions { blank.parts ≡ 65 }
{
    let mut bank = open_bank::<G>(alloc, blank)?;
    match worked(rt, alloc, &mut bank, case) {
        Ok((answers, behind)) => {
            let retired = end_run(alloc, answers, bank)?;
            Ok(Settled { retired, behind })
        }
        Err(fault) => Err(fault),
    }
}
