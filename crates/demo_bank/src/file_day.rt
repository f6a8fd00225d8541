//! A day of the bank on files.

ghost use Rattle.std.specs.Prelude.{[], ◌≡◌};

use crate::accounts::PAGES;
use crate::case::Case;
use crate::clerk::{Clerk, Duty, Office};
use crate::day::{Answers, answers_of, end_run, hire_tellers};
use crate::day_files::Devices;
use crate::fault::Fault;
use crate::hall::Hall;
use crate::halt::Halt;
use crate::line::Line;
use crate::on_files::{FileBank, FileOffice};
use crate::watch::Watch;
use imgcopy_engine::{Life, MemStore, Notes, Refusal, Retired, Setup, SystemFolder};
use std::alloc::Global;
use std::sync::Wait;
use std::sync::ledger::Blank;
use std::thread;
use std::thread::{Scope, Threads};

/// What a day on files is to be.
#[derive(Drop)]
pub struct Plan<'a> {
    pub files: &'a HostRuntime,
    pub folder: &'a str,
    pub case: &'a Case,
    /// How many transfers each teller makes.
    pub transfers: u32,
}

/// How many pages are in memory at once. There are more, so they are read back from the file.
const FRAMES: u32 = 8;

/// Opens the bank: a shared engine over formatted pages, on a log and a volume in files.
pub fn open_bank<G: Life>(
    files: &HostRuntime,
    folder: &mut SystemFolder<'_>,
    name: &str,
    blank: Blank,
) -> Result<FileBank<G>, Fault>
    requires name { blank.name ≡ G.name }
    requires parts { blank.parts ≡ G.parts }
    requires before { G.before ≡ [] }
    requires sessions { blank.parts ≡ 65 }
{
    let alloc = files.alloc();
    let pages = MemStore::new(alloc, PAGES)?;
    let Devices { log, volume } = Devices::new(files, folder, name, pages)?;
    let setup = Setup {
        pages: PAGES,
        frames: FRAMES,
    };
    Ok(FileBank::<G>::new(alloc, blank, setup, volume, log)?)
}

/// Has this clerk open the accounts and take a checkpoint.
pub fn open_accounts<G: Life>(
    rt: &impl Wait,
    office: &FileOffice<'_, G>,
    clerk: &mut Clerk<G>,
) -> Result<(), Halt> {
    let commit = clerk.open_accounts(rt, office)?;
    office.helper.tell(rt, &Line::Opened(commit))?;
    clerk.checkpoint_on_file(rt, office)
}

/// All who work there: the tellers, and one of each other duty.
fn hire_all<G: Life>(
    alloc: Global,
    bank: &mut FileBank<G>,
    case: &Case,
    clerks: &mut Vec<Clerk<G>>,
) -> Result<(), Fault> {
    hire_tellers(alloc, bank, case, clerks)?;
    let copier = Duty::Copier {
        full: case.full,
        incremental: case.incremental,
    };
    for duty in [copier, Duty::Flusher, Duty::Checkpointer] {
        clerks.push(Clerk::hire(alloc, bank, duty)?)?;
    }
    Ok(())
}

/// Has each clerk work in a thread of its own. Where a thread cannot be started, memory is short,
/// and that ends the day: others would wait for the one who has not come.
fn start_all<'s, E, G: Life + Send + Sync, R: Threads + Wait + Sync>(
    scope: &Scope<'s, E>,
    rt: &'s R,
    office: &'s FileOffice<'s, G>,
    clerks: &'s mut [Clerk<G>],
) {
    for clerk in clerks {
        let started = scope.spawn(move || clerk.work_on_files(rt, office));
        if started.is_err() {
            let short = Err(Halt::Refused(Refusal::OutOfMemory));
            office.helper.note(rt, &short);
            return;
        }
    }
}

/// Has all clerks work at the same time, and says why the day ended, if a fault ended it.
fn all_work<G: Life + Send + Sync, R: Threads + Wait + Sync>(
    rt: &R,
    office: &FileOffice<'_, G>,
    clerks: &mut [Clerk<G>],
) -> Result<(), Halt> {
    thread::scope(thread::scope_env(), rt, |scope| {
        start_all(scope, rt, office, clerks)
    });
    office.helper.halted(rt)
}

/// The work of a day, from the opening of the accounts on, by clerks that are hired for it.
fn worked<G: Life + Send + Sync, R: Threads + Wait + Sync>(
    rt: &R,
    bank: &mut FileBank<G>,
    hall: &Hall<'_>,
    case: &Case,
) -> Result<Answers<G>, Fault> {
    let alloc = hall.files.alloc();
    let watch = Watch::new(alloc, case.tellers)?;
    let mut clerks = Vec::new(alloc);
    hire_all(alloc, bank, case, &mut clerks)?;
    let office = Office {
        bank,
        watch: &watch,
        helper: hall,
    };
    if let Some(clerk) = clerks.first_mut() {
        open_accounts(rt, &office, clerk)?;
    }
    all_work(rt, &office, &mut clerks)?;
    Ok(answers_of(alloc, clerks)?)
}

/// A day of a bank that is open.
fn day_in<G: Life + Send + Sync, R: Threads + Wait + Sync>(
    rt: &R,
    plan: &Plan<'_>,
    mut bank: FileBank<G>,
) -> Result<Retired, Fault> {
    let case = plan.case;
    let hall = Hall::new(plan.files, plan.folder, case.tellers, plan.transfers);
    match worked(rt, &mut bank, &hall, case) {
        Ok(answers) => {
            let retired = end_run(plan.files.alloc(), answers, bank)?;
            hall.tell(rt, &Line::Closed)?;
            Ok(retired)
        }
        Err(fault) => Err(fault),
    }
}

/// Opens the bank in a folder, has all clerks work at the same time, and settles. Each thing that
/// lasts is told in a line once it does.
pub fn file_day<G: Life + Send + Sync, R: Threads + Wait + Sync>(
    rt: &R,
    blank: Blank,
    plan: &Plan<'_>,
) -> Result<Retired, Fault>
    requires name { blank.name ≡ G.name }
    requires parts { blank.parts ≡ G.parts }
    requires before { G.before ≡ [] }
    requires sessions { blank.parts ≡ 65 }
{
    let (files, name) = (plan.files, plan.folder);
    let notes = Notes::new();
    // It is claimed until the day is over.
    let mut folder = SystemFolder::new(files, files.alloc(), name, &notes);
    let bank = open_bank::<G>(files, &mut folder, name, blank)?;
    day_in(rt, plan, bank)
}
