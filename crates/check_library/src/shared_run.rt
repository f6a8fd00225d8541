//! A run of a shared engine, with a copy by three workers. A call that is refused for lack of
//! memory, or of a thread, is made again, and so is `settle`, with what it gave back.

ghost use Rattle.std.specs.Prelude.{[], ◌≡◌};

use aries_core::{Refusal, Setup};
use copy_coverage::Retired;
use copy_vault::{CopyId, CopyKind};
use engine_run::{
    Life, MAX_SESSIONS, OpenGate, Session, SettleFault, Shared, Unsettled, Work, settle,
};
use log_records::Record;
use log_store::MemDevice;
use media_restore::{LoadFault, load};
use page_core::{Lsn, PageNo, SlotNo, TxnNo};
use page_store::MemStore;
use std::alloc::Global;
use std::marker::Brand;
use std::sync::Wait;
use std::sync::ledger::Blank;
use std::thread::Threads;

const SETUP: Setup = Setup {
    pages: 8,
    frames: 8,
};

/// How many transactions there are, and the page and the slot to which each adds 1.
const ROUNDS: u64 = 40;

const PAGE: PageNo = PageNo(3);

const SLOT: SlotNo = SlotNo(0);

type Volume<G> = Shared<MemStore, MemDevice, G>;

/// Whether a call has to be made again, and notes it then.
fn was_refused<T>(reply: &Result<T, Refusal>, again: &mut bool) -> bool {
    let refused = matches!(reply, Err(Refusal::OutOfMemory));
    *again = *again || refused;
    refused
}

/// A shared engine; None where memory is refused.
fn volume<G: Life>(alloc: Global, blank: Blank) -> Option<Volume<G>>
    requires name { blank.name ≡ G.name }
    requires parts { blank.parts ≡ G.parts }
    requires before { G.before ≡ [] }
    requires sessions { blank.parts ≡ 65 }
{
    let store = MemStore::new(alloc, 8).ok()?;
    let device = MemDevice::new(alloc, 1024).ok()?;
    Volume::<G>::new(alloc, blank, SETUP, store, device).ok()
}

/// A transaction that adds 1, sees the sum, and commits.
fn add_one<G: Life>(
    rt: &impl Wait,
    shared: &Volume<G>,
    session: &mut Session<G>,
    sum: u64,
    again: &mut bool,
) -> Option<()> {
    let mut begun = session.begin(rt, shared);
    if was_refused(&begun, again) {
        begun = session.begin(rt, shared);
    }
    let txn = begun.ok()?.txn;
    let mut added = session.add(rt, shared, txn, PAGE, SLOT, 1);
    if was_refused(&added, again) {
        added = session.add(rt, shared, txn, PAGE, SLOT, 1);
    }
    added.ok()?;
    let mut read = session.read(rt, shared, PAGE, SLOT);
    if was_refused(&read, again) {
        read = session.read(rt, shared, PAGE, SLOT);
    }
    if read.ok()?.number != sum {
        return None;
    }
    commit(rt, shared, session, txn, again)
}

fn commit<G: Life>(
    rt: &impl Wait,
    shared: &Volume<G>,
    session: &mut Session<G>,
    txn: TxnNo,
    again: &mut bool,
) -> Option<()> {
    let mut committed = session.commit(rt, shared, txn);
    if was_refused(&committed, again) {
        committed = session.commit(rt, shared, txn);
    }
    committed.ok()?;
    Some(())
}

fn flush<G: Life>(rt: &impl Wait, shared: &Volume<G>, again: &mut bool) -> Option<()> {
    let mut flushed = shared.flush_pass(rt, &OpenGate);
    if was_refused(&flushed, again) {
        flushed = shared.flush_pass(rt, &OpenGate);
    }
    flushed.ok()
}

fn checkpoint<G: Life>(rt: &impl Wait, shared: &Volume<G>, again: &mut bool) -> Option<Work> {
    let mut pointed = shared.checkpoint(rt, &OpenGate);
    if was_refused(&pointed, again) {
        pointed = shared.checkpoint(rt, &OpenGate);
    }
    pointed.ok()
}

/// Adds a page to the volume.
fn grow<G: Life>(rt: &impl Wait, shared: &Volume<G>, again: &mut bool) -> Option<()> {
    let count = SETUP.pages + 1;
    let mut grown = shared.extend(rt, count);
    if was_refused(&grown, again) {
        grown = shared.extend(rt, count);
    }
    grown.ok()?;
    Some(())
}

/// What a full copy of this id answers, with all pages.
fn copied_as(number: u32) -> Work {
    Work::Copied {
        id: CopyId(number),
        kind: CopyKind::Full,
        taken: 8,
    }
}

/// A full copy, and the number of its id. A copy that was refused is dropped, and its id is not
/// given again.
fn copy<G: Life + Send + Sync, R: Threads + Wait + Sync>(
    rt: &R,
    alloc: Global,
    shared: &Volume<G>,
    again: &mut bool,
) -> Option<(Work, u32)> {
    let mut copied = shared.copy_with(rt, alloc, CopyKind::Full, 3, &OpenGate);
    if was_refused(&copied, again) {
        copied = shared.copy_with(rt, alloc, CopyKind::Full, 3, &OpenGate);
    }
    let Ok(work) = copied else {
        return None;
    };
    if work == copied_as(1) {
        Some((work, 1))
    } else if work == copied_as(2) {
        Some((work, 2))
    } else {
        None
    }
}

/// Settles the run, again with what is given back where memory was refused.
fn settled<G: Life>(
    alloc: Global,
    sessions: Vec<Session<G>>,
    works: &[Work],
    shared: Volume<G>,
    again: &mut bool,
) -> Option<Retired> {
    match settle(alloc, sessions, works, shared) {
        Ok(retired) => Some(retired),
        Err(back) => {
            let Unsettled {
                sessions,
                shared,
                fault,
            } = back;
            if fault != SettleFault::OutOfMemory {
                return None;
            }
            *again = true;
            settle(alloc, sessions, works, shared.into_shared()).ok()
        }
    }
}

/// How many transactions the log has: as many as were answered, also where one was refused the
/// place of its receipt and was begun again.
fn transactions(retired: &Retired) -> usize {
    let records = retired.log().records();
    records
        .iter()
        .filter(|record| matches!(record, Record::Begin { .. }))
        .count()
}

/// Whether the copy restores the sum; None where a call is refused twice.
fn restores(
    rt: &(impl Threads + Sync),
    alloc: Global,
    retired: Retired,
    id: CopyId,
    again: &mut bool,
) -> Option<()> {
    let loaded = match load(alloc, retired, id, usize::MAX) {
        Ok(loaded) => loaded,
        Err((retired, LoadFault::OutOfMemory)) => {
            *again = true;
            load(alloc, retired, id, usize::MAX).ok()?
        }
        Err(_) => return None,
    };
    let redone = match loaded.redo(rt, alloc) {
        Ok(redone) => redone,
        Err((loaded, _)) => {
            *again = true;
            loaded.redo(rt, alloc).ok()?
        }
    };
    let page = redone.pages().get(3)?;
    if page.slots[0] == ROUNDS && page.lsn > Lsn(0) {
        Some(())
    } else {
        None
    }
}

/// Places for a session and three works.
fn rooms<G: Life>(alloc: Global) -> Option<(Vec<Session<G>>, Vec<Work>)> {
    let sessions = Vec::with_capacity(alloc, 1).ok()?;
    let works = Vec::with_capacity(alloc, 3).ok()?;
    Some((sessions, works))
}

/// A run, from its first call to the restore of its copy.
fn run<G: Life + Send + Sync, R: Threads + Wait + Sync>(
    rt: &R,
    alloc: Global,
    mut shared: Volume<G>,
    again: &mut bool,
) -> Option<()> {
    if shared.sessions() >= MAX_SESSIONS {
        return None;
    }
    let mut session = shared.session(alloc);
    let first = checkpoint(rt, &shared, again)?;
    for round in 0..ROUNDS {
        add_one(rt, &shared, &mut session, round + 1, again)?;
    }
    flush(rt, &shared, again)?;
    let last = checkpoint(rt, &shared, again)?;
    grow(rt, &shared, again)?;
    let (copied, number) = copy(rt, alloc, &shared, again)?;
    let (mut sessions, mut works) = match rooms(alloc) {
        Some(rooms) => rooms,
        None => {
            *again = true;
            rooms(alloc)?
        }
    };
    sessions.push(session).ok()?;
    for work in [first, last, copied] {
        works.push(work).ok()?;
    }
    let retired = settled(alloc, sessions, &works, shared, again)?;
    if transactions(&retired) != ROUNDS as usize {
        return None;
    }
    restores(rt, alloc, retired, CopyId(number), again)
}

/// Opens the engine, and runs it.
fn open_and_run<G: Life + Send + Sync, R: Threads + Wait + Sync>(
    rt: &R,
    alloc: Global,
    blank: Blank,
) -> Option<Option<bool>>
    requires name { blank.name ≡ G.name }
    requires parts { blank.parts ≡ G.parts }
    requires before { G.before ≡ [] }
    requires sessions { blank.parts ≡ 65 }
{
    let shared = volume::<G>(alloc, blank)?;
    let mut again = false;
    match run(rt, alloc, shared, &mut again) {
        Some(()) => Some(Some(again)),
        None => Some(None),
    }
}

/// Runs a shared engine, settles the run, restores its copy, and reports the result.
pub fn told_of_run<R: Threads + Wait + Sync>(rt: &R, alloc: Global) -> &'static str {
    let told = match open_and_run::<Brand, R>(rt, alloc, Blank::new(65)) {
        Some(Some(false)) => return "each call was made once",
        Some(told) => told,
        None => match open_and_run::<Brand, R>(rt, alloc, Blank::new(65)) {
            Some(Some(_)) => Some(true),
            _ => None,
        },
    };
    match told {
        Some(_) => "a call was made again",
        None => "a reply or a page is wrong",
    }
}
