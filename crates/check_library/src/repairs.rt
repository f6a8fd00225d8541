//! Days of a shared engine on which the page that all sessions change is repaired meanwhile, and the
//! volume grows.

ghost use Rattle.std.specs.Prelude.{[], ◌≡◌};

use aries_core::{Refusal, Setup};
use copy_coverage::Retired;
use copy_vault::{CopyId, CopyKind};
use engine_run::{Life, MAX_SESSIONS, OpenGate, Session, Shared, Work, settle};
use log_store::MemDevice;
use media_restore::load;
use page_core::{Page, PageNo, SlotNo, formatted_pages};
use page_store::MemStore;
use std::alloc::Global;
use std::marker::Brand;
use std::sync::Wait;
use std::sync::ledger::Blank;
use std::thread;
use std::thread::{Threads, join};

const DAYS: u32 = 100;

const SETUP: Setup = Setup {
    pages: 8,
    frames: 8,
};

/// How many pages the volume has in the end.
const GROWN: u32 = 12;

/// Those who work on a day: four have transactions, one writes pages, one repairs a page, and one
/// adds pages.
const HANDS: usize = 7;

/// How many transactions each of the four has, and the slot to which each adds 1.
const ROUNDS: u64 = 50;

const PAGE: PageNo = PageNo(7);

const SLOT: SlotNo = SlotNo(0);

/// How many flush passes there are, and how many repairs.
const PASSES: u32 = 20;

type Volume<G> = Shared<MemStore, MemDevice, G>;

/// One who works on a day, with the refusal that ended it, if there was one.
#[derive(Drop)]
struct Hand<G: Life> {
    session: Session<G>,
    ended: Result<(), Refusal>,
}

impl<G: Life> Hand<G> {
    /// Transactions that each add 1 to the slot.
    fn add(&mut self, rt: &impl Wait, shared: &Volume<G>) -> Result<(), Refusal> {
        for _ in 0..ROUNDS {
            self.add_to(rt, shared, PAGE)?;
        }
        Ok(())
    }

    /// A transaction that adds 1 to the slot of a page.
    fn add_to(&mut self, rt: &impl Wait, shared: &Volume<G>, page: PageNo) -> Result<(), Refusal> {
        let txn = self.session.begin(rt, shared)?.txn;
        self.session.add(rt, shared, txn, page, SLOT, 1)?;
        self.session.commit(rt, shared, txn)?;
        Ok(())
    }

    /// Grows the volume page by page, and changes each page that it adds.
    fn grow(&mut self, rt: &impl Wait, shared: &Volume<G>) -> Result<(), Refusal> {
        for page in SETUP.pages..GROWN {
            shared.extend(rt, page + 1)?;
            self.add_to(rt, shared, PageNo(page))?;
        }
        Ok(())
    }
}

/// Writes the pages that are dirty, pass by pass.
fn flush<G: Life>(rt: &impl Wait, shared: &Volume<G>) -> Result<(), Refusal> {
    for _ in 0..PASSES {
        shared.flush_pass(rt, &OpenGate)?;
    }
    Ok(())
}

/// Repairs the page from copy 1, also where the other one has begun to write it and it is refused.
fn repair<G: Life>(rt: &impl Wait, shared: &Volume<G>) -> Result<(), Refusal> {
    for _ in 0..PASSES {
        match shared.repair(rt, CopyId(1), PAGE) {
            Ok(_) | Err(Refusal::WriteBegun) => {}
            Err(why) => return Err(why),
        }
    }
    Ok(())
}

/// Has all of them work at the same time, beside a copy by three workers, and gives what that
/// answers.
fn work<G: Life + Send + Sync, R: Threads + Wait + Sync>(
    rt: &R,
    alloc: Global,
    shared: &Volume<G>,
    hands: &mut [Hand<G>],
) -> Option<Work> {
    let (_, copied) = join(
        rt,
        || {
            thread::for_each_mut(
                rt,
                hands,
                HANDS,
                &|i, hand: &mut Hand<G>| {
                    hand.ended = match i {
                        0 => flush(rt, shared),
                        1 => repair(rt, shared),
                        2 => hand.grow(rt, shared),
                        _ => hand.add(rt, shared),
                    };
                },
            )
        },
        || shared.copy_with(rt, alloc, CopyKind::Full, 3, &OpenGate),
    );
    copied.ok()
}

/// Whether the pages are those that plain redo of the log makes, with the sums of the day.
fn are_redone(pages: &[Page], plain: &[Page]) -> bool {
    let sum = (HANDS as u64 - 3) * ROUNDS;
    let is_summed = pages
        .iter()
        .any(|page| page.number == PAGE && page.slots[0] == sum);
    let are_added = pages
        .iter()
        .all(|page| page.number.0 < SETUP.pages || page.slots[0] == 1);
    pages == plain && is_summed && are_added
}

/// Whether the second copy restores what the log says; None where memory is refused.
fn restores(rt: &(impl Threads + Sync), alloc: Global, retired: Retired) -> Option<bool> {
    let mut plain = formatted_pages(alloc, GROWN).ok()?;
    for record in retired.log().records() {
        for page in plain.iter_mut() {
            record.redo_on(page);
        }
    }
    let loaded = load(alloc, retired, CopyId(2), usize::MAX).ok()?;
    let redone = loaded.redo(rt, alloc).ok()?;
    Some(are_redone(redone.pages(), &plain))
}

/// A shared engine, and those who work on it.
fn opened<G: Life>(alloc: Global, blank: Blank) -> Option<(Volume<G>, Vec<Hand<G>>)>
    requires name { blank.name ≡ G.name }
    requires parts { blank.parts ≡ G.parts }
    requires before { G.before ≡ [] }
    requires sessions { blank.parts ≡ 65 }
{
    let store = MemStore::new(alloc, SETUP.pages).ok()?;
    let device = MemDevice::new(alloc, 4096).ok()?;
    let mut shared = Volume::<G>::new(alloc, blank, SETUP, store, device).ok()?;
    let mut hands = Vec::new(alloc);
    for _ in 0..HANDS {
        if shared.sessions() >= MAX_SESSIONS {
            return None;
        }
        let session = shared.session(alloc);
        hands
            .push(Hand {
                session,
                ended: Ok(()),
            })
            .ok()?;
    }
    Some((shared, hands))
}

/// A day: a checkpoint, a copy, and then all at the same time. Says whether the run is settled and
/// the second copy restores it; None where a call is refused.
fn day<G: Life + Send + Sync, R: Threads + Wait + Sync>(
    rt: &R,
    alloc: Global,
    blank: Blank,
) -> Option<bool>
    requires name { blank.name ≡ G.name }
    requires parts { blank.parts ≡ G.parts }
    requires before { G.before ≡ [] }
    requires sessions { blank.parts ≡ 65 }
{
    let (shared, mut hands) = opened::<G>(alloc, blank)?;
    let point = shared.checkpoint(rt, &OpenGate).ok()?;
    let first = shared
        .copy_with(rt, alloc, CopyKind::Full, 1, &OpenGate)
        .ok()?;
    let second = work(rt, alloc, &shared, hands.as_mut_slice())?;
    let mut sessions = Vec::with_capacity(alloc, HANDS).ok()?;
    for hand in hands {
        let Hand { session, ended } = hand;
        ended.ok()?;
        sessions.push(session).ok()?;
    }
    let retired = settle(alloc, sessions, &[point, first, second], shared).ok()?;
    restores(rt, alloc, retired)
}

/// Plays the days, and reports the result.
pub fn told_of_repairs<R: Threads + Wait + Sync>(rt: &R, alloc: Global) -> &'static str {
    for _ in 0..DAYS {
        match day::<Brand, R>(rt, alloc, Blank::new(65)) {
            Some(true) => {}
            Some(false) => return "a day is restored otherwise",
            None => return "a call is refused",
        }
    }
    "each day was settled and restored"
}
