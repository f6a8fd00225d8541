//! A copy by two workers of which one meets a fault of the store: the refusal that is answered is
//! that of the lesser worker, also where the other one meets want of memory.

ghost use Rattle.std.specs.Prelude.{[], ◌≡◌};

use aries_core::{Refusal, Setup};
use copy_vault::CopyKind;
use engine_run::{HoldGate, Life, OpenGate, Shared, Work};
use log_store::MemDevice;
use page_core::PageNo;
use page_store::{FaultyStore, MemStore};
use std::alloc::Global;
use std::marker::Brand;
use std::sync::Wait;
use std::sync::atomic::{AtomicU64, Ordering};
use std::sync::ledger::Blank;
use std::thread;
use std::thread::Threads;

const SETUP: Setup = Setup {
    pages: 3,
    frames: 3,
};

/// No read of this page succeeds.
const DAMAGED: PageNo = PageNo(0);

/// How often a take at the gate looks whether it may go on.
const LOOKS: u32 = 100_000;

type Volume<G> = Shared<FaultyStore, MemDevice, G>;

/// A gate at which each of two workers has a page before one of them takes it. The damaged page is
/// taken once the other worker has come with another page, or comes no more.
#[derive(Drop)]
struct Pair {
    came: AtomicU64,
    /// The number of the worker that has the damaged page.
    holder: AtomicU64,
    /// How often the other worker came.
    others: AtomicU64,
}

/// Looks until a word is at least a number, and not for ever.
fn wait_until(word: &AtomicU64, least: u64) {
    for _ in 0..LOOKS {
        if word.load(Ordering::SeqCst) >= least {
            return;
        }
        thread::yield_now();
    }
}

impl HoldGate for Pair {
    fn before(&self, worker: u32, page: PageNo) {
        self.came.fetch_add(1, Ordering::SeqCst);
        if page == DAMAGED {
            self.holder.store(worker as u64, Ordering::SeqCst);
            wait_until(&self.others, 2);
        } else if self.others.fetch_add(1, Ordering::SeqCst) == 0 {
            wait_until(&self.came, 2);
        }
    }
}

impl Pair {
    fn new() -> Pair {
        Pair {
            came: AtomicU64::new(0),
            holder: AtomicU64::new(0),
            others: AtomicU64::new(0),
        }
    }

    /// Whether both workers were refused: the one that has not the damaged page came with one page,
    /// and never with the next.
    fn were_both_refused(&self) -> bool {
        self.came.load(Ordering::SeqCst) == 2 && self.others.load(Ordering::SeqCst) == 1
    }

    /// What the lesser worker was refused where both were.
    fn least_refusal(&self) -> Refusal {
        if self.holder.load(Ordering::SeqCst) == 0 {
            Refusal::StoreFault
        } else {
            Refusal::OutOfMemory
        }
    }

    /// Whether a refusal is one that a copy may have.
    fn is_right(&self, why: Refusal) -> bool {
        if self.were_both_refused() {
            why == self.least_refusal()
        } else {
            matches!(why, Refusal::StoreFault | Refusal::OutOfMemory)
        }
    }
}

/// A shared engine over a store with a damaged page; None where memory is refused.
fn volume<G: Life>(alloc: Global, blank: Blank) -> Option<Volume<G>>
    requires name { blank.name ≡ G.name }
    requires parts { blank.parts ≡ G.parts }
    requires before { G.before ≡ [] }
    requires sessions { blank.parts ≡ 65 }
{
    let mut store = FaultyStore::new(alloc, MemStore::new(alloc, SETUP.pages).ok()?, 0).ok()?;
    store.damage(DAMAGED);
    let device = MemDevice::new(alloc, 16).ok()?;
    Volume::<G>::new(alloc, blank, SETUP, store, device).ok()
}

/// A checkpoint, once more where memory was refused, and whether it was.
fn checkpoint<G: Life>(rt: &impl Wait, shared: &Volume<G>) -> (Result<Work, Refusal>, bool) {
    let pointed = shared.checkpoint(rt, &OpenGate);
    if pointed == Err(Refusal::OutOfMemory) {
        (shared.checkpoint(rt, &OpenGate), true)
    } else {
        (pointed, false)
    }
}

/// Makes the copy, and tells whether memory was refused; None at a wrong answer.
fn copy<G: Life + Send + Sync, R: Threads + Wait + Sync>(
    rt: &R,
    alloc: Global,
    shared: &Volume<G>,
) -> Option<bool> {
    let (pointed, again) = checkpoint(rt, shared);
    pointed.ok()?;
    let gate = Pair::new();
    let Err(why) = shared.copy_with(rt, alloc, CopyKind::Full, 2, &gate) else {
        return None;
    };
    if gate.is_right(why) {
        Some(again || why == Refusal::OutOfMemory)
    } else {
        None
    }
}

/// Opens the engine, and makes the copy; None where it is not opened.
fn open_and_copy<G: Life + Send + Sync, R: Threads + Wait + Sync>(
    rt: &R,
    alloc: Global,
    blank: Blank,
) -> Option<Option<bool>>
    requires name { blank.name ≡ G.name }
    requires parts { blank.parts ≡ G.parts }
    requires before { G.before ≡ [] }
    requires sessions { blank.parts ≡ 65 }
{
    let shared = volume::<G>(alloc, blank)?;
    Some(copy(rt, alloc, &shared))
}

/// Makes a copy that is refused, and reports whether its refusal is the right one.
pub fn told_of_workers<R: Threads + Wait + Sync>(rt: &R, alloc: Global) -> &'static str {
    let told = match open_and_copy::<Brand, R>(rt, alloc, Blank::new(65)) {
        Some(Some(false)) => return "each call was made once",
        Some(told) => told,
        None => open_and_copy::<Brand, R>(rt, alloc, Blank::new(65)).flatten(),
    };
    match told {
        Some(_) => "a call was made again",
        None => "a reply or a page is wrong",
    }
}
