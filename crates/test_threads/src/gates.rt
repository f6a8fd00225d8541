//! Gates: a hold that waits at one, outside the lock, and others that are told what goes through.

use engine_run::HoldGate;
use page_core::PageNo;
use std::process::Abort;
use std::sync::atomic::{AtomicU64, Ordering};
use std::thread;

/// How often a waiting thread looks, with a yield between two looks, before it gives up.
pub(crate) const LOOKS: u64 = 10_000_000;

/// Waits until a word is at least a number, and says whether it came to that.
pub(crate) fn wait_until(word: &AtomicU64, least: u64) -> bool {
    for _ in 0..LOOKS {
        if word.load(Ordering::SeqCst) >= least {
            return true;
        }
        thread::yield_now();
    }
    false
}

/// A gate that is closed to one hold, until another thread has made its calls.
#[derive(Drop)]
pub(crate) struct ClosedGate {
    /// The number of this hold, from 1 on.
    hold: u64,
    /// How many holds came to the gate.
    came: AtomicU64,
    /// 1 once the calls were made.
    made: AtomicU64,
    /// 1 where the hold waited in vain.
    late: AtomicU64,
}

impl ClosedGate {
    pub(crate) fn new(hold: u64) -> ClosedGate {
        ClosedGate {
            hold,
            came: AtomicU64::new(0),
            made: AtomicU64::new(0),
            late: AtomicU64::new(0),
        }
    }

    /// Waits until the hold is at the gate.
    pub(crate) fn wait_for_hold(&self, rt: &impl Abort) {
        assert!(rt;
            wait_until(&self.came, self.hold),
            "no hold came to the gate"
        );
    }

    pub(crate) fn open(&self) {
        self.made.store(1, Ordering::SeqCst);
    }

    /// Asserts that the gate was opened to the hold that waited.
    pub(crate) fn assert_opened(&self, rt: &impl Abort) {
        assert_eq!(rt;
            self.late.load(Ordering::SeqCst),
            0,
            "a hold waited in vain"
        );
    }
}

impl HoldGate for ClosedGate {
    fn before(&self, _worker: u32, _page: PageNo) {
        let came = self.came.fetch_add(1, Ordering::SeqCst);
        if came.wrapping_add(1) == self.hold && !wait_until(&self.made, 1) {
            self.late.store(1, Ordering::SeqCst);
        }
    }
}

/// Words that count from 0 on.
fn words(rt: &(impl Abort + AllocGlobal), count: u32) -> Vec<AtomicU64> {
    let mut words = Vec::new(rt.alloc());
    for _ in 0..count {
        words
            .push(AtomicU64::new(0))
            .expect(rt, "memory for a gate");
    }
    words
}

/// A gate that counts how often it was told each worker and each page.
#[derive(Drop)]
pub(crate) struct CountingGate {
    workers: Vec<AtomicU64>,
    pages: Vec<AtomicU64>,
}

impl CountingGate {
    pub(crate) fn new(rt: &(impl Abort + AllocGlobal), workers: u32, pages: u32) -> CountingGate {
        CountingGate {
            workers: words(rt, workers),
            pages: words(rt, pages),
        }
    }

    /// Asserts that it was told each page so often, and no others.
    pub(crate) fn assert_pages(&self, rt: &impl Abort, counts: &[u64]) {
        assert_counts(rt, &self.pages, counts);
    }

    /// Asserts that it was told each worker so often, and no others.
    pub(crate) fn assert_workers(&self, rt: &impl Abort, counts: &[u64]) {
        assert_counts(rt, &self.workers, counts);
    }

    /// Asserts that it was told each worker.
    pub(crate) fn assert_each_worker(&self, rt: &impl Abort) {
        for word in &self.workers {
            assert!(rt;
                word.load(Ordering::SeqCst) > 0,
                "a worker has come to no hold"
            );
        }
    }
}

fn assert_counts(rt: &impl Abort, words: &[AtomicU64], counts: &[u64]) {
    assert_eq!(rt; words.len(), counts.len());
    for (word, count) in words.iter().zip(counts) {
        assert_eq!(rt; word.load(Ordering::SeqCst), *count);
    }
}

/// Counts at this place, if there is one.
fn count_at(words: &[AtomicU64], index: u32) {
    if let Some(word) = words.get(index as usize) {
        word.fetch_add(1, Ordering::SeqCst);
    }
}

impl HoldGate for CountingGate {
    fn before(&self, worker: u32, page: PageNo) {
        count_at(&self.workers, worker);
        count_at(&self.pages, page.0);
    }
}
