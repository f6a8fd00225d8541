//! Which pages were changed after a copy had taken them, and before it was sealed.

use crate::accounts::PAGES;
use crate::in_memory::{BEFORE_INCREMENTAL, TRANSFERS};
use imgcopy_engine::{HoldGate, PageNo};
use std::alloc::{AllocError, Global};
use std::sync::atomic::{AtomicBool, AtomicU64, Ordering};
use std::thread;

/// How many transfers are made between two takes of a worker, as far as there are any left.
const TRANSFERS_BETWEEN: u64 = 2;

/// How often one who waits looks at most. Then it goes on without what it has waited for.
const LOOKS: u32 = 100_000;

/// How many workers a copy has at most.
const WORKERS: u32 = 64;

/// How far a copy is, and which pages were changed behind it.
#[derive(Drop)]
struct Progress {
    /// How many times a worker has come for a page.
    came: AtomicU64,
    /// How many takes have begun. Before the last one has, the copy is not sealed.
    begun: AtomicU64,
    /// For each worker the page that it takes, plus 1; and 0 before its first one.
    at: Vec<AtomicU64>,
    /// Each page whose worker has come for another one: it has taken this one.
    taken: PageMarks,
    /// Each page of which a change is known that came in between.
    changed: PageMarks,
}

/// A mark for each page.
#[derive(Drop)]
struct PageMarks {
    marks: Vec<AtomicBool>,
}

impl PageMarks {
    fn new(alloc: Global) -> Result<PageMarks, AllocError> {
        let mut marks = Vec::new(alloc);
        for _ in 0..PAGES {
            marks.push(AtomicBool::new(false))?;
        }
        Ok(PageMarks { marks })
    }

    fn mark(&self, page: PageNo) {
        if let Some(mark) = self.marks.get(page.0 as usize) {
            mark.store(true, Ordering::SeqCst);
        }
    }

    fn is_marked(&self, page: PageNo) -> bool {
        match self.marks.get(page.0 as usize) {
            Some(mark) => mark.load(Ordering::SeqCst),
            None => false,
        }
    }

    fn count(&self) -> u32 {
        let mut count = 0u32;
        for page in 0..PAGES {
            if self.is_marked(PageNo(page)) {
                count = count.saturating_add(1);
            }
        }
        count
    }
}

impl Progress {
    fn new(alloc: Global) -> Result<Progress, AllocError> {
        let mut at = Vec::new(alloc);
        for _ in 0..WORKERS {
            at.push(AtomicU64::new(0))?;
        }
        Ok(Progress {
            came: AtomicU64::new(0),
            begun: AtomicU64::new(0),
            at,
            taken: PageMarks::new(alloc)?,
            changed: PageMarks::new(alloc)?,
        })
    }

    /// A worker has come for this page, so it has taken the one before.
    fn come_for(&self, worker: u32, page: PageNo) {
        self.came.fetch_add(1, Ordering::SeqCst);
        let Some(at) = self.at.get(worker as usize) else {
            return;
        };
        let before = at.swap(page.0 as u64 + 1, Ordering::SeqCst);
        if before > 0 && before <= PAGES as u64 {
            self.taken.mark(PageNo(before as u32 - 1));
        }
    }

    /// Notes that this page was changed, and had been taken before. Where the last take has begun,
    /// nothing is noted, since the copy may have been sealed before the change.
    fn note_change(&self, page: PageNo) {
        if self.begun.load(Ordering::SeqCst) < PAGES as u64 {
            self.changed.mark(page);
        }
    }
}

/// Looks until a word is at least a number, and not for ever.
fn wait_until(word: &AtomicU64, least: u64) {
    for _ in 0..LOOKS {
        if word.load(Ordering::SeqCst) >= least {
            return;
        }
        thread::yield_now();
    }
}

/// The copies, in the order in which they are made.
#[derive(Clone, Copy)]
pub enum Which {
    Full,
    Incremental,
}

/// What those who change pages and those who copy them tell one another.
#[derive(Drop)]
pub struct Watch {
    /// How many transfers were made.
    made: AtomicU64,
    tellers: u32,
    full: Progress,
    incremental: Progress,
}

impl Watch {
    /// A watch over so many tellers, who have made no transfer. An `Err` comes where
    /// memory is refused.
    pub fn new(alloc: Global, tellers: u32) -> Result<Watch, AllocError> {
        Ok(Watch {
            made: AtomicU64::new(0),
            tellers,
            full: Progress::new(alloc)?,
            incremental: Progress::new(alloc)?,
        })
    }

    fn progress(&self, which: Which) -> &Progress {
        match which {
            Which::Full => &self.full,
            Which::Incremental => &self.incremental,
        }
    }

    /// A transfer was made.
    pub fn note_transfer(&self) {
        self.made.fetch_add(1, Ordering::SeqCst);
    }

    /// How many tellers there are.
    pub fn tellers(&self) -> u64 {
        self.tellers as u64
    }

    /// How many transfers were made.
    pub fn made(&self) -> u64 {
        self.made.load(Ordering::SeqCst)
    }

    /// Waits until a worker has come for the first page of this copy, and not for ever.
    pub fn wait_for(&self, which: Which) {
        wait_until(&self.progress(which).came, 1);
    }

    /// What is looked up before a page is changed: which copies have taken it.
    pub fn before_change(&self, page: PageNo) -> Behind {
        Behind {
            full: self.full.taken.is_marked(page),
            incremental: self.incremental.taken.is_marked(page),
        }
    }

    /// Notes that the page was changed since it was looked up.
    pub fn after_change(&self, page: PageNo, behind: Behind) {
        if behind.full {
            self.full.note_change(page);
        }
        if behind.incremental {
            self.incremental.note_change(page);
        }
    }

    /// How many pages were changed after this copy had taken them and before it was sealed, as far
    /// as that is known for sure: of a worker's last page it is not, nor of the time after the last
    /// take has begun.
    pub fn changed_behind(&self, which: Which) -> u32 {
        self.progress(which).changed.count()
    }

    /// Has some transfers come first, as far as there are any before the next copy begins, and does
    /// not wait for ever.
    fn let_others(&self, which: Which) {
        let each = match which {
            Which::Full => BEFORE_INCREMENTAL,
            Which::Incremental => TRANSFERS,
        };
        let made = self.made.load(Ordering::SeqCst);
        let most = self.tellers as u64 * each as u64;
        wait_until(&self.made, made.saturating_add(TRANSFERS_BETWEEN).min(most));
    }
}

/// Which copies have a page already.
#[derive(Clone, Copy)]
pub struct Behind {
    full: bool,
    incremental: bool,
}

/// The gate of a copy: it has others come first, and notes how far the copy is.
#[derive(Clone, Copy)]
pub struct Pace<'a> {
    pub watch: &'a Watch,
    pub which: Which,
}

impl HoldGate for Pace<'_> {
    fn before(&self, worker: u32, page: PageNo) {
        let progress = self.watch.progress(self.which);
        progress.come_for(worker, page);
        self.watch.let_others(self.which);
        progress.begun.fetch_add(1, Ordering::SeqCst);
    }
}
