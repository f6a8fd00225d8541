//! What no clause says of a pool: that each call succeeds, what a series of calls answers, and what
//! is stored after a fault of the store.

ghost use Rattle.log_records.specs.Log.{IsPageCount};

use crate::asserts::{same, same_at};
use buffer_pool::Pool;
use log_records::{DirtyPage, DirtyPages, Record};
use page_core::{Change, Lsn, PageNo, SlotNo, TxnNo};
use page_store::{FaultyStore, MemStore, PageStore};
use std::alloc::{AllocError, Global};
use std::marker::Model;
use std::process::Abort;

/// A call, and what it is to answer.
#[derive(Clone, Copy, Debug)]
enum Row {
    /// The next record sets slot 0 of a page to a number.
    Set(u32, u64),
    /// So does one of each page, in their order.
    SetEach(u64),
    /// The LSN of a page as it is now, and the number in its slot 0.
    Current(u32, u64, u64),
    /// The RecLSN of a page, and whether it is being written.
    State(u32, Option<u64>, bool),
    /// The LSN of the image.
    WriteBegin(u32, u64),
    /// The LSN of the image, or `None` at a fault.
    WriteEnd(u32, Option<u64>),
    /// The LSN of the page that is stored anew, as it is now, or `None` at a fault.
    Repair(u32, Option<u64>),
    /// The LSN of the stored page and the number in its slot 0, or `None` at a fault.
    Stored(u32, Option<(u64, u64)>),
    DirtyFrom(u32, Option<DirtyPages>),
    /// What comes of a page that is needed.
    Bring(u32, Brought),
    /// How many calls it takes to go over all dirty pages, and how many these are.
    Walk(u32, u32),
}

/// What comes of a page that is needed in memory.
#[derive(Clone, Copy, Debug, PartialEq, Eq)]
enum Brought {
    /// It is there.
    Resident,
    /// It was fetched.
    Fetched,
    /// No frame can be had for it.
    NoFrame,
    /// The store failed.
    Fault,
}

/// A pool that follows a log, and how many records the log has.
#[derive(Drop)]
struct Play<S: PageStore> {
    pool: Pool<S>,
    records: u64,
}

impl<S: PageStore> Model for Play<S> {
    ghost use Rattle.std.specs.Prelude.{ℕ, ◌≡◌, length};
    ghost use Rattle.log_records.specs.Log.{Log};
    ghost use Rattle.buffer_pool.specs.Pool.{IsPoolOf};

    ghost Value = { ℕ };

    ghost view = { λ it. it.records };

    ghost invariant = { λ it.
        (log : Log) × (IsPoolOf S.stored log it.pool × (length log.records ≡ it.records)) };
}

impl<S: PageStore> Play<S> {
    /// The log's first record: a transaction begins.
    fn begin(&mut self, rt: &impl Abort) {
        assert_eq!(rt; self.records, 0);
        self.pool.change(&Record::Begin {
            lsn: Lsn(64),
            txn: TxnNo(1),
        });
        self.records = 1;
    }

    fn set(&mut self, rt: &impl Abort, page: u32, number: u64) {
        assert!(rt; 1 <= self.records && self.records < 1_000_000 && page < self.pool.pages());
        assert!(rt; self.pool.is_resident(PageNo(page)));
        self.pool.change(&Record::Update {
            lsn: Lsn(64 * (self.records + 1)),
            txn: TxnNo(1),
            prev: Lsn(64),
            page: PageNo(page),
            slot: SlotNo(0),
            change: Change::Set {
                before: 0,
                after: number,
            },
        });
        self.records += 1;
    }

    fn current(&self, rt: &impl Abort, page: u32) -> (u64, u64) {
        assert!(rt; self.pool.is_resident(PageNo(page)));
        let now = self.pool.current(PageNo(page));
        (now.lsn.0, now.slots[0])
    }

    fn state(&self, rt: &impl Abort, page: u32) -> (Option<u64>, bool) {
        assert!(rt; page < self.pool.pages());
        let rec_lsn = self.pool.rec_lsn(PageNo(page));
        (rec_lsn.map(|lsn| lsn.0), self.pool.is_writing(PageNo(page)))
    }

    fn write_begin(&mut self, rt: &impl Abort, page: u32) -> Result<u64, AllocError> {
        assert!(rt; page < self.pool.pages() && !self.pool.is_writing(PageNo(page)));
        assert!(rt; self.pool.is_resident(PageNo(page)));
        assert!(rt; self.pool.rec_lsn(PageNo(page)).is_some());
        let image = self.pool.image_of(PageNo(page))?;
        Ok(self.pool.write_begin(image).0)
    }

    fn write_end(&mut self, rt: &impl Abort, page: u32) -> Option<u64> {
        assert!(rt; page < self.pool.pages() && self.pool.is_writing(PageNo(page)));
        match self.pool.write_end(PageNo(page)) {
            Ok(lsn) => Some(lsn.0),
            Err(_) => None,
        }
    }

    /// Stores a page anew that a frame has.
    fn repair(&mut self, rt: &impl Abort, page: u32) -> Option<u64> {
        assert!(rt; page < self.pool.pages() && !self.pool.is_writing(PageNo(page)));
        assert!(rt; self.pool.is_resident(PageNo(page)));
        let rebuilt = self.pool.current(PageNo(page)).copy();
        match self.pool.repair(PageNo(page), &rebuilt) {
            Ok(()) => Some(rebuilt.lsn.0),
            Err(_) => None,
        }
    }

    fn stored(&mut self, rt: &impl Abort, page: u32) -> Option<(u64, u64)> {
        assert!(rt; page < self.pool.pages());
        match self.pool.stored(PageNo(page)) {
            Ok(stored) => Some((stored.lsn.0, stored.slots[0])),
            Err(_) => None,
        }
    }

    fn bring(&mut self, rt: &impl Abort, page: u32) -> Result<Brought, AllocError> {
        assert!(rt; page < self.pool.pages());
        let number = PageNo(page);
        if self.pool.is_resident(number) {
            return Ok(Brought::Resident);
        }
        if self.pool.is_full() {
            return Ok(Brought::NoFrame);
        }
        self.pool.make_room()?;
        match self.pool.fetch(number) {
            Ok(()) => Ok(Brought::Fetched),
            Err(_) => Ok(Brought::Fault),
        }
    }

    fn walk(&self, rt: &impl Abort) -> (u32, u32) {
        let (mut cursor, mut calls, mut pages) = (0, 0, 0);
        for _ in 0..self.pool.pages() {
            let Some(dirty) = self.pool.dirty_from(PageNo(cursor)) else {
                break;
            };
            let (first, last, count) = match dirty {
                DirtyPages::One(a) => (a.page, a.page, 1),
                DirtyPages::Two(a, b) => (a.page, b.page, 2),
                DirtyPages::Three(a, _, c) => (a.page, c.page, 3),
            };
            assert!(rt; cursor <= first && first <= last && last < self.pool.pages());
            assert!(rt; calls < 100_000 && pages < 100_000);
            cursor = last + 1;
            calls += 1;
            pages += count;
        }
        same(rt, &self.pool.dirty_from(PageNo(cursor)), &None);
        (calls, pages)
    }

    fn follow(&mut self, rt: &impl Abort, row: Row) -> Result<(), AllocError> {
        match row {
            Row::Set(page, number) => self.set(rt, page, number),
            Row::SetEach(number) => {
                for page in 0..self.pool.pages() {
                    self.set(rt, page, number);
                }
            }
            Row::Current(page, lsn, number) => {
                same_at(rt, &self.current(rt, page), &(lsn, number), &row);
            }
            Row::State(page, rec_lsn, is_writing) => {
                same_at(rt, &self.state(rt, page), &(rec_lsn, is_writing), &row);
            }
            Row::WriteBegin(page, lsn) => {
                same_at(rt, &self.write_begin(rt, page)?, &lsn, &row);
            }
            Row::WriteEnd(page, lsn) => {
                same_at(rt, &self.write_end(rt, page), &lsn, &row);
            }
            Row::Repair(page, lsn) => {
                same_at(rt, &self.repair(rt, page), &lsn, &row);
            }
            Row::Stored(page, stored) => {
                same_at(rt, &self.stored(rt, page), &stored, &row);
            }
            Row::DirtyFrom(cursor, dirty) => {
                same_at(rt, &self.pool.dirty_from(PageNo(cursor)), &dirty, &row);
            }
            Row::Bring(page, brought) => {
                same_at(rt, &self.bring(rt, page)?, &brought, &row);
            }
            Row::Walk(calls, pages) => {
                same_at(rt, &self.walk(rt), &(calls, pages), &row);
            }
        }
        Ok(())
    }
}

impl<S: PageStore> Play<S> {
    fn follow_each(&mut self, rt: &impl Abort, rows: &[Row]) -> Result<(), AllocError> {
        for &row in rows {
            self.follow(rt, row)?;
        }
        Ok(())
    }
}

/// Plays rows on a new pool with a frame for each of so many pages, whose log has a Begin, and
/// whose store fails at its `k`-th call.
fn run(rt: &impl Abort, alloc: Global, pages: u32, k: u64, rows: &[Row]) -> Result<(), AllocError>
    requires { IsPageCount pages }
{
    let store = FaultyStore::new(alloc, MemStore::new(alloc, pages)?, k)?;
    let pool = match Pool::whole(alloc, store) {
        Ok(pool) => pool,
        Err((refused, _)) => return Err(refused),
    };
    let mut play = Play { pool, records: 0 };
    play.begin(rt);
    let done = play.follow_each(rt, rows);
    drop(play);
    done
}

/// Plays rows on a pool of so many frames, in which no page is resident.
fn run_in_frames(
    rt: &impl Abort,
    alloc: Global,
    pages: u32,
    frames: u32,
    k: u64,
    rows: &[Row],
) -> Result<(), AllocError>
    requires { IsPageCount pages }
{
    let store = FaultyStore::new(alloc, MemStore::new(alloc, pages)?, k)?;
    let pool = match Pool::new(alloc, store, frames) {
        Ok(pool) => pool,
        Err((refused, _)) => return Err(refused),
    };
    let mut play = Play { pool, records: 0 };
    play.begin(rt);
    let done = play.follow_each(rt, rows);
    drop(play);
    done
}

fn entry(page: u32, rec_lsn: u64) -> DirtyPage {
    DirtyPage { page, rec_lsn }
}

#[test]
fn a_page_is_written(rt: HostRuntime) -> Result<(), AllocError> {
    let rows = [
        Row::State(1, None, false),
        Row::Current(1, 0, 0),
        Row::DirtyFrom(0, None),
        Row::Set(1, 5),
        Row::State(1, Some(128), false),
        Row::Current(1, 128, 5),
        Row::Stored(1, Some((0, 0))),
        Row::WriteBegin(1, 128),
        Row::State(0, None, false),
        Row::State(1, Some(128), true),
        Row::WriteEnd(1, Some(128)),
        Row::State(1, None, false),
        Row::DirtyFrom(0, None),
        Row::Stored(1, Some((128, 5))),
    ];
    run(&rt, rt.alloc(), 2, 0, &rows)
}

#[test]
fn a_page_changes_during_its_write(rt: HostRuntime) -> Result<(), AllocError> {
    let rows = [
        Row::Set(0, 5),
        Row::WriteBegin(0, 128),
        Row::Set(0, 6),
        Row::Set(0, 7),
        Row::State(0, Some(128), true),
        Row::WriteEnd(0, Some(128)),
        Row::DirtyFrom(0, Some(DirtyPages::One(entry(0, 192)))),
        Row::Stored(0, Some((128, 5))),
        Row::Current(0, 256, 7),
    ];
    run(&rt, rt.alloc(), 1, 0, &rows)
}

#[test]
fn dirty_pages_come_in_order(rt: HostRuntime) -> Result<(), AllocError> {
    let three = DirtyPages::Three(entry(0, 192), entry(1, 384), entry(2, 320));
    let two = DirtyPages::Two(entry(4, 128), entry(5, 256));
    let rows = [
        Row::Set(4, 9),
        Row::Set(0, 9),
        Row::Set(5, 9),
        Row::Set(2, 9),
        Row::Set(1, 9),
        Row::Set(4, 8),
        Row::DirtyFrom(0, Some(three)),
        Row::DirtyFrom(3, Some(two)),
        Row::DirtyFrom(5, Some(DirtyPages::One(entry(5, 256)))),
        Row::DirtyFrom(6, None),
        Row::DirtyFrom(u32::MAX, None),
    ];
    run(&rt, rt.alloc(), 7, 0, &rows)
}

/// A write that the store fails at may be ended again.
#[test]
fn a_write_fails(rt: HostRuntime) -> Result<(), AllocError> {
    let rows = [
        Row::Set(0, 5),
        Row::WriteBegin(0, 128),
        Row::Set(0, 6),
        Row::WriteEnd(0, None),
        Row::State(0, Some(128), true),
        Row::WriteEnd(0, Some(128)),
        Row::State(0, Some(192), false),
        Row::Stored(0, Some((128, 5))),
    ];
    run(&rt, rt.alloc(), 1, 1, &rows)
}

/// A repair that the store fails at may be made again. The frame is as it was.
#[test]
fn a_page_is_stored_anew(rt: HostRuntime) -> Result<(), AllocError> {
    let rows = [
        Row::Set(0, 5),
        Row::Repair(0, None),
        Row::State(0, Some(128), false),
        Row::Repair(0, Some(128)),
        Row::State(0, None, false),
        Row::Stored(0, Some((128, 5))),
        Row::Current(0, 128, 5),
        Row::Repair(0, Some(128)),
        Row::Set(0, 6),
        Row::State(0, Some(192), false),
    ];
    run(&rt, rt.alloc(), 1, 1, &rows)
}

#[test]
fn a_read_fails(rt: HostRuntime) -> Result<(), AllocError> {
    let rows = [
        Row::Set(0, 5),
        Row::WriteBegin(0, 128),
        Row::WriteEnd(0, Some(128)),
        Row::Stored(0, None),
        Row::Stored(0, Some((128, 5))),
    ];
    run(&rt, rt.alloc(), 1, 2, &rows)
}

/// Of the largest pool no page is dirty, then the last, none again, then each, and then each but
/// the first of a word.
#[test]
fn the_largest_pool_is_walked(rt: HostRuntime) -> Result<(), AllocError> {
    let rows = [
        Row::Walk(0, 0),
        Row::Set(65_535, 5),
        Row::DirtyFrom(0, Some(DirtyPages::One(entry(65_535, 128)))),
        Row::Walk(1, 1),
        Row::WriteBegin(65_535, 128),
        Row::WriteEnd(65_535, Some(128)),
        Row::Stored(65_535, Some((128, 5))),
        Row::Walk(0, 0),
        Row::SetEach(6),
        Row::Walk(21_846, 65_536),
        Row::WriteBegin(4_096, 262_336),
        Row::WriteEnd(4_096, Some(262_336)),
        Row::State(4_096, None, false),
        Row::Walk(21_845, 65_535),
    ];
    run(&rt, rt.alloc(), 65_536, 0, &rows)
}

/// Where no frame is free, the clean page goes that was fetched earliest; that it was needed again
/// moves nothing. Where the store fails, none goes.
#[test]
fn a_page_is_given_up_for_another(rt: HostRuntime) -> Result<(), AllocError> {
    let rows = [
        Row::Bring(0, Brought::Fetched),
        Row::Bring(1, Brought::Fetched),
        Row::Bring(0, Brought::Resident),
        Row::Bring(2, Brought::Fetched),
        Row::Bring(0, Brought::Fault),
        Row::Bring(1, Brought::Resident),
        Row::Bring(2, Brought::Resident),
        Row::Bring(0, Brought::Fetched),
        Row::Bring(2, Brought::Resident),
        Row::Bring(1, Brought::Fetched),
        Row::Bring(0, Brought::Resident),
    ];
    run_in_frames(&rt, rt.alloc(), 3, 2, 4, &rows)
}

/// A dirty page keeps its frame, also while it is being written.
#[test]
fn a_dirty_page_keeps_its_frame(rt: HostRuntime) -> Result<(), AllocError> {
    let rows = [
        Row::Bring(0, Brought::Fetched),
        Row::Set(0, 5),
        Row::Bring(1, Brought::NoFrame),
        Row::WriteBegin(0, 128),
        Row::Bring(1, Brought::NoFrame),
        Row::Set(0, 6),
        Row::WriteEnd(0, Some(128)),
        Row::Bring(1, Brought::NoFrame),
        Row::WriteBegin(0, 192),
        Row::WriteEnd(0, Some(192)),
        Row::Bring(1, Brought::Fetched),
        Row::Current(1, 0, 0),
        Row::Bring(0, Brought::Fetched),
        Row::Current(0, 192, 6),
    ];
    run_in_frames(&rt, rt.alloc(), 2, 1, 0, &rows)
}

/// A page that was dirty goes as soon as its turn by the order of fetch comes.
#[test]
fn dirty_pages_are_passed_over(rt: HostRuntime) -> Result<(), AllocError> {
    let rows = [
        Row::Bring(2, Brought::Fetched),
        Row::Bring(0, Brought::Fetched),
        Row::Bring(3, Brought::Fetched),
        Row::Set(2, 5),
        Row::Bring(1, Brought::Fetched),
        Row::Bring(2, Brought::Resident),
        Row::Bring(3, Brought::Resident),
        Row::WriteBegin(2, 128),
        Row::WriteEnd(2, Some(128)),
        Row::Bring(0, Brought::Fetched),
        Row::Bring(3, Brought::Resident),
        Row::Bring(1, Brought::Resident),
        Row::Bring(2, Brought::Fetched),
        Row::Bring(1, Brought::Resident),
        Row::Bring(0, Brought::Resident),
        Row::Current(2, 128, 5),
        Row::Bring(3, Brought::Fetched),
        Row::Bring(1, Brought::Fetched),
    ];
    run_in_frames(&rt, rt.alloc(), 4, 3, 0, &rows)
}
