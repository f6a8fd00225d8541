//! Losers that are found from the last checkpoint on, and redo of each page by a list of its own,
//! compared with what a second reader finds from a log's start.

ghost use Rattle.log_rules.specs.Checkpoint.{IsCompleteCheckpoint};
ghost use Rattle.log_rules.specs.Linked.{IsLinked};
ghost use Rattle.std.specs.Prelude.{◌≡◌};

use super::retired;
use super::sweeps::assert_images;
use crate::asserts::same_at;
use crate::calls::Row;
use crate::engine::{failing_device, failing_store};
use crate::rows;
use aries_core::{Answer, Engine, Event, Setup};
use copy_coverage::Retired;
use log_records::Record;
use log_store::{LogImage, Master};
use loser_undo::losers;
use page_core::{Lsn, Page, PageNo, SlotNo, TxnNo, formatted_pages};
use page_redo::{by_page, redo_by_page};
use std::process::Abort;
use std::thread::Threads;
use txn_table::Losers;

/// The last checkpoint of what an engine left.
fn master_of(rt: &impl Abort, retired: &Retired) -> Master
    ensures linked { IsLinked retired.now.log.records }
    ensures complete { IsCompleteCheckpoint retired.now.log.records result.begin result.end }
{
    retired.master().expect(rt, "a checkpoint")
}

fn losers_of(rt: &(impl Abort + AllocGlobal), retired: &Retired) -> Losers {
    let master = master_of(rt, retired);
    losers(rt.alloc(), retired.log(), &master).expect(rt, "memory for losers")
}

/// A loser: its number, the LSN of its last record, and those of its pending changes.
type Shown = (u32, u64, &'static [u64]);

/// It commits between the begin of a checkpoint and its entry, so it has none.
const ENDED_BEFORE_ITS_ENTRY: Row = Row {
    pages: 1,
    parts: &[
        "
        begin -> began 1 at 64
        ckpt -> lsn 128
        commit 1 -> lsn 192
        gather -> more
        gather -> done
        endckpt -> point 128 256 128
    ",
    ],
};

/// It begins behind the last step of the gather, so it has no entry.
const BEGUN_BEHIND_THE_GATHER: Row = Row {
    pages: 1,
    parts: &[
        "
        ckpt -> lsn 64
        gather -> more
        gather -> done
        begin -> began 1 at 128
        add 1 0 0 5 -> lsn 192
        endckpt -> point 64 256 64
    ",
    ],
};

/// In the chain one of two changes is compensated: its UndoNxt leads to the other.
static LOSERS: [(Row, &[Shown]); 5] = [
    (ENDED_BEFORE_ITS_ENTRY, &[]),
    (BEGUN_BEHIND_THE_GATHER, &[(1, 192, &[192])]),
    (rows::CHAIN, &[(1, 640, &[256])]),
    (
        rows::THREE_LOSERS,
        &[(1, 512, &[384, 512]), (2, 448, &[448]), (3, 320, &[])],
    ),
    (rows::ADDED_AND_SET, &[(1, 512, &[320, 512])]),
];

/// Asserts that a loser is as it is to be.
fn assert_loser(rt: &impl Abort, found: &Losers, place: usize, txn: u32, last: u64) {
    let is = found
        .state_at(place)
        .map(|state| (state.txn.0, state.last.0));
    same_at(rt, &is, &Some((txn, last)), &place);
}

/// Asserts that these are the LSNs of what a loser has pending.
fn assert_pending(rt: &impl Abort, found: &Losers, place: usize, lsns: &[u64]) {
    let pending = found.state_at(place).map(|state| state.pending);
    same_at(rt, &pending.unwrap_or(0), &lsns.len(), &place);
    for (index, lsn) in lsns.iter().enumerate() {
        let change = found.pending_at(place, index);
        same_at(rt, &change.map(|change| change.lsn.0), &Some(*lsn), &place);
    }
}

#[test]
fn losers_are_found_from_a_checkpoint_on(rt: HostRuntime) {
    for (row, shown) in &LOSERS {
        let retired = retired(&rt, *row, 0);
        let found = losers_of(&rt, &retired);
        same_at(&rt, &found.count(), &shown.len(), &row.parts);
        for (place, (txn, last, pending)) in shown.iter().enumerate() {
            assert_loser(&rt, &found, place, *txn, *last);
            assert_pending(&rt, &found, place, pending);
        }
        drop(found);
        drop(retired);
    }
}

/// The next of a series of numbers that look random.
fn shifted(number: u64) -> u64 {
    let once = number ^ (number << 13);
    let twice = once ^ (once >> 7);
    twice ^ (twice << 17)
}

/// A call that a number stands for, of one of the last transactions, on a volume that has at most
/// eight pages. Many are refused.
fn event_of(number: u64, begun: u32) -> Event {
    let txn = TxnNo(begun.saturating_sub(((number >> 8) % 6) as u32));
    let page = PageNo(((number >> 16) % 8) as u32);
    let slot = SlotNo(((number >> 24) % 2) as u16);
    match number % 17 {
        0 | 1 => Event::Begin,
        2..=6 => Event::Add {
            txn,
            page,
            slot,
            amount: number,
        },
        7 | 8 => Event::Set {
            txn,
            page,
            slot,
            number,
        },
        9 => Event::Commit(txn),
        10 => Event::Abort(txn),
        11 | 12 => Event::UndoStep(txn),
        13 => Event::CkptBegin,
        14 => Event::CkptGather,
        15 => Event::Extend(((number >> 32) % 9) as u32),
        _ => Event::CkptEnd,
    }
}

/// What an engine leaves after one checkpoint and many calls that look random.
fn random_retired(rt: &(impl Abort + AllocGlobal), seed: u64) -> Retired {
    let store = failing_store(rt, 4, 0);
    let device = failing_device(rt, 400, 0);
    let setup = Setup {
        pages: 4,
        frames: 8,
    };
    let mut engine = Engine::new(rt.alloc(), setup, store, device)
        .ok()
        .expect(rt, "an engine");
    for event in [
        Event::CkptBegin,
        Event::CkptGather,
        Event::CkptGather,
        Event::CkptEnd,
    ] {
        let _ = engine.apply(event);
    }
    let mut number = seed;
    let mut begun = 0u32;
    for _ in 0..240 {
        number = shifted(number);
        if let Ok(Answer::Began { .. }) = engine.apply(event_of(number, begun)) {
            begun = begun.saturating_add(1);
        }
    }
    engine.retire()
}

/// Whether a transaction has neither committed nor ended.
fn is_open(log: &[Record], by: TxnNo) -> bool {
    for record in log {
        match *record {
            Record::Commit { txn, .. } | Record::End { txn, .. } if txn == by => return false,
            _ => {}
        }
    }
    true
}

/// The LSNs of the last record of a transaction, and of its pending changes.
fn pending_of(rt: &(impl Abort + AllocGlobal), log: &[Record], by: TxnNo) -> (u64, Vec<u64>) {
    let mut last = 0;
    let mut pending = Vec::new(rt.alloc());
    for record in log {
        match *record {
            Record::Begin { lsn, txn } | Record::Abort { lsn, txn, .. } if txn == by => {
                last = lsn.0;
            }
            Record::Update { lsn, txn, .. } if txn == by => {
                last = lsn.0;
                pending.push(lsn.0).expect(rt, "memory for LSNs");
            }
            Record::Comp { lsn, txn, .. } if txn == by => {
                last = lsn.0;
                let _ = pending.pop();
            }
            _ => {}
        }
    }
    (last, pending)
}

/// Asserts that the losers of a log are those that a reader from its start finds, and tells how
/// many there are.
fn assert_losers(rt: &(impl Abort + AllocGlobal), retired: &Retired) -> usize {
    let found = losers_of(rt, retired);
    let log = retired.log().records();
    let mut count = 0usize;
    for record in log {
        if let Record::Begin { txn, .. } = *record {
            if is_open(log, txn) {
                let (last, pending) = pending_of(rt, log, txn);
                assert_loser(rt, &found, count, txn.0, last);
                assert_pending(rt, &found, count, &pending);
                count = count.saturating_add(1);
            }
        }
    }
    same_at(rt, &found.count(), &count, &log.len());
    count
}

/// The pages that a log makes of formatted ones, each redone by its list, in threads.
fn pages_by_lists(rt: &(impl Abort + AllocGlobal + Threads + Sync), log: &LogImage) -> Vec<Page> {
    let alloc = rt.alloc();
    let lists = by_page(alloc, log.records(), Lsn(64), log.page_count()).expect(
        rt,
        "memory for lists",
    );
    let mut pages = formatted_pages(alloc, log.page_count()).expect(rt, "memory for pages");
    assert!(rt; lists.pages() == pages.len());
    redo_by_page(rt, &mut pages, log.records(), &lists);
    pages
}

/// Of 300 logs: their losers, and their pages by as many threads as there are processors.
#[test]
fn random_logs_have_their_losers_and_pages(rt: HostRuntime) {
    let mut all = 0usize;
    for seed in 1..301u64 {
        let retired = random_retired(&rt, seed.wrapping_mul(0x9e37_79b9));
        all = all.saturating_add(assert_losers(&rt, &retired));
        let pages = pages_by_lists(&rt, retired.log());
        assert_images(&rt, &pages, retired.log().records());
        drop(pages);
        drop(retired);
    }
    assert!(&rt; all > 300);
}
