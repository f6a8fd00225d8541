//! Each call of the store and of the log's device fails in turn. Each copy that is then complete is
//! restored from every log that a crash may leave.

ghost use Rattle.std.specs.Prelude.{◌≡◌};
ghost use Rattle.log_records.specs.Log.{IsPageCount};
ghost use Rattle.page_core.specs.Volume.{formatted_pages};

use super::{redone_of, undone_of};
use crate::asserts::same_at;
use crate::calls::{Calls, Row, calls_of};
use crate::engine::{failing_device, failing_store, late_store, setup_of};
use crate::rows;
use crate::rows::growth;
use aries_core::{Engine, Refusal, Reply};
use copy_coverage::Retired;
use copy_vault::CopyId;
use log_records::Record;
use page_core::{Page, PageNo, TxnNo};
use page_redo::redo_page;
use page_store::FaultyStore;
use std::process::Abort;
use std::thread::Threads;

static SWEPT: [Row; 10] = [
    rows::COPIED_WHEN_DIRTY,
    rows::COPIED_BEHIND_THE_CURSOR,
    rows::COPIED_AFTER_A_CHANGED_WRITE,
    rows::TAKEN_AT_THE_REDO_POINT,
    rows::ADDED_BEFORE_A_COPY,
    rows::ADDED_AND_SET,
    rows::CHAIN,
    rows::TWO_COPIES_OF_ONE_PARENT,
    growth::COPIED_AFTER_GROWTH,
    growth::GROWN_DURING_A_CHECKPOINT,
];

/// How a row is called: which call of the store fails, and whether it fails late; which call of the
/// log's device fails, each counted from 1, where 0 is none; and whether a call of the engine is
/// made again that was refused for it.
#[derive(Clone, Copy)]
struct Sweep<'a> {
    row: Row,
    calls: &'a Calls,
    store: u64,
    is_late: bool,
    device: u64,
    again: bool,
}

/// Whether a store or a device failed.
fn is_fault(reply: Reply) -> bool {
    matches!(
        reply,
        Err(Refusal::StoreFault) | Err(Refusal::LogFault) | Err(Refusal::CommitUnsure(_))
    )
}

/// The store of a row that is called so.
fn store_of(rt: &(impl Abort + AllocGlobal), pages: u32, sweep: Sweep<'_>) -> FaultyStore
    requires { IsPageCount pages }
    ensures { result.pages ≡ formatted_pages pages }
{
    if sweep.is_late {
        late_store(rt, pages, sweep.store)
    } else {
        failing_store(rt, pages, sweep.store)
    }
}

/// What an engine leaves that was called so, and whether the store or the device failed at a call.
fn run(rt: &(impl Abort + AllocGlobal), sweep: Sweep<'_>) -> (Retired, bool) {
    let pages = sweep.row.pages(rt);
    let store = store_of(rt, pages, sweep);
    let device = failing_device(rt, sweep.calls.events.len(), sweep.device);
    let mut engine = Engine::new(rt.alloc(), setup_of(pages), store, device)
        .ok()
        .expect(rt, "an engine");
    let mut has_failed = false;
    for event in &sweep.calls.events {
        if is_fault(engine.apply(*event)) {
            has_failed = true;
            if sweep.again {
                let _ = engine.apply(*event);
            }
        }
    }
    (engine.retire(), has_failed)
}

/// Asserts that these are the pages that a log makes of formatted ones.
pub(super) fn assert_images(rt: &impl Abort, pages: &[Page], log: &[Record]) {
    for page in pages {
        let mut image = Page::formatted(page.number);
        redo_page(&mut image, log);
        same_at(rt, page, &image, &log.len());
    }
}

/// Whether a transaction has committed.
fn is_committed(log: &[Record], by: TxnNo) -> bool {
    for record in log {
        if let Record::Commit { txn, .. } = *record {
            if txn == by {
                return true;
            }
        }
    }
    false
}

/// A page with the changes of the committed transactions alone.
fn committed_page(log: &[Record], number: PageNo) -> Page {
    let mut page = Page::formatted(number);
    for record in log {
        if let Record::Update { txn, .. } = *record {
            if is_committed(log, txn) {
                record.redo_on(&mut page);
            }
        }
    }
    page
}

/// Asserts that pages have the committed numbers of a log.
fn assert_committed(rt: &impl Abort, pages: &[Page], log: &[Record]) {
    for page in pages {
        let committed = committed_page(log, page.number);
        same_at(rt, &page.slots, &committed.slots, &(page.number, log.len()));
    }
}

/// How many pages a log gives a volume that began with so many.
fn pages_of(pages: u32, log: &[Record]) -> usize {
    let mut count = pages;
    for record in log {
        if let Record::Extend { pages, .. } = *record {
            count = pages;
        }
    }
    count as usize
}

/// Restores a copy over these first records of the log of a volume that began with so many pages,
/// and asserts its pages after redo and after undo.
fn assert_restored(
    rt: &(impl Abort + AllocGlobal + Threads + Sync),
    pages: u32,
    retired: Retired,
    copy: u32,
    kept: &[Record],
) {
    let redone = redone_of(rt, retired, copy, kept.len());
    same_at(
        rt,
        &redone.pages().len(),
        &pages_of(pages, kept),
        &kept.len(),
    );
    assert_images(rt, redone.pages(), kept);
    let undone = undone_of(rt, redone);
    same_at(
        rt,
        &undone.pages().len(),
        &pages_of(pages, kept),
        &kept.len(),
    );
    assert_images(rt, undone.pages(), undone.records());
    assert_committed(rt, undone.pages(), kept);
    drop(undone);
}

/// Restores a copy of each log that a crash may leave.
fn assert_each_cut(
    rt: &(impl Abort + AllocGlobal + Threads + Sync),
    sweep: Sweep<'_>,
    retired: &Retired,
    copy: u32,
) {
    let records = retired.log().records();
    for cut in 0..records.len() + 1 {
        if 64 * (cut as u64 + 1) >= retired.forced_end().0 {
            let (again, _) = run(rt, sweep);
            assert_restored(rt, sweep.row.pages, again, copy, &records[..cut]);
        }
    }
}

/// Calls a row, restores each copy that is complete then, and tells whether a call failed.
fn restore_each(rt: &(impl Abort + AllocGlobal + Threads + Sync), sweep: Sweep<'_>) -> bool {
    let (retired, has_failed) = run(rt, sweep);
    for copy in 1..4 {
        if retired.vault().complete(CopyId(copy)).is_some() {
            assert_each_cut(rt, sweep, &retired, copy);
        }
    }
    drop(retired);
    has_failed
}

/// What fails of an engine.
#[derive(Clone, Copy)]
enum Part {
    Store,
    StoreLate,
    Device,
}

/// Sweeps a row, where one call of this part fails after the other, until none is left. Of a device
/// it is not the first one, which stores the header: where it fails there is no engine.
fn sweep_row(
    rt: &(impl Abort + AllocGlobal + Threads + Sync),
    row: Row,
    calls: &Calls,
    part: Part,
    again: bool,
) {
    for k in 1..100 {
        let (store, is_late, device) = match part {
            Part::Store => (k, false, 0),
            Part::StoreLate => (k, true, 0),
            Part::Device => (0, false, k + 1),
        };
        let sweep = Sweep {
            row,
            calls,
            store,
            is_late,
            device,
            again,
        };
        if !restore_each(rt, sweep) {
            return;
        }
    }
    panic!(rt; "each of a hundred calls fails");
}

fn sweep_rows(rt: &(impl Abort + AllocGlobal + Threads + Sync), part: Part) {
    for row in &SWEPT {
        let calls = calls_of(rt, row.parts);
        for again in [false, true] {
            sweep_row(rt, *row, &calls, part, again);
        }
    }
}

#[test]
fn each_call_of_the_store_fails(rt: HostRuntime) {
    sweep_rows(&rt, Part::Store);
}

#[test]
fn each_call_of_the_store_fails_late(rt: HostRuntime) {
    sweep_rows(&rt, Part::StoreLate);
}

#[test]
fn each_call_of_the_device_fails(rt: HostRuntime) {
    sweep_rows(&rt, Part::Device);
}
