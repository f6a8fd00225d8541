//! Repairs: a page that cannot be read, and what a fault leaves.

ghost use Rattle.std.specs.Prelude.{◌≡◌};
ghost use Rattle.log_records.specs.Log.{IsPageCount};
ghost use Rattle.page_core.specs.Volume.{formatted_pages};

use super::{called_on, damaged_store, failing_device, failing_store, setup_of, store_of};
use crate::asserts::same_at;
use crate::calls::{Calls, answers, calls_of};
use crate::rows;
use aries_core::Engine;
use page_core::PageNo;
use page_store::FaultyStore;
use std::process::Abort;

/// Page 0 is damaged after its first write. A copy meets it, and takes it once it is repaired.
const DAMAGED: &str = "
    full -> copy 1
    take 1 0 -> taken 0
    take 1 1 -> taken 0
    seal 1 -> sealed 2
    begin -> began 1 at 192
    set 1 0 0 5 -> lsn 256
    wbegin 0 -> writing 256
    wend 0 -> written 256
    full -> copy 2
    take 2 0 -> E22 StoreFault
    repair 2 0 -> E19 CopyNotComplete
    repair 1 0 -> repaired 256
    take 2 0 -> taken 256
    set 1 0 0 6 -> lsn 320
    repair 1 0 -> repaired 320
    wbegin 0 -> E10 NotDirty
";

/// The store fails at a repair: the page is as dirty as before. So does it stay while a write of it
/// is in progress, beside which it is not repaired.
const NOT_STORED: &str = "
    begin -> began 1 at 192
    set 1 0 0 5 -> lsn 256
    repair 1 0 -> E22 StoreFault
    wbegin 0 -> writing 256
    repair 1 0 -> E11 WriteBegun
    set 1 0 0 6 -> lsn 320
    wend 0 -> written 256
    repair 1 0 -> repaired 320
    wbegin 0 -> E10 NotDirty
";

/// The log cannot be forced at a repair.
const NOT_FORCED: &str = "
    begin -> began 1 at 192
    set 1 0 0 5 -> lsn 256
    repair 1 0 -> E23 LogFault
    repair 2 1 -> E17 NoCopy
    repair 1 1 -> E3 PageOut
    repair 1 0 -> repaired 256
    wbegin 0 -> E10 NotDirty
    read 0 0 -> value 5
    force -> forced 320
";

/// Whether an engine over this store gives these answers.
fn answers_so(
    rt: &(impl Abort + AllocGlobal),
    pages: u32,
    store: FaultyStore,
    calls: &Calls,
) -> bool
    requires pages { IsPageCount pages }
    requires formatted { store.pages ≡ formatted_pages pages }
{
    let device = failing_device(rt, calls.events.len(), 0);
    let mut engine = Engine::new(rt.alloc(), setup_of(pages), store, device)
        .ok()
        .expect(rt, "an engine");
    let is_so = answers(rt, &mut engine, calls);
    drop(engine);
    is_so
}

/// The damage comes after the four calls of the store up to the page's write: both takes, the fetch
/// for the change, and the write. No other number of calls gives these answers.
#[test]
fn a_damaged_page_is_repaired(rt: HostRuntime) {
    let calls = calls_of(&rt, &[rows::IDLE, DAMAGED]);
    for k in 0..8u64 {
        let store = damaged_store(&rt, 2, PageNo(0), k);
        same_at(&rt, &answers_so(&rt, 2, store, &calls), &(k == 4), &k);
    }
}

/// The call that fails is the one that stores the repaired page.
#[test]
fn a_repair_is_not_stored(rt: HostRuntime) {
    let calls = calls_of(&rt, &[rows::IDLE, rows::FULL, NOT_STORED]);
    let mut found = None;
    for k in 1..8u64 {
        let store = failing_store(&rt, 1, k);
        if answers_so(&rt, 1, store, &calls) {
            assert!(&rt; found.is_none());
            found = Some(k);
        }
    }
    assert!(&rt; found.is_some());
}

/// The first call of the device stores the header, and the next two force the checkpoint.
#[test]
fn a_log_is_not_forced_for_a_repair(rt: HostRuntime) {
    let calls = calls_of(&rt, &[rows::IDLE, rows::FULL, NOT_FORCED]);
    let device = failing_device(&rt, calls.events.len(), 4);
    drop(called_on(&rt, 1, store_of(&rt, 1), device, &calls));
}
