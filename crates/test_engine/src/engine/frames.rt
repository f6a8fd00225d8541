//! Series of calls with fewer frames than pages.

ghost use Rattle.log_records.specs.Log.{IsPageCount};
ghost use Rattle.buffer_pool.specs.Pool.{IsFrameCount};

use super::{device_of, failing_store};
use crate::calls::{call, calls_of};
use aries_core::{Engine, Setup};
use std::process::Abort;

/// Makes the calls of these parts one by one, with so many frames, over a store whose `k`-th call
/// fails (0 is none), and asserts their replies.
fn assert_calls(rt: &(impl Abort + AllocGlobal), pages: u32, frames: u32, k: u64, parts: &[&str])
    requires pages { IsPageCount pages }
    requires frames { IsFrameCount frames }
{
    let calls = calls_of(rt, parts);
    let store = failing_store(rt, pages, k);
    let device = device_of(rt, calls.events.len());
    let setup = Setup { pages, frames };
    let mut engine = Engine::new(rt.alloc(), setup, store, device)
        .ok()
        .expect(rt, "an engine");
    call(rt, &mut engine, &calls);
    drop(engine);
}

/// A hit moves no frame, so page 0 is given up for page 2. The fetch that fails gives up none.
const THREE_PAGES_AND_TWO_FRAMES: &str = "
    read 0 0 -> value 0
    read 1 0 -> value 0
    read 0 0 -> value 0
    read 2 0 -> value 0
    read 0 0 -> E22 StoreFault
    read 1 0 -> value 0
    read 0 0 -> value 0
";

#[test]
fn the_page_fetched_earliest_goes(rt: HostRuntime) {
    assert_calls(&rt, 3, 2, 4, &[THREE_PAGES_AND_TWO_FRAMES]);
}

/// The page of the change that is undone finds no frame until the other one is written.
const UNDONE_WITH_ONE_FRAME: &str = "
    begin -> began 1 at 64
    set 1 0 0 5 -> lsn 128
    wbegin 0 -> writing 128
    wend 0 -> written 128
    begin -> began 2 at 192
    set 2 1 0 7 -> lsn 256
    abort 1 -> lsn 320
    undo 1 -> E24 PoolFull
    wbegin 1 -> writing 256
    wend 1 -> written 256
    undo 1 -> undid 384
    undo 1 -> ended 448
    read 0 0 -> value 0
";

#[test]
fn a_rollback_waits_for_a_frame(rt: HostRuntime) {
    assert_calls(&rt, 2, 1, 0, &[UNDONE_WITH_ONE_FRAME]);
}

/// The dirty page keeps its frame until it is written.
const ONE_FRAME: &str = "
    begin -> began 1 at 64
    set 1 0 0 5 -> lsn 128
    read 1 0 -> E24 PoolFull
    wbegin 0 -> writing 128
    wend 0 -> written 128
    read 1 0 -> value 0
    read 0 0 -> value 5
";

#[test]
fn a_dirty_page_keeps_its_frame(rt: HostRuntime) {
    assert_calls(&rt, 2, 1, 0, &[ONE_FRAME]);
}

/// The store fails at the page of a change, which leaves no record and no claim on the slot.
const A_CHANGE_IS_TAKEN_BACK: &str = "
    begin -> began 1 at 64
    set 1 0 0 5 -> E22 StoreFault
    begin -> began 2 at 128
    set 2 0 0 7 -> lsn 192
    set 1 0 0 5 -> E5 SlotBusy 2
    commit 2 -> lsn 256
    set 1 0 0 5 -> lsn 320
    abort 1 -> lsn 384
    undo 1 -> undid 448
    undo 1 -> ended 512
    read 0 0 -> value 7
";

#[test]
fn a_change_is_taken_back_where_the_store_fails(rt: HostRuntime) {
    assert_calls(&rt, 1, 1, 1, &[A_CHANGE_IS_TAKEN_BACK]);
}

/// A changed page is given up and fetched again between its changes.
const SET_AFTER_A_FETCH: &str = "
    begin -> began 1 at 64
    set 1 0 0 5 -> lsn 128
    wbegin 0 -> writing 128
    wend 0 -> written 128
    read 1 0 -> value 0
    set 1 0 0 6 -> lsn 192
    abort 1 -> lsn 256
    undo 1 -> undid 320
    read 0 0 -> value 5
    undo 1 -> undid 384
    read 0 0 -> value 0
";

#[test]
fn a_set_knows_the_number_before_it_of_a_fetched_page(rt: HostRuntime) {
    assert_calls(&rt, 2, 1, 0, &[SET_AFTER_A_FETCH]);
}
