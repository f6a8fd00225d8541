//! Page writes: what the store holds, and the state after one of its calls fails.

ghost use Rattle.std.specs.Prelude.{◌≡◌};
ghost use Rattle.page_core.specs.Volume.{formatted_pages};

use super::{
    called, called_on, called_over, device_of, failing_device, failing_store, late_store,
    play_over, played_on, store_of,
};
use crate::asserts::same;
use crate::calls::{call, calls_of};
use crate::rows;
use aries_core::Engine;
use log_records::{DirtyPage, DirtyPages};
use log_store::LogDevice;
use page_core::{Lsn, PageNo};
use page_store::{FaultyStore, PageStore};
use std::process::Abort;

/// Asserts which pages are dirty, and of page 0 as it is stored its LSN and the numbers in its
/// first two slots.
fn assert_pages<S: PageStore, D: LogDevice>(
    rt: &impl Abort,
    engine: &mut Engine<S, D>,
    dirty: Option<DirtyPages>,
    stored: (Lsn, u64, u64),
) {
    same(rt, &engine.dirty_from(PageNo(0)), &dirty);
    let page = engine.stored(PageNo(0)).expect(rt, "a stored page");
    same(rt, &(page.lsn, page.slots[0], page.slots[1]), &stored);
}

/// Page 0 is dirty from this LSN on.
fn dirty_from(lsn: u64) -> Option<DirtyPages> {
    let page = DirtyPage {
        page: 0,
        rec_lsn: lsn,
    };
    Some(DirtyPages::One(page))
}

#[test]
fn a_page_changes_during_a_write(rt: HostRuntime) {
    let mut engine = called(&rt, 1, &[rows::CHANGED_DURING_A_WRITE]);
    assert_pages(&rt, &mut engine, dirty_from(192), (Lsn(128), 5, 0));
    let read = calls_of(&rt, &["read 0 0 -> value 6"]);
    call(&rt, &mut engine, &read);
    drop(engine);
}

/// The store fails at the end of a write, which stays in progress.
const NOT_ENDED: &str = "
    begin -> began 1 at 64
    set 1 0 0 5 -> lsn 128
    wbegin 0 -> writing 128
    wend 0 -> E22 StoreFault
";

/// The write is ended again, with the image that it began with.
const ENDED_AGAIN: &str = "
    wbegin 0 -> E11 WriteBegun
    set 1 0 0 6 -> lsn 192
    wend 0 -> written 128
    wbegin 0 -> writing 192
    wend 0 -> written 192
";

/// Makes these calls over a store of one page that fails at the first end of the write, and asserts
/// which page it leaves stored then.
fn assert_ended_again(rt: &(impl Abort + AllocGlobal), store: FaultyStore, left: (Lsn, u64, u64))
    requires { store.pages ≡ formatted_pages 1 }
{
    let calls = calls_of(rt, &[NOT_ENDED]);
    let mut engine = called_on(rt, 1, store, device_of(rt, 3), &calls);
    assert_pages(rt, &mut engine, dirty_from(128), left);
    call(rt, &mut engine, &calls_of(rt, &[ENDED_AGAIN]));
    assert_pages(rt, &mut engine, None, (Lsn(192), 6, 0));
    drop(engine);
}

#[test]
fn a_store_fails(rt: HostRuntime) {
    assert_ended_again(&rt, failing_store(&rt, 1, 2), (Lsn(0), 0, 0));
}

#[test]
fn a_store_fails_late(rt: HostRuntime) {
    assert_ended_again(&rt, late_store(&rt, 1, 2), (Lsn(128), 5, 0));
}

#[test]
fn a_store_fails_in_a_list(rt: HostRuntime) {
    play_over(&rt, 2, &[NOT_ENDED, ENDED_AGAIN]);
}

/// The call of the store that fails is the end of the second write.
const TWO_WRITES: &str = "
    begin -> began 1 at 64
    set 1 0 0 5 -> lsn 128
    wbegin 0 -> writing 128
    wend 0 -> written 128
    commit 1 -> lsn 192
    begin -> began 2 at 256
    set 2 0 1 7 -> lsn 320
    wbegin 0 -> writing 320
    wend 0 -> E22 StoreFault
    wend 0 -> written 320
    wbegin 0 -> E10 NotDirty
";

#[test]
fn a_later_write_fails(rt: HostRuntime) {
    let mut engine = called_over(&rt, 3, &[TWO_WRITES]);
    assert_pages(&rt, &mut engine, None, (Lsn(320), 5, 7));
    drop(engine);
}

/// No image is kept where the log could not be forced through its LSN.
const FORCED_AGAIN: &str = "
    begin -> began 1 at 64
    set 1 0 0 5 -> lsn 128
    wbegin 0 -> E23 LogFault
    wend 0 -> E12 NoWrite
    wbegin 0 -> writing 128
    wend 0 -> written 128
";

/// Tries these calls both ways on a device whose `k`-th call fails.
fn assert_forced_again(rt: &(impl Abort + AllocGlobal), k: u64) {
    let calls = calls_of(rt, &[FORCED_AGAIN]);
    let store = store_of(rt, 1);
    let engine = called_on(rt, 1, store, failing_device(rt, 6, k), &calls);
    same(rt, &engine.log().forced_end(), &Lsn(192));
    drop(engine);
    let store = store_of(rt, 1);
    let device = failing_device(rt, 6, k);
    drop(played_on(rt, 1, store, device, &calls));
}

#[test]
fn a_log_is_not_forced_for_a_write(rt: HostRuntime) {
    assert_forced_again(&rt, 2);
    assert_forced_again(&rt, 3);
}

/// A write forces the log through its image, and no further.
const ONE_PAGE_OF_TWO: &str = "
    begin -> began 1 at 64
    set 1 0 0 5 -> lsn 128
    set 1 1 0 6 -> lsn 192
    wbegin 0 -> writing 128
";

#[test]
fn a_write_forces_its_image_alone(rt: HostRuntime) {
    let mut engine = called(&rt, 2, &[ONE_PAGE_OF_TWO]);
    same(&rt, &engine.log().forced_end(), &Lsn(192));
    let force = calls_of(&rt, &["force -> forced 256"]);
    call(&rt, &mut engine, &force);
    drop(engine);
}
