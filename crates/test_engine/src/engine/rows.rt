//! Series of calls with their replies. Each is called one by one, and played as a list.

ghost use Rattle.log_records.specs.Log.{IsPageCount};

use super::{called, called_on, device_of, played_on, store_of};
use crate::asserts::same;
use crate::calls::{Calls, Row, calls_of};
use crate::groups::{Groups, assert_bytes};
use crate::rows;
use aries_core::Engine;
use log_store::MemDevice;
use page_store::MemStore;
use std::process::Abort;

/// Plays calls over a store in memory, on a device that has room for a record for each event.
fn played(rt: &(impl Abort + AllocGlobal), pages: u32, calls: &Calls) -> Engine<MemStore, MemDevice>
    requires { IsPageCount pages }
{
    let store = store_of(rt, pages);
    let device = device_of(rt, calls.events.len());
    played_on(rt, pages, store, device, calls)
}

/// Asserts the replies of these parts both ways, and that both give the same log, in memory and on
/// its device.
pub(super) fn assert_parts(rt: &(impl Abort + AllocGlobal), pages: u32, parts: &[&str])
    requires { IsPageCount pages }
{
    let alloc = rt.alloc();
    let called = called(rt, pages, parts);
    let played = played(rt, pages, &calls_of(rt, parts));
    same(rt, &called.log_end(), &played.log_end());
    same(
        rt,
        &called.log().device().bytes(),
        &played.log().device().bytes(),
    );
    drop(called);
    drop(played);
}

/// Asserts the replies of the parts of a row both ways.
pub(super) fn assert_row(rt: &(impl Abort + AllocGlobal), row: Row) {
    assert_parts(rt, row.pages(rt), row.parts);
}

#[test]
fn a_transaction_is_rolled_back(rt: HostRuntime) {
    assert_row(&rt, rows::ROLLED_BACK);
}

#[test]
fn sums_wrap(rt: HostRuntime) {
    assert_row(&rt, rows::SUM_WRAPS);
}

#[test]
fn a_slot_is_held(rt: HostRuntime) {
    assert_row(&rt, rows::SLOT_HELD);
}

#[test]
fn the_last_page_and_slot_are_there(rt: HostRuntime) {
    assert_row(&rt, rows::LAST_PAGE_AND_SLOT);
}

#[test]
fn sixty_four_transactions_are_open(rt: HostRuntime) {
    let row = rows::sixty_four_transactions(&rt);
    assert_parts(&rt, 1, &[&row]);
}

/// As many Adds as a log has room for between its Begin and the record that ends it.
fn adds(rt: &(impl Abort + AllocGlobal)) -> String {
    let mut part = String::new(rt.alloc());
    for number in 2..524_288u64 {
        let lsn = 64 * number;
        writeln!(part, "add 1 0 0 1 -> lsn {lsn}").expect(rt, "memory for a row");
    }
    part
}

const FULL_LOG: &str = "
    add 1 0 0 1 -> E8 LogFull
    begin -> E8 LogFull
    commit 1 -> lsn 33554432
    begin -> began 2 at 33554496
";

#[test]
fn a_log_gets_full(rt: HostRuntime) {
    let adds = adds(&rt);
    let parts = ["begin -> began 1 at 64", adds.as_str(), FULL_LOG];
    assert_parts(&rt, 1, &parts);
}

/// Another transaction's Add stands between, and stays.
const COMPENSATED: Row = Row {
    pages: 1,
    parts: &[
        "
        begin -> began 1 at 64
        begin -> began 2 at 128
        add 1 0 1 7 -> lsn 192
        add 1 0 0 5 -> lsn 256
        add 2 0 0 3 -> lsn 320
        commit 2 -> lsn 384
        set 1 0 0 10 -> lsn 448
        abort 1 -> lsn 512
        undo 1 -> undid 576
        read 0 0 -> value 8
        undo 1 -> undid 640
        read 0 0 -> value 3
        force -> forced 704
    ",
    ],
};

#[test]
fn an_add_is_compensated(rt: HostRuntime) {
    assert_row(&rt, COMPENSATED);
}

/// The compensation of transaction 1 at 640, which follows its record at 576, takes an Add of 5 to
/// slot 0 of page 0 back, and leaves what stands at 192 to be undone next.
const COMPENSATION: Groups = Groups(
    &[
        "0300000001000000 4002000000000000 c000000000000000 0000000000000200 \
       0 fbffffffffffffff 0 8002000000000000",
    ],
    64,
);

/// The log's device ends with the compensation.
#[test]
fn a_compensation_has_its_bytes(rt: HostRuntime) {
    let calls = calls_of(&rt, COMPENSATED.parts);
    let engine = played(&rt, 1, &calls);
    let bytes = engine.log().device().bytes();
    assert_bytes(&rt, bytes.get(640..).unwrap_or(&[]), COMPENSATION);
    drop(engine);
}

#[test]
fn a_page_is_written(rt: HostRuntime) {
    assert_row(&rt, rows::WRITTEN);
}
