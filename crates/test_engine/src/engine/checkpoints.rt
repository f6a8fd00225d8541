//! Checkpoints: series of calls, their bytes, and what is stored after a device or a store fails.

use super::rows::{assert_parts, assert_row};
use super::{called, called_over};
use crate::asserts::same;
use crate::groups::{Groups, assert_bytes};
use crate::rows;
use fuzzy_ckpt::Point;
use log_store::{MASTER_BYTES, Master, encode_master};
use page_core::Lsn;
use std::process::Abort;

/// The records of the checkpoint, from 192 on.
const RECORDS: Groups = Groups(
    &[
        "0700000000000000 0 0 0 0 0 0 c000000000000000 \
       0800000000000000 c000000000000000 0100000000000000 8000000000000000 0 0 0 0001000000000000 \
       0900000000000000 c000000000000000 0000000001000000 0100000080000000 \
       0000000080000000 0 0 4001000000000000 \
       0a00000000000000 c000000000000000 0 8000000000000000 0 0 0 8001000000000000",
    ],
    256,
);

/// And its master.
const MASTER: Groups = Groups(
    &["41494d474d535431 c000000000000000 8001000000000000"],
    MASTER_BYTES,
);

#[test]
fn a_dirty_page_is_gathered(rt: HostRuntime) {
    assert_parts(&rt, 1, &[rows::GATHERED]);
}

/// Asserts that an engine has this checkpoint, and how its LSNs are spelled.
fn assert_master(rt: &(impl Abort + AllocGlobal), master: Option<Point>) {
    let point = master.expect(rt, "a master record");
    let master = encode_master(&Master {
        begin: point.begin,
        end: point.end,
    });
    assert_bytes(rt, &master, MASTER);
}

/// The log's device ends with the records.
#[test]
fn a_checkpoint_has_these_bytes(rt: HostRuntime) {
    let engine = called(&rt, 1, &[rows::GATHERED]);
    let bytes = engine.log().device().bytes();
    assert_bytes(&rt, bytes.get(192..).unwrap_or(&[]), RECORDS);
    assert_master(&rt, engine.master());
    drop(engine);
}

#[test]
fn a_page_changes_behind_the_cursor(rt: HostRuntime) {
    assert_parts(&rt, 1, &[rows::BEHIND_THE_CURSOR]);
}

#[test]
fn a_page_changed_during_a_write_is_gathered(rt: HostRuntime) {
    let parts = [rows::CHANGED_DURING_A_WRITE, rows::GATHERED_AFTER_A_WRITE];
    assert_parts(&rt, 1, &parts);
}

const OUT_OF_TURN: &str = "
    gather -> E14 NoCkpt
    endckpt -> E14 NoCkpt
    ckpt -> lsn 64
    gather -> more
    gather -> done
    gather -> done
    endckpt -> point 64 128 64
    begin -> began 1 at 192
    set 1 0 0 5 -> lsn 256
    ckpt -> lsn 320
    gather -> more
    endckpt -> E15 GatherLeft
    ckpt -> E13 CkptOpen
    commit 1 -> lsn 448
";

#[test]
fn a_checkpoint_is_asked_for_out_of_turn(rt: HostRuntime) {
    assert_parts(&rt, 1, &[OUT_OF_TURN]);
}

#[test]
fn three_pages_go_into_a_record(rt: HostRuntime) {
    assert_row(&rt, rows::FOUR_PAGES);
}

#[test]
fn a_page_is_written_before_its_turn(rt: HostRuntime) {
    assert_row(&rt, rows::WRITTEN_BEFORE_ITS_TURN);
}

/// A write fails before its page is gathered, and the page is gathered as it was.
const NOT_STORED: &str = "
    begin -> began 1 at 64
    set 1 0 0 5 -> lsn 128
    wbegin 0 -> writing 128
    ckpt -> lsn 192
    wend 0 -> E22 StoreFault
    gather -> more
    wend 0 -> written 128
    gather -> more
    gather -> more
    gather -> done
    endckpt -> point 192 384 128
    read 0 0 -> value 5
";

const POINT: Point = Point {
    begin: Lsn(192),
    end: Lsn(384),
    redo: Lsn(128),
    pages: 1,
};

#[test]
fn a_page_that_was_not_stored_is_gathered(rt: HostRuntime) {
    let engine = called_over(&rt, 2, &[NOT_STORED]);
    same(&rt, &engine.master(), &Some(POINT));
    drop(engine);
}

const NO_DIRTY_PAGE: &str = "
    begin -> began 1 at 64
    ckpt -> lsn 128
    gather -> more
    gather -> more
    gather -> done
    endckpt -> point 128 256 128
";

#[test]
fn a_large_volume_has_no_dirty_page(rt: HostRuntime) {
    assert_parts(&rt, 65_536, &[NO_DIRTY_PAGE]);
}

const ONE_DIRTY_PAGE: &str = "
    begin -> began 1 at 64
    set 1 0 0 1 -> lsn 128
    ckpt -> lsn 192
    gather -> more
    gather -> more
    gather -> more
    gather -> done
    endckpt -> point 192 384 128
";

#[test]
fn a_large_volume_has_a_dirty_page(rt: HostRuntime) {
    assert_parts(&rt, 65_536, &[ONE_DIRTY_PAGE]);
}

/// Each page is changed.
fn changes(rt: &(impl Abort + AllocGlobal)) -> String {
    let mut part = String::new(rt.alloc());
    for page in 0..65_536u32 {
        let lsn = 64 * (page + 2);
        writeln!(part, "set 1 {page} 0 1 -> lsn {lsn}").expect(rt, "memory for a row");
    }
    part
}

const ALL_GATHERED: &str = "
    gather -> done
    endckpt -> point 4194432 5592704 128
";

/// 65,536 pages go into 21,846 records.
#[test]
fn each_page_of_a_large_volume_is_dirty(rt: HostRuntime) {
    let changes = changes(&rt);
    let gathered = "gather -> more\n"
        .repeat(rt.alloc(), 21_848)
        .expect(&rt, "memory for a row");
    let parts = [
        "begin -> began 1 at 64",
        &changes,
        "ckpt -> lsn 4194432",
        &gathered,
        ALL_GATHERED,
    ];
    assert_parts(&rt, 65_536, &parts);
}
