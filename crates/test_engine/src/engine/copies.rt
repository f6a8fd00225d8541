//! Image copies: series of calls with their replies, and the state after a read of a page fails.

use super::rows::{assert_parts, assert_row};
use super::{called_over, play_over};
use crate::asserts::same;
use crate::calls::{call, calls_of};
use crate::rows;
use aries_core::Engine;
use log_store::MemDevice;
use page_store::FaultyStore;
use std::process::Abort;

#[test]
fn a_page_changes_after_its_copy(rt: HostRuntime) {
    assert_row(&rt, rows::CHANGED_AFTER_A_COPY);
}

#[test]
fn a_copy_is_of_a_page_that_is_not_stored(rt: HostRuntime) {
    assert_row(&rt, rows::COPIED_WHEN_DIRTY);
}

#[test]
fn a_copy_is_of_a_page_changed_behind_the_cursor(rt: HostRuntime) {
    assert_row(&rt, rows::COPIED_BEHIND_THE_CURSOR);
}

#[test]
fn a_copy_is_of_a_page_changed_during_a_write(rt: HostRuntime) {
    assert_row(&rt, rows::COPIED_AFTER_A_CHANGED_WRITE);
}

#[test]
fn a_page_at_the_redo_point_is_taken(rt: HostRuntime) {
    assert_row(&rt, rows::TAKEN_AT_THE_REDO_POINT);
}

#[test]
fn a_copy_has_an_add_past_its_redo_point(rt: HostRuntime) {
    assert_row(&rt, rows::ADDED_BEFORE_A_COPY);
}

#[test]
fn a_copy_is_dropped_while_it_is_read(rt: HostRuntime) {
    assert_row(&rt, rows::DROPPED_WHILE_READ);
}

#[test]
fn a_copy_is_taken_while_a_checkpoint_is_open(rt: HostRuntime) {
    assert_row(&rt, rows::WHILE_A_CHECKPOINT_IS_OPEN);
}

#[test]
fn a_chain_of_copies_is_taken(rt: HostRuntime) {
    assert_row(&rt, rows::CHAIN);
}

/// Copies are begun and dropped until no more are numbered.
fn numbered(rt: &(impl Abort + AllocGlobal)) -> String {
    let mut part = String::new(rt.alloc());
    for copy in 1..1_025u32 {
        writeln!(part, "full -> copy {copy}\ndrop {copy} -> dropped").expect(
            rt,
            "memory for a row",
        );
    }
    part
}

#[test]
fn no_more_copies_are_numbered(rt: HostRuntime) {
    let copies = numbered(&rt);
    let parts = [rows::IDLE, copies.as_str(), "full -> E25 TooManyCopies"];
    assert_parts(&rt, 1, &parts);
}

#[test]
fn two_copies_are_read_at_once(rt: HostRuntime) {
    assert_row(&rt, rows::TWO_COPIES_AT_ONCE);
}

#[test]
fn two_copies_have_one_parent(rt: HostRuntime) {
    assert_row(&rt, rows::TWO_COPIES_OF_ONE_PARENT);
}

const NO_COPY: &str = "
    inc 1 -> E17 NoCopy
    take 1 0 -> E17 NoCopy
    seal 1 -> E17 NoCopy
    drop 1 -> E17 NoCopy
    inc 0 -> E17 NoCopy
";

#[test]
fn there_is_no_copy(rt: HostRuntime) {
    assert_parts(&rt, 1, &[NO_COPY, rows::IDLE, NO_COPY]);
}

const COMPLETE: &str = "
    take 1 0 -> E18 CopyNotOpen
    take 1 1 -> E18 CopyNotOpen
    seal 1 -> E18 CopyNotOpen
    drop 1 -> E18 CopyNotOpen
    full -> copy 2
    take 2 1 -> E3 PageOut
    inc 1 -> copy 3
    inc 3 -> E19 CopyNotComplete
    take 3 0 -> kept
    seal 3 -> sealed 0
";

#[test]
fn a_complete_copy_is_not_read(rt: HostRuntime) {
    assert_parts(&rt, 1, &[rows::IDLE, rows::FULL, COMPLETE]);
}

/// The page is dirty, and a copy of it is being read.
const BEFORE_A_TAKE: &str = "
    begin -> began 1 at 192
    set 1 0 0 5 -> lsn 256
    full -> copy 1
";

/// The read of the copy fails.
const NOT_TAKEN: &str = "
    take 1 0 -> E22 StoreFault
    seal 1 -> E21 PagesLeft 0
";

/// Made again, the call takes the page, and the copy and the log go on.
const TAKEN_AGAIN: &str = "
    read 0 0 -> value 5
    take 1 0 -> taken 0
    take 1 0 -> E20 PageDecided
    seal 1 -> sealed 1
    commit 1 -> lsn 320
";

/// Asserts that the call that fails leaves the log, the master and the copy's page as they are.
fn assert_not_taken(rt: &(impl Abort + AllocGlobal), engine: &mut Engine<FaultyStore, MemDevice>) {
    let (end, forced, master) = (engine.log_end(), engine.log().forced_end(), engine.master());
    call(rt, engine, &calls_of(rt, &[NOT_TAKEN]));
    same(rt, &engine.log_end(), &end);
    same(rt, &engine.log().forced_end(), &forced);
    same(rt, &engine.master(), &master);
    call(rt, engine, &calls_of(rt, &[TAKEN_AGAIN]));
}

#[test]
fn a_page_is_taken_after_its_store_failed(rt: HostRuntime) {
    let mut engine = called_over(&rt, 2, &[rows::IDLE, BEFORE_A_TAKE]);
    assert_not_taken(&rt, &mut engine);
    drop(engine);
}

#[test]
fn a_page_is_taken_after_its_store_failed_in_a_list(rt: HostRuntime) {
    let parts = [rows::IDLE, BEFORE_A_TAKE, NOT_TAKEN, TAKEN_AGAIN];
    play_over(&rt, 2, &parts);
}
