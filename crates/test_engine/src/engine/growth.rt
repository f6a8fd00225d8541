//! Volumes that grow: series of calls with their replies, the bytes of an Extend, and what stands
//! where the store fails at a growth.

ghost use Rattle.std.specs.Prelude.{◌≡◌};
ghost use Rattle.page_core.specs.Volume.{formatted_pages};

use super::rows::assert_row;
use super::{called, called_on, device_of, failing_store, late_store, played_on};
use crate::asserts::same;
use crate::calls::{Row, calls_of};
use crate::groups::{Groups, assert_bytes};
use crate::rows;
use crate::rows::growth::{
    COPIED_AFTER_GROWTH, GROWN_AFTER_A_COPY, GROWN_DURING_A_CHECKPOINT, GROWN_TO_THE_MOST,
};
use fuzzy_ckpt::Point;
use page_core::Lsn;
use page_store::FaultyStore;
use std::process::Abort;

#[test]
fn a_volume_grows(rt: HostRuntime) {
    assert_row(&rt, GROWN_AFTER_A_COPY);
    assert_row(&rt, COPIED_AFTER_GROWTH);
    assert_row(&rt, GROWN_DURING_A_CHECKPOINT);
    assert_row(&rt, GROWN_TO_THE_MOST);
}

/// The Extend to three pages at 192.
const EXTEND: Groups = Groups(
    &["0b00000000000000 0 0 0300000000000000 0 0 0 c000000000000000"],
    64,
);

/// The checkpoint that begins at 448 has page 2, which is dirty from 320 on.
const GATHERED: Groups = Groups(
    &[
        "0800000000000000 c001000000000000 0100000002000000 4001000000000000 \
       0 0 0 0002000000000000",
    ],
    64,
);

#[test]
fn an_extend_has_its_bytes(rt: HostRuntime) {
    let engine = called(&rt, 1, COPIED_AFTER_GROWTH.parts);
    let bytes = engine.log().device().bytes();
    assert_bytes(&rt, bytes.get(192..256).unwrap_or(&[]), EXTEND);
    assert_bytes(&rt, bytes.get(512..576).unwrap_or(&[]), GATHERED);
    drop(engine);
}

/// Rows, and their last checkpoints.
const POINTS: [(Row, Point); 2] = [
    (
        COPIED_AFTER_GROWTH,
        Point {
            begin: Lsn(448),
            end: Lsn(576),
            redo: Lsn(320),
            pages: 3,
        },
    ),
    (
        GROWN_DURING_A_CHECKPOINT,
        Point {
            begin: Lsn(64),
            end: Lsn(448),
            redo: Lsn(64),
            pages: 1,
        },
    ),
];

#[test]
fn a_checkpoint_has_the_page_count_at_its_begin(rt: HostRuntime) {
    for (row, point) in &POINTS {
        let engine = called(&rt, 1, row.parts);
        same(&rt, &engine.master(), &Some(*point));
        drop(engine);
    }
}

/// The volume is as before where the store fails. Then the same growth, or a smaller one, is as it
/// would have been, also where the store has the pages already.
static NOT_GROWN: [&str; 2] = [
    "
    extend 1 -> E43 NotLarger 1
    extend 3 -> E22 StoreFault
    read 1 0 -> E3 PageOut
    extend 1 -> E43 NotLarger 1
    extend 3 -> lsn 192
    read 2 0 -> value 0
",
    "
    extend 3 -> E22 StoreFault
    read 1 0 -> E3 PageOut
    extend 2 -> lsn 192
    read 1 0 -> value 0
    read 2 0 -> E3 PageOut
    extend 3 -> lsn 256
    read 2 0 -> value 0
",
];

/// Makes calls after a copy of one page on this store, one by one or as a list, and asserts their
/// replies.
fn assert_calls(rt: &(impl Abort + AllocGlobal), store: FaultyStore, part: &str, as_list: bool)
    requires { store.pages ≡ formatted_pages 1 }
{
    let calls = calls_of(rt, &[rows::IDLE, rows::FULL, part]);
    let device = device_of(rt, calls.events.len());
    let engine = if as_list {
        played_on(rt, 1, store, device, &calls)
    } else {
        called_on(rt, 1, store, device, &calls)
    };
    drop(engine);
}

/// The first call of the store reads the page for the copy, and the second one is the growth.
#[test]
fn a_store_fails_at_a_growth(rt: HostRuntime) {
    for part in &NOT_GROWN {
        for as_list in [false, true] {
            assert_calls(&rt, failing_store(&rt, 1, 2), part, as_list);
            assert_calls(&rt, late_store(&rt, 1, 2), part, as_list);
        }
    }
}
