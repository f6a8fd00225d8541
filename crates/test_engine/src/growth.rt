//! Logs whose volume grows, as bytes: redone, and restored with an image copy.

use crate::files::{Restored, assert_each};
use crate::groups::Groups;
use crate::streams::{assert_no_log, assert_volume};
use page_core::PAGE_BYTES;

// The header of a log of one page, also in the first format.
const HEADER: &str = "41494d474c4f4732 0100000000000000 0 0 0 0 0 0";

const FIRST_HEADER: &str = "41494d474c4f4731 0100000000000000 0 0 0 0 0 0";

// A checkpoint of no dirty page and no transaction.
const CHECKPOINT: &str = "0700000000000000 0 0 0 0 0 0 4000000000000000 \
     0a00000000000000 4000000000000000 0 4000000000000000 0 0 0 8000000000000000";

// The volume grows to three pages, or to the one that it has.
const EXTEND: &str = "0b00000000000000 0 0 0300000000000000 0 0 0 c000000000000000";

const NO_LARGER: &str = "0b00000000000000 0 0 0100000000000000 0 0 0 c000000000000000";

// A transaction sets slot 0 of page 2 to 4, and commits.
const CHANGED: &str = "0100000001000000 0 0 0 0 0 0 0001000000000000 \
     0200000001000000 0001000000000000 0 0200000000000100 0 0400000000000000 0 4001000000000000 \
     0400000001000000 4001000000000000 0 0 0 0 0 8001000000000000";

// The same without a growth before it.
const CHANGED_TOO_EARLY: &str = "0100000001000000 0 0 0 0 0 0 c000000000000000 \
     0200000001000000 c000000000000000 0 0200000000000100 0 0400000000000000 0 0001000000000000";

// The growth behind that.
const EXTEND_TOO_LATE: &str = "0b00000000000000 0 0 0300000000000000 0 0 0 4001000000000000";

const GROWN_LOG: Groups = Groups(&[HEADER, CHECKPOINT, EXTEND, CHANGED], 448);

const LOG_UP_TO_THE_GROWTH: Groups = Groups(&[HEADER, CHECKPOINT, EXTEND], 256);

const LOG_BEFORE_IT: Groups = Groups(&[HEADER, CHECKPOINT], 192);

const OF_THE_FIRST_FORMAT: Groups = Groups(&[FIRST_HEADER, CHECKPOINT, EXTEND, CHANGED], 448);

const TOO_LATE: Groups = Groups(
    &[HEADER, CHECKPOINT, CHANGED_TOO_EARLY, EXTEND_TOO_LATE],
    384,
);

const NOT_GROWN: Groups = Groups(&[HEADER, CHECKPOINT, NO_LARGER], 256);

const MASTER: Groups = Groups(&["41494d474d535431 4000000000000000 8000000000000000"], 64);

// A full copy of one page, which took the formatted one, and the header of one of three pages, both
// of the checkpoint.
const COPY: Groups = Groups(
    &[
        "41494d4741524332 0100000001000000 0100000000000000 4000000000000000 4000000000000000 \
       0100000000000000 0 0 0000000001000000",
    ],
    576,
);

const COPY_OF_THREE: Groups = Groups(
    &[
        "41494d4741524332 0300000001000000 0100000000000000 4000000000000000 4000000000000000 \
       0300000000000000",
    ],
    64,
);

const ZEROS_OF_A_PAGE: &str = "0 0 0 0 0 0 0 0 0 0 0 0 0 0 0 0 0 0 0 0 0 0 0 0 0 0 0 0 0 0 0 0 \
     0 0 0 0 0 0 0 0 0 0 0 0 0 0 0 0 0 0 0 0 0 0 0 0 0 0 0 0 0 0 0";

const FIRST_PAGE: &str = "0000000001000000";

const SECOND_PAGE: &str = "0100000001000000";

const THIRD_PAGE: &str = "0200000001000000";

const ONE_PAGE: Groups = Groups(&[FIRST_PAGE], PAGE_BYTES);

const THREE_FORMATTED: Groups = Groups(
    &[
        FIRST_PAGE,
        ZEROS_OF_A_PAGE,
        SECOND_PAGE,
        ZEROS_OF_A_PAGE,
        THIRD_PAGE,
    ],
    3 * PAGE_BYTES,
);

// The third page has the LSN 320, and 4 in slot 0.
const THREE_PAGES: Groups = Groups(
    &[
        FIRST_PAGE,
        ZEROS_OF_A_PAGE,
        SECOND_PAGE,
        ZEROS_OF_A_PAGE,
        THIRD_PAGE,
        "4001000000000000 0400000000000000",
    ],
    3 * PAGE_BYTES,
);

const NOTHING: Groups = Groups(&[], 0);

#[test]
fn a_volume_has_the_last_count_of_its_log(rt: HostRuntime) {
    assert_volume(&rt, LOG_BEFORE_IT, ONE_PAGE);
    assert_volume(&rt, LOG_UP_TO_THE_GROWTH, THREE_FORMATTED);
    assert_volume(&rt, GROWN_LOG, THREE_PAGES);
}

#[test]
fn a_log_that_grows_wrongly_is_refused(rt: HostRuntime) {
    assert_no_log(&rt, OF_THE_FIRST_FORMAT, "E31 BadRecord 192");
    assert_no_log(&rt, TOO_LATE, "E31 BadRecord 256");
    assert_no_log(&rt, NOT_GROWN, "E35 BadChain 192");
}

/// A copy has as many pages as there were at its checkpoint. What is restored of it has as many as
/// the log gives in the end.
static RESTORED: [Restored; 5] = [
    ((GROWN_LOG, MASTER, &[COPY]), "", THREE_PAGES),
    ((LOG_UP_TO_THE_GROWTH, MASTER, &[COPY]), "", THREE_FORMATTED),
    ((LOG_BEFORE_IT, MASTER, &[COPY]), "", ONE_PAGE),
    (
        (GROWN_LOG, MASTER, &[COPY_OF_THREE]),
        "E37 ChainBroken 1",
        NOTHING,
    ),
    (
        (OF_THE_FIRST_FORMAT, MASTER, &[COPY]),
        "E31 BadRecord 192",
        NOTHING,
    ),
];

#[test]
fn a_copy_restores_the_volume_that_grew(rt: HostRuntime) {
    assert_each(&rt, &RESTORED);
}
