//! Volumes restored from the bytes of files.

use crate::asserts::{assert_fault, same};
use crate::groups::{Groups, assert_bytes, bytes_of};
use media_restore::{RestoreFault, restore_files};
use page_core::PAGE_BYTES;
use std::io::Write;
use std::process::Abort;
use std::thread::Threads;

// The header of a log of one page, also in the first format, and in one that there is not.
const HEADER: &str = "41494d474c4f4732 0100000000000000 0 0 0 0 0 0";

const FIRST_HEADER: &str = "41494d474c4f4731 0100000000000000 0 0 0 0 0 0";

const LATER_HEADER: &str = "41494d474c4f4733 0100000000000000 0 0 0 0 0 0";

// A transaction sets slot 0 of the one page to 5, and a checkpoint is made.
const CHANGED: &str = "0100000001000000 0 0 0 0 0 0 4000000000000000 \
     0200000001000000 4000000000000000 0 0000000000000100 0 0500000000000000 0 8000000000000000 \
     0700000000000000 0 0 0 0 0 0 c000000000000000 \
     0800000000000000 c000000000000000 0100000000000000 8000000000000000 0 0 0 0001000000000000 \
     0900000000000000 c000000000000000 0000000001000000 0100000080000000 \
     0000000080000000 0 0 4001000000000000 \
     0a00000000000000 c000000000000000 0 8000000000000000 0 0 0 8001000000000000";

const COMMIT: &str = "0400000001000000 8000000000000000 0 0 0 0 0 c001000000000000";

const COMMITTED_LOG: Groups = Groups(&[HEADER, CHANGED, COMMIT], 512);

const OPEN_LOG: Groups = Groups(&[HEADER, CHANGED], 448);

const TORN_LOG: Groups = Groups(&[HEADER, CHANGED, COMMIT], 500);

const FIRST_LOG: Groups = Groups(&[FIRST_HEADER, CHANGED, COMMIT], 512);

const LATER_LOG: Groups = Groups(&[LATER_HEADER, CHANGED, COMMIT], 512);

const MASTER_BYTES: &str = "41494d474d535431 c000000000000000 8001000000000000";

const MASTER: Groups = Groups(&[MASTER_BYTES], 64);

const SHORT_MASTER: Groups = Groups(&[MASTER_BYTES], 63);

// No checkpoint of the log begins at 128.
const OTHER_MASTER: Groups = Groups(&["41494d474d535431 8000000000000000 8001000000000000"], 64);

const ARCHIVE: &str = "41494d4741524332";

// A full copy of one page that took the formatted one: redo begins at 128.
const COPY_BYTES: &str = "0100000001000000 0100000000000000 c000000000000000 8000000000000000 \
     0100000000000000 0 0 0000000001000000";

const COPY: Groups = Groups(&[ARCHIVE, COPY_BYTES], 576);

const CUT_COPY: Groups = Groups(&[ARCHIVE, COPY_BYTES], 574);

const FIRST_COPY: Groups = Groups(&["41494d4741524331", COPY_BYTES], 576);

const LATER_COPY: Groups = Groups(&["41494d4741524333", COPY_BYTES], 576);

// The same, where redo begins at 192, which is too late.
const LATE_COPY: Groups = Groups(
    &[
        "41494d4741524332 0100000001000000 0100000000000000 c000000000000000 c000000000000000 \
       0100000000000000 0 0 0000000001000000",
    ],
    576,
);

// An incremental copy on copy 1, which took no page.
const NEXT_COPY: Groups = Groups(
    &["41494d4741524332 0100000002000000 0200000001000000 c000000000000000 8000000000000000"],
    64,
);

// A full copy of the same page, with a redo point at the log's end, and with an LSN there.
const COPY_PAST_LOG: Groups = Groups(
    &[
        "41494d4741524332 0100000001000000 0100000000000000 0002000000000000 0002000000000000 \
       0100000000000000 0 0 0000000001000000",
    ],
    576,
);

const PAGE_PAST_LOG: Groups = Groups(&[ARCHIVE, COPY_BYTES, "0002000000000000"], 577);

// A page of two was changed between two checkpoints, and copied whole after the first one and as an
// increment after the second.
const CHANGED_BETWEEN: Groups = Groups(
    &[
        "41494d474c4f4732 0200000000000000 0 0 0 0 0 0 \
     0700000000000000 0 0 0 0 0 0 4000000000000000 \
     0a00000000000000 4000000000000000 0 4000000000000000 0 0 0 8000000000000000 \
     0100000001000000 0 0 0 0 0 0 c000000000000000 \
     0200000001000000 c000000000000000 0 0100000000000100 0 0900000000000000 0 0001000000000000 \
     0400000001000000 0001000000000000 0 0 0 0 0 4001000000000000 \
     0700000000000000 0 0 0 0 0 0 8001000000000000 \
     0a00000000000000 8001000000000000 0 8001000000000000 0 0 0 c001000000000000",
    ],
    512,
);

const LATER_MASTER: Groups = Groups(&["41494d474d535431 8001000000000000 c001000000000000"], 64);

const ZEROS_OF_A_PAGE: &str = "0 0 0 0 0 0 0 0 0 0 0 0 0 0 0 0 0 0 0 0 0 0 0 0 0 0 0 0 0 0 0 0 \
     0 0 0 0 0 0 0 0 0 0 0 0 0 0 0 0 0 0 0 0 0 0 0 0 0 0 0 0 0 0 0";

const BOTH_PAGES: [&str; 4] = [
    "41494d4741524332 0200000001000000 0100000000000000 4000000000000000 4000000000000000 \
     0200000000000000 0 0",
    "0000000001000000",
    ZEROS_OF_A_PAGE,
    "0100000001000000",
];

const FULL_OF_TWO: Groups = Groups(&BOTH_PAGES, 1_088);

const CUT_IN_ITS_SECOND_PAGE: Groups = Groups(&BOTH_PAGES, 1_000);

const CHANGED_PAGE: &str = "0100000001000000 0001000000000000 0900000000000000";

const INCREMENT: [&str; 2] = [
    "41494d4741524332 0200000002000000 0200000001000000 8001000000000000 8001000000000000 \
     0100000000000000 0 0",
    CHANGED_PAGE,
];

const INC_OF_TWO: Groups = Groups(&INCREMENT, 576);

const INC_WITH_A_BYTE_MORE: Groups = Groups(&INCREMENT, 577);

const BOTH_RESTORED: Groups = Groups(
    &["0000000001000000", ZEROS_OF_A_PAGE, CHANGED_PAGE],
    2 * PAGE_BYTES,
);

const EMPTY: Groups = Groups(&[], 0);

// Pages with an LSN, and a number in slot 0.
const FORMATTED: Groups = Groups(&["0000000001000000"], PAGE_BYTES);

const FIVE_AT_128: Groups = Groups(
    &["0000000001000000 8000000000000000 0500000000000000"],
    PAGE_BYTES,
);

const NONE_AT_448: Groups = Groups(&["0000000001000000 c001000000000000"], PAGE_BYTES);

/// Files: a log, a master record and archives.
pub(crate) type Files = (Groups, Groups, &'static [Groups]);

/// Files, the line of the fault where they are restored, or no text, and what is written.
pub(crate) type Restored = (Files, &'static str, Groups);

/// What comes of a restore of these files to a writer.
fn fault_of<W: Write>(
    rt: &(impl Abort + AllocGlobal + Threads + Sync),
    (log, master, archives): Files,
    writer: &mut W,
) -> Option<RestoreFault> {
    let alloc = rt.alloc();
    let log = bytes_of(rt, log);
    let master = bytes_of(rt, master);
    let mut bytes = Vec::new(alloc);
    for archive in archives {
        bytes
            .push(bytes_of(rt, *archive))
            .expect(rt, "memory for archives");
    }
    let mut archives = Vec::new(alloc);
    for archive in &bytes {
        archives
            .push(archive.as_slice())
            .expect(rt, "memory for archives");
    }
    restore_files(
        rt,
        alloc,
        &mut log.as_slice(),
        &mut master.as_slice(),
        &mut archives,
        writer,
    )
    .err()
}

/// Asserts what comes of restores of files, and what is written.
pub(crate) fn assert_each(rt: &(impl Abort + AllocGlobal + Threads + Sync), table: &[Restored]) {
    for (files, line, volume) in table {
        let mut written = Vec::new(rt.alloc());
        let fault = fault_of(rt, *files, &mut written);
        assert_fault(rt, &fault, line);
        assert_bytes(rt, &written, *volume);
    }
}

static RESTORED: [Restored; 4] = [
    // What was committed is there. Without the commit a record at 448 compensates it.
    ((COMMITTED_LOG, MASTER, &[COPY]), "", FIVE_AT_128),
    ((OPEN_LOG, MASTER, &[COPY]), "", NONE_AT_448),
    // Redo from 192 on leaves the change out, whoever made the archive.
    ((COMMITTED_LOG, MASTER, &[LATE_COPY]), "", FORMATTED),
    ((OPEN_LOG, MASTER, &[LATE_COPY]), "", NONE_AT_448),
];

#[test]
fn a_page_is_restored(rt: HostRuntime) {
    assert_each(&rt, &RESTORED);
}

/// The log and the archives may be of the first format, each by itself.
static FIRST_FORMAT: [Restored; 5] = [
    ((FIRST_LOG, MASTER, &[FIRST_COPY]), "", FIVE_AT_128),
    ((FIRST_LOG, MASTER, &[COPY]), "", FIVE_AT_128),
    (
        (COMMITTED_LOG, MASTER, &[FIRST_COPY, NEXT_COPY]),
        "",
        FIVE_AT_128,
    ),
    ((LATER_LOG, MASTER, &[COPY]), "E30 BadHeader", EMPTY),
    (
        (FIRST_LOG, MASTER, &[LATER_COPY]),
        "E36 BadArchive 0",
        EMPTY,
    ),
];

#[test]
fn files_of_the_first_format_are_restored(rt: HostRuntime) {
    assert_each(&rt, &FIRST_FORMAT);
}

static ON_A_LATE_COPY: [Restored; 1] = [(
    (COMMITTED_LOG, MASTER, &[LATE_COPY, NEXT_COPY]),
    "",
    FIVE_AT_128,
)];

#[test]
fn the_redo_point_is_that_of_the_last_copy(rt: HostRuntime) {
    assert_each(&rt, &ON_A_LATE_COPY);
}

/// The pages come from the last archive that has them. The archives are read side by side, and the
/// first fault that is met so is answered.
static SIDE_BY_SIDE: [Restored; 4] = [
    (
        (CHANGED_BETWEEN, LATER_MASTER, &[FULL_OF_TWO, INC_OF_TWO]),
        "",
        BOTH_RESTORED,
    ),
    (
        (
            CHANGED_BETWEEN,
            LATER_MASTER,
            &[CUT_IN_ITS_SECOND_PAGE, INC_OF_TWO],
        ),
        "E36 BadArchive 576",
        EMPTY,
    ),
    (
        (
            CHANGED_BETWEEN,
            LATER_MASTER,
            &[FULL_OF_TWO, INC_WITH_A_BYTE_MORE],
        ),
        "E38 CountDiffers",
        EMPTY,
    ),
    (
        (
            CHANGED_BETWEEN,
            LATER_MASTER,
            &[CUT_IN_ITS_SECOND_PAGE, INC_WITH_A_BYTE_MORE],
        ),
        "E38 CountDiffers",
        EMPTY,
    ),
];

#[test]
fn archives_are_read_side_by_side(rt: HostRuntime) {
    assert_each(&rt, &SIDE_BY_SIDE);
}

/// Nothing may lie past the log's end. The master record is looked at before, and a page behind all
/// headers.
static PAST_THE_LOG: [Restored; 4] = [
    (
        (COMMITTED_LOG, MASTER, &[COPY_PAST_LOG]),
        "E39 RedoBeyondLog",
        EMPTY,
    ),
    (
        (COMMITTED_LOG, OTHER_MASTER, &[COPY_PAST_LOG]),
        "E35 BadChain 128",
        EMPTY,
    ),
    (
        (COMMITTED_LOG, MASTER, &[PAGE_PAST_LOG]),
        "E40 PageBeyondLog 0",
        EMPTY,
    ),
    (
        (COMMITTED_LOG, MASTER, &[PAGE_PAST_LOG, EMPTY]),
        "E36 BadArchive 0",
        EMPTY,
    ),
];

#[test]
fn copies_do_not_reach_past_the_log(rt: HostRuntime) {
    assert_each(&rt, &PAST_THE_LOG);
}

/// The log comes first, then the master record, then the archives. Nothing is written.
static REFUSED: [Restored; 9] = [
    (
        (EMPTY, SHORT_MASTER, &[CUT_COPY, NEXT_COPY]),
        "E30 BadHeader",
        EMPTY,
    ),
    (
        (TORN_LOG, SHORT_MASTER, &[CUT_COPY, NEXT_COPY]),
        "E32 Torn 448",
        EMPTY,
    ),
    (
        (COMMITTED_LOG, SHORT_MASTER, &[CUT_COPY, NEXT_COPY]),
        "E30 BadHeader",
        EMPTY,
    ),
    (
        (COMMITTED_LOG, OTHER_MASTER, &[CUT_COPY, NEXT_COPY]),
        "E35 BadChain 128",
        EMPTY,
    ),
    (
        (COMMITTED_LOG, MASTER, &[CUT_COPY, NEXT_COPY]),
        "E36 BadArchive 64",
        EMPTY,
    ),
    (
        (COMMITTED_LOG, MASTER, &[NEXT_COPY, CUT_COPY]),
        "E37 ChainBroken 2",
        EMPTY,
    ),
    (
        (COMMITTED_LOG, MASTER, &[COPY, COPY]),
        "E37 ChainBroken 1",
        EMPTY,
    ),
    (
        (COMMITTED_LOG, MASTER, &[COPY, EMPTY]),
        "E36 BadArchive 0",
        EMPTY,
    ),
    ((COMMITTED_LOG, MASTER, &[]), "E37 ChainBroken 0", EMPTY),
];

#[test]
fn files_are_refused(rt: HostRuntime) {
    assert_each(&rt, &REFUSED);
}

#[test]
fn a_failing_writer_is_told(rt: HostRuntime) {
    let mut room = [0; 100];
    let files: Files = (COMMITTED_LOG, MASTER, &[COPY]);
    let fault = fault_of(&rt, files, &mut room.as_mut_slice());
    assert_fault(&rt, &fault, "E29 WriteFault 100");
    let page = bytes_of(&rt, FIVE_AT_128);
    same(&rt, &page.get(..100), &Some(room.as_slice()));
}
