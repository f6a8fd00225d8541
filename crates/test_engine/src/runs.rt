//! Scripts with their replies, and the pages that their last restore gives.

ghost use Rattle.buffer_pool.specs.Pool.{IsFrameCount};
ghost use Rattle.log_records.specs.Log.{IsPageCount};

use crate::asserts::{same, same_at};
use crate::calls::{Row, put_part, script_of};
use crate::rows;
use crate::rows::growth;
use aries_core::Setup;
use buffer_pool::MAX_FRAMES;
use media_restore::{LoadFault, Refused};
use script_run::{FinishFault, finish_script, run_script};
use std::process::Abort;
use std::thread::Threads;

/// Plays the script of these parts and of a restore after them, asserts all that is written, and
/// tells what comes of the restore.
fn outcome_of(
    rt: &(impl Abort + AllocGlobal + Threads + Sync),
    setup: Setup,
    parts: &[&str],
    restore: &str,
) -> Result<(), FinishFault>
    requires pages { IsPageCount setup.pages }
    requires frames { IsFrameCount setup.frames }
{
    let alloc = rt.alloc();
    let (mut script, mut output) = script_of(rt, parts);
    put_part(rt, &mut script, &mut output, restore);
    let mut written = Vec::new(alloc);
    let ran = run_script(alloc, setup, &mut script.as_bytes(), &mut written).expect(rt, "a run");
    let outcome = finish_script(rt, alloc, ran, &mut written);
    let text = str::from_utf8(&written).expect(rt, "a text");
    same(rt, &text, &output.as_str());
    outcome
}

const NO_CHECKPOINT: Row = Row {
    pages: 4,
    parts: &["gather -> E14 NoCkpt"],
};

const READ_BEFORE_A_RESTORE: Row = Row {
    pages: 2,
    parts: &[rows::IDLE, "full -> copy 1"],
};

const DROPPED_BEFORE_A_RESTORE: Row = Row {
    pages: 2,
    parts: &[rows::IDLE, "full -> copy 1\ndrop 1 -> dropped"],
};

const OF_TWO_PAGES: &str = "
    restore 1 all -> page 0 lsn 0
    page 1 lsn 256 0=9
";

/// A row, a restore after it with its lines, or none, and what comes of it.
type Run = (Row, &'static str, Result<(), FinishFault>);

/// Copies of each kind beside writes.
static COPIED: [Run; 6] = [
    (rows::CHANGED_AFTER_A_COPY, OF_TWO_PAGES, Ok(())),
    (
        rows::COPIED_WHEN_DIRTY,
        "restore 1 all -> page 0 lsn 128 0=5",
        Ok(()),
    ),
    (
        rows::COPIED_BEHIND_THE_CURSOR,
        "restore 1 all -> page 0 lsn 192 0=5",
        Ok(()),
    ),
    (
        rows::COPIED_AFTER_A_CHANGED_WRITE,
        "restore 1 all -> page 0 lsn 192 0=6",
        Ok(()),
    ),
    (
        rows::TAKEN_AT_THE_REDO_POINT,
        "restore 2 all -> page 0 lsn 128 0=5",
        Ok(()),
    ),
    // No Add is made twice.
    (
        rows::ADDED_BEFORE_A_COPY,
        "restore 1 all -> page 0 lsn 128 0=5",
        Ok(()),
    ),
];

static RUNS: [Run; 26] = [
    (rows::SUM_WRAPS, "", Ok(())),
    // All records are kept, the Set is lost, and a forced record is lost.
    (
        rows::ADDED_AND_SET,
        "restore 1 all -> page 0 lsn 640 0=3",
        Ok(()),
    ),
    (
        rows::ADDED_AND_SET,
        "restore 1 7 -> page 0 lsn 512 0=3",
        Ok(()),
    ),
    (
        rows::ADDED_AND_SET,
        "restore 1 6 -> E27 CutTooShort 7",
        Err(FinishFault::Refused(Refused::Load(LoadFault::CutTooShort(7)))),
    ),
    (rows::SLOT_HELD, "", Ok(())),
    (rows::DROPPED_WHILE_READ, "", Ok(())),
    (
        rows::WHILE_A_CHECKPOINT_IS_OPEN,
        "restore 1 all -> page 0 lsn 256 0=5",
        Ok(()),
    ),
    (rows::CHAIN, "restore 3 all -> page 0 lsn 704", Ok(())),
    (rows::LAST_PAGE_AND_SLOT, "", Ok(())),
    (rows::ROLLED_BACK, "", Ok(())),
    (rows::WRITTEN, "", Ok(())),
    (rows::FOUR_PAGES, "", Ok(())),
    (rows::WRITTEN_BEFORE_ITS_TURN, "", Ok(())),
    (NO_CHECKPOINT, "", Ok(())),
    (rows::TWO_COPIES_AT_ONCE, "", Ok(())),
    (
        rows::TWO_COPIES_OF_ONE_PARENT,
        "
        restore 3 all -> page 0 lsn 0
        page 1 lsn 256 0=9
    ",
        Ok(()),
    ),
    // The order of undo.
    (
        rows::THREE_LOSERS,
        "restore 1 all -> page 0 lsn 832",
        Ok(()),
    ),
    (rows::WENT_BACK, "restore 1 all -> page 0 lsn 576", Ok(())),
    (
        rows::WENT_BACK_AND_COMMITTED,
        "restore 1 all -> page 0 lsn 448 0=5 1=9",
        Ok(()),
    ),
    (
        rows::WENT_BACK_BESIDE_A_CHECKPOINT,
        "restore 1 all -> page 0 lsn 960",
        Ok(()),
    ),
    // The records that are kept are of one page, and then of three.
    (
        growth::GROWN_AFTER_A_COPY,
        "restore 1 2 -> page 0 lsn 0",
        Ok(()),
    ),
    (
        growth::COPIED_AFTER_GROWTH,
        "
        restore 3 all -> page 0 lsn 0
        page 1 lsn 0
        page 2 lsn 320 0=4
    ",
        Ok(()),
    ),
    (
        growth::GROWN_DURING_A_CHECKPOINT,
        "
        restore 1 all -> page 0 lsn 0
        page 1 lsn 0
        page 2 lsn 256 0=4
    ",
        Ok(()),
    ),
    (growth::GROWN_TO_THE_MOST, "", Ok(())),
    (
        READ_BEFORE_A_RESTORE,
        "restore 1 all -> E19 CopyNotComplete",
        Err(FinishFault::Refused(Refused::Load(LoadFault::CopyNotComplete))),
    ),
    (
        DROPPED_BEFORE_A_RESTORE,
        "restore 1 all -> E17 NoCopy",
        Err(FinishFault::Refused(Refused::Load(LoadFault::NoCopy))),
    ),
];

/// Asserts each of these runs, with so many frames.
fn assert_runs(rt: &(impl Abort + AllocGlobal + Threads + Sync), frames: u32, table: &[Run])
    requires { IsFrameCount frames }
{
    for (row, restore, wanted) in table {
        let setup = Setup {
            pages: row.pages(rt),
            frames,
        };
        let outcome = outcome_of(rt, setup, row.parts, restore);
        same_at(rt, &outcome, wanted, &row.parts);
    }
}

#[test]
fn scripts_are_answered_and_restored(rt: HostRuntime) {
    assert_runs(&rt, MAX_FRAMES, &COPIED);
    assert_runs(&rt, MAX_FRAMES, &RUNS);
}

#[test]
fn copies_are_answered_and_restored_with_one_frame(rt: HostRuntime) {
    assert_runs(&rt, 1, &COPIED);
}

#[test]
fn sixty_four_transactions_are_open(rt: HostRuntime) {
    let row = rows::sixty_four_transactions(&rt);
    let setup = Setup {
        pages: 1,
        frames: MAX_FRAMES,
    };
    let outcome = outcome_of(&rt, setup, &[&row], "");
    same(&rt, &outcome, &Ok(()));
}
