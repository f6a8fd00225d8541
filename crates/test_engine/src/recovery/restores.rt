//! Copies that are loaded, redone and undone.

use super::shown::Appended::{BackTo, End, Less};
use super::shown::{Appended, Shown, assert_appended, assert_pages};
use super::{redone_of, retired, undone_of};
use crate::asserts::same_at;
use crate::calls::{Calls, Row, assert_replies, calls_of};
use crate::engine::{failing_device, failing_store, setup_of};
use crate::rows;
use copy_vault::CopyId;
use loser_undo::Undone;
use media_restore::{LoadFault, Refused, load, rebuild};
use page_core::Lsn;
use std::process::Abort;
use std::thread::Threads;

/// All records are kept.
const ALL: usize = usize::MAX;

/// What of a row is restored, a copy over the first `cut` records, and what the restore makes: its
/// pages after redo and after undo, and the records that undo appends. Of the row's device the
/// `k`-th call fails. 0 is none.
#[derive(Clone, Copy)]
struct Restored {
    row: Row,
    k: u64,
    copy: u32,
    cut: usize,
    redone: &'static [Shown],
    undone: &'static [Shown],
    appended: &'static [Appended],
}

/// What comes of the calls, played as one list with the restore after them. Their replies are
/// asserted.
fn rebuilt_of(
    rt: &(impl Abort + AllocGlobal + Threads + Sync),
    given: &Restored,
    calls: &Calls,
) -> Result<Undone, Refused> {
    let pages = given.row.pages(rt);
    let setup = setup_of(pages);
    let store = failing_store(rt, pages, 0);
    let device = failing_device(rt, calls.events.len(), given.k);
    let (events, copy) = (&calls.events, CopyId(given.copy));
    let rebuilt = rebuild(
        rt,
        rt.alloc(),
        setup,
        store,
        device,
        events,
        copy,
        given.cut,
    )
    .ok()
    .expect(rt, "a run");
    assert_replies(rt, &rebuilt.replies, calls);
    rebuilt.outcome
}

/// Asserts the pages after undo, and the records behind so many that it appended.
fn assert_undone(rt: &impl Abort, undone: Undone, count: usize, given: &Restored) {
    assert_pages(rt, undone.pages(), given.undone);
    let behind = undone.records().get(count..).unwrap_or(&[]);
    assert_appended(rt, behind, given.appended);
    drop(undone);
}

/// Restores copies step by step, and by one call with the events of their rows, and asserts what is
/// restored.
fn assert_each(rt: &(impl Abort + AllocGlobal + Threads + Sync), table: &[Restored]) {
    for given in table {
        let retired = retired(rt, given.row, given.k);
        let redone = redone_of(rt, retired, given.copy, given.cut);
        assert_pages(rt, redone.pages(), given.redone);
        let count = redone.records().len();
        assert_undone(rt, undone_of(rt, redone), count, given);
        let calls = calls_of(rt, given.row.parts);
        let rebuilt = rebuilt_of(rt, given, &calls).expect(rt, "a restore");
        assert_undone(rt, rebuilt, count, given);
    }
}

/// The page is stored before it is copied, and its write forced the log.
const COPIED_AFTER_A_WRITE: Row = Row {
    pages: 1,
    parts: &[
        rows::IDLE,
        "
        begin -> began 1 at 192
        set 1 0 0 5 -> lsn 256
        wbegin 0 -> writing 256
        wend 0 -> written 256
        full -> copy 1
        take 1 0 -> taken 256
        seal 1 -> sealed 1
    ",
    ],
};

/// The log's device fails when the set and the commit are forced.
const LOST_TAIL: Row = Row {
    pages: 1,
    parts: &[rows::IDLE, rows::FULL, UNSURE],
};

const UNSURE: &str = "
    begin -> began 1 at 192
    set 1 0 0 5 -> lsn 256
    commit 1 -> E26 CommitUnsure 320
";

/// The Commit of which it was not known whether it is stored is forced later on.
const FORCED_TAIL: Row = Row {
    pages: 1,
    parts: &[rows::IDLE, rows::FULL, UNSURE, "force -> forced 384"],
};

/// One copy is dropped, and another one is being read.
const DROPPED_AND_BEING_READ: Row = Row {
    pages: 2,
    parts: &[
        rows::IDLE,
        "
        full -> copy 1
        take 1 0 -> taken 0
        drop 1 -> dropped
        full -> copy 2
    ",
    ],
};

/// The first copy is restored of all records, and there is nothing to undo.
const WHOLE: Restored = Restored {
    row: rows::COPIED_WHEN_DIRTY,
    k: 0,
    copy: 1,
    cut: ALL,
    redone: &[],
    undone: &[],
    appended: &[],
};

/// Five in the first slot of the one page, which has this LSN.
const FIVE_AT_128: Restored = Restored {
    redone: &[(0, 128, [5, 0, 0])],
    undone: &[(0, 128, [5, 0, 0])],
    ..WHOLE
};

const FIVE_AT_192: Restored = Restored {
    redone: &[(0, 192, [5, 0, 0])],
    undone: &[(0, 192, [5, 0, 0])],
    ..WHOLE
};

const FIVE_AT_256: Restored = Restored {
    redone: &[(0, 256, [5, 0, 0])],
    undone: &[(0, 256, [5, 0, 0])],
    ..WHOLE
};

/// The transactions have committed, so undo has nothing to do.
static COMMITTED: [Restored; 8] = [
    FIVE_AT_128,
    Restored {
        row: rows::COPIED_BEHIND_THE_CURSOR,
        ..FIVE_AT_192
    },
    Restored {
        row: rows::COPIED_AFTER_A_CHANGED_WRITE,
        redone: &[(0, 192, [6, 0, 0])],
        undone: &[(0, 192, [6, 0, 0])],
        ..WHOLE
    },
    Restored {
        row: rows::TAKEN_AT_THE_REDO_POINT,
        ..FIVE_AT_128
    },
    Restored {
        row: rows::TAKEN_AT_THE_REDO_POINT,
        copy: 2,
        ..FIVE_AT_128
    },
    Restored {
        row: rows::ADDED_BEFORE_A_COPY,
        ..FIVE_AT_128
    },
    Restored {
        row: rows::WHILE_A_CHECKPOINT_IS_OPEN,
        ..FIVE_AT_256
    },
    Restored {
        row: LOST_TAIL,
        k: 4,
        ..FIVE_AT_256
    },
];

#[test]
fn committed_changes_are_restored(rt: HostRuntime) {
    assert_each(&rt, &COMMITTED);
}

const OF_ONE_PARENT: Restored = Restored {
    row: rows::TWO_COPIES_OF_ONE_PARENT,
    redone: &[(0, 0, [0, 0, 0]), (1, 256, [9, 0, 0])],
    undone: &[(0, 0, [0, 0, 0]), (1, 256, [9, 0, 0])],
    ..WHOLE
};

static OF_TWO_PAGES: [Restored; 4] = [
    Restored {
        row: rows::CHANGED_AFTER_A_COPY,
        ..OF_ONE_PARENT
    },
    OF_ONE_PARENT,
    Restored {
        copy: 2,
        ..OF_ONE_PARENT
    },
    Restored {
        copy: 3,
        ..OF_ONE_PARENT
    },
];

#[test]
fn a_volume_of_two_pages_is_restored(rt: HostRuntime) {
    assert_each(&rt, &OF_TWO_PAGES);
}

/// Redo repeats what is then undone.
static LOSER: [Restored; 2] = [
    Restored {
        row: rows::ADDED_AND_SET,
        redone: &[(0, 512, [10, 0, 0])],
        undone: &[(0, 640, [3, 0, 0])],
        appended: &[
            BackTo(1, 576, 512, 320, (0, 8)),
            Less(1, 640, 576, 192, (0, 5)),
            End(1, 704, 640),
        ],
        ..WHOLE
    },
    Restored {
        row: rows::ADDED_AND_SET,
        cut: 7,
        redone: &[(0, 384, [8, 0, 0])],
        undone: &[(0, 512, [3, 0, 0])],
        appended: &[Less(1, 512, 320, 192, (0, 5)), End(1, 576, 512)],
        ..WHOLE
    },
];

#[test]
fn a_loser_is_taken_back(rt: HostRuntime) {
    assert_each(&rt, &LOSER);
}

/// The records that were not forced may be lost.
static TAIL: [Restored; 2] = [
    Restored {
        row: LOST_TAIL,
        k: 4,
        cut: 2,
        redone: &[(0, 0, [0, 0, 0])],
        undone: &[(0, 0, [0, 0, 0])],
        ..WHOLE
    },
    Restored {
        row: LOST_TAIL,
        k: 4,
        cut: 4,
        redone: &[(0, 256, [5, 0, 0])],
        undone: &[(0, 320, [0, 0, 0])],
        appended: &[BackTo(1, 320, 256, 192, (0, 0)), End(1, 384, 320)],
        ..WHOLE
    },
];

#[test]
fn a_tail_is_lost(rt: HostRuntime) {
    let left = retired(&rt, LOST_TAIL, 4);
    same_at(&rt, &left.forced_end(), &Lsn(192), &left.log().end());
    drop(left);
    assert_each(&rt, &TAIL);
}

/// One of two changes was taken back before, and is not taken back again.
const CHAIN: Restored = Restored {
    row: rows::CHAIN,
    redone: &[(0, 640, [5, 0, 0])],
    undone: &[(0, 704, [0, 0, 0])],
    appended: &[Less(1, 704, 640, 192, (0, 5)), End(1, 768, 704)],
    ..WHOLE
};

static COPIES_OF_THE_CHAIN: [Restored; 3] = [
    CHAIN,
    Restored { copy: 2, ..CHAIN },
    Restored { copy: 3, ..CHAIN },
];

#[test]
fn a_rollback_is_ended(rt: HostRuntime) {
    assert_each(&rt, &COPIES_OF_THE_CHAIN);
}

/// What a transaction took back itself is not taken back again.
static WENT_BACK: [Restored; 2] = [
    Restored {
        row: rows::WENT_BACK,
        redone: &[(0, 448, [5, 9, 0])],
        undone: &[(0, 576, [0, 0, 0])],
        appended: &[
            BackTo(1, 512, 448, 384, (1, 0)),
            Less(1, 576, 512, 192, (0, 5)),
            End(1, 640, 576),
        ],
        ..WHOLE
    },
    Restored {
        row: rows::WENT_BACK_AND_COMMITTED,
        redone: &[(0, 448, [5, 9, 0])],
        undone: &[(0, 448, [5, 9, 0])],
        ..WHOLE
    },
];

#[test]
fn a_step_that_was_taken_back_stays_so(rt: HostRuntime) {
    assert_each(&rt, &WENT_BACK);
}

/// The changes are taken back from the last to the first, whose ever they are.
static THREE_LOSERS: [Restored; 1] = [Restored {
    row: rows::THREE_LOSERS,
    redone: &[(0, 512, [1, 2, 3])],
    undone: &[(0, 832, [0, 0, 0])],
    appended: &[
        End(3, 576, 320),
        Less(1, 640, 512, 384, (2, 3)),
        Less(2, 704, 448, 256, (1, 2)),
        End(2, 768, 704),
        Less(1, 832, 640, 192, (0, 1)),
        End(1, 896, 832),
    ],
    ..WHOLE
}];

#[test]
fn three_losers_are_taken_back(rt: HostRuntime) {
    assert_each(&rt, &THREE_LOSERS);
}

/// A transaction commits, and another one adds until its records may fill the log, and aborts.
const BEFORE_THE_ADDS: &str = "
    begin -> began 1 at 192
    set 1 0 0 7 -> lsn 256
    commit 1 -> lsn 320
    begin -> began 2 at 384
";

const AFTER_THE_ADDS: &str = "
    add 2 0 0 1 -> E8 LogFull
    abort 2 -> lsn 33554624
";

/// Behind 6 records n Adds need n compensations, an Abort and an End: 6 + 2 n + 2 = 1,048,576.
fn adds(rt: &(impl Abort + AllocGlobal)) -> String {
    let mut part = String::new(rt.alloc());
    for number in 7..7 + 524_284u64 {
        let lsn = 64 * number;
        writeln!(part, "add 2 0 0 1 -> lsn {lsn}").expect(rt, "memory for a row");
    }
    part
}

/// Undo fills the log to the last record that it may have, at 64 * 1,048,576.
static FULL_LOG: Restored = Restored {
    undone: &[(0, 67_108_800, [7, 0, 0])],
    appended: &[
        Less(2, 67_108_800, 67_108_736, 384, (0, 1)),
        End(2, 67_108_864, 67_108_800),
    ],
    ..WHOLE
};

#[test]
fn a_full_log_is_restored(rt: HostRuntime) {
    let adds = adds(&rt);
    let parts = [
        rows::IDLE,
        rows::FULL,
        BEFORE_THE_ADDS,
        &adds,
        AFTER_THE_ADDS,
    ];
    let calls = calls_of(&rt, &parts);
    let rebuilt = rebuilt_of(&rt, &FULL_LOG, &calls).expect(&rt, "a restore");
    assert_undone(&rt, rebuilt, 1_048_574, &FULL_LOG);
}

/// A row, the call of its device that fails, a copy and a cut, and why the copy is not loaded.
static REFUSED: [(Restored, LoadFault); 8] = [
    (
        Restored {
            row: rows::ADDED_AND_SET,
            cut: 6,
            ..WHOLE
        },
        LoadFault::CutTooShort(7),
    ),
    (
        Restored {
            row: LOST_TAIL,
            k: 4,
            cut: 1,
            ..WHOLE
        },
        LoadFault::CutTooShort(2),
    ),
    (
        Restored {
            row: FORCED_TAIL,
            k: 4,
            cut: 4,
            ..WHOLE
        },
        LoadFault::CutTooShort(5),
    ),
    (
        Restored {
            row: COPIED_AFTER_A_WRITE,
            cut: 3,
            ..WHOLE
        },
        LoadFault::CutTooShort(4),
    ),
    (
        Restored {
            row: DROPPED_AND_BEING_READ,
            ..WHOLE
        },
        LoadFault::NoCopy,
    ),
    (
        Restored {
            row: DROPPED_AND_BEING_READ,
            copy: 2,
            cut: 0,
            ..WHOLE
        },
        LoadFault::CopyNotComplete,
    ),
    (
        Restored {
            row: DROPPED_AND_BEING_READ,
            copy: 3,
            cut: 0,
            ..WHOLE
        },
        LoadFault::NoCopy,
    ),
    (
        Restored {
            row: DROPPED_AND_BEING_READ,
            copy: 0,
            cut: 0,
            ..WHOLE
        },
        LoadFault::NoCopy,
    ),
];

/// Asserts that a copy is not loaded, and why.
fn assert_refused(
    rt: &(impl Abort + AllocGlobal + Threads + Sync),
    given: &Restored,
    fault: LoadFault,
) {
    let retired = retired(rt, given.row, given.k);
    let found = match load(rt.alloc(), retired, CopyId(given.copy), given.cut) {
        Ok(_) => None,
        Err((_, found)) => Some(found),
    };
    same_at(rt, &found, &Some(fault), &given.copy);
    let calls = calls_of(rt, given.row.parts);
    let refused = rebuilt_of(rt, given, &calls).err();
    same_at(rt, &refused, &Some(Refused::Load(fault)), &given.copy);
}

#[test]
fn copies_are_not_loaded(rt: HostRuntime) {
    for (given, fault) in &REFUSED {
        assert_refused(&rt, given, *fault);
    }
}
