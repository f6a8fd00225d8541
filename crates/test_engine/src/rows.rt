//! Series of calls that several tests use, and parts that several of them share.

pub(crate) mod growth;

use crate::calls::Row;
use std::process::Abort;

/// A checkpoint of an engine that has done nothing.
pub(crate) const IDLE: &str = "
    ckpt -> lsn 64
    gather -> more
    gather -> done
    endckpt -> point 64 128 64
";

/// A full copy of one page, which is stored as it was formatted.
pub(crate) const FULL: &str = "
    full -> copy 1
    take 1 0 -> taken 0
    seal 1 -> sealed 1
";

/// A full copy of one page, which is stored with the LSN 128.
const FULL_OF_128: &str = "
    full -> copy 1
    take 1 0 -> taken 128
    seal 1 -> sealed 1
";

const COMMITTED_AT_448: &str = "commit 1 -> lsn 448";

/// A dirty page and an open transaction are gathered.
pub(crate) const GATHERED: &str = "
    begin -> began 1 at 64
    set 1 0 0 5 -> lsn 128
    ckpt -> lsn 192
    gather -> more
    gather -> more
    gather -> more
    gather -> done
    endckpt -> point 192 384 128
";

/// The page is dirtied when the cursor of the checkpoint has passed it.
pub(crate) const BEHIND_THE_CURSOR: &str = "
    begin -> began 1 at 64
    ckpt -> lsn 128
    gather -> more
    set 1 0 0 5 -> lsn 192
    gather -> more
    gather -> done
    endckpt -> point 128 320 128
";

/// A page changes while it is written.
pub(crate) const CHANGED_DURING_A_WRITE: &str = "
    begin -> began 1 at 64
    set 1 0 0 5 -> lsn 128
    wbegin 0 -> writing 128
    set 1 0 0 6 -> lsn 192
    wend 0 -> written 128
";

/// Then it is dirty from its second change on.
pub(crate) const GATHERED_AFTER_A_WRITE: &str = "
    ckpt -> lsn 256
    gather -> more
    gather -> more
    gather -> more
    gather -> done
    endckpt -> point 256 448 192
";

/// A full copy of two pages, of which the second is changed thereafter.
const TWO_COPIED: &str = "
    full -> copy 1
    take 1 0 -> taken 0
    take 1 1 -> taken 0
    seal 1 -> sealed 2
    begin -> began 1 at 192
    set 1 1 0 9 -> lsn 256
    commit 1 -> lsn 320
";

/// Four pages are dirty, and three of them are gathered.
const FOUR_DIRTY_PAGES: &str = "
    begin -> began 1 at 64
    set 1 0 0 1 -> lsn 128
    set 1 1 0 1 -> lsn 192
    set 1 2 0 1 -> lsn 256
    set 1 3 0 1 -> lsn 320
    ckpt -> lsn 384
    gather -> more
";

pub(crate) const ROLLED_BACK: Row = Row {
    pages: 1,
    parts: &[
        "
        begin -> began 1 at 64
        set 1 0 0 5 -> lsn 128
        add 1 0 0 3 -> lsn 192
        undo 1 -> E7 NotRolling
        abort 1 -> lsn 256
        add 1 0 0 1 -> E6 TxnRolling
        undo 1 -> undid 320
        read 0 0 -> value 5
        undo 1 -> undid 384
        undo 1 -> ended 448
        undo 1 -> E2 NoTxn
        read 0 0 -> value 0
        force -> forced 512
    ",
    ],
};

/// An Add wraps.
pub(crate) const SUM_WRAPS: Row = Row {
    pages: 1,
    parts: &[
        "
        begin -> began 1 at 64
        set 1 0 0 1 -> lsn 128
        add 1 0 0 18446744073709551615 -> lsn 192
        read 0 0 -> value 0
    ",
    ],
};

/// A Set waits for all others, and an Add for a Set.
pub(crate) const SLOT_HELD: Row = Row {
    pages: 1,
    parts: &[
        "
        begin -> began 1 at 64
        begin -> began 2 at 128
        add 1 0 0 5 -> lsn 192
        set 2 0 0 9 -> E5 SlotBusy 1
        add 2 0 0 1 -> lsn 256
        set 1 0 0 9 -> E5 SlotBusy 2
        read 0 0 -> value 6
    ",
    ],
};

/// Numbers past the volume and past the page.
pub(crate) const LAST_PAGE_AND_SLOT: Row = Row {
    pages: 65_536,
    parts: &[
        "
        begin -> began 1 at 64
        set 1 65535 61 1 -> lsn 128
        set 1 65536 0 1 -> E3 PageOut
        set 1 0 62 1 -> E4 SlotOut
        read 65535 61 -> value 1
    ",
    ],
};

/// A write in two steps.
pub(crate) const WRITTEN: Row = Row {
    pages: 1,
    parts: &[
        "
        wbegin 0 -> E10 NotDirty
        wend 0 -> E12 NoWrite
        begin -> began 1 at 64
        set 1 0 0 5 -> lsn 128
        wbegin 0 -> writing 128
        force -> forced 192
        wbegin 0 -> E11 WriteBegun
        wend 0 -> written 128
        wbegin 0 -> E10 NotDirty
        wbegin 1 -> E3 PageOut
        wend 1 -> E3 PageOut
    ",
    ],
};

/// Four dirty pages in two records.
pub(crate) const FOUR_PAGES: Row = Row {
    pages: 4,
    parts: &[
        FOUR_DIRTY_PAGES,
        "
        gather -> more
        gather -> more
        gather -> more
        gather -> done
        endckpt -> point 384 640 128
    ",
    ],
};

/// The fourth page is clean when its turn comes, so its step appends nothing.
pub(crate) const WRITTEN_BEFORE_ITS_TURN: Row = Row {
    pages: 4,
    parts: &[
        FOUR_DIRTY_PAGES,
        "
        wbegin 3 -> writing 320
        wend 3 -> written 320
        gather -> more
        gather -> more
        gather -> done
        endckpt -> point 384 576 128
    ",
    ],
};

/// Two pages, of which one is changed after its copy.
pub(crate) const CHANGED_AFTER_A_COPY: Row = Row {
    pages: 2,
    parts: &[IDLE, TWO_COPIED],
};

/// The copy's redo point lies before the begin of its checkpoint, and its page is as it was stored
/// before that.
pub(crate) const COPIED_WHEN_DIRTY: Row = Row {
    pages: 1,
    parts: &[GATHERED, FULL, COMMITTED_AT_448],
};

pub(crate) const COPIED_BEHIND_THE_CURSOR: Row = Row {
    pages: 1,
    parts: &[BEHIND_THE_CURSOR, FULL, "commit 1 -> lsn 384"],
};

pub(crate) const COPIED_AFTER_A_CHANGED_WRITE: Row = Row {
    pages: 1,
    parts: &[
        CHANGED_DURING_A_WRITE,
        GATHERED_AFTER_A_WRITE,
        FULL_OF_128,
        "commit 1 -> lsn 512",
    ],
};

/// The page's LSN is just the redo point of the copy's parent.
pub(crate) const TAKEN_AT_THE_REDO_POINT: Row = Row {
    pages: 1,
    parts: &[
        GATHERED,
        FULL,
        COMMITTED_AT_448,
        "
        wbegin 0 -> writing 128
        wend 0 -> written 128
        ckpt -> lsn 512
        gather -> more
        gather -> done
        endckpt -> point 512 576 512
        inc 1 -> copy 2
        take 2 0 -> taken 128
        seal 2 -> sealed 1
    ",
    ],
};

/// The copy has the Add already, which stands past its redo point.
pub(crate) const ADDED_BEFORE_A_COPY: Row = Row {
    pages: 1,
    parts: &[
        "
        begin -> began 1 at 64
        add 1 0 0 5 -> lsn 128
        ckpt -> lsn 192
        gather -> more
        gather -> more
        gather -> more
        gather -> done
        endckpt -> point 192 384 128
        wbegin 0 -> writing 128
        wend 0 -> written 128
    ",
        FULL_OF_128,
        COMMITTED_AT_448,
    ],
};

/// Two transactions add to one slot, and the one that is still open then sets it.
pub(crate) const ADDED_AND_SET: Row = Row {
    pages: 1,
    parts: &[
        IDLE,
        FULL,
        "
        begin -> began 1 at 192
        begin -> began 2 at 256
        add 1 0 0 5 -> lsn 320
        add 2 0 0 3 -> lsn 384
        commit 2 -> lsn 448
        set 1 0 0 10 -> lsn 512
    ",
    ],
};

/// A copy is dropped while it is read.
pub(crate) const DROPPED_WHILE_READ: Row = Row {
    pages: 2,
    parts: &[
        IDLE,
        "
        full -> copy 1
        take 1 0 -> taken 0
        seal 1 -> E21 PagesLeft 1
        take 1 0 -> E20 PageDecided
        inc 1 -> E19 CopyNotComplete
        drop 1 -> dropped
        take 1 1 -> E17 NoCopy
        full -> copy 2
    ",
    ],
};

/// The copy notes the complete checkpoint before the one that is open.
pub(crate) const WHILE_A_CHECKPOINT_IS_OPEN: Row = Row {
    pages: 1,
    parts: &[
        "full -> E16 NoMaster",
        IDLE,
        "
        begin -> began 1 at 192
        set 1 0 0 5 -> lsn 256
        ckpt -> lsn 320
        gather -> more
        endckpt -> E15 GatherLeft
        ckpt -> E13 CkptOpen
    ",
        FULL,
        COMMITTED_AT_448,
    ],
};

/// A page is changed and stored, and its transaction stays open beyond a checkpoint. The first
/// incremental copy has the page, and the second keeps what that one has. Then the transaction is
/// taken back in part.
pub(crate) const CHAIN: Row = Row {
    pages: 1,
    parts: &[
        IDLE,
        FULL,
        "
        begin -> began 1 at 192
        add 1 0 0 5 -> lsn 256
        add 1 0 1 7 -> lsn 320
        wbegin 0 -> writing 320
        wend 0 -> written 320
        ckpt -> lsn 384
        gather -> more
        gather -> more
        gather -> done
        endckpt -> point 384 512 384
        inc 1 -> copy 2
        take 2 0 -> taken 320
        seal 2 -> sealed 1
        inc 2 -> copy 3
        take 3 0 -> kept
        seal 3 -> sealed 0
        abort 1 -> lsn 576
        undo 1 -> undid 640
    ",
    ],
};

/// Two copies are read at once.
pub(crate) const TWO_COPIES_AT_ONCE: Row = Row {
    pages: 1,
    parts: &[
        IDLE,
        "
        full -> copy 1
        full -> copy 2
        take 2 0 -> taken 0
        seal 2 -> sealed 1
        take 2 0 -> E18 CopyNotOpen
        seal 1 -> E21 PagesLeft 0
    ",
    ],
};

/// The page that was changed is stored, a checkpoint has nothing to gather, and two incremental
/// copies have the same parent.
pub(crate) const TWO_COPIES_OF_ONE_PARENT: Row = Row {
    pages: 2,
    parts: &[
        IDLE,
        TWO_COPIED,
        "
        wbegin 1 -> writing 256
        wend 1 -> written 256
        ckpt -> lsn 384
        gather -> more
        gather -> done
        endckpt -> point 384 448 384
        inc 1 -> copy 2
        take 2 1 -> taken 256
        take 2 0 -> kept
        seal 2 -> sealed 1
        inc 1 -> copy 3
        take 3 0 -> kept
        take 3 1 -> taken 256
        seal 3 -> sealed 1
    ",
    ],
};

/// Three transactions are open at the end, of which one has changed nothing.
pub(crate) const THREE_LOSERS: Row = Row {
    pages: 1,
    parts: &[
        IDLE,
        FULL,
        "
        begin -> began 1 at 192
        begin -> began 2 at 256
        begin -> began 3 at 320
        add 1 0 0 1 -> lsn 384
        add 2 0 1 2 -> lsn 448
        add 1 0 2 3 -> lsn 512
    ",
    ],
};

/// A transaction takes its last step back, and goes on.
const A_STEP_TAKEN_BACK: &str = "
    begin -> began 1 at 192
    add 1 0 0 5 -> lsn 256
    save 1 -> saved 256
    add 1 0 0 7 -> lsn 320
    undoto 1 256 -> undid 384
    undoto 1 256 -> reached
    undoto 1 320 -> E42 NoSavepoint
    set 1 0 1 9 -> lsn 448
";

pub(crate) const WENT_BACK: Row = Row {
    pages: 1,
    parts: &[IDLE, FULL, A_STEP_TAKEN_BACK],
};

pub(crate) const WENT_BACK_AND_COMMITTED: Row = Row {
    pages: 1,
    parts: &[IDLE, FULL, A_STEP_TAKEN_BACK, "commit 1 -> lsn 512"],
};

/// Between a savepoint and the way back to it a checkpoint is taken, whose entry is of an active
/// transaction.
pub(crate) const WENT_BACK_BESIDE_A_CHECKPOINT: Row = Row {
    pages: 1,
    parts: &[
        IDLE,
        FULL,
        "
        begin -> began 1 at 192
        add 1 0 0 5 -> lsn 256
        save 1 -> saved 256
        add 1 0 0 7 -> lsn 320
        add 1 0 1 8 -> lsn 384
        undoto 1 256 -> undid 448
        ckpt -> lsn 512
        gather -> more
        gather -> more
        gather -> more
        gather -> done
        endckpt -> point 512 704 256
        undoto 1 256 -> undid 768
        undoto 1 256 -> reached
        undoto 1 448 -> E42 NoSavepoint
        undoto 1 768 -> reached
        set 1 0 1 9 -> lsn 832
    ",
    ],
};

/// Sixty-four transactions begin, and one more is refused.
pub(crate) fn sixty_four_transactions(rt: &(impl Abort + AllocGlobal)) -> String {
    let mut part = String::new(rt.alloc());
    for txn in 1..65u32 {
        let lsn = 64 * txn;
        writeln!(part, "begin -> began {txn} at {lsn}").expect(rt, "memory for a row");
    }
    part.push_str("begin -> E9 TooManyTxns")
        .expect(rt, "memory for a row");
    part
}
