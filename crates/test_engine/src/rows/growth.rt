//! Series of calls on volumes that grow.

use super::{FULL, IDLE};
use crate::calls::Row;

const GROWN: &str = "
    extend 1 -> E43 NotLarger 1
    extend 3 -> lsn 192
";

/// The volume grows after it was copied.
pub(crate) const GROWN_AFTER_A_COPY: Row = Row {
    pages: 1,
    parts: &[IDLE, FULL, GROWN],
};

/// A page that was added is changed. A copy of the checkpoint before has no such page; an increment
/// of the checkpoint behind has, and takes none of those that are stored.
pub(crate) const COPIED_AFTER_GROWTH: Row = Row {
    pages: 1,
    parts: &[
        IDLE,
        FULL,
        GROWN,
        "
        begin -> began 1 at 256
        set 1 2 0 4 -> lsn 320
        commit 1 -> lsn 384
        full -> copy 2
        take 2 2 -> E3 PageOut
        drop 2 -> dropped
        ckpt -> lsn 448
        gather -> more
        gather -> more
        gather -> done
        endckpt -> point 448 576 320
        inc 1 -> copy 3
        take 3 0 -> kept
        take 3 1 -> kept
        take 3 2 -> kept
        seal 3 -> sealed 0
    ",
    ],
};

/// The volume grows behind the begin of a checkpoint, which has a page that was added. A copy of
/// that checkpoint has just the page that there was at its begin.
pub(crate) const GROWN_DURING_A_CHECKPOINT: Row = Row {
    pages: 1,
    parts: &[
        "
        ckpt -> lsn 64
        extend 3 -> lsn 128
        begin -> began 1 at 192
        set 1 2 0 4 -> lsn 256
        gather -> more
        gather -> more
        gather -> more
        gather -> done
        endckpt -> point 64 448 64
        full -> copy 1
        take 1 1 -> E3 PageOut
        take 1 0 -> taken 0
        seal 1 -> sealed 1
        commit 1 -> lsn 512
    ",
    ],
};

/// A volume grows to as many pages as there may be, and no further.
pub(crate) const GROWN_TO_THE_MOST: Row = Row {
    pages: 1,
    parts: &[
        "
        extend 0 -> E43 NotLarger 1
        extend 65537 -> E43 NotLarger 1
        extend 4294967295 -> E43 NotLarger 1
        set 1 65535 0 7 -> E2 NoTxn
        read 65535 0 -> E3 PageOut
        extend 65536 -> lsn 64
        extend 65536 -> E43 NotLarger 65536
        extend 65537 -> E43 NotLarger 65536
        begin -> began 1 at 128
        set 1 65536 0 7 -> E3 PageOut
        set 1 65535 61 7 -> lsn 192
        read 65535 61 -> value 7
    ",
    ],
};
