//! Restores of which one file is spoiled, and the reader of one fails: what is met first is
//! answered.

use crate::four_pages::{
    Inputs, OF_FULL, OF_LOG, OF_MASTER, OF_SECOND, OF_THIRD, files, only, restored, slices,
};
use crate::readers::Trouble;
use copy_vault::CopyId;
use media_restore::RestoreFault;
use page_core::Lsn;
use std::process::Abort;
use std::test::Fail;
use std::thread::Threads;

/// Asserts that a restore has this fault, and writes nothing.
fn assert_nothing(
    rt: &(impl Abort + AllocGlobal + Threads + Sync),
    inputs: &Inputs,
    step: usize,
    troubles: &[Trouble; 5],
    fault: RestoreFault,
) {
    let mut written = Vec::new(rt.alloc());
    let found = restored(rt, inputs, step, troubles, &mut written);
    assert_eq!(rt; found, Some(fault));
    assert_eq!(rt; written.len(), 0);
}

/// A file of which bytes are spoiled, and another one whose k-th read fails.
#[derive(Clone, Copy)]
struct Spoiled {
    file: usize,
    /// Places of bytes, and what stands there.
    bytes: &'static [(usize, u8)],
    step: usize,
    failing: usize,
    k: u64,
    fault: RestoreFault,
}

fn spoil(file: &mut Vec<u8>, bytes: &[(usize, u8)]) {
    for (at, byte) in bytes {
        if let Some(place) = file.get_mut(*at) {
            *place = *byte;
        }
    }
}

/// Asserts the faults of spoiled files, of which nothing is written.
fn assert_spoiled(
    rt: &(impl Abort + AllocGlobal + Threads + Sync),
    table: &[Spoiled],
) -> Result<(), Fail> {
    for row in table {
        let mut made = files(rt.alloc())?;
        if row.file < 5 {
            spoil(&mut made[row.file], row.bytes);
        }
        let troubles = only(row.failing, Trouble::FailsAt(row.k));
        assert_nothing(rt, &slices(&made), row.step, &troubles, row.fault);
    }
    Ok(())
}

/// The second archive's header says that its copy is a full one, without a parent, and so with all
/// of the four pages.
const BROKEN: Spoiled = Spoiled {
    file: OF_SECOND,
    bytes: &[(16, 1), (20, 0), (40, 4)],
    step: usize::MAX,
    failing: OF_THIRD,
    k: 1,
    fault: RestoreFault::ChainBroken(CopyId(2)),
};

/// What comes first is a fault, and a reader fails behind it.
const FAULT_FIRST: [Spoiled; 7] = [
    BROKEN,
    // There is no third kind of copy.
    Spoiled {
        bytes: &[(16, 3)],
        fault: RestoreFault::BadArchive(0),
        ..BROKEN
    },
    // Headers come before pages.
    Spoiled {
        failing: OF_FULL,
        k: 2,
        ..BROKEN
    },
    // The first pages are read in the order of the archives.
    Spoiled {
        bytes: &[(64 + 4, 2)],
        k: 2,
        fault: RestoreFault::BadArchive(64),
        ..BROKEN
    },
    // The record at 128 has a byte that is to be 0. The master record comes behind the log.
    Spoiled {
        file: OF_LOG,
        bytes: &[(129, 1)],
        failing: OF_MASTER,
        fault: RestoreFault::BadRecord(Lsn(128)),
        ..BROKEN
    },
    // The commit at 256 names another record before it.
    Spoiled {
        file: OF_LOG,
        bytes: &[(256 + 8, 128)],
        failing: OF_MASTER,
        fault: RestoreFault::BadChain(Lsn(256)),
        ..BROKEN
    },
    // The archives come behind the master record.
    Spoiled {
        file: OF_MASTER,
        bytes: &[(0, 0)],
        failing: OF_FULL,
        fault: RestoreFault::BadHeader,
        ..BROKEN
    },
];

#[test]
fn a_fault_that_is_met_first_is_answered(rt: HostRuntime) -> Result<(), Fail> {
    assert_spoiled(&rt, &FAULT_FIRST)
}

/// A reader fails, and what comes behind it is a fault.
const UNREAD: Spoiled = Spoiled {
    file: OF_MASTER,
    bytes: &[(0, 0)],
    step: usize::MAX,
    failing: OF_LOG,
    k: 1,
    fault: RestoreFault::ReadFault,
};

const FAILURE_FIRST: [Spoiled; 6] = [
    UNREAD,
    Spoiled {
        file: OF_FULL,
        failing: OF_MASTER,
        ..UNREAD
    },
    Spoiled {
        file: OF_SECOND,
        failing: OF_FULL,
        ..UNREAD
    },
    // Headers come before pages.
    Spoiled {
        file: OF_FULL,
        bytes: &[(64 + 4, 2)],
        failing: OF_THIRD,
        ..UNREAD
    },
    // The first page of each archive comes before the second page of any.
    Spoiled {
        file: OF_FULL,
        bytes: &[(576 + 4, 2)],
        failing: OF_THIRD,
        k: 2,
        ..UNREAD
    },
    // The end behind an only page is looked for with that page.
    Spoiled {
        file: OF_FULL,
        bytes: &[(576 + 4, 2)],
        failing: OF_THIRD,
        k: 3,
        ..UNREAD
    },
];

#[test]
fn a_failure_that_is_met_first_is_answered(rt: HostRuntime) -> Result<(), Fail> {
    assert_spoiled(&rt, &FAILURE_FIRST)
}

/// A file is spoiled at its first byte, and its own reader fails behind so many bytes.
const WHOLE_HEADER: Spoiled = Spoiled {
    step: 64,
    failing: OF_MASTER,
    k: 2,
    fault: RestoreFault::BadHeader,
    ..UNREAD
};

const PART_OF_HEADER: Spoiled = Spoiled {
    step: 63,
    fault: RestoreFault::ReadFault,
    ..WHOLE_HEADER
};

/// What a reader gave before it fails is judged where it is whole.
const SAME_FILE: [Spoiled; 6] = [
    WHOLE_HEADER,
    PART_OF_HEADER,
    Spoiled {
        file: OF_LOG,
        failing: OF_LOG,
        ..WHOLE_HEADER
    },
    Spoiled {
        file: OF_LOG,
        failing: OF_LOG,
        ..PART_OF_HEADER
    },
    Spoiled {
        file: OF_SECOND,
        failing: OF_SECOND,
        fault: RestoreFault::BadArchive(0),
        ..WHOLE_HEADER
    },
    Spoiled {
        file: OF_SECOND,
        failing: OF_SECOND,
        ..PART_OF_HEADER
    },
];

#[test]
fn what_was_given_whole_is_judged(rt: HostRuntime) -> Result<(), Fail> {
    assert_spoiled(&rt, &SAME_FILE)
}
