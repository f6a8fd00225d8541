//! A volume of four pages, and its files: a log with three checkpoints, the master record of the
//! last one, and a chain of three copies, each made at one of the checkpoints.
//!
//! The records of the log are spelled out. What a page has is worked out from a list of the
//! changes, and not from the log.

use crate::bytes::{ARCHIVE, HIGH, LOG, bytes_of};
use crate::readers::{Failing, Trouble};
use media_restore::{RestoreFault, restore_files};
use std::alloc::Global;
use std::io::Write;
use std::test::Fail;
use std::thread::Threads;

/// `AIMGMST1`.
const MASTER: u64 = 0x31_54_53_4d_47_4d_49_41;

/// That a change is a Set, which stands behind its page and its slot.
const SET: u64 = 0x1_0000_0000_0000;

/// That a change is an Add.
const ADD: u64 = 0x2_0000_0000_0000;

/// Transaction 1 changes pages 0 and 1, and commits. Both pages are stored.
const FIRST: [[u64; 8]; 4] = [
    [HIGH + 1, 0, 0, 0, 0, 0, 0, 64],
    [HIGH + 2, 64, 0, SET, 0, 5, 0, 128],
    [HIGH + 2, 128, 0, SET + 3 * HIGH + 1, 0, 7, 0, 192],
    [HIGH + 4, 192, 0, 0, 0, 0, 0, 256],
];

/// A checkpoint that finds no dirty page. The full copy is made at it.
const FIRST_CHECKPOINT: [[u64; 8]; 2] = [
    [7, 0, 0, 0, 0, 0, 0, 320],
    [10, 320, 0, 320, 0, 0, 0, 384],
];

/// Transaction 2 changes pages 2 and 0, and commits. Both pages are stored.
const SECOND: [[u64; 8]; 4] = [
    [2 * HIGH + 1, 0, 0, 0, 0, 0, 0, 448],
    [2 * HIGH + 2, 448, 0, SET + 61 * HIGH + 2, 0, 11, 0, 512],
    [2 * HIGH + 2, 512, 0, ADD, 0, 3, 0, 576],
    [2 * HIGH + 4, 576, 0, 0, 0, 0, 0, 640],
];

/// The checkpoint of the first incremental copy.
const SECOND_CHECKPOINT: [[u64; 8]; 2] = [
    [7, 0, 0, 0, 0, 0, 0, 704],
    [10, 704, 0, 704, 0, 0, 0, 768],
];

/// Transaction 3 changes pages 1 and 3. Page 1 is stored, and page 3 is not.
const THIRD: [[u64; 8]; 3] = [
    [3 * HIGH + 1, 0, 0, 0, 0, 0, 0, 832],
    [3 * HIGH + 2, 832, 0, SET + 3 * HIGH + 1, 7, 1, 0, 896],
    [3 * HIGH + 2, 896, 0, SET + HIGH + 3, 0, 9, 0, 960],
];

/// A checkpoint that finds page 3 dirty, and transaction 3 open. The last copy is made at it.
const THIRD_CHECKPOINT: [[u64; 8]; 4] = [
    [7, 0, 0, 0, 0, 0, 0, 1_024],
    [8, 1_024, 3 * HIGH + 1, 960, 0, 0, 0, 1_088],
    [9, 1_024, 3 * HIGH, 960 * HIGH + 1, 960 * HIGH, 0, 0, 1_152],
    [10, 1_024, 0, 960, 0, 0, 0, 1_216],
];

/// Transaction 3 commits. Transaction 4 changes pages 2 and 0, and is open at the log's end.
const LAST: [[u64; 8]; 4] = [
    [3 * HIGH + 4, 960, 0, 0, 0, 0, 0, 1_280],
    [4 * HIGH + 1, 0, 0, 0, 0, 0, 0, 1_344],
    [
        4 * HIGH + 2,
        1_344,
        0,
        ADD + 61 * HIGH + 2,
        0,
        100,
        0,
        1_408,
    ],
    [4 * HIGH + 2, 1_408, 0, SET + 2 * HIGH, 0, 6, 0, 1_472],
];

/// What undo appends: it takes back the changes of transaction 4, the last one first, and ends it.
const UNDO: [[u64; 8]; 3] = [
    [4 * HIGH + 3, 1_472, 1_408, SET + 2 * HIGH, 0, 0, 0, 1_536],
    [
        4 * HIGH + 3,
        1_536,
        1_344,
        ADD + 61 * HIGH + 2,
        0,
        u64::MAX - 99,
        0,
        1_600,
    ],
    [4 * HIGH + 6, 1_600, 0, 0, 0, 0, 0, 1_664],
];

/// A change of a slot of a page, by the record with this LSN.
#[derive(Clone, Copy)]
struct Made {
    lsn: u64,
    page: u32,
    slot: u8,
    change: Change,
}

#[derive(Clone, Copy)]
enum Change {
    Set(u64),
    Add(u64),
}

fn change_at(lsn: u64, page: u32, slot: u8, change: Change) -> Made {
    Made {
        lsn,
        page,
        slot,
        change,
    }
}

/// The changes of the log, and behind them those that take back what transaction 4 did: the log
/// ends at 1,536, so their records stand there and behind.
fn changes() -> [Made; 10] {
    [
        change_at(128, 0, 0, Change::Set(5)),
        change_at(192, 1, 3, Change::Set(7)),
        change_at(512, 2, 61, Change::Set(11)),
        change_at(576, 0, 0, Change::Add(3)),
        change_at(896, 1, 3, Change::Set(1)),
        change_at(960, 3, 1, Change::Set(9)),
        change_at(1_408, 2, 61, Change::Add(100)),
        change_at(1_472, 0, 2, Change::Set(6)),
        change_at(1_536, 0, 2, Change::Set(0)),
        change_at(1_600, 2, 61, Change::Add(u64::MAX - 99)),
    ]
}

/// Appends the bytes of a page that has its changes below this LSN.
fn push_page(bytes: &mut Vec<u8>, number: u32, end: u64) -> Result<(), Fail> {
    let mut lsn = 0;
    let mut slots = [0u64; 62];
    for made in &changes() {
        if made.page == number && made.lsn < end {
            lsn = made.lsn;
            if let Some(slot) = slots.get_mut(usize::from(made.slot)) {
                *slot = match made.change {
                    Change::Set(to) => to,
                    Change::Add(amount) => slot.wrapping_add(amount),
                };
            }
        }
    }
    bytes.extend_from_slice(&(HIGH + u64::from(number)).to_le_bytes())?;
    bytes.extend_from_slice(&lsn.to_le_bytes())?;
    for slot in &slots {
        bytes.extend_from_slice(&slot.to_le_bytes())?;
    }
    Ok(())
}

/// The volume that is restored: each page has all changes, and those of transaction 4 are taken
/// back.
pub(crate) fn volume(alloc: Global) -> Result<Vec<u8>, Fail> {
    let mut bytes = Vec::new(alloc);
    for number in 0..4 {
        push_page(&mut bytes, number, u64::MAX)?;
    }
    Ok(bytes)
}

/// Appends the bytes of these records.
fn push_records(bytes: &mut Vec<u8>, records: &[[u64; 8]]) -> Result<(), Fail> {
    for record in records {
        for word in record {
            bytes.extend_from_slice(&word.to_le_bytes())?;
        }
    }
    Ok(())
}

fn log(alloc: Global) -> Result<Vec<u8>, Fail> {
    let mut bytes = bytes_of(alloc, &[LOG, 4, 0, 0, 0, 0, 0, 0])?;
    push_records(&mut bytes, &FIRST)?;
    push_records(&mut bytes, &FIRST_CHECKPOINT)?;
    push_records(&mut bytes, &SECOND)?;
    push_records(&mut bytes, &SECOND_CHECKPOINT)?;
    push_records(&mut bytes, &THIRD)?;
    push_records(&mut bytes, &THIRD_CHECKPOINT)?;
    push_records(&mut bytes, &LAST)?;
    Ok(bytes)
}

/// The log with what undo appends.
pub(crate) fn log_after_undo(alloc: Global) -> Result<Vec<u8>, Fail> {
    let mut bytes = log(alloc)?;
    push_records(&mut bytes, &UNDO)?;
    Ok(bytes)
}

/// An archive with this header, and these pages as they were stored: with their changes below this
/// LSN.
fn archive(alloc: Global, head: &[u64], pages: &[u32], end: u64) -> Result<Vec<u8>, Fail> {
    let mut bytes = bytes_of(alloc, head)?;
    for number in pages {
        push_page(&mut bytes, *number, end)?;
    }
    Ok(bytes)
}

/// The log, the master record and the three archives. An incremental copy takes the pages whose
/// stored LSN is not below the redo point of its parent.
pub(crate) fn files(alloc: Global) -> Result<[Vec<u8>; 5], Fail> {
    let full = [ARCHIVE, HIGH + 4, 1, 320, 320, 4, 0, 0];
    let second = [ARCHIVE, 2 * HIGH + 4, HIGH + 2, 704, 704, 2, 0, 0];
    let third = [ARCHIVE, 3 * HIGH + 4, 2 * HIGH + 2, 1_024, 960, 1, 0, 0];
    let records = log(alloc)?;
    let master = bytes_of(alloc, &[MASTER, 1_024, 1_216, 0, 0, 0, 0, 0])?;
    let first_copy = archive(alloc, &full, &[0, 1, 2, 3], 320)?;
    let second_copy = archive(alloc, &second, &[0, 2], 704)?;
    let third_copy = archive(alloc, &third, &[1], 960)?;
    Ok([records, master, first_copy, second_copy, third_copy])
}

/// The bytes of the log, of the master record and of the three archives.
pub(crate) type Inputs<'a> = [&'a [u8]; 5];

/// Their places.
pub(crate) const OF_LOG: usize = 0;

pub(crate) const OF_MASTER: usize = 1;

pub(crate) const OF_FULL: usize = 2;

pub(crate) const OF_SECOND: usize = 3;

pub(crate) const OF_THIRD: usize = 4;

pub(crate) fn slices(made: &[Vec<u8>; 5]) -> Inputs<'_> {
    let [log, master, full, second, third] = made;
    [
        log.as_slice(),
        master.as_slice(),
        full.as_slice(),
        second.as_slice(),
        third.as_slice(),
    ]
}

/// This befalls the reader of one file, and nothing the others.
pub(crate) fn only(file: usize, trouble: Trouble) -> [Trouble; 5] {
    let mut troubles = [Trouble::Nothing; 5];
    if file < 5 {
        troubles[file] = trouble;
    }
    troubles
}

/// Restores files from readers that give so many bytes at a call, and that this befalls.
pub(crate) fn restored<W: Write>(
    rt: &(impl AllocGlobal + Threads + Sync),
    inputs: &Inputs,
    step: usize,
    troubles: &[Trouble; 5],
    writer: &mut W,
) -> Option<RestoreFault> {
    let [log, master, full, second, third] = *inputs;
    let [of_log, of_master, of_full, of_second, of_third] = *troubles;
    let mut archives = [
        Failing::new(full, step, of_full),
        Failing::new(second, step, of_second),
        Failing::new(third, step, of_third),
    ];
    restore_files(
        rt,
        rt.alloc(),
        &mut Failing::new(log, step, of_log),
        &mut Failing::new(master, step, of_master),
        &mut archives,
        writer,
    )
    .err()
}
