//! A log with a checkpoint, its bytes, and the master record that names it.

use crate::asserts::{same, same_at};
use log_records::{DirtyPage, DirtyPages, Record, TxnPhase, decode, encode, encode_header};
use log_store::{LogReadFault, Master, decode_master, encode_master, read_log};
use page_core::{Change, Lsn, PageNo, SlotNo, TxnNo};
use std::alloc::{AllocError, Global};
use std::process::Abort;
use std::test::Fail;

const FIRST: TxnNo = TxnNo(1);

const BEGIN: Lsn = Lsn(192);

const CHANGED: Lsn = Lsn(128);

/// Begin 1, set 1 0 0 5, a checkpoint, commit 1.
fn records() -> [Record; 7] {
    let entry = DirtyPage {
        page: 0,
        rec_lsn: 128,
    };
    [
        Record::Begin {
            lsn: Lsn(64),
            txn: FIRST,
        },
        Record::Update {
            lsn: CHANGED,
            txn: FIRST,
            prev: Lsn(64),
            page: PageNo(0),
            slot: SlotNo(0),
            change: Change::Set {
                before: 0,
                after: 5,
            },
        },
        Record::BeginChkpt { lsn: BEGIN },
        Record::ChkptPages {
            lsn: Lsn(256),
            begin: BEGIN,
            pages: DirtyPages::One(entry),
        },
        Record::ChkptTxns {
            lsn: Lsn(320),
            begin: BEGIN,
            txn: FIRST,
            state: TxnPhase::Active,
            last: CHANGED,
            undo_next: CHANGED,
        },
        Record::EndChkpt {
            lsn: Lsn(384),
            begin: BEGIN,
            redo: CHANGED,
        },
        Record::Commit {
            lsn: Lsn(448),
            txn: FIRST,
            prev: CHANGED,
        },
    ]
}

/// 64 bytes that are 0 but for these.
fn bytes_with(places: &[(usize, u8)]) -> [u8; 64] {
    let mut bytes = [0; 64];
    for place in places {
        if place.0 < 64 {
            bytes[place.0] = place.1;
        }
    }
    bytes
}

#[test]
fn records_of_checkpoints_have_their_bytes(rt: HostRuntime) {
    let spellings = [
        bytes_with(&[(0, 7), (56, 0xc0)]),
        bytes_with(&[(0, 8), (8, 0xc0), (16, 1), (24, 0x80), (57, 1)]),
        bytes_with(&[
            (0, 9),
            (8, 0xc0),
            (20, 1),
            (24, 1),
            (28, 0x80),
            (36, 0x80),
            (56, 0x40),
            (57, 1),
        ]),
        bytes_with(&[(0, 10), (8, 0xc0), (24, 0x80), (56, 0x80), (57, 1)]),
    ];
    let records = records();
    let all = &records[..];
    for (record, bytes) in all[2..6].iter().zip(&spellings) {
        same_at(&rt, &encode(record), bytes, &format_args!("{record:?}"));
        same(&rt, &decode(bytes, record.lsn()), &Some(*record));
    }
}

/// Three entries of different pages, and their bytes.
#[test]
fn three_dirty_pages_have_their_bytes(rt: HostRuntime) {
    let record = Record::ChkptPages {
        lsn: Lsn(448),
        begin: Lsn(384),
        pages: DirtyPages::Three(
            DirtyPage {
                page: 0,
                rec_lsn: 128,
            },
            DirtyPage {
                page: 1,
                rec_lsn: 192,
            },
            DirtyPage {
                page: 2,
                rec_lsn: 256,
            },
        ),
    };
    let bytes = bytes_with(&[
        (0, 8),
        (8, 0x80),
        (9, 1),
        (16, 3),
        (24, 0x80),
        (32, 1),
        (36, 0xc0),
        (44, 2),
        (49, 1),
        (56, 0xc0),
        (57, 1),
    ]);
    same(&rt, &encode(&record), &bytes);
    same(&rt, &decode(&bytes, Lsn(448)), &Some(record));
}

/// The record of a checkpoint that names one dirty page.
fn naming(page: u32) -> Record {
    Record::ChkptPages {
        lsn: Lsn(256),
        begin: BEGIN,
        pages: DirtyPages::One(DirtyPage { page, rec_lsn: 128 }),
    }
}

/// Asserts that a record may name this page, which has these bytes, and that a log of one page may
/// not have it.
fn assert_spelled(
    rt: &(impl Abort + AllocGlobal),
    page: u32,
    digits: [u8; 4],
) -> Result<(), AllocError> {
    let bytes = bytes_with(&[
        (0, 8),
        (8, 0xc0),
        (16, 1),
        (20, digits[0]),
        (21, digits[1]),
        (22, digits[2]),
        (23, digits[3]),
        (24, 0x80),
        (57, 1),
    ]);
    same_at(rt, &encode(&naming(page)), &bytes, &page);
    same_at(rt, &decode(&bytes, Lsn(256)), &Some(naming(page)), &page);
    let [begin, update, open, _, _, _, _] = records();
    let log = log_with(rt.alloc(), &[begin, update, open, naming(page)], (0, b'A'))?;
    let found = read_log(rt.alloc(), &mut log.as_slice()).err();
    same_at(rt, &found, &Some(LogReadFault::BadRecord(Lsn(256))), &page);
    Ok(())
}

/// An entry may name any page; in a log it may name those of the volume alone.
#[test]
fn a_dirty_page_may_have_any_number(rt: HostRuntime) -> Result<(), Fail> {
    assert_spelled(&rt, 4_000_000_000, [0, 0x28, 0x6b, 0xee])?;
    assert_spelled(&rt, 65_536, [0, 0, 1, 0])?;
    assert_spelled(&rt, u32::MAX, [0xff, 0xff, 0xff, 0xff])?;
    Ok(())
}

/// The bytes of a log of one page with these records, of which one byte is another.
fn log_with(alloc: Global, records: &[Record], other: (usize, u8)) -> Result<Vec<u8>, AllocError> {
    let mut bytes = Vec::new(alloc);
    bytes.extend_from_slice(&encode_header(1))?;
    for record in records {
        bytes.extend_from_slice(&encode(record))?;
    }
    if other.0 < bytes.len() {
        bytes[other.0] = other.1;
    }
    Ok(bytes)
}

/// What a log with one byte changed is found to be.
#[test]
fn logs_with_a_checkpoint_are_read(rt: HostRuntime) -> Result<(), Fail> {
    let alloc = rt.alloc();
    for (offset, byte, fault) in [
        (0, b'A', None),
        (7, b'0', Some(LogReadFault::BadHeader)),
        (7, b'3', Some(LogReadFault::BadHeader)),
        (280, 64, Some(LogReadFault::BadChain(Lsn(256)))),
        (344, 2, Some(LogReadFault::BadChain(Lsn(320)))),
        (408, 192, Some(LogReadFault::BadChain(Lsn(384)))),
        (264, 128, Some(LogReadFault::BadChain(Lsn(256)))),
        (340, 2, Some(LogReadFault::BadChain(Lsn(320)))),
        (348, 64, Some(LogReadFault::BadChain(Lsn(320)))),
        (356, 64, Some(LogReadFault::BadChain(Lsn(320)))),
        (272, 4, Some(LogReadFault::BadRecord(Lsn(256)))),
        (276, 1, Some(LogReadFault::BadRecord(Lsn(256)))),
        (288, 1, Some(LogReadFault::BadRecord(Lsn(256)))),
        (344, 3, Some(LogReadFault::BadRecord(Lsn(320)))),
        (196, 1, Some(LogReadFault::BadRecord(Lsn(192)))),
        (200, 64, Some(LogReadFault::BadRecord(Lsn(192)))),
    ] {
        let bytes = log_with(alloc, &records(), (offset, byte))?;
        let found = read_log(alloc, &mut bytes.as_slice()).err();
        same_at(&rt, &found, &fault, &format_args!("{byte} at {offset}"));
    }
    Ok(())
}

/// Behind the header of either format the same records are read.
#[test]
fn a_log_with_a_checkpoint_is_read_in_either_format(rt: HostRuntime) -> Result<(), Fail> {
    let alloc = rt.alloc();
    for format in [b'1', b'2'] {
        let bytes = log_with(alloc, &records(), (7, format))?;
        let log = read_log(alloc, &mut bytes.as_slice())?;
        let pages = log.pages();
        same_at(&rt, &log.records(), &records().as_slice(), &format);
        drop(log);
        same_at(&rt, &pages, &1, &format);
    }
    Ok(())
}

/// A transaction that was open throughout has no entry.
#[test]
fn a_checkpoint_has_each_old_transaction(rt: HostRuntime) -> Result<(), Fail> {
    let alloc = rt.alloc();
    let [begin, update, open, _, _, _, _] = records();
    let ended = Record::EndChkpt {
        lsn: Lsn(256),
        begin: BEGIN,
        redo: BEGIN,
    };
    let bytes = log_with(alloc, &[begin, update, open, ended], (0, b'A'))?;
    let found = read_log(alloc, &mut bytes.as_slice()).err();
    same(&rt, &found, &Some(LogReadFault::BadChain(Lsn(256))));
    Ok(())
}

#[test]
fn a_master_record_has_its_bytes(rt: HostRuntime) {
    let master = Master {
        begin: Lsn(192),
        end: Lsn(384),
    };
    let mut bytes = bytes_with(&[(8, 0xc0), (16, 0x80), (17, 1)]);
    bytes[..8].copy_from_slice(b"AIMGMST1");
    same(&rt, &encode_master(&master), &bytes);
    same(&rt, &decode_master(&bytes), &Some(master));
    let mut short = [0; 63];
    for (byte, spelled) in short.iter_mut().zip(&bytes) {
        *byte = *spelled;
    }
    same(&rt, &decode_master(&short), &None);
    bytes[63] = 1;
    same(&rt, &decode_master(&bytes), &None);
}
