//! What a crash may leave of a log: it is cut off at any byte, other bytes stand behind it, or its
//! reader fails.

use super::readers::{Pairs, Steps};
use super::vectors::{FIRST_FORMAT, ONE_PAGE, SECOND_FORMAT, bytes_of, header_of};
use crate::asserts::{same, same_at};
use log_prefix::{Cut, CutReason, FrontFault, FrontScan, read_front, scan_front};
use log_records::{MAX_LOG_BYTES, MAX_RECORDS, Record, encode};
use log_store::{LogReadFault, read_log};
use page_core::{Change, Lsn, PageNo, SlotNo, TxnNo};
use std::alloc::{AllocError, Global};
use std::fmt::Debug;
use std::io;
use std::io::Read;
use std::process::Abort;
use std::test::Fail;

const FIRST: TxnNo = TxnNo(1);

const SECOND: TxnNo = TxnNo(2);

const PAGE: PageNo = PageNo(0);

/// How many bytes the log of the ten records has.
const ALL: usize = 704;

/// The first transaction commits, the second one is rolled back, the third one stays open, and the
/// volume grows to three pages.
fn ten_records() -> [Record; 10] {
    [
        Record::Begin {
            lsn: Lsn(64),
            txn: FIRST,
        },
        Record::Update {
            lsn: Lsn(128),
            txn: FIRST,
            prev: Lsn(64),
            page: PAGE,
            slot: SlotNo(3),
            change: Change::Set {
                before: 0,
                after: 7,
            },
        },
        Record::Begin {
            lsn: Lsn(192),
            txn: SECOND,
        },
        Record::Update {
            lsn: Lsn(256),
            txn: SECOND,
            prev: Lsn(192),
            page: PAGE,
            slot: SlotNo(4),
            change: Change::Add { amount: 5 },
        },
        Record::Commit {
            lsn: Lsn(320),
            txn: FIRST,
            prev: Lsn(128),
        },
        Record::Extend {
            lsn: Lsn(384),
            pages: 3,
        },
        Record::Abort {
            lsn: Lsn(448),
            txn: SECOND,
            prev: Lsn(256),
        },
        Record::Comp {
            lsn: Lsn(512),
            txn: SECOND,
            prev: Lsn(448),
            undo_next: Lsn(192),
            page: PAGE,
            slot: SlotNo(4),
            change: Change::Add {
                amount: 18_446_744_073_709_551_611,
            },
        },
        Record::End {
            lsn: Lsn(576),
            txn: SECOND,
            prev: Lsn(512),
        },
        Record::Begin {
            lsn: Lsn(640),
            txn: TxnNo(3),
        },
    ]
}

/// The bytes of the ten records behind a header of this format.
fn ten_in(alloc: Global, format: u64) -> Result<Vec<u8>, AllocError> {
    let mut bytes = Vec::new(alloc);
    bytes.extend_from_slice(&bytes_of(&header_of(format, ONE_PAGE)))?;
    for record in &ten_records() {
        bytes.extend_from_slice(&encode(record))?;
    }
    Ok(bytes)
}

/// How many records a front has, and its cut.
type Told = Result<(usize, Option<Cut>), FrontFault>;

/// What is read of a reader's bytes. The front has the first of the ten records.
fn told<R: Read>(rt: &impl Abort, alloc: Global, reader: &mut R) -> Told {
    let (log, cut) = read_front(alloc, reader)?.into_parts();
    let count = log.records().len();
    assert!(rt; count <= 10);
    same(rt, &log.records(), &&ten_records()[..count]);
    drop(log);
    Ok((count, cut))
}

/// A front of so many records that is cut at its end.
fn cut(count: usize, why: CutReason) -> Told {
    let at = Lsn((count as u64).saturating_add(1).saturating_mul(64));
    Ok((count, Some(Cut { at, why })))
}

/// Asserts what is read of these bytes, and that a reader of whole logs names the same place.
fn assert_front<P: Debug>(rt: &impl Abort, alloc: Global, bytes: &[u8], want: &Told, place: &P) {
    let mut reader = bytes;
    let found = told(rt, alloc, &mut reader);
    same_at(rt, &found, want, place);
    let mut reader = bytes;
    let fault = read_log(alloc, &mut reader).err();
    let first = match found {
        Ok((_, cut)) => cut.map(|cut| cut.fault()),
        Err(_) => Some(LogReadFault::BadHeader),
    };
    same_at(rt, &first, &fault, place);
}

#[test]
fn a_log_is_cut_off_at_any_byte(rt: HostRuntime) -> Result<(), Fail> {
    let alloc = rt.alloc();
    let bytes = ten_in(alloc, SECOND_FORMAT)?;
    for end in 0..=ALL {
        let front = bytes.get(..end).unwrap_or(&[]);
        let count = (end / 64).saturating_sub(1);
        let want = if end < 64 {
            Err(FrontFault::BadHeader)
        } else if end % 64 == 0 {
            Ok((count, None))
        } else {
            cut(count, CutReason::Torn)
        };
        assert_front(&rt, alloc, front, &want, &end);
    }
    Ok(())
}

/// Bytes behind the ten records, and why they are left out.
#[test]
fn other_bytes_stand_behind_a_log(rt: HostRuntime) -> Result<(), Fail> {
    let alloc = rt.alloc();
    let lsn = Lsn(704);
    let misplaced = ten_records()[0];
    let begins_again = Record::Begin { lsn, txn: FIRST };
    let ends_again = Record::End {
        lsn,
        txn: SECOND,
        prev: Lsn(576),
    };
    for (name, behind, why) in [
        ("zero bytes", [0; 64], CutReason::BadRecord),
        ("a wrong place", encode(&misplaced), CutReason::BadRecord),
        ("another life", encode(&begins_again), CutReason::BadChain),
        ("an end again", encode(&ends_again), CutReason::BadChain),
    ] {
        let mut bytes = ten_in(alloc, SECOND_FORMAT)?;
        bytes.extend_from_slice(&behind)?;
        assert_front(&rt, alloc, &bytes, &cut(10, why), &name);
        bytes.push(1)?;
        assert_front(&rt, alloc, &bytes, &cut(10, why), &name);
        bytes.truncate(767);
        assert_front(&rt, alloc, &bytes, &cut(10, CutReason::Torn), &name);
    }
    Ok(())
}

/// The kind of a record is changed, and then its transaction. An Extend has none.
#[test]
fn a_byte_of_a_record_is_changed(rt: HostRuntime) -> Result<(), Fail> {
    let alloc = rt.alloc();
    for count in 0..10usize {
        let mut bytes = ten_in(alloc, SECOND_FORMAT)?;
        if let Some(kind) = bytes.get_mut(64 * count + 64) {
            *kind = 0xff;
        }
        let want = cut(count, CutReason::BadRecord);
        assert_front(&rt, alloc, &bytes, &want, &count);
        let mut bytes = ten_in(alloc, SECOND_FORMAT)?;
        if let Some(txn) = bytes.get_mut(64 * count + 68) {
            *txn = 9;
        }
        let why = match count {
            5 => CutReason::BadRecord,
            _ => CutReason::BadChain,
        };
        assert_front(&rt, alloc, &bytes, &cut(count, why), &count);
    }
    Ok(())
}

/// It has no Extend.
#[test]
fn a_front_of_the_first_format_ends_at_an_extend(rt: HostRuntime) -> Result<(), Fail> {
    let alloc = rt.alloc();
    let bytes = ten_in(alloc, FIRST_FORMAT)?;
    let want = cut(5, CutReason::BadRecord);
    assert_front(&rt, alloc, &bytes, &want, &"the first format");
    Ok(())
}

/// Wherever it fails, it is no end of the log.
#[test]
fn a_reader_fails_at_any_byte(rt: HostRuntime) -> Result<(), Fail> {
    let alloc = rt.alloc();
    let bytes = ten_in(alloc, SECOND_FORMAT)?;
    for given in 0..=ALL {
        let mut reader = Steps::new(&bytes, 50).failing(given);
        let want = Err(FrontFault::ReadFault);
        same_at(&rt, &told(&rt, alloc, &mut reader), &want, &given);
    }
    let mut reader = Steps::new(&bytes, 50).interrupted();
    same(&rt, &told(&rt, alloc, &mut reader), &Ok((10, None)));
    Ok(())
}

#[test]
fn a_log_is_full(rt: HostRuntime) {
    let alloc = rt.alloc();
    let longest = MAX_LOG_BYTES as u64;
    for (end, want) in [
        (longest - 1, cut(MAX_RECORDS - 1, CutReason::Torn)),
        (longest, Ok((MAX_RECORDS, None))),
        (longest + 1, cut(MAX_RECORDS, CutReason::TooLong)),
        (u64::MAX, cut(MAX_RECORDS, CutReason::TooLong)),
    ] {
        let mut reader = Pairs::until(end);
        let found = read_front(alloc, &mut reader).map(|front| (
            front.log().records().len(),
            front.cut(),
        ));
        same_at(&rt, &found, &want, &end);
    }
}

/// Its file was made long, of zero bytes.
#[test]
fn zero_bytes_without_an_end_stand_behind_a_log(rt: HostRuntime) -> Result<(), Fail> {
    let alloc = rt.alloc();
    let bytes = ten_in(alloc, SECOND_FORMAT)?;
    let mut reader = bytes.as_slice().chain(io::repeat(0));
    let want = cut(10, CutReason::BadRecord);
    same(&rt, &told(&rt, alloc, &mut reader), &want);
    Ok(())
}

/// The third transaction is open, and there are three pages.
#[test]
fn a_front_has_its_history(rt: HostRuntime) -> Result<(), Fail> {
    let alloc = rt.alloc();
    let mut bytes = ten_in(alloc, SECOND_FORMAT)?;
    bytes.push(0)?;
    let FrontScan { scan, cut } = scan_front::<&[u8], ()>(alloc, &mut bytes.as_slice())?;
    let torn = Cut {
        at: Lsn(704),
        why: CutReason::Torn,
    };
    same(&rt, &cut, &Some(torn));
    same(&rt, &scan.history.pages().len(), &3);
    let open = scan.history.into_analysis().txns;
    same(&rt, &open.open_count(), &1);
    drop(open);
    Ok(())
}
