//! Logs whose volume grows: the bytes of an Extend, which page counts a log gives, and which pages
//! its records may name.

use super::vectors::{FIRST_FORMAT, ONE_PAGE, SECOND_FORMAT, bytes_of, header_of};
use crate::asserts::{same, same_at};
use log_records::{Record, decode, encode};
use log_store::{LogReadFault, read_log};
use page_core::Lsn;
use std::alloc::{AllocError, Global};
use std::test::Fail;

// LSNs, and page counts of an Extend, as eight bytes.
const AT_64: u64 = 0x4000_0000_0000_0000;

const AT_128: u64 = 0x8000_0000_0000_0000;

const AT_192: u64 = 0xc000_0000_0000_0000;

const ONE: u64 = 0x0100_0000_0000_0000;

const THREE: u64 = 0x0300_0000_0000_0000;

const SIX: u64 = 0x0600_0000_0000_0000;

const MOST: u64 = 0x0000_0100_0000_0000;

const TOO_MANY: u64 = 0x0100_0100_0000_0000;

/// The kind of an Extend.
const EXTEND: u64 = 0x0b00_0000_0000_0000;

const BEGIN: [u64; 8] = [0x0100_0000_0100_0000, 0, 0, 0, 0, 0, 0, AT_64];

/// Transaction 1 sets slot 0 of page 5 to 7, behind its Begin.
const SET_AT_128: [u64; 8] = [
    0x0200_0000_0100_0000,
    AT_64,
    0,
    0x0500_0000_0000_0100,
    0,
    0x0700_0000_0000_0000,
    0,
    AT_128,
];

const SET_AT_192: [u64; 8] = [
    0x0200_0000_0100_0000,
    AT_64,
    0,
    0x0500_0000_0000_0100,
    0,
    0x0700_0000_0000_0000,
    0,
    AT_192,
];

const ONE_AT_128: [u64; 8] = [EXTEND, 0, 0, ONE, 0, 0, 0, AT_128];

const THREE_AT_64: [u64; 8] = [EXTEND, 0, 0, THREE, 0, 0, 0, AT_64];

const THREE_AT_128: [u64; 8] = [EXTEND, 0, 0, THREE, 0, 0, 0, AT_128];

const THREE_AT_192: [u64; 8] = [EXTEND, 0, 0, THREE, 0, 0, 0, AT_192];

const SIX_AT_64: [u64; 8] = [EXTEND, 0, 0, SIX, 0, 0, 0, AT_64];

const SIX_AT_128: [u64; 8] = [EXTEND, 0, 0, SIX, 0, 0, 0, AT_128];

const SIX_AT_192: [u64; 8] = [EXTEND, 0, 0, SIX, 0, 0, 0, AT_192];

const MOST_AT_64: [u64; 8] = [EXTEND, 0, 0, MOST, 0, 0, 0, AT_64];

const TOO_MANY_AT_64: [u64; 8] = [EXTEND, 0, 0, TOO_MANY, 0, 0, 0, AT_64];

const NONE_AT_64: [u64; 8] = [EXTEND, 0, 0, 0, 0, 0, 0, AT_64];

/// It has the number of a transaction, a PrevLSN, and a byte behind its count.
const WITH_A_TRANSACTION: [u64; 8] = [0x0b00_0000_0100_0000, 0, 0, THREE, 0, 0, 0, AT_64];

const WITH_A_PREV: [u64; 8] = [EXTEND, AT_64, 0, THREE, 0, 0, 0, AT_128];

const WITH_A_BYTE_MORE: [u64; 8] = [EXTEND, 0, 0, 0x0300_0000_0100_0000, 0, 0, 0, AT_64];

#[test]
fn an_extend_has_its_bytes(rt: HostRuntime) {
    let extend = Record::Extend {
        lsn: Lsn(192),
        pages: 3,
    };
    let bytes = bytes_of(&THREE_AT_192);
    same(&rt, &encode(&extend), &bytes);
    same(&rt, &decode(&bytes, Lsn(192)), &Some(extend));
    same(&rt, &decode(&bytes, Lsn(128)), &None);
}

/// Records of a log of one page, and what is read of them behind a header of the first format, and
/// behind one of the second: the page count in the end, or the fault.
struct Grown {
    name: &'static str,
    records: &'static [[u64; 8]],
    first: Result<u32, LogReadFault>,
    second: Result<u32, LogReadFault>,
}

const BAD_AT_64: Result<u32, LogReadFault> = Err(LogReadFault::BadRecord(Lsn(64)));

const BAD_AT_128: Result<u32, LogReadFault> = Err(LogReadFault::BadRecord(Lsn(128)));

const WRONG_AT_128: Result<u32, LogReadFault> = Err(LogReadFault::BadChain(Lsn(128)));

const GROWN: [Grown; 13] = [
    Grown {
        name: "a page that was added is changed",
        records: &[BEGIN, SIX_AT_128, SET_AT_192],
        first: BAD_AT_128,
        second: Ok(6),
    },
    Grown {
        name: "a page is changed before it is added",
        records: &[BEGIN, SET_AT_128, SIX_AT_192],
        first: BAD_AT_128,
        second: BAD_AT_128,
    },
    Grown {
        name: "a page past those that were added",
        records: &[BEGIN, THREE_AT_128, SET_AT_192],
        first: BAD_AT_128,
        second: Err(LogReadFault::BadRecord(Lsn(192))),
    },
    Grown {
        name: "the count of the header",
        records: &[BEGIN, ONE_AT_128],
        first: BAD_AT_128,
        second: WRONG_AT_128,
    },
    Grown {
        name: "two growths",
        records: &[THREE_AT_64, SIX_AT_128],
        first: BAD_AT_64,
        second: Ok(6),
    },
    Grown {
        name: "the same count twice",
        records: &[THREE_AT_64, THREE_AT_128],
        first: BAD_AT_64,
        second: WRONG_AT_128,
    },
    Grown {
        name: "a smaller count",
        records: &[SIX_AT_64, THREE_AT_128],
        first: BAD_AT_64,
        second: WRONG_AT_128,
    },
    Grown {
        name: "the most pages",
        records: &[MOST_AT_64],
        first: BAD_AT_64,
        second: Ok(65_536),
    },
    Grown {
        name: "too many pages",
        records: &[TOO_MANY_AT_64],
        first: BAD_AT_64,
        second: BAD_AT_64,
    },
    Grown {
        name: "no pages",
        records: &[NONE_AT_64],
        first: BAD_AT_64,
        second: BAD_AT_64,
    },
    Grown {
        name: "a transaction",
        records: &[WITH_A_TRANSACTION],
        first: BAD_AT_64,
        second: BAD_AT_64,
    },
    Grown {
        name: "a PrevLSN",
        records: &[BEGIN, WITH_A_PREV],
        first: BAD_AT_128,
        second: BAD_AT_128,
    },
    Grown {
        name: "a byte behind the count",
        records: &[WITH_A_BYTE_MORE],
        first: BAD_AT_64,
        second: BAD_AT_64,
    },
];

/// A log of one page in this format.
fn log_of(alloc: Global, format: u64, records: &[[u64; 8]]) -> Result<Vec<u8>, AllocError> {
    let mut bytes = Vec::new(alloc);
    bytes.extend_from_slice(&bytes_of(&header_of(format, ONE_PAGE)))?;
    for record in records {
        bytes.extend_from_slice(&bytes_of(record))?;
    }
    Ok(bytes)
}

/// What is read of such a log: the page count in the end, or the fault.
fn count_of(
    alloc: Global,
    format: u64,
    records: &[[u64; 8]],
) -> Result<Result<u32, LogReadFault>, AllocError> {
    let bytes = log_of(alloc, format, records)?;
    Ok(read_log(alloc, &mut bytes.as_slice()).map(|log| log.page_count()))
}

#[test]
fn logs_give_page_counts(rt: HostRuntime) -> Result<(), Fail> {
    let alloc = rt.alloc();
    for grown in &GROWN {
        let first = count_of(alloc, FIRST_FORMAT, grown.records)?;
        same_at(&rt, &first, &grown.first, &grown.name);
        let second = count_of(alloc, SECOND_FORMAT, grown.records)?;
        same_at(&rt, &second, &grown.second, &grown.name);
    }
    Ok(())
}

/// The page counts below LSNs, and that of the log whose second record is cut off.
#[test]
fn a_log_tells_its_page_count_at_each_place(rt: HostRuntime) -> Result<(), Fail> {
    let alloc = rt.alloc();
    let bytes = log_of(alloc, SECOND_FORMAT, &[THREE_AT_64, SIX_AT_128])?;
    let mut log = read_log(alloc, &mut bytes.as_slice())?;
    let counts = log.counts(alloc)?;
    for (lsn, count) in [(0, 1), (64, 1), (65, 3), (128, 3), (129, 6), (192, 6)] {
        same_at(&rt, &counts.below(Lsn(lsn)), &count, &lsn);
    }
    same(
        &rt,
        &(log.pages(), log.page_count(), counts.last()),
        &(1, 6, 6),
    );
    log.keep_first(1);
    same(&rt, &(log.pages(), log.page_count()), &(1, 3));
    drop(counts);
    drop(log);
    Ok(())
}
