//! Known records and logs, and their bytes.

use log_records::Record;
use log_store::LogReadFault;
use page_core::{Change, Lsn, PageNo, SlotNo, TxnNo};
use std::alloc::{AllocError, Global};

/// `AIMGLOG1`.
pub(crate) const FIRST_FORMAT: u64 = 0x4149_4d47_4c4f_4731;

/// `AIMGLOG2`, which is written.
pub(crate) const SECOND_FORMAT: u64 = 0x4149_4d47_4c4f_4732;

/// The page count of a header, as the eight bytes behind its magic.
const NO_PAGES: u64 = 0;

pub(crate) const ONE_PAGE: u64 = 0x0100_0000_0000_0000;

const TWO_PAGES: u64 = 0x0200_0000_0000_0000;

const MOST_PAGES: u64 = 0x0000_0100_0000_0000;

const TOO_MANY_PAGES: u64 = 0x0100_0100_0000_0000;

/// Begin 1, set 1 0 3 7, add 1 0 3 5, commit 1.
pub(crate) fn records() -> [Record; 4] {
    let txn = TxnNo(1);
    let page = PageNo(0);
    [
        Record::Begin { lsn: Lsn(64), txn },
        Record::Update {
            lsn: Lsn(128),
            txn,
            prev: Lsn(64),
            page,
            slot: SlotNo(3),
            change: Change::Set {
                before: 0,
                after: 7,
            },
        },
        Record::Update {
            lsn: Lsn(192),
            txn,
            prev: Lsn(128),
            page,
            slot: SlotNo(3),
            change: Change::Add { amount: 5 },
        },
        Record::Commit {
            lsn: Lsn(256),
            txn,
            prev: Lsn(192),
        },
    ]
}

/// The bytes of these records, each eight of them as one number.
pub(crate) fn spellings() -> [[u64; 8]; 4] {
    [
        [
            0x0100_0000_0100_0000,
            0,
            0,
            0,
            0,
            0,
            0,
            0x4000_0000_0000_0000,
        ],
        [
            0x0200_0000_0100_0000,
            0x4000_0000_0000_0000,
            0,
            0x0000_0000_0300_0100,
            0,
            0x0700_0000_0000_0000,
            0,
            0x8000_0000_0000_0000,
        ],
        [
            0x0200_0000_0100_0000,
            0x8000_0000_0000_0000,
            0,
            0x0000_0000_0300_0200,
            0,
            0x0500_0000_0000_0000,
            0,
            0xc000_0000_0000_0000,
        ],
        [
            0x0400_0000_0100_0000,
            0xc000_0000_0000_0000,
            0,
            0,
            0,
            0,
            0,
            0x0001_0000_0000_0000,
        ],
    ]
}

pub(crate) fn header_of_2_pages() -> [u64; 8] {
    header_of(SECOND_FORMAT, TWO_PAGES)
}

pub(crate) fn header_of(format: u64, pages: u64) -> [u64; 8] {
    [format, pages, 0, 0, 0, 0, 0, 0]
}

pub(crate) fn bytes_of(spelling: &[u64; 8]) -> [u8; 64] {
    let mut bytes = [0; 64];
    for (part, number) in bytes.chunks_exact_mut(8).zip(spelling) {
        part.copy_from_slice(&number.to_be_bytes());
    }
    bytes
}

/// A log: its header's page count, which of the known records follow, which byte is another one,
/// and how many bytes there are. The reading gives the page count and the count of records, or the
/// fault.
#[derive(Clone, Copy)]
pub struct Case {
    pub name: &'static str,
    pages: u64,
    indexes: &'static [usize],
    other: Option<(usize, u8)>,
    length: usize,
    /// How many of its bytes hold the fault, however they go on.
    pub known_from: Option<usize>,
    pub want: Result<(u32, usize), LogReadFault>,
}

/// The bytes of a log in this format.
pub(crate) fn log_of(alloc: Global, case: &Case, format: u64) -> Result<Vec<u8>, AllocError> {
    let mut bytes = Vec::new(alloc);
    bytes.extend_from_slice(&bytes_of(&header_of(format, case.pages)))?;
    let spellings = spellings();
    for index in case.indexes {
        if let Some(spelling) = spellings.get(*index) {
            bytes.extend_from_slice(&bytes_of(spelling))?;
        }
    }
    if let Some((offset, byte)) = case.other {
        if let Some(place) = bytes.get_mut(offset) {
            *place = byte;
        }
    }
    bytes.truncate(case.length);
    Ok(bytes)
}

pub(crate) fn cases() -> [Case; 18] {
    [
        Case {
            name: "four records",
            pages: ONE_PAGE,
            indexes: &[0, 1, 2, 3],
            other: None,
            length: 320,
            known_from: None,
            want: Ok((1, 4)),
        },
        Case {
            name: "no record",
            pages: TWO_PAGES,
            indexes: &[],
            other: None,
            length: 64,
            known_from: None,
            want: Ok((2, 0)),
        },
        Case {
            name: "the most pages",
            pages: MOST_PAGES,
            indexes: &[0, 1],
            other: None,
            length: 192,
            known_from: None,
            want: Ok((65_536, 2)),
        },
        Case {
            name: "a cut commit",
            pages: ONE_PAGE,
            indexes: &[0, 1, 2, 3],
            other: None,
            length: 266,
            known_from: None,
            want: Err(LogReadFault::Torn(Lsn(256))),
        },
        Case {
            name: "one byte behind the header",
            pages: ONE_PAGE,
            indexes: &[0],
            other: None,
            length: 65,
            known_from: None,
            want: Err(LogReadFault::Torn(Lsn(64))),
        },
        Case {
            name: "a spare byte of a record",
            pages: ONE_PAGE,
            indexes: &[0, 1, 2, 3],
            other: Some((129, 1)),
            length: 320,
            known_from: Some(192),
            want: Err(LogReadFault::BadRecord(Lsn(128))),
        },
        Case {
            name: "a misspelt record and a cut one",
            pages: ONE_PAGE,
            indexes: &[0, 1, 2, 3],
            other: Some((129, 1)),
            length: 266,
            known_from: Some(192),
            want: Err(LogReadFault::BadRecord(Lsn(128))),
        },
        Case {
            name: "a misspelt commit",
            pages: ONE_PAGE,
            indexes: &[0, 1, 2, 3],
            other: Some((257, 1)),
            length: 320,
            known_from: Some(320),
            want: Err(LogReadFault::BadRecord(Lsn(256))),
        },
        Case {
            name: "a page past the count",
            pages: ONE_PAGE,
            indexes: &[0, 1, 2, 3],
            other: Some((152, 1)),
            length: 320,
            known_from: Some(192),
            want: Err(LogReadFault::BadRecord(Lsn(128))),
        },
        Case {
            name: "a record twice",
            pages: ONE_PAGE,
            indexes: &[0, 1, 2, 3, 3],
            other: None,
            length: 384,
            known_from: Some(384),
            want: Err(LogReadFault::BadRecord(Lsn(320))),
        },
        Case {
            name: "no byte",
            pages: ONE_PAGE,
            indexes: &[],
            other: None,
            length: 0,
            known_from: None,
            want: Err(LogReadFault::BadHeader),
        },
        Case {
            name: "a cut header",
            pages: ONE_PAGE,
            indexes: &[],
            other: None,
            length: 63,
            known_from: None,
            want: Err(LogReadFault::BadHeader),
        },
        Case {
            name: "another magic",
            pages: ONE_PAGE,
            indexes: &[0, 1, 2, 3],
            other: Some((6, 0x67)),
            length: 320,
            known_from: Some(64),
            want: Err(LogReadFault::BadHeader),
        },
        Case {
            name: "no format",
            pages: ONE_PAGE,
            indexes: &[0, 1, 2, 3],
            other: Some((7, b'0')),
            length: 320,
            known_from: Some(64),
            want: Err(LogReadFault::BadHeader),
        },
        Case {
            name: "a later format",
            pages: ONE_PAGE,
            indexes: &[0, 1, 2, 3],
            other: Some((7, b'3')),
            length: 320,
            known_from: Some(64),
            want: Err(LogReadFault::BadHeader),
        },
        Case {
            name: "no pages",
            pages: NO_PAGES,
            indexes: &[0],
            other: None,
            length: 128,
            known_from: Some(64),
            want: Err(LogReadFault::BadHeader),
        },
        Case {
            name: "too many pages",
            pages: TOO_MANY_PAGES,
            indexes: &[],
            other: None,
            length: 64,
            known_from: Some(64),
            want: Err(LogReadFault::BadHeader),
        },
        Case {
            name: "a spare byte of the header",
            pages: ONE_PAGE,
            indexes: &[0],
            other: Some((63, 1)),
            length: 128,
            known_from: Some(64),
            want: Err(LogReadFault::BadHeader),
        },
    ]
}
