//! Tests of what a log says of its checkpoints.

use crate::{LogCheckpoints, Point};
use log_records::{DirtyPage, DirtyPages, Record, encode, encode_header};
use log_store::{LogImage, scan_log};
use page_core::{Change, Lsn, PageNo, SlotNo, TxnNo};
use std::test::Fail;

/// The checkpoints of the log of one page that these records make.
fn found_in(rt: &HostRuntime, records: &[Record]) -> Result<LogCheckpoints, Fail> {
    let mut bytes = Vec::new(rt.alloc());
    bytes.extend_from_slice(&encode_header(1))?;
    for record in records {
        bytes.extend_from_slice(&encode(record))?;
    }
    let scan = scan_log::<_, LogImage>(rt.alloc(), &mut bytes.as_slice())?;
    Ok(LogCheckpoints::of(&scan.history.into_analysis()))
}

/// A complete checkpoint, a change, and a checkpoint that has the changed page and has not ended.
const RECORDS: [Record; 6] = [
    Record::BeginChkpt { lsn: Lsn(64) },
    Record::EndChkpt {
        lsn: Lsn(128),
        begin: Lsn(64),
        redo: Lsn(64),
    },
    Record::Begin {
        lsn: Lsn(192),
        txn: TxnNo(1),
    },
    Record::Update {
        lsn: Lsn(256),
        txn: TxnNo(1),
        prev: Lsn(192),
        page: PageNo(0),
        slot: SlotNo(0),
        change: Change::Add { amount: 5 },
    },
    Record::BeginChkpt { lsn: Lsn(320) },
    Record::ChkptPages {
        lsn: Lsn(384),
        begin: Lsn(320),
        pages: DirtyPages::One(DirtyPage {
            page: 0,
            rec_lsn: 256,
        }),
    },
];

#[test]
fn the_last_checkpoint_of_a_log_is_found(rt: HostRuntime) -> Result<(), Fail> {
    let found = found_in(&rt, &RECORDS)?;
    let point = Point {
        begin: Lsn(64),
        end: Lsn(128),
        redo: Lsn(64),
        pages: 1,
    };
    assert_eq!(rt; found.last, Some(point));
    assert!(rt; found.open.is_some());
    Ok(())
}

#[test]
fn a_log_without_checkpoints_has_none(rt: HostRuntime) -> Result<(), Fail> {
    let found = found_in(&rt, &[])?;
    assert_eq!(rt; found.last, None);
    assert!(rt; found.open.is_none());
    Ok(())
}

#[test]
fn a_checkpoint_that_has_begun_is_open(rt: HostRuntime) -> Result<(), Fail> {
    let begun = found_in(&rt, &[Record::BeginChkpt { lsn: Lsn(64) }])?;
    assert_eq!(rt; begun.last, None);
    assert!(rt; begun.open.is_some());
    Ok(())
}
