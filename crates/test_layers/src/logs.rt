//! What no clause says: the bytes of known logs, how a reader's failures are answered, and that
//! each call succeeds.

mod fronts;
mod growth;
mod readers;
mod vectors;

use crate::asserts::{same, same_at};
use log_records::{MAX_LOG_BYTES, MAX_RECORDS, Record, decode, encode, encode_header};
use log_store::{LogReadFault, read_log};
use page_core::{Change, Lsn, PageNo, SlotNo, TxnNo};
use readers::{NeverReady, Pairs, Steps};
use std::alloc::Global;
use std::io;
use std::io::Read;
use std::process::Abort;
use std::test::Fail;
use vectors::{
    Case, FIRST_FORMAT, SECOND_FORMAT, bytes_of, cases, header_of_2_pages, log_of, records,
    spellings,
};

#[test]
fn records_have_their_bytes(rt: HostRuntime) {
    for (record, spelling) in records().iter().zip(&spellings()) {
        let bytes = bytes_of(spelling);
        same_at(&rt, &encode(record), &bytes, &format_args!("{record:?}"));
        same(&rt, &decode(&bytes, record.lsn()), &Some(*record));
        same_at(
            &rt,
            &decode(&bytes, Lsn(320)),
            &None,
            &format_args!("{record:?}"),
        );
    }
}

#[test]
fn a_header_has_its_bytes(rt: HostRuntime) {
    same(&rt, &encode_header(2), &bytes_of(&header_of_2_pages()));
}

/// Each record with one byte changed, and whether that is a record.
#[test]
fn other_bytes_are_refused(rt: HostRuntime) {
    for (index, offset, byte, is_record) in [
        (0, 0, 3, false),
        (0, 0, 2, false),
        (0, 1, 1, false),
        (0, 4, 0, false),
        (0, 4, 2, true),
        (0, 8, 0x40, false),
        (0, 16, 1, false),
        (0, 40, 1, false),
        (0, 48, 1, false),
        (0, 56, 0x80, false),
        (1, 8, 0, false),
        (1, 8, 0x41, false),
        (1, 8, 0x80, false),
        (1, 25, 0xff, true),
        (1, 26, 1, false),
        (1, 28, 61, true),
        (1, 28, 62, false),
        (1, 29, 1, false),
        (1, 30, 0, false),
        (1, 30, 3, false),
        (1, 31, 1, false),
        (1, 32, 1, true),
        (2, 8, 0x40, true),
        (2, 32, 1, false),
        (2, 47, 0xff, true),
        (3, 8, 0, false),
        (3, 9, 1, false),
        (3, 24, 1, false),
        (3, 30, 1, false),
    ] {
        assert!(rt; index < 4 && offset < 64);
        let mut bytes = bytes_of(&spellings()[index]);
        bytes[offset] = byte;
        let found = decode(&bytes, records()[index].lsn()).is_some();
        same_at(
            &rt,
            &found,
            &is_record,
            &format_args!("record {index} with {byte} at {offset}"),
        );
    }
}

/// A compensation record, and a kind that there is not.
#[test]
fn a_compensation_record_has_its_bytes(rt: HostRuntime) {
    let bytes = bytes_of(&[
        0x0300000001000000,
        0x4002000000000000,
        0xc000000000000000,
        0x0000000000000200,
        0,
        0xfbffffffffffffff,
        0,
        0x8002000000000000,
    ]);
    let comp = Record::Comp {
        lsn: Lsn(640),
        txn: TxnNo(1),
        prev: Lsn(576),
        undo_next: Lsn(192),
        page: PageNo(0),
        slot: SlotNo(0),
        change: Change::Add {
            amount: 18_446_744_073_709_551_611,
        },
    };
    same(&rt, &decode(&bytes, Lsn(640)), &Some(comp));
    same(&rt, &encode(&comp), &bytes);
    let mut later = bytes;
    later[0] = 12;
    same(&rt, &decode(&later, Lsn(640)), &None);
}

/// The page count and the count of records of the log that a reader gives. They are the first of
/// the known records.
fn read_known<R: Read>(
    rt: &impl Abort,
    alloc: Global,
    reader: &mut R,
) -> Result<(u32, usize), LogReadFault> {
    let log = read_log(alloc, reader)?;
    let count = log.records().len();
    assert!(rt; count <= 4);
    same(rt, &log.records(), &&records()[..count]);
    let pages = log.pages();
    drop(log);
    Ok((pages, count))
}

/// Asserts what is read of a log in this format.
fn assert_case(rt: &impl Abort, alloc: Global, case: &Case, format: u64) -> Result<(), Fail> {
    let bytes = log_of(alloc, case, format)?;
    let Case { name, want, .. } = *case;
    let mut whole = bytes.as_slice();
    same_at(rt, &read_known(rt, alloc, &mut whole), &want, &name);
    let mut slow = Steps::new(&bytes, 1);
    same_at(
        rt,
        &read_known(rt, alloc, &mut slow),
        &want,
        &format_args!("{name}, a byte at a time"),
    );
    let mut interrupted = Steps::new(&bytes, 50).interrupted();
    same_at(
        rt,
        &read_known(rt, alloc, &mut interrupted),
        &want,
        &format_args!("{name}, interrupted"),
    );
    Ok(())
}

#[test]
fn logs_are_read(rt: HostRuntime) -> Result<(), Fail> {
    for case in &cases() {
        assert_case(&rt, rt.alloc(), case, SECOND_FORMAT)?;
    }
    Ok(())
}

/// They are what the same records are behind a header of the second format.
#[test]
fn logs_of_the_first_format_are_read(rt: HostRuntime) -> Result<(), Fail> {
    for case in &cases() {
        assert_case(&rt, rt.alloc(), case, FIRST_FORMAT)?;
    }
    Ok(())
}

/// Each log from a reader that fails once it gave so many bytes.
#[test]
fn a_reader_fails(rt: HostRuntime) -> Result<(), Fail> {
    let alloc = rt.alloc();
    for case in &cases() {
        let bytes = log_of(alloc, case, SECOND_FORMAT)?;
        let Case {
            name,
            known_from,
            want,
            ..
        } = *case;
        for given in [
            0, 1, 63, 64, 65, 127, 128, 191, 192, 255, 256, 319, 320, 384,
        ] {
            let given = given.min(bytes.len());
            let mut reader = Steps::new(&bytes, 1).failing(given);
            let want = match known_from {
                Some(from) if given >= from => want,
                _ => Err(LogReadFault::ReadFault),
            };
            same_at(
                &rt,
                &read_known(&rt, alloc, &mut reader),
                &want,
                &format_args!("{name}, failing at {given}"),
            );
        }
    }
    Ok(())
}

#[test]
fn long_logs_are_read(rt: HostRuntime) {
    let alloc = rt.alloc();
    let longest = MAX_LOG_BYTES as u64;
    for (end, want) in [
        (longest - 1, Err(LogReadFault::Torn(Lsn(longest - 64)))),
        (longest, Ok(MAX_RECORDS)),
        (longest + 1, Err(LogReadFault::TooLong)),
        (longest + 64, Err(LogReadFault::TooLong)),
        (u64::MAX, Err(LogReadFault::TooLong)),
    ] {
        let mut reader = Pairs::until(end);
        let read = read_log(alloc, &mut reader).map(|log| log.records().len());
        same_at(&rt, &read, &want, &format_args!("a log that ends at {end}"));
    }
}

#[test]
fn a_reader_without_an_end(rt: HostRuntime) {
    let alloc = rt.alloc();
    let mut zeros = io::repeat(0);
    same(
        &rt,
        &read_known(&rt, alloc, &mut zeros),
        &Err(LogReadFault::BadHeader),
    );
    let header = encode_header(1);
    let mut zeros = header.as_slice().chain(io::repeat(0));
    same(
        &rt,
        &read_known(&rt, alloc, &mut zeros),
        &Err(LogReadFault::BadRecord(Lsn(64))),
    );
}

#[test]
fn a_reader_that_is_never_ready(rt: HostRuntime) {
    let mut reader = NeverReady { calls: 0 };
    let read = read_known(&rt, rt.alloc(), &mut reader);
    same(&rt, &read, &Err(LogReadFault::ReadFault));
    same(&rt, &reader.calls, &134_217_728);
}
