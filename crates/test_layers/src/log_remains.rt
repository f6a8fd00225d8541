//! Files with damage or a crash behind their front, made record by record.

ghost use Rattle.std.specs.Prelude.{◌≡◌};

use log_prefix::forced_behind;
use log_records::{RECORD_BYTES, Record, encode};
use page_core::{Lsn, TxnNo};
use std::alloc::{AllocError, Global};
use std::test::Fail;

/// Where the front ends in each test: it is the header and one record.
const END: Lsn = Lsn(128);

type Bytes = [u8; RECORD_BYTES];

/// These bytes with one bit flipped, where each record has a 0.
fn flipped(mut bytes: Bytes) -> Bytes {
    bytes[1] ^= 1;
    bytes
}

fn begin(lsn: u64) -> Bytes {
    encode(&Record::Begin {
        lsn: Lsn(lsn),
        txn: TxnNo(2),
    })
}

fn commit(lsn: u64) -> Bytes {
    encode(&Record::Commit {
        lsn: Lsn(lsn),
        txn: TxnNo(1),
        prev: Lsn(64),
    })
}

fn abort(lsn: u64) -> Bytes {
    encode(&Record::Abort {
        lsn: Lsn(lsn),
        txn: TxnNo(1),
        prev: Lsn(64),
    })
}

fn end_chkpt(lsn: u64) -> Bytes {
    encode(&Record::EndChkpt {
        lsn: Lsn(lsn),
        begin: Lsn(64),
        redo: Lsn(64),
    })
}

/// The front, and these records behind it.
fn file_of(alloc: Global, behind: &[Bytes]) -> Result<Vec<u8>, AllocError> {
    let mut bytes = vec![in alloc; 0; 128]?;
    for record in behind {
        bytes.extend_from_slice(record)?;
    }
    Ok(bytes)
}

/// What is found in that file behind the front.
fn found(rt: &HostRuntime, behind: &[Bytes]) -> Result<Option<Lsn>, AllocError> {
    Ok(forced_behind(&file_of(rt.alloc(), behind)?, END))
}

#[test]
fn nothing_is_behind(rt: HostRuntime) -> Result<(), Fail> {
    assert_eq!(rt; found(&rt, &[])?, None);
    assert_eq!(rt; forced_behind(&[], Lsn(u64::MAX)), None);
    Ok(())
}

#[test]
fn a_crash_may_keep_the_last_commit_alone(rt: HostRuntime) -> Result<(), Fail> {
    assert_eq!(rt; found(&rt, &[flipped(begin(128)), commit(192)])?, None);
    Ok(())
}

#[test]
fn a_commit_with_a_record_behind_it_was_forced(rt: HostRuntime) -> Result<(), Fail> {
    let bytes = file_of(rt.alloc(), &[flipped(begin(128)), commit(192), begin(256)])?;
    assert_eq!(rt; forced_behind(&bytes, END), Some(Lsn(192)));
    // The Commit is looked for from there on, and not before.
    assert_eq!(rt; forced_behind(&bytes, Lsn(192)), Some(Lsn(192)));
    assert_eq!(rt; forced_behind(&bytes, Lsn(193)), None);
    Ok(())
}

#[test]
fn the_end_of_a_checkpoint_was_forced(rt: HostRuntime) -> Result<(), Fail> {
    let behind = [flipped(begin(128)), end_chkpt(192), begin(256)];
    assert_eq!(rt; found(&rt, &behind)?, Some(Lsn(192)));
    Ok(())
}

#[test]
fn other_records_are_not_forced_at_once(rt: HostRuntime) -> Result<(), Fail> {
    assert_eq!(rt; found(&rt, &[begin(128), abort(192), begin(256)])?, None);
    Ok(())
}

#[test]
fn the_first_of_several_is_told(rt: HostRuntime) -> Result<(), Fail> {
    let behind = [abort(128), commit(192), end_chkpt(256), commit(320)];
    assert_eq!(rt; found(&rt, &behind)?, Some(Lsn(192)));
    let behind = [flipped(commit(128)), commit(192), begin(256)];
    assert_eq!(rt; found(&rt, &behind)?, Some(Lsn(192)));
    Ok(())
}

#[test]
fn damage_may_lie_between_the_two(rt: HostRuntime) -> Result<(), Fail> {
    let behind = [commit(128), [0; 64], flipped(begin(256)), begin(320)];
    assert_eq!(rt; found(&rt, &behind)?, Some(Lsn(128)));
    Ok(())
}

#[test]
fn a_record_of_another_place_is_none(rt: HostRuntime) -> Result<(), Fail> {
    assert_eq!(rt; found(&rt, &[commit(128), begin(256)])?, None);
    assert_eq!(rt; found(&rt, &[commit(192), begin(192)])?, None);
    Ok(())
}

#[test]
fn less_than_a_record_is_none(rt: HostRuntime) -> Result<(), Fail> {
    let mut bytes = file_of(rt.alloc(), &[commit(128), begin(192)])?;
    assert_eq!(rt; forced_behind(&bytes, END), Some(Lsn(128)));
    bytes.pop();
    assert_eq!(rt; forced_behind(&bytes, END), None);
    Ok(())
}
