//! How often a reader is asked in all, if it gives some bytes and is then interrupted for ever.

use crate::asserts::same;
use crate::chain_readers::archive;
use copy_vault::{ArchiveFault, ChainReadFault, read_archive, read_chain_pages};
use log_records::{Record, encode, encode_header};
use log_store::{LogReadFault, read_log};
use page_core::{Lsn, PageCounts, TxnNo};
use std::io;
use std::io::{ErrorKind, Read};
use std::process::Abort;
use std::test::Fail;

/// So often each reader is asked, whatever it has given.
const ASKED: u64 = 134_217_728;

/// Gives these bytes, so many at a call, and is then interrupted for ever. It counts the calls.
#[derive(Drop)]
struct Stalls<'a> {
    left: &'a [u8],
    step: usize,
    calls: u64,
}

impl<'a> Stalls<'a> {
    fn new(left: &'a [u8], step: usize) -> Stalls<'a> {
        Stalls {
            left,
            step,
            calls: 0,
        }
    }
}

impl Read for Stalls<'_> {
    fn read(&mut self, buf: &mut [u8]) -> io::Result<usize> {
        self.calls = self.calls.saturating_add(1);
        let count = self.left.len().min(buf.len()).min(self.step);
        if count == 0 {
            return Err(ErrorKind::Interrupted.into());
        }
        let (first, rest) = self.left.split_at(count);
        buf[..count].copy_from_slice(first);
        self.left = rest;
        Ok(count)
    }
}

#[test]
fn turns_go_on_behind_a_logs_header(rt: HostRuntime) {
    let header = encode_header(1);
    let mut reader = Stalls::new(&header, 64);
    let fault = read_log(rt.alloc(), &mut reader).err();
    same(&rt, &fault, &Some(LogReadFault::ReadFault));
    same(&rt, &reader.calls, &ASKED);
}

#[test]
fn turns_go_on_behind_a_record(rt: HostRuntime) -> Result<(), Fail> {
    let alloc = rt.alloc();
    let mut bytes = Vec::new(alloc);
    bytes.extend_from_slice(&encode_header(1))?;
    bytes.extend_from_slice(&encode(&Record::Begin {
        lsn: Lsn(64),
        txn: TxnNo(1),
    }))?;
    let mut reader = Stalls::new(&bytes, 7);
    let fault = read_log(alloc, &mut reader).err();
    same(&rt, &fault, &Some(LogReadFault::ReadFault));
    same(&rt, &reader.calls, &ASKED);
    Ok(())
}

/// Asserts how often the reader of an archive is asked that gives its first bytes, so many.
fn assert_archive(rt: &(impl Abort + AllocGlobal), given: usize) -> Result<(), Fail> {
    let alloc = rt.alloc();
    let full = archive(alloc, (1, 0), (2, 64), &[(0, 64), (1, 64)])?;
    let mut reader = Stalls::new(full.get(..given).unwrap_or(&[]), 512);
    let fault = read_archive(alloc, &mut reader).err();
    same(rt, &fault, &Some(ArchiveFault::ReadFault));
    same(rt, &reader.calls, &ASKED);
    Ok(())
}

#[test]
fn turns_go_on_behind_an_archives_header(rt: HostRuntime) -> Result<(), Fail> {
    assert_archive(&rt, 64)
}

#[test]
fn turns_go_on_behind_an_archives_page(rt: HostRuntime) -> Result<(), Fail> {
    assert_archive(&rt, 64 + 512)
}

/// Asserts it where the archive is read beside the one before it, which is whole. Behind its last
/// page that one is asked first.
fn assert_beside(
    rt: &(impl Abort + AllocGlobal),
    given: usize,
    is_first: bool,
) -> Result<(), Fail> {
    let alloc = rt.alloc();
    let full = archive(alloc, (1, 0), (3, 64), &[(0, 64), (1, 64), (2, 64)])?;
    let next = archive(alloc, (2, 1), (3, 128), &[(0, 128), (1, 128), (2, 128)])?;
    let mut readers = [
        Stalls::new(full.as_slice(), 512),
        Stalls::new(next.get(..given).unwrap_or(&[]), 512),
    ];
    let counts = PageCounts::new(alloc, 3);
    let fault = read_chain_pages(alloc, &mut readers, &counts, Lsn(512)).err();
    same(rt, &fault, &Some(ChainReadFault::ReadFault));
    let calls = if is_first {
        readers[0].calls
    } else {
        readers[1].calls
    };
    same(rt, &calls, &ASKED);
    Ok(())
}

#[test]
fn turns_go_on_behind_a_header_beside_others(rt: HostRuntime) -> Result<(), Fail> {
    assert_beside(&rt, 64, false)
}

#[test]
fn turns_go_on_behind_a_page_beside_others(rt: HostRuntime) -> Result<(), Fail> {
    assert_beside(&rt, 64 + 512, false)
}

#[test]
fn turns_go_on_behind_the_last_page(rt: HostRuntime) -> Result<(), Fail> {
    assert_beside(&rt, 64 + 3 * 512, true)
}
