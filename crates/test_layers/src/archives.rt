//! The bytes of archives, and the faults of archives that are cut or damaged.

use crate::asserts::{same, same_at};
use copy_vault::{
    ArchiveFault, ArchiveWriteFault, Chain, ChainFault, CompleteCopy, CopyFault, CopyId, CopyKind,
    Decision, Vault, read_archive, write_archive,
};
use page_core::{Lsn, PAGE_BYTES, Page, PageCounts, PageNo};
use std::alloc::Global;
use std::io;
use std::io::{ErrorKind, Read};
use std::process::Abort;
use std::test::Fail;

// The parts of archives in groups of eight bytes, in hexadecimal. `0` is eight zero bytes.
const OF_ONE_PAGE: &str =
    "41494d4741524332 0100000001000000 0100000000000000 c000000000000000 8000000000000000 \
     0100000000000000 0 0";

const OF_TWO_PAGES: &str =
    "41494d4741524332 0200000001000000 0100000000000000 4000000000000000 4000000000000000 \
     0200000000000000 0 0";

const OF_A_KEPT_PAGE: &str =
    "41494d4741524332 0100000003000000 0200000002000000 8001000000000000 8001000000000000 0 0 0";

/// An archive with this header, and so many formatted pages behind it.
fn archive_with(alloc: Global, header: &str, pages: u32) -> Result<Vec<u8>, Fail> {
    let mut bytes = Vec::new(alloc);
    for group in header.split_whitespace() {
        bytes.extend_from_slice(&u64::from_str_radix(group, 16)?.to_be_bytes())?;
    }
    for number in 0..pages {
        bytes.extend_from_slice(&number.to_le_bytes())?;
        bytes.extend_from_slice(&1u32.to_le_bytes())?;
        bytes.extend_from_slice(&[0; PAGE_BYTES - 8])?;
    }
    Ok(bytes)
}

fn written(alloc: Global, copy: &CompleteCopy) -> Result<Vec<u8>, Fail> {
    let mut bytes = Vec::new(alloc);
    write_archive(alloc, copy, &mut bytes)?;
    Ok(bytes)
}

fn fault_of(alloc: Global, bytes: &[u8]) -> Option<ArchiveFault> {
    let mut input = bytes;
    read_archive(alloc, &mut input).err()
}

/// Reads a stored page into a copy.
fn take(alloc: Global, vault: &mut Vault, id: CopyId, page: &Page) -> Result<Decision, Fail> {
    let number = page.number;
    let is_left = match vault.reading(id) {
        Some(copy) => number.0 < copy.pages() && copy.is_undecided(number),
        None => false,
    };
    if !is_left {
        return Err(Fail::new("the copy does not wait for this page"));
    }
    vault.make_room(alloc, id)?;
    Ok(vault.decide(id, number, page))
}

/// Makes a full copy of one page, and asserts what its archive is.
fn assert_sealed(rt: &impl Abort, alloc: Global, vault: &mut Vault) -> Result<(), Fail> {
    let id = vault.open_full(alloc, 1, Lsn(192), Lsn(128))?;
    let page = Page::formatted(PageNo(0));
    same(rt, &take(alloc, vault, id, &page)?, &Decision::Taken);
    same(rt, &vault.seal(id), &Ok(1));
    let Some(copy) = vault.complete(id) else {
        return Err(Fail::new("the copy is not complete"));
    };
    same(
        rt,
        &written(alloc, copy)?,
        &archive_with(alloc, OF_ONE_PAGE, 1)?,
    );
    Ok(())
}

#[test]
fn a_sealed_copy_has_its_archive(rt: HostRuntime) -> Result<(), Fail> {
    let mut vault = Vault::new(rt.alloc());
    let done = assert_sealed(&rt, rt.alloc(), &mut vault);
    drop(vault);
    done
}

/// Makes a full copy of two pages.
fn copy_two(
    rt: &impl Abort,
    alloc: Global,
    vault: &mut Vault,
    pages: &[Page; 2],
) -> Result<CopyId, Fail> {
    let [zero, one] = pages;
    let first = vault.open_full(alloc, 2, Lsn(64), Lsn(64))?;
    let refused = vault.open_inc(alloc, first, 2, Lsn(384), Lsn(384));
    same(rt, &refused, &Err(CopyFault::CopyNotComplete));
    take(alloc, vault, first, one)?;
    take(alloc, vault, first, zero)?;
    same(rt, &vault.seal(first), &Ok(2));
    Ok(first)
}

/// Makes an incremental copy of two pages, of which it takes the second alone.
fn take_one(
    rt: &impl Abort,
    alloc: Global,
    vault: &mut Vault,
    first: CopyId,
    pages: &[Page; 2],
) -> Result<CopyId, Fail> {
    let [zero, one] = pages;
    let next = vault.open_inc(alloc, first, 2, Lsn(384), Lsn(384))?;
    same(rt, &take(alloc, vault, next, one)?, &Decision::Taken);
    same(rt, &take(alloc, vault, next, zero)?, &Decision::Kept);
    let refused = vault.chain(alloc, next).err();
    same(rt, &refused, &Some(CopyFault::CopyNotComplete));
    same(rt, &vault.seal(next), &Ok(1));
    let refused = vault.chain(alloc, CopyId(3)).err();
    same(rt, &refused, &Some(CopyFault::NoCopy));
    Ok(next)
}

/// Asserts that a chain ends with this copy, and of which LSNs its pages are.
fn assert_chain(
    rt: &impl Abort,
    alloc: Global,
    vault: &Vault,
    last: CopyId,
    wanted: &[Lsn],
) -> Result<(), Fail> {
    let chain = vault.chain(alloc, last)?;
    same(rt, &chain.redo(), &Lsn(384));
    let none = PageNo(2);
    same(rt, &chain.content(none), &Page::formatted(none));
    let pages = chain.contents(alloc, 2)?;
    let mut lsns = Vec::new(alloc);
    for page in &pages {
        lsns.push(page.lsn)?;
    }
    drop(pages);
    same(rt, &lsns.as_slice(), &wanted);
    Ok(())
}

/// Makes both copies, and asserts what is in their chain.
fn assert_copies(rt: &impl Abort, alloc: Global, vault: &mut Vault) -> Result<(), Fail> {
    let mut pages = [Page::formatted(PageNo(0)), Page::formatted(PageNo(1))];
    let first = copy_two(rt, alloc, vault, &pages)?;
    pages[1].lsn = Lsn(256);
    let next = take_one(rt, alloc, vault, first, &pages)?;
    assert_chain(rt, alloc, vault, next, &[Lsn(0), Lsn(256)])
}

#[test]
fn a_chain_has_each_page(rt: HostRuntime) -> Result<(), Fail> {
    let mut vault = Vault::new(rt.alloc());
    let done = assert_copies(&rt, rt.alloc(), &mut vault);
    drop(vault);
    done
}

#[test]
fn an_archive_is_read_and_written_again(rt: HostRuntime) -> Result<(), Fail> {
    let alloc = rt.alloc();
    for (header, pages, id, kind, begin, redo) in [
        (
            OF_ONE_PAGE,
            1,
            CopyId(1),
            CopyKind::Full,
            Lsn(192),
            Lsn(128),
        ),
        (OF_TWO_PAGES, 2, CopyId(1), CopyKind::Full, Lsn(64), Lsn(64)),
        (
            OF_A_KEPT_PAGE,
            0,
            CopyId(3),
            CopyKind::Inc(CopyId(2)),
            Lsn(384),
            Lsn(384),
        ),
    ] {
        assert_archive(&rt, alloc, (header, pages), kind, (id, begin, redo))?;
    }
    Ok(())
}

/// Puts another byte into an archive.
pub(crate) fn put(archive: &mut [u8], at: usize, byte: u8) {
    if let Some(place) = archive.get_mut(at) {
        *place = byte;
    }
}

/// Asserts what a copy is whose archive has this header and so many formatted pages, in either
/// format, and that it is written in the second one.
fn assert_archive(
    rt: &impl Abort,
    alloc: Global,
    (header, pages): (&str, u32),
    kind: CopyKind,
    (id, begin, redo): (CopyId, Lsn, Lsn),
) -> Result<(), Fail> {
    let archive = archive_with(alloc, header, pages)?;
    for format in [b'1', b'2'] {
        let mut bytes = archive_with(alloc, header, pages)?;
        put(&mut bytes, 7, format);
        let copy = read_archive(alloc, &mut bytes.as_slice())?;
        let given = (copy.id(), copy.begin(), copy.redo(), copy.taken());
        same_at(rt, &given, &(id, begin, redo, pages), &format);
        same_at(rt, &copy.kind(), &kind, &format);
        let again = written(alloc, &copy);
        drop(copy);
        same_at(rt, &again?, &archive, &format);
    }
    Ok(())
}

#[test]
fn archives_are_linked(rt: HostRuntime) -> Result<(), Fail> {
    let alloc = rt.alloc();
    same(
        &rt,
        &linked(alloc, &[], 1),
        &Some(ChainFault::ChainBroken(CopyId(0))),
    );
    let mut copies = two_copies(alloc)?;
    same(
        &rt,
        &linked(alloc, &copies, 1),
        &Some(ChainFault::ChainBroken(CopyId(3))),
    );
    same(
        &rt,
        &linked(alloc, &copies, 2),
        &Some(ChainFault::ChainBroken(CopyId(1))),
    );
    copies.truncate(1);
    same(&rt, &linked(alloc, &copies, 1), &None);
    drop(copies);
    Ok(())
}

/// The full copy of one page, and one that is no increment on it.
fn two_copies(alloc: Global) -> Result<Vec<CompleteCopy>, Fail> {
    let mut copies = Vec::new(alloc);
    for (header, pages) in [(OF_ONE_PAGE, 1), (OF_A_KEPT_PAGE, 0)] {
        let archive = archive_with(alloc, header, pages)?;
        copies.push(read_archive(alloc, &mut archive.as_slice())?)?;
    }
    Ok(copies)
}

/// Why these copies are no chain, if they are none.
fn linked(alloc: Global, copies: &[CompleteCopy], pages: u32) -> Option<ChainFault> {
    Chain::link(alloc, copies, &PageCounts::new(alloc, pages)).err()
}

#[test]
fn a_cut_archive_is_refused(rt: HostRuntime) -> Result<(), Fail> {
    let alloc = rt.alloc();
    let archive = archive_with(alloc, OF_TWO_PAGES, 2)?;
    for count in 0..archive.len() {
        let wanted = match count {
            0..64 => ArchiveFault::BadArchive(0),
            64 | 576 => ArchiveFault::CountDiffers,
            65..576 => ArchiveFault::BadArchive(64),
            _ => ArchiveFault::BadArchive(576),
        };
        same_at(
            &rt,
            &fault_of(alloc, &archive[..count]),
            &Some(wanted),
            &format_args!("cut to {count}"),
        );
    }
    Ok(())
}

#[test]
fn a_spoiled_archive_is_refused(rt: HostRuntime) -> Result<(), Fail> {
    let alloc = rt.alloc();
    for (at, byte, wanted) in [
        // The text in front, two formats that there are not, a spare byte, a parent of a full copy,
        // a redo point past the begin.
        (0, 0x42, ArchiveFault::BadArchive(0)),
        (7, b'0', ArchiveFault::BadArchive(0)),
        (7, b'3', ArchiveFault::BadArchive(0)),
        (63, 1, ArchiveFault::BadArchive(0)),
        (20, 1, ArchiveFault::BadArchive(0)),
        (32, 0x80, ArchiveFault::BadArchive(0)),
        // The format of page 0, and a second page that is no other, or past the volume.
        (68, 2, ArchiveFault::BadArchive(64)),
        (576, 0, ArchiveFault::BadArchive(576)),
        (576, 2, ArchiveFault::BadArchive(576)),
    ] {
        let mut archive = archive_with(alloc, OF_TWO_PAGES, 2)?;
        put(&mut archive, at, byte);
        same_at(
            &rt,
            &fault_of(alloc, &archive),
            &Some(wanted),
            &format_args!("{byte} at {at}"),
        );
    }
    let mut longer = archive_with(alloc, OF_TWO_PAGES, 2)?;
    longer.push(0)?;
    same(
        &rt,
        &fault_of(alloc, &longer),
        &Some(ArchiveFault::CountDiffers),
    );
    Ok(())
}

/// Gives these bytes, one at a call, and then fails.
#[derive(Drop)]
struct Breaks<'a> {
    left: &'a [u8],
}

impl Read for Breaks<'_> {
    fn read(&mut self, buf: &mut [u8]) -> io::Result<usize> {
        let Some((first, rest)) = self.left.split_first() else {
            return Err(ErrorKind::Other.into());
        };
        let Some(place) = buf.first_mut() else {
            return Ok(0);
        };
        *place = *first;
        self.left = rest;
        Ok(1)
    }
}

#[test]
fn a_failure_is_told_as_what_it_is(rt: HostRuntime) -> Result<(), Fail> {
    let alloc = rt.alloc();
    let archive = archive_with(alloc, OF_TWO_PAGES, 2)?;
    for given in [0, 64, 600, 1_088] {
        let mut reader = Breaks {
            left: archive.get(..given).unwrap_or(&[]),
        };
        let outcome = read_archive(alloc, &mut reader);
        same_at(
            &rt,
            &outcome.err(),
            &Some(ArchiveFault::ReadFault),
            &format_args!("{given} bytes"),
        );
    }
    Ok(())
}

#[test]
fn a_failing_writer_is_told(rt: HostRuntime) -> Result<(), Fail> {
    let alloc = rt.alloc();
    let archive = archive_with(alloc, OF_TWO_PAGES, 2)?;
    let copy = read_archive(alloc, &mut archive.as_slice())?;
    let mut room = [0; 600];
    let outcome = write_archive(alloc, &copy, &mut room.as_mut_slice());
    drop(copy);
    same(&rt, &outcome, &Err(ArchiveWriteFault::WriteFault(600)));
    same(&rt, &archive.get(..600), &Some(room.as_slice()));
    Ok(())
}
