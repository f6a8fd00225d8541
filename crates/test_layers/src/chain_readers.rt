//! The archives of a chain, read side by side.

use crate::archives::put;
use crate::asserts::same;
use copy_vault::{ChainReadFault, ChainReader, CopyId, read_chain_pages, read_chain_pages_into};
use page_core::{GivenCount, Lsn, Page, PageCounts, PageNo, SLOTS};
use std::alloc::Global;
use std::io;
use std::io::{ErrorKind, Read};
use std::process::Abort;
use std::test::Fail;

/// The bytes of an archive with this id, parent (0 of a full copy), page count and redo point, and
/// these pages: their numbers and LSNs.
pub(crate) fn archive(
    alloc: Global,
    (id, parent): (u32, u32),
    (count, redo): (u32, u64),
    pages: &[(u32, u64)],
) -> Result<Vec<u8>, Fail> {
    let kind = if parent == 0 { 1u32 } else { 2u32 };
    let mut bytes = Vec::new(alloc);
    bytes.extend_from_slice(b"AIMGARC2")?;
    for number in [count, id, kind, parent] {
        bytes.extend_from_slice(&number.to_le_bytes())?;
    }
    bytes.extend_from_slice(&redo.to_le_bytes())?;
    bytes.extend_from_slice(&redo.to_le_bytes())?;
    bytes.extend_from_slice(&u64::try_from(pages.len())?.to_le_bytes())?;
    bytes.extend_from_slice(&[0; 16])?;
    for (number, lsn) in pages {
        let mut page = Page::formatted(PageNo(*number));
        page.lsn = Lsn(*lsn);
        bytes.extend_from_slice(&page.to_bytes())?;
    }
    Ok(bytes)
}

/// Takes all pages that a chain gives, and answers why it stops. The refusal has to be answered
/// again.
fn take_all<R: Read>(
    chain: &mut ChainReader,
    readers: &mut [R],
    given: &mut Vec<(u32, u64)>,
) -> Result<Option<ChainReadFault>, Fail> {
    for _ in 0..8 {
        match chain.next(readers) {
            Ok(Some(page)) => given.push((page.number.0, page.lsn.0))?,
            Ok(None) => return Ok(None),
            Err(fault) => {
                let first = Some(fault);
                if chain.next(readers).err() == first {
                    return Ok(first);
                }
                return Err(Fail::new("the refusal is forgotten"));
            }
        }
    }
    Err(Fail::new("the chain does not end"))
}

/// Puts the numbers and LSNs of the pages of a chain into a list, of a log that ends there, and
/// answers why it stops.
fn read_all<R: Read>(
    alloc: Global,
    readers: &mut [R],
    (pages, end): (u32, u64),
    given: &mut Vec<(u32, u64)>,
) -> Result<Option<ChainReadFault>, Fail> {
    let counts = PageCounts::new(alloc, pages);
    match ChainReader::new(alloc, readers, &counts, Lsn(end)) {
        Ok(mut chain) => {
            let fault = take_all(&mut chain, readers, given);
            drop(chain);
            fault
        }
        Err(fault) => Ok(Some(fault)),
    }
}

/// Asserts why a chain of these two archives is refused, for a volume of two pages and a log that
/// ends at 512.
fn assert_fault(
    rt: &impl Abort,
    alloc: Global,
    first: &[u8],
    second: &[u8],
    wanted: Option<ChainReadFault>,
) -> Result<(), Fail> {
    let mut given = Vec::new(alloc);
    let fault = read_all(alloc, &mut [first, second], (2, 512), &mut given);
    drop(given);
    same(rt, &fault?, &wanted);
    Ok(())
}

#[test]
fn a_page_is_that_of_the_last_copy(rt: HostRuntime) -> Result<(), Fail> {
    let alloc = rt.alloc();
    let all = [(0, 64), (1, 64), (2, 64), (3, 64)];
    let full = archive(alloc, (1, 0), (4, 64), &all)?;
    let second = archive(alloc, (2, 1), (4, 128), &[(1, 128), (2, 128)])?;
    let none = archive(alloc, (3, 2), (4, 192), &[])?;
    let last = archive(alloc, (4, 3), (4, 256), &[(2, 256), (3, 256)])?;
    let mut readers = [
        full.as_slice(),
        second.as_slice(),
        none.as_slice(),
        last.as_slice(),
    ];
    let mut given = Vec::new(alloc);
    let fault = read_all(alloc, &mut readers, (4, 512), &mut given)?;
    let wanted = [(0, 64), (1, 128), (2, 256), (3, 256)];
    same(&rt, &given.as_slice(), &wanted.as_slice());
    same(&rt, &fault, &None);
    Ok(())
}

#[test]
fn archives_of_a_chain_may_have_different_formats(rt: HostRuntime) -> Result<(), Fail> {
    let alloc = rt.alloc();
    for (first, second, wanted) in [
        (b'1', b'1', None),
        (b'1', b'2', None),
        (b'2', b'1', None),
        (b'3', b'2', Some(ChainReadFault::BadArchive(0))),
        (b'2', b'0', Some(ChainReadFault::BadArchive(0))),
    ] {
        let mut full = archive(alloc, (1, 0), (2, 64), &[(0, 0), (1, 0)])?;
        let mut next = archive(alloc, (2, 1), (2, 384), &[(1, 256)])?;
        put(&mut full, 7, first);
        put(&mut next, 7, second);
        assert_fault(&rt, alloc, &full, &next, wanted)?;
    }
    Ok(())
}

#[test]
fn all_pages_of_a_chain_are_read(rt: HostRuntime) -> Result<(), Fail> {
    let alloc = rt.alloc();
    let full = archive(alloc, (1, 0), (2, 64), &[(0, 0), (1, 0)])?;
    let next = archive(alloc, (2, 1), (2, 384), &[(1, 256)])?;
    let mut readers = [full.as_slice(), next.as_slice()];
    let counts = PageCounts::new(alloc, 2);
    let Ok((pages, redo)) = read_chain_pages(alloc, &mut readers, &counts, Lsn(512)) else {
        return Err(Fail::new("the chain is refused"));
    };
    let mut lsns = Vec::new(alloc);
    for page in &pages {
        lsns.push(page.lsn)?;
    }
    drop(pages);
    let wanted = [Lsn(0), Lsn(256)];
    same(&rt, &lsns.as_slice(), &wanted.as_slice());
    same(&rt, &redo, &Lsn(384));
    Ok(())
}

/// The page counts of a volume of two pages that has four behind the record at 128, and five behind
/// that at 256.
fn grown(alloc: Global) -> Result<PageCounts, Fail> {
    let mut counts = PageCounts::new(alloc, 2);
    for (lsn, pages) in [(128, 4), (256, 5)] {
        counts.note(GivenCount {
            lsn: Lsn(lsn),
            pages,
        })?;
    }
    Ok(counts)
}

#[test]
fn all_pages_of_a_volume_that_grew_are_read(rt: HostRuntime) -> Result<(), Fail> {
    let alloc = rt.alloc();
    let full = archive(alloc, (1, 0), (2, 64), &[(0, 64), (1, 0)])?;
    let next = archive(alloc, (2, 1), (4, 192), &[(2, 128)])?;
    let mut readers = [full.as_slice(), next.as_slice()];
    let counts = grown(alloc)?;
    let Ok((pages, redo)) = read_chain_pages(alloc, &mut readers, &counts, Lsn(512)) else {
        return Err(Fail::new("the chain is refused"));
    };
    let mut given = Vec::new(alloc);
    for page in &pages {
        given.push((page.number.0, page.lsn.0))?;
    }
    drop(pages);
    let wanted = [(0, 64), (1, 0), (2, 128), (3, 0), (4, 0)];
    same(&rt, &given.as_slice(), &wanted.as_slice());
    same(&rt, &redo, &Lsn(192));
    Ok(())
}

#[test]
fn pages_of_a_chain_take_the_place_of_given_ones(rt: HostRuntime) -> Result<(), Fail> {
    let alloc = rt.alloc();
    let full = archive(alloc, (1, 0), (2, 64), &[(0, 64), (1, 0)])?;
    let next = archive(alloc, (2, 1), (4, 192), &[(2, 128)])?;
    let counts = grown(alloc)?;
    let wanted = [(0, 64), (1, 0), (2, 128), (3, 0), (4, 0)];
    for count in [0, 1, 5, 8] {
        let mut given = Vec::new(alloc);
        for _ in 0..count {
            given.push(Page {
                number: PageNo(7),
                lsn: Lsn(448),
                slots: [1; SLOTS],
            })?;
        }
        let mut readers = [full.as_slice(), next.as_slice()];
        let read = read_chain_pages_into(alloc, &mut readers, &counts, Lsn(512), given);
        let Ok((pages, redo)) = read else {
            return Err(Fail::new("the chain is refused"));
        };
        let mut made = Vec::new(alloc);
        let mut is_formatted = true;
        for page in &pages {
            made.push((page.number.0, page.lsn.0))?;
            is_formatted = is_formatted && page.slots == [0; SLOTS];
        }
        drop(pages);
        same(&rt, &made.as_slice(), &wanted.as_slice());
        same(&rt, &is_formatted, &true);
        same(&rt, &redo, &Lsn(192));
    }
    Ok(())
}

#[test]
fn an_archive_has_the_page_count_at_its_begin(rt: HostRuntime) -> Result<(), Fail> {
    let alloc = rt.alloc();
    let full = archive(alloc, (1, 0), (2, 64), &[(0, 64), (1, 0)])?;
    let counts = grown(alloc)?;
    for count in [2, 5] {
        let next = archive(alloc, (2, 1), (count, 192), &[])?;
        let mut readers = [full.as_slice(), next.as_slice()];
        let fault = read_chain_pages(alloc, &mut readers, &counts, Lsn(512)).err();
        same(&rt, &fault, &Some(ChainReadFault::ChainBroken(CopyId(2))));
    }
    Ok(())
}

#[test]
fn the_longest_chain_is_read(rt: HostRuntime) -> Result<(), Fail> {
    let alloc = rt.alloc();
    let mut wanted = [(0, 64), (1, 64), (2, 64), (3, 64)];
    let mut archives = Vec::new(alloc);
    archives.push(archive(alloc, (1, 0), (4, 64), &wanted)?)?;
    for id in 2..=1_024u32 {
        let lsn = 64 * u64::from(id);
        let mut taken = Vec::new(alloc);
        for page in 0..4u32 {
            if id % (page + 11) == 0 {
                taken.push((page, lsn))?;
                wanted[page as usize] = (page, lsn);
            }
        }
        archives.push(archive(alloc, (id, id - 1), (4, 64), &taken)?)?;
        drop(taken);
    }
    let mut readers = Vec::new(alloc);
    for bytes in &archives {
        readers.push(bytes.as_slice())?;
    }
    let mut given = Vec::new(alloc);
    let fault = read_all(alloc, &mut readers, (4, 65_600), &mut given)?;
    same(&rt, &given.as_slice(), &wanted.as_slice());
    same(&rt, &fault, &None);
    Ok(())
}

#[test]
fn the_first_fault_that_is_met_is_answered(rt: HostRuntime) -> Result<(), Fail> {
    let alloc = rt.alloc();
    let mut cut = archive(alloc, (1, 0), (2, 64), &[(0, 0), (1, 0)])?;
    cut.truncate(1_000);
    let next = archive(alloc, (2, 1), (2, 384), &[(1, 256)])?;
    let mut longer = archive(alloc, (2, 1), (2, 384), &[(1, 256)])?;
    longer.push(0)?;
    let wanted = Some(ChainReadFault::BadArchive(576));
    assert_fault(&rt, alloc, &cut, &next, wanted)?;
    let wanted = Some(ChainReadFault::CountDiffers);
    assert_fault(&rt, alloc, &cut, &longer, wanted)
}

#[test]
fn headers_are_looked_at_in_order(rt: HostRuntime) -> Result<(), Fail> {
    let alloc = rt.alloc();
    let full = archive(alloc, (1, 0), (2, 64), &[(0, 0), (1, 0)])?;
    let wide = archive(alloc, (2, 1), (3, 448), &[])?;
    let late = archive(alloc, (2, 1), (2, 512), &[])?;
    let next = archive(alloc, (2, 1), (2, 448), &[])?;
    let other = archive(alloc, (4, 3), (2, 448), &[])?;
    assert_fault(&rt, alloc, &full, &next, None)?;
    let wanted = Some(ChainReadFault::RedoBeyondLog);
    assert_fault(&rt, alloc, &full, &late, wanted)?;
    let wanted = Some(ChainReadFault::BadArchive(0));
    assert_fault(&rt, alloc, &full, &[], wanted)?;
    let wanted = Some(ChainReadFault::ChainBroken(CopyId(2)));
    assert_fault(&rt, alloc, &next, &full, wanted)?;
    let wanted = Some(ChainReadFault::ChainBroken(CopyId(4)));
    assert_fault(&rt, alloc, &full, &other, wanted)?;
    let wanted = Some(ChainReadFault::ChainBroken(CopyId(2)));
    assert_fault(&rt, alloc, &full, &wide, wanted)
}

#[test]
fn a_chain_without_archives_is_refused(rt: HostRuntime) -> Result<(), Fail> {
    let alloc = rt.alloc();
    let mut given = Vec::new(alloc);
    let mut readers: [&[u8]; 0] = [];
    let fault = read_all(alloc, &mut readers, (2, 512), &mut given)?;
    drop(given);
    same(&rt, &fault, &Some(ChainReadFault::ChainBroken(CopyId(0))));
    Ok(())
}

#[test]
fn pages_are_looked_at_in_order(rt: HostRuntime) -> Result<(), Fail> {
    let alloc = rt.alloc();
    let full = archive(alloc, (1, 0), (2, 64), &[(0, 0), (1, 0)])?;
    let mut past = archive(alloc, (2, 1), (2, 384), &[(1, 512)])?;
    let mut none = archive(alloc, (2, 1), (2, 384), &[])?;
    let outside = archive(alloc, (2, 1), (2, 384), &[(2, 512)])?;
    let twice = archive(alloc, (2, 1), (2, 384), &[(1, 64), (1, 64)])?;
    let beyond = Some(ChainReadFault::PageBeyondLog(PageNo(1)));
    assert_fault(&rt, alloc, &full, &past, beyond)?;
    past.push(0)?;
    let beyond = Some(ChainReadFault::PageBeyondLog(PageNo(1)));
    assert_fault(&rt, alloc, &full, &past, beyond)?;
    none.push(0)?;
    let wanted = Some(ChainReadFault::CountDiffers);
    assert_fault(&rt, alloc, &full, &none, wanted)?;
    let wanted = Some(ChainReadFault::BadArchive(64));
    assert_fault(&rt, alloc, &full, &outside, wanted)?;
    let wanted = Some(ChainReadFault::BadArchive(576));
    assert_fault(&rt, alloc, &full, &twice, wanted)
}

/// Gives these bytes, one at a call, each behind an interruption, and then fails or ends.
#[derive(Drop)]
struct Slow<'a> {
    left: &'a [u8],
    is_interrupted: bool,
    fails: bool,
}

impl Read for Slow<'_> {
    fn read(&mut self, buf: &mut [u8]) -> io::Result<usize> {
        self.is_interrupted = !self.is_interrupted;
        if self.is_interrupted {
            return Err(ErrorKind::Interrupted.into());
        }
        let Some((first, rest)) = self.left.split_first() else {
            if self.fails {
                return Err(ErrorKind::Other.into());
            }
            return Ok(0);
        };
        let Some(place) = buf.first_mut() else {
            return Ok(0);
        };
        *place = *first;
        self.left = rest;
        Ok(1)
    }
}

/// Asserts why a chain of slow readers stops, of which the second one may fail at its end.
fn assert_slow(
    rt: &impl Abort,
    alloc: Global,
    fails: bool,
    wanted: Option<ChainReadFault>,
) -> Result<(), Fail> {
    let full = archive(alloc, (1, 0), (2, 64), &[(0, 0), (1, 0)])?;
    let next = archive(alloc, (2, 1), (2, 384), &[(1, 256)])?;
    let mut readers = [
        Slow {
            left: full.as_slice(),
            is_interrupted: false,
            fails: false,
        },
        Slow {
            left: next.as_slice(),
            is_interrupted: false,
            fails,
        },
    ];
    let mut given = Vec::new(alloc);
    let fault = read_all(alloc, &mut readers, (2, 512), &mut given)?;
    let count = if fails { 0 } else { 2 };
    same(rt, &given.len(), &count);
    drop(given);
    same(rt, &fault, &wanted);
    Ok(())
}

#[test]
fn slow_readers_give_the_same(rt: HostRuntime) -> Result<(), Fail> {
    let alloc = rt.alloc();
    assert_slow(&rt, alloc, false, None)?;
    assert_slow(&rt, alloc, true, Some(ChainReadFault::ReadFault))
}
