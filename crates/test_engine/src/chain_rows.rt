//! The pages of a chain by their number, as each archive has them.

use crate::bytes::{FULL, Head, archive, next};
use copy_vault::{ChainReadFault, ChainReader, CopyId};
use page_core::{Lsn, PageCounts};
use std::test::Fail;

#[test]
fn each_copy_gives_its_own_page(rt: HostRuntime) -> Result<(), Fail> {
    let alloc = rt.alloc();
    let full = archive(alloc, FULL, 64, 3)?;
    let kept = archive(alloc, next(2, 192), 0, 0)?;
    let taken = Head {
        taken: 1,
        ..next(3, 256)
    };
    let last = archive(alloc, taken, 256, 4)?;
    let mut readers = [full.as_slice(), kept.as_slice(), last.as_slice()];
    let counts = PageCounts::new(alloc, 1);
    let Ok(mut chain) = ChainReader::new(alloc, &mut readers, &counts, Lsn(512)) else {
        return Err(Fail::new("the chain is refused"));
    };
    assert_eq!(rt; chain.id_at(2), CopyId(3));
    assert_eq!(rt; chain.redo_at(1), Lsn(192));
    let mut row = [None, None, None];
    assert_eq!(rt; chain.next_each(&mut readers, &mut row), Ok(true));
    let [first, second, third] = row;
    assert_eq!(rt;
        first.map(|page| (page.lsn, page.slots[0])),
        Some((Lsn(64), 3))
    );
    assert_eq!(rt; second.is_none(), true);
    assert_eq!(rt;
        third.map(|page| (page.lsn, page.slots[0])),
        Some((Lsn(256), 4))
    );
    let mut row = [None, None, None];
    assert_eq!(rt; chain.next_each(&mut readers, &mut row), Ok(false));
    Ok(())
}

#[test]
fn a_refusal_of_rows_is_answered_again(rt: HostRuntime) -> Result<(), Fail> {
    let alloc = rt.alloc();
    let mut cut = archive(alloc, FULL, 64, 3)?;
    cut.truncate(100);
    let mut readers = [cut.as_slice()];
    let counts = PageCounts::new(alloc, 1);
    let Ok(mut chain) = ChainReader::new(alloc, &mut readers, &counts, Lsn(512)) else {
        return Err(Fail::new("the chain is refused"));
    };
    let mut row = [None];
    let wanted = Err(ChainReadFault::BadArchive(64));
    assert_eq!(rt; chain.next_each(&mut readers, &mut row), wanted);
    assert_eq!(rt; chain.next_each(&mut readers, &mut row), wanted);
    Ok(())
}
