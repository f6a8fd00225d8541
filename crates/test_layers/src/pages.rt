use crate::asserts::{same, same_at};
use page_core::field::{u16_at, u32_at, u64_at};
use page_core::{BadPage, Change, Lsn, PAGE_BYTES, Page, PageNo, SLOTS, SlotNo, undo_of};
use std::process::Abort;
use std::test::Fail;

/// The bytes of page 0 with LSN 192, and 12 in slot 3.
fn example_bytes() -> [u8; PAGE_BYTES] {
    let mut bytes = [0; PAGE_BYTES];
    bytes[4] = 1;
    bytes[8] = 0xc0;
    bytes[40] = 0x0c;
    bytes
}

#[test]
fn a_page_has_its_bytes(rt: HostRuntime) {
    let mut slots = [0; SLOTS];
    slots[3] = 12;
    let page = Page {
        number: PageNo(0),
        lsn: Lsn(192),
        slots,
    };
    same(&rt, &page.to_bytes(), &example_bytes());
    same(&rt, &Page::from_bytes(&example_bytes()), &Ok(page));
}

/// The bytes of a formatted page whose number has these two lowest bytes.
fn formatted_bytes(low: u8, high: u8) -> [u8; PAGE_BYTES] {
    let mut bytes = [0; PAGE_BYTES];
    bytes[0] = low;
    bytes[1] = high;
    bytes[4] = 1;
    bytes
}

fn assert_formatted(rt: &impl Abort, number: u32, bytes: &[u8; PAGE_BYTES]) {
    let page = Page::formatted(PageNo(number));
    same(rt, &page.number, &PageNo(number));
    same(rt, &page.lsn, &Lsn(0));
    same(rt, &page.slots, &[0; SLOTS]);
    same(rt, &page.to_bytes(), bytes);
    same(rt, &Page::from_bytes(bytes), &Ok(page));
}

#[test]
fn a_formatted_page_is_empty(rt: HostRuntime) {
    assert_formatted(&rt, 0, &formatted_bytes(0, 0));
    assert_formatted(&rt, 258, &formatted_bytes(2, 1));
    assert_formatted(&rt, 65_535, &formatted_bytes(255, 255));
}

#[test]
fn changes_follow_one_another(rt: HostRuntime) {
    let mut page = Page::formatted(PageNo(0));
    for (lsn, change, number) in [
        (
            64,
            Change::Set {
                before: 0,
                after: 7,
            },
            7,
        ),
        (128, Change::Add { amount: 5 }, 12),
        (
            192,
            Change::Set {
                before: 12,
                after: 1,
            },
            1,
        ),
        (
            256,
            Change::Add {
                amount: 18_446_744_073_709_551_615,
            },
            0,
        ),
    ] {
        same_at(
            &rt,
            &change.changed(page.slots[3]),
            &number,
            &format_args!("{change:?}"),
        );
        page.apply(Lsn(lsn), SlotNo(3), &change);
        same_at(
            &rt,
            &page.slots[3],
            &number,
            &format_args!("after {change:?}"),
        );
        same(&rt, &page.lsn, &Lsn(lsn));
    }
}

#[test]
fn an_undo_has_its_change(rt: HostRuntime) {
    for (change, undo) in [
        (
            Change::Set {
                before: 3,
                after: 9,
            },
            Change::Set {
                before: 0,
                after: 3,
            },
        ),
        (
            Change::Add { amount: 5 },
            Change::Add {
                amount: 18_446_744_073_709_551_611,
            },
        ),
        (Change::Add { amount: 0 }, Change::Add { amount: 0 }),
    ] {
        same_at(
            &rt,
            &undo_of(&change),
            &undo,
            &format_args!("of {change:?}"),
        );
    }
}

fn assert_no_page(rt: &impl Abort, bytes: &[u8]) {
    same(rt, &Page::from_bytes(bytes), &Err(BadPage));
}

/// Format 2, LSN 65 and page 65,536.
#[test]
fn other_bytes_are_no_page(rt: HostRuntime) {
    for (index, byte) in [(4, 2), (8, 65), (2, 1)] {
        let mut bytes = example_bytes();
        bytes[index] = byte;
        assert_no_page(&rt, &bytes);
    }
}

#[test]
fn a_page_has_512_bytes(rt: HostRuntime) {
    let mut longer = [0; 513];
    longer[4] = 1;
    assert!(rt; Page::from_bytes(&longer[..512]).is_ok());
    assert_no_page(&rt, &longer[..511]);
    assert_no_page(&rt, &longer);
}

#[test]
fn a_bad_page_has_a_text(rt: HostRuntime) -> Result<(), Fail> {
    let printed = format!(in rt.alloc(); "{BadPage}")?;
    same(&rt, &printed.as_str(), &"the bytes are no page");
    Ok(())
}

#[test]
fn a_field_has_the_lowest_byte_first(rt: HostRuntime) {
    let bytes = [9, 1, 2, 3, 4, 5, 6, 7, 8];
    same(&rt, &u16_at(&bytes, 1), &0x0201);
    same(&rt, &u32_at(&bytes, 1), &0x0403_0201);
    same(&rt, &u64_at(&bytes, 1), &0x0807_0605_0403_0201);
}
