//! What no clause says: that these calls succeed, and which pages known records make.

use crate::asserts::same_at;
use log_records::{MAX_RECORDS, Record};
use page_core::{Change, Lsn, Page, PageNo, SlotNo, TxnNo, formatted_pages};
use page_redo::{by_page, redo_by_page, redo_page};
use std::alloc::{AllocError, Global};

/// Transaction 1 sets slot 3 of page 0 to 7, adds 5 to it, and commits.
fn four_records() -> [Record; 4] {
    let txn = TxnNo(1);
    let page = PageNo(0);
    let slot = SlotNo(3);
    [
        Record::Begin { lsn: Lsn(64), txn },
        Record::Update {
            lsn: Lsn(128),
            txn,
            prev: Lsn(64),
            page,
            slot,
            change: Change::Set {
                before: 0,
                after: 7,
            },
        },
        Record::Update {
            lsn: Lsn(192),
            txn,
            prev: Lsn(128),
            page,
            slot,
            change: Change::Add { amount: 5 },
        },
        Record::Commit {
            lsn: Lsn(256),
            txn,
            prev: Lsn(192),
        },
    ]
}

/// A page whose slot 3 has this number, and each other slot 0.
fn page_with(number: PageNo, lsn: Lsn, in_slot_3: u64) -> Page {
    let mut slots = [0; 62];
    slots[3] = in_slot_3;
    Page { number, lsn, slots }
}

/// Pages that were stored at some moment of these records, and one of another number.
#[test]
fn a_page_gets_what_it_lacks(rt: HostRuntime) {
    for (number, lsn, in_slot_3, lsn_after, after) in [
        (0, 0, 0, 192, 12),
        (0, 128, 7, 192, 12),
        (0, 192, 12, 192, 12),
        (0, 256, 12, 256, 12),
        (1, 0, 0, 0, 0),
        (1, 128, 7, 128, 7),
    ] {
        let number = PageNo(number);
        let mut page = page_with(number, Lsn(lsn), in_slot_3);
        redo_page(&mut page, &four_records());
        let wanted = page_with(number, Lsn(lsn_after), after);
        assert!(rt; page == wanted, "a page with LSN {lsn}");
        redo_page(&mut page, &four_records());
        assert!(rt; page == wanted, "a page with LSN {lsn}, once more");
    }
}

/// The numbers of the records that change page 0, from the redo point on. Page 1 has none.
#[test]
fn records_are_listed_by_page(rt: HostRuntime) -> Result<(), AllocError> {
    let all: [u32; 2] = [1, 2];
    for (from, skipped) in [
        (0, 0),
        (64, 0),
        (128, 0),
        (129, 1),
        (192, 1),
        (193, 2),
        (256, 2),
    ] {
        let lists = by_page(rt.alloc(), &four_records(), Lsn(from), 2)?;
        assert!(rt; lists.pages() == 2);
        same_at(&rt, &lists.of(PageNo(0)), &&all[skipped..], &from);
        assert!(rt; lists.of(PageNo(1)).is_empty());
    }
    Ok(())
}

/// Transaction 1 adds its number and 1 to a slot of each page.
fn one_add_a_page(alloc: Global, pages: u32) -> Result<Vec<Record>, AllocError> {
    let mut records = Vec::with_capacity(alloc, pages as usize)?;
    for number in 0..pages {
        let before = u64::from(number) * 64 + 64;
        records.push(Record::Update {
            lsn: Lsn(before + 64),
            txn: TxnNo(1),
            prev: Lsn(before),
            page: PageNo(number),
            slot: SlotNo(3),
            change: Change::Add {
                amount: u64::from(number) + 1,
            },
        })?;
    }
    Ok(records)
}

/// All pages of the largest volume, each with one Add, by as many threads as there are processors.
#[test]
fn each_page_of_a_large_volume_is_redone(rt: HostRuntime) -> Result<(), AllocError> {
    let alloc = rt.alloc();
    let records = one_add_a_page(alloc, 65_536)?;
    assert!(rt; records.len() == 65_536 && records.len() <= MAX_RECORDS);
    let lists = by_page(alloc, &records, Lsn(64), 65_536)?;
    assert!(rt; lists.pages() == 65_536);
    let mut pages = formatted_pages(alloc, 65_536)?;
    assert!(rt; pages.len() == 65_536);
    redo_by_page(&rt, &mut pages, &records, &lists);
    for page in &pages {
        let number = u64::from(page.number.0);
        assert!(rt; page.lsn.0 == number * 64 + 128, "page {number}");
        assert!(rt; page.slots[3] == number + 1, "page {number}");
    }
    Ok(())
}
