//! Expected pages and records.

use crate::asserts::same;
use log_records::Record;
use page_core::{Change, Lsn, Page, PageNo, SlotNo, TxnNo};
use std::process::Abort;

/// A page: its number, its LSN, and the numbers in its first three slots. Each other slot has 0.
pub(super) type Shown = (u32, u64, [u64; 3]);

/// Asserts that pages are the expected ones.
pub(super) fn assert_pages(rt: &impl Abort, pages: &[Page], expected: &[Shown]) {
    same(rt, &pages.len(), &expected.len());
    for (page, (number, lsn, [first, second, third])) in pages.iter().zip(expected) {
        let mut wanted = Page::formatted(PageNo(*number));
        wanted.lsn = Lsn(*lsn);
        wanted.slots[0] = *first;
        wanted.slots[1] = *second;
        wanted.slots[2] = *third;
        same(rt, page, &wanted);
    }
}

/// A record that undo appends: its transaction, its LSN, and that of the transaction's record
/// before it. Of a compensation, which is of a change of page 0, also the LSN of what is to be
/// undone next.
#[derive(Clone, Copy)]
pub(super) enum Appended {
    /// An amount is taken away from a slot.
    Less(u32, u64, u64, u64, (u16, u64)),
    /// A slot is set back to a number.
    BackTo(u32, u64, u64, u64, (u16, u64)),
    End(u32, u64, u64),
}

fn comp(txn: u32, lsn: u64, prev: u64, undo_next: u64, slot: u16, change: Change) -> Record {
    Record::Comp {
        lsn: Lsn(lsn),
        txn: TxnNo(txn),
        prev: Lsn(prev),
        undo_next: Lsn(undo_next),
        page: PageNo(0),
        slot: SlotNo(slot),
        change,
    }
}

fn record_of(appended: Appended) -> Record {
    match appended {
        Appended::Less(txn, lsn, prev, undo_next, (slot, amount)) => {
            let amount = amount.wrapping_neg();
            comp(txn, lsn, prev, undo_next, slot, Change::Add { amount })
        }
        Appended::BackTo(txn, lsn, prev, undo_next, (slot, after)) => {
            let change = Change::Set { before: 0, after };
            comp(txn, lsn, prev, undo_next, slot, change)
        }
        Appended::End(txn, lsn, prev) => Record::End {
            lsn: Lsn(lsn),
            txn: TxnNo(txn),
            prev: Lsn(prev),
        },
    }
}

/// Asserts that these are the records that undo appended.
pub(super) fn assert_appended(rt: &impl Abort, records: &[Record], expected: &[Appended]) {
    same(rt, &records.len(), &expected.len());
    for (record, appended) in records.iter().zip(expected) {
        same(rt, record, &record_of(*appended));
    }
}
