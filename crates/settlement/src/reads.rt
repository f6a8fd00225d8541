//! The numbers that sessions read.

ghost use Rattle.std.specs.Prelude.{ℕ, ◌≡◌, ◌-◌, ◌<◌, ◌≤◌, ◌/◌, ◌^◌, min, length, take};
ghost use Rattle.page_core.specs.declared.numbers.TheConstants.{LSN_STEP};
ghost use Rattle.std.specs.Prelude.{slice_index_or};
ghost use Rattle.std.specs.Prelude.{List, IfErr, IfOk, OnOk};
ghost use Rattle.std.specs.List.{All};
ghost use Rattle.page_core.specs.Volume.{AreNumbered, formatted_pages};
ghost use Rattle.log_records.specs.Image.{redo_all};
ghost use Rattle.log_records.specs.Log.{AreWithin};
ghost use Rattle.log_rules.specs.Linked.{number_in};
ghost use Rattle.settlement.specs.Receipt.{AreInOrder, HoldsAsRead, WasRead, below, position};
ghost use Rattle.settlement.specs.Volume.{AreOfVolume};
ghost use Rattle.settlement.specs.declared.receipt.Receipt.{Receipt};

use crate::receipt::{ReadReceipt, Receipt};
use log_records::{Record, redo_on_its_page};
use page_core::{LSN_STEP, Lsn, Page, PageNo, SLOTS, SlotNo};

/// Checks that each read of a session answered what the records below its end make of the slot. It
/// redoes the log once, on `pages`, which may have any content before and have no meaning after.
/// An `Err` has the position of a read that does not hold.
pub fn check_reads(pages: &mut [Page], records: &[Record], receipts: &[Receipt]) -> Result<(), Lsn>
    requires log { AreOfVolume (length pages.old) records.now }
    requires order { AreInOrder receipts.now }
    ensures ok { OnOk result (All (HoldsAsRead records.now) receipts.now) }
    ensures err { IfErr result (λ at. (i : ℕ) × (i < length receipts.now)
        × ((d : Receipt) → (position (slice_index_or receipts.now i d) ≡ at)
        × (¬ HoldsAsRead records.now (slice_index_or receipts.now i d)))) }
    ensures same_length { length pages.new ≡ length pages.old }
{
    format(pages);
    let mut redone = 0;
    for receipt in receipts {
        redone = check_read(pages, records, redone, receipt)?;
    }
    Ok(())
}

/// Checks a receipt, if it is of a read. The pages are redone as far as the first so many records,
/// and then as far as the answer says.
fn check_read(
    pages: &mut [Page],
    records: &[Record],
    redone: usize,
    receipt: &Receipt,
) -> Result<usize, Lsn>
    requires log { AreOfVolume (length pages.old) records.now }
    requires so_far { pages.old ≡ redo_all (take redone records.now) (length pages.old) }
    requires behind { redone ≤ min ((position receipt.now - 1) / LSN_STEP) (length records.now) }
    ensures ok { OnOk result (HoldsAsRead records.now receipt.now) }
    ensures redone { IfOk result (λ count.
        pages.new ≡ redo_all (take count records.now) (length pages.old)) }
    ensures count { IfOk result (λ count.
        count ≤ min ((position receipt.now - 1) / LSN_STEP) (length records.now)) }
    ensures err { IfErr result (λ at. (position receipt.now ≡ at)
        × (¬ HoldsAsRead records.now receipt.now)) }
    ensures same_length { length pages.new ≡ length pages.old }
{
    let Receipt::Read(read) = *receipt else {
        return Ok(redone);
    };
    let ReadReceipt {
        end,
        page,
        slot,
        number,
    } = read;
    let count = redo_below(pages, records, redone, end);
    if end.0 > LSN_STEP * (records.len() as u64 + 1) {
        return Err(end);
    }
    if number_on(pages, page, slot) != number {
        return Err(end);
    }
    Ok(count)
}

/// Formats the pages.
fn format(pages: &mut [Page])
    requires { length pages.old < 2 ^ 32 }
    ensures { pages.new ≡ formatted_pages (length pages.old) }
{
    for i in 0..pages.len() {
        pages[i] = Page::formatted(PageNo(i as u32));
    }
}

/// Redoes the records below an LSN that are not redone yet, and answers how many are redone then.
fn redo_below(pages: &mut [Page], records: &[Record], redone: usize, end: Lsn) -> usize
    requires log { AreOfVolume (length pages.old) records.now }
    requires so_far { pages.old ≡ redo_all (take redone records.now) (length pages.old) }
    requires behind { redone ≤ min ((end - 1) / LSN_STEP) (length records.now) }
    ensures count { result ≡ min ((end - 1) / LSN_STEP) (length records.now) }
    ensures redone { pages.new ≡ redo_all (take result records.now) (length pages.old) }
{
    let count = end.records_below().min(records.len());
    for i in redone..count {
        redo_on_its_page(pages, &records[i]);
    }
    count
}

/// The number in a slot of a volume, and 0 where it has no such slot.
fn number_on(pages: &[Page], page: PageNo, slot: SlotNo) -> u64
    ensures { (rs : List Record) → AreWithin (length pages.now) rs
        → pages.now ≡ redo_all rs (length pages.now) → result ≡ number_in rs page slot }
{
    match pages.get(page.0 as usize) {
        Some(page) if (slot.0 as usize) < SLOTS => page.slots[slot.0 as usize],
        _ => 0,
    }
}
