//! The rule of redo: a page gets the changes that it lacks (ARIES, section 6.2).

ghost use Rattle.std.specs.Prelude.{◌≡◌, if◌then◌else◌, nat_lt};
ghost use Rattle.std.specs.List.{filter};
ghost use Rattle.page_core.specs.Page.{put};
ghost use Rattle.log_records.specs.Image.{image_from, with_record};
ghost use Rattle.log_store.specs.PageHistory.{is_above, records_at};

use log_records::Record;
use page_core::{Change, Lsn, Page, SlotNo};

/// Redoes on a page the change of the record at `lsn` if that is above `had`, the LSN that the page
/// had when its redo began. Say that this was 128: then the page lacks the change of the record at
/// 192, which is made, and has that of the record at 128, which is left out.
///
/// All redo of stored pages ends here, of one page or of a volume, by whole records or by what was
/// kept of them.
#[inline(always)]
pub fn redo_change(page: &mut Page, had: Lsn, lsn: Lsn, slot: SlotNo, change: &Change)
    ensures { page.new ≡ if nat_lt had lsn then put page.old lsn slot change.now else page.old }
{
    if had < lsn {
        page.apply(lsn, slot, change);
    }
}

/// Redoes a record on a page so. One that changes another page, or none, is passed over.
#[inline(always)]
pub fn redo_record(page: &mut Page, had: Lsn, next: &Record)
    ensures { page.new ≡ if is_above had next.now then with_record page.old next.now else page.old }
{
    if let Some(change) = next.change() {
        if change.page == page.number {
            redo_change(page, had, next.lsn(), change.slot, &change.change);
        }
    }
}

/// Redoes on a page the records of these numbers, counted from 0, that are above its LSN, in their
/// order. The LSN is the one at the call. A number of no record is passed over.
pub fn redo_numbered(page: &mut Page, records: &[Record], numbers: &[u32])
    ensures { page.new ≡ image_from page.old
        (filter (is_above page.old.lsn) (records_at records.now numbers.now)) }
{
    let had = page.lsn;
    for number in numbers {
        if let Some(next) = records.get(*number as usize) {
            redo_record(page, had, next);
        }
    }
}
