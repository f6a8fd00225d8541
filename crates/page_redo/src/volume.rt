//! Redoes a log on all pages of a volume, in the calling thread alone (ARIES, section 6.2).

ghost use Rattle.std.specs.Prelude.{◌≡◌, length, map};
ghost use Rattle.log_records.specs.Coverage.{resume};
ghost use Rattle.log_records.specs.Image.{AreNumbered};
ghost use Rattle.log_records.specs.Log.{AreWithin, IsWithin, page_count};
ghost use Rattle.page_redo.specs.Redo.{redone_all, redone_by};

use log_records::Record;
use log_store::{LogImage, redo_record};
use page_core::{Lsn, Page};

/// Redoes the records of a log from a redo point on, over the pages of its volume: on each page the
/// records at or above that point that are above the page's LSN, in their order. This takes no
/// memory, and one pass over the records from the redo point on.
pub fn redo_pages_alone(pages: &mut [Page], log: &LogImage, from: Lsn)
    requires count { length pages.old ≡ page_count log.now }
    requires numbered { AreNumbered pages.old }
    ensures { pages.new ≡ map (λ page. resume page log.now.records from) pages.old }
{
    let records = log.records();
    let first = from.records_below();
    if first < records.len() {
        redo_records(pages, &records[first..]);
    }
}

/// Redoes records one after another, each on the page that it changes.
fn redo_records(pages: &mut [Page], records: &[Record])
    requires within { AreWithin (length pages.old) records.now }
    requires numbered { AreNumbered pages.old }
    ensures { pages.new ≡ map (λ page. redone_all page records.now) pages.old }
{
    for record in records {
        redo_if_above(pages, record);
    }
}

/// Redoes a record on the page that it changes, if it changes one, and is above the page's LSN.
fn redo_if_above(pages: &mut [Page], next: &Record)
    requires within { IsWithin (length pages.old) next.now }
    requires numbered { AreNumbered pages.old }
    ensures { pages.new ≡ map (λ page. redone_by page next.now) pages.old }
{
    if let Some(change) = next.change() {
        let page = &mut pages[change.page.0 as usize];
        redo_record(page, page.lsn, next);
    }
}
