//! Redoes a log on all pages of a volume, in several threads.

ghost use Rattle.std.specs.Prelude.{ℕ, ◌≡◌, ◌<◌, ◌≤◌, [], length, map, slice_index_or};
ghost use Rattle.std.specs.List.{range_with_len};
ghost use Rattle.log_records.specs.Coverage.{resume};
ghost use Rattle.log_records.specs.Image.{AreNumbered};
ghost use Rattle.log_records.specs.Log.{page_count};
ghost use Rattle.page_redo.specs.PageRecords.{numbers_on};
ghost use Rattle.log_store.specs.PageHistory.{records_at};
ghost use Rattle.page_redo.specs.Redo.{redone};

use crate::page_records::{PageRecords, by_page};
use crate::volume::redo_pages_alone;
use log_records::Record;
use log_store::{LogImage, redo_numbered};
use page_core::{Lsn, Page};
use rayon::prelude::*;
use std::alloc::Global;
use std::thread::Threads;

/// So many records are worth the threads: to start these takes as long as some thousand records.
pub const MANY_RECORDS: usize = 16_384;

/// Redoes the records of a log from a redo point on, over the pages of its volume: on each page the
/// records at or above that point that are above the page's LSN, in their order (ARIES, section
/// 6.2). Where there are many, it lists them by page, and hands each page with its list to as many
/// threads as there are processors; a few are redone by the calling thread.
///
/// It never refuses: where memory for the lists is refused, the calling thread goes over the log by
/// itself, and a thread that cannot be started leaves its pages to the others.
pub fn redo_pages(
    rt: &(impl Threads + Sync),
    alloc: Global,
    pages: &mut [Page],
    log: &LogImage,
    from: Lsn,
)
    requires count { length pages.old ≡ page_count log.now }
    requires numbered { AreNumbered pages.old }
    ensures { pages.new ≡ map (λ page. resume page log.now.records from) pages.old }
{
    let records = log.records();
    let first = from.records_below();
    if first < records.len() && records.len() - first >= MANY_RECORDS {
        let behind = &records[first..];
        if let Ok(lists) = by_page(alloc, behind, from, pages.len() as u32) {
            redo_by_page(rt, pages, behind, &lists);
            return;
        }
    }
    redo_pages_alone(pages, log, from);
}

/// Hands each page with the numbers of its records to a thread, which redoes them.
pub fn redo_by_page(
    rt: &(impl Threads + Sync),
    pages: &mut [Page],
    records: &[Record],
    lists: &PageRecords,
)
    requires numbered { AreNumbered pages.old }
    requires many { length pages.old ≤ length lists.now }
    ensures { (from : ℕ)
        → lists.now ≡ map (numbers_on records.now from) (range_with_len 0 (length lists.now))
        → pages.new ≡ map (λ page. resume page records.now from) pages.old }
{
    par_for_each_mut(
        rt,
        pages,
        |_: usize, page: &mut Page|
            requires { page.old.number < length lists.now }
            ensures { page.new ≡ redone page.old (records_at records.entry.now
                (slice_index_or lists.entry.now page.old.number [])) }
        {
            redo_numbered(page, records, lists.of(page.number));
        },
    );
}
