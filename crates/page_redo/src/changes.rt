//! Redoes changes on all pages of a volume, in several threads.

ghost use Rattle.std.specs.Prelude.{◌≡◌, ◌<◌, length, map};
ghost use Rattle.std.specs.List.Sorted.{IsNonDecreasingBy};
ghost use Rattle.page_core.specs.declared.page.Page.{Page};
ghost use Rattle.log_records.specs.Coverage.{resume};
ghost use Rattle.log_records.specs.Image.{AreNumbered};
ghost use Rattle.log_records.specs.Log.{IsLog, Log};
ghost use Rattle.page_redo.specs.Placed.{AreNumberedFrom, placed_in, redone_by};
ghost use Rattle.page_redo.specs.Placed.{redone_each};

use crate::placed_change::PlacedChange;
use page_core::{Lsn, Page};
use rayon::prelude::*;
use std::thread::Threads;

/// So many changes are worth the threads: to start these takes as long as some thousand changes.
pub const MANY_CHANGES: usize = 16_384;

/// The pages are split into at most so many pieces. Few large ones: each of them costs a pass over
/// all changes.
const PIECES: usize = 4;

/// Redoes the changes of a log from a redo point on, over the pages of its volume: on each page the
/// changes at or above that point that are above the page's LSN, in their order. Where there are
/// many, the pages are split into pieces, which rayon shares among threads, and each piece goes over
/// these changes; a few changes are redone by the calling thread. It allocates nothing, and it never
/// refuses: a piece for which no thread can be started is redone by another thread.
pub fn redo_changes(
    rt: &(impl Threads + Sync),
    pages: &mut [Page],
    changes: &[PlacedChange],
    from: Lsn,
)
    requires numbered { AreNumbered pages.old }
    ensures { (log : Log) → IsLog log → changes.now ≡ placed_in log.records
        → pages.new ≡ map (λ page. resume page log.records from) pages.old }
{
    let left = changes_from(changes, from);
    if left.len() < MANY_CHANGES || pages.is_empty() {
        redo_piece(pages, 0, left, from);
        return;
    }
    let size = pages.len().div_ceil(PIECES);
    par_chunks_mut_for_each(
        rt,
        pages,
        size,
        |first: usize, piece: &mut [Page]|
            requires { AreNumberedFrom first piece.old }
            ensures { piece.new ≡ map (redone_each left.entry.now from) piece.old }
        { redo_piece(piece, first, left, from) },
    );
}

/// The changes from a redo point on, where the LSNs of all rise. Those before it are not redone, so
/// no thread needs to go over them.
fn changes_from(changes: &[PlacedChange], from: Lsn) -> &[PlacedChange]
    ensures { IsNonDecreasingBy (λ c. c.lsn) changes.now → (page : Page)
        → redone_each result.now from page ≡ redone_each changes.now from page }
{
    let first = changes.partition_point(|change| change.lsn() < from);
    &changes[first..]
}

/// Redoes changes, in their order, on the pages of a piece, of which the first has this number.
fn redo_piece(pages: &mut [Page], first: usize, changes: &[PlacedChange], from: Lsn)
    requires numbered { AreNumberedFrom first pages.old }
    ensures { pages.new ≡ map (redone_each changes.now from) pages.old }
{
    for change in changes {
        redo_in_piece(pages, first, change, from);
    }
}

/// Redoes a change on its page, if the piece has that, and the change is at or above the redo point
/// and above the LSN that the page has by now. That is as good as the LSN before redo, since the
/// LSNs of a log's changes rise.
fn redo_in_piece(pages: &mut [Page], first: usize, change: &PlacedChange, from: Lsn)
    requires numbered { AreNumberedFrom first pages.old }
    ensures { pages.new ≡ map (λ page. redone_by from page change.now) pages.old }
{
    let number = change.page().0 as usize;
    if first <= number && number - first < pages.len() {
        let page = &mut pages[number - first];
        if from.0 <= change.lsn().0 {
            change.redo_above(page.lsn, page);
        }
    }
}
