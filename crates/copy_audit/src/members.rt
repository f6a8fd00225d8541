//! One page, as each member of a chain has it.

ghost use Rattle.std.specs.Prelude.{◌≤◌, ◌<◌, List, length, map, IfOk, IfSome};
ghost use Rattle.copy_vault.specs.ChainEach.{place_list};
ghost use Rattle.log_records.specs.declared.record.Record.{Record};
ghost use Rattle.copy_audit.specs.Changes.{AreChangesOf};
ghost use Rattle.copy_audit.specs.Rows.{IsFirstOf};

use crate::by_lsn::first_by_lsn;
use crate::trace::Trace;
use page_core::{Lsn, Page, PageNo};
use page_redo::PlacedChange;
use std::alloc::{AllocError, Global};

/// The first of so many members of a chain up to which the chain's page of this number is not an
/// image of the log's past, or lacks a change below that member's redo point. The page has these
/// changes, in a log of so many records.
pub(crate) fn first_unsound(
    alloc: Global,
    points: &[Lsn],
    changes: &[PlacedChange],
    number: PageNo,
    count: usize,
    row: &[Option<Page>],
    most: usize,
) -> Result<Option<usize>, AllocError>
    requires row { most ≤ length row.now }
    requires points { most ≤ length points.now }
    ensures within { IfOk result (λ first. IfSome first (λ member. member < most)) }
    ensures first { IfOk result (λ first. (rs : List Record)
        → AreChangesOf rs number count changes.now
        → IsFirstOf rs number (map place_list row.now) points.now most first) }
{
    let mut trace = Trace::new(number);
    let mut reach = trace.reach(changes, true);
    for member in 0..most {
        if let Some(page) = &row[member] {
            if trace.has_passed(page) {
                return first_by_lsn(alloc, points, changes, number, count, row, most);
            }
            reach = trace.look(changes, number, count, page);
        }
        if !reach.covers(points[member]) {
            return Ok(Some(member));
        }
    }
    Ok(None)
}
