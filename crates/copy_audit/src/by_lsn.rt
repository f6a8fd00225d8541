//! One page, as each member of a chain has it, where a member's page is older than one before it:
//! the pages are looked at in the order of their LSNs, so that each change is redone once.

ghost use Rattle.std.specs.Prelude.{◌≡◌, ◌≤◌, ◌<◌, IfOk, IfSome, List, length, map};
ghost use Rattle.copy_vault.specs.ChainEach.{place_list};
ghost use Rattle.log_records.specs.declared.record.Record.{Record};
ghost use Rattle.copy_audit.specs.ByLsn.{AreSeen, HavePages};
ghost use Rattle.copy_audit.specs.Changes.{AreChangesOf};
ghost use Rattle.copy_audit.specs.Rows.{IsFirstOf};

use crate::reach::Reach;
use crate::trace::Trace;
use page_core::{Lsn, Page, PageNo};
use page_redo::PlacedChange;
use std::alloc::{AllocError, Global};

/// A page that is to be looked at.
#[derive(Clone, Copy)]
pub(crate) struct Due {
    pub(crate) lsn: Lsn,
    /// The place of its member in the row.
    pub(crate) member: usize,
}

/// The first of so many members of a chain up to which the chain's page of this number is not an
/// image of the log's past, or lacks a change below that member's redo point.
pub(crate) fn first_by_lsn(
    alloc: Global,
    points: &[Lsn],
    changes: &[PlacedChange],
    number: PageNo,
    count: usize,
    row: &[Option<Page>],
    most: usize,
) -> Result<Option<usize>, AllocError>
    requires row { most ≤ length row.now }
    requires points { most ≤ length points.now }
    ensures within { IfOk result (λ first. IfSome first (λ member. member < most)) }
    ensures first { IfOk result (λ first. (rs : List Record)
        → AreChangesOf rs number count changes.now
        → IsFirstOf rs number (map place_list row.now) points.now most first) }
{
    let seen = reaches(alloc, changes, number, count, row)?;
    let mut reach = Trace::new(number).reach(changes, true);
    for member in 0..most {
        if let Some(next) = seen[member] {
            reach = next;
        }
        if !reach.covers(points[member]) {
            return Ok(Some(member));
        }
    }
    Ok(None)
}

/// How far the page of each member of a row reaches, if it has one.
fn reaches(
    alloc: Global,
    changes: &[PlacedChange],
    number: PageNo,
    count: usize,
    row: &[Option<Page>],
) -> Result<Vec<Option<Reach>>, AllocError>
    ensures len { IfOk result (λ seen. length seen.items ≡ length row.now) }
    ensures each { IfOk result (λ seen. (rs : List Record)
        → AreChangesOf rs number count changes.now
        → AreSeen rs number row.now seen.items) }
{
    let due = due_pages(alloc, row)?;
    let mut seen = vec![in alloc; None; row.len()]?;
    let mut trace = Trace::new(number);
    for i in 0..due.len() {
        let member = due[i].member;
        if let Some(page) = &row[member] {
            seen[member] = Some(trace.look(changes, number, count, page));
        }
    }
    Ok(seen)
}

/// The pages of a row, in the order of their LSNs.
fn due_pages(alloc: Global, row: &[Option<Page>]) -> Result<Vec<Due>, AllocError>
    ensures { IfOk result (λ due. HavePages row.now (length row.now)
        (map (λ it. it.member) due.items)) }
{
    let mut due = pages_of(alloc, row)?;
    due.sort_unstable_by_key(|page| page.lsn.0);
    Ok(due)
}

/// The pages of a row, in the order of their members.
fn pages_of(alloc: Global, row: &[Option<Page>]) -> Result<Vec<Due>, AllocError>
    ensures { IfOk result (λ due. HavePages row.now (length row.now)
        (map (λ it. it.member) due.items)) }
{
    let mut due = Vec::new(alloc);
    for member in 0..row.len() {
        if let Some(page) = &row[member] {
            let lsn = page.lsn;
            due.push(Due { lsn, member })?;
        }
    }
    Ok(due)
}
