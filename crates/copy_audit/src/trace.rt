//! A page of a log, made of its changes one after another.

ghost use Rattle.std.specs.Prelude.{ℕ, ◌≡◌, ◌+◌, ◌^◌, ◌≤◌, ◌<◌, ◌/◌, List, length, nat_le};
ghost use Rattle.std.specs.Prelude.{slice_index_or};
ghost use Rattle.page_core.specs.declared.page.Page.{Page};
ghost use Rattle.page_core.specs.declared.numbers.TheConstants.{LSN_STEP};
ghost use Rattle.log_records.specs.declared.record.Record.{Record};
ghost use Rattle.page_redo.specs.Placed.{Placed};
ghost use Rattle.copy_audit.specs.Changes.{AreChangesOf};
ghost use Rattle.copy_audit.specs.Trace.{IsReach, IsSeen, IsTraced};

use crate::reach::Reach;
use page_core::{LSN_STEP, Lsn, Page, PageNo};
use page_redo::PlacedChange;

/// How far the changes of one page were redone, from its formatting on.
#[derive(Drop)]
pub(crate) struct Trace {
    /// The page with the first ones of its changes.
    pub(crate) page: Page,
    /// How many changes that is.
    pub(crate) done: usize,
    /// They are those of so many records, the log's first ones.
    pub(crate) reached: usize,
}

impl Trace {
    /// The formatted page.
    pub(crate) fn new(number: PageNo) -> Trace
        ensures traced { (rs : List Record) → IsTraced rs number result }
        ensures reached { result.reached ≡ 0 }
    {
        Trace {
            page: Page::formatted(number),
            done: 0,
            reached: 0,
        }
    }

    /// Goes to the page that so many records make, the log's first ones. Where it had gone past
    /// them, it begins again with the formatted page.
    fn go_to(&mut self, changes: &[PlacedChange], number: PageNo, count: usize)
        ensures traced { (rs : List Record) (all : ℕ) → AreChangesOf rs number all changes.now
            → IsTraced rs number self.old → IsTraced rs number self.new }
        ensures reached { self.new.reached ≡ count }
    {
        if count < self.reached {
            *self = Trace::new(number);
        }
        self.redo_up_to(changes, count);
    }

    /// Redoes the changes that are among so many records, the log's first ones.
    fn redo_up_to(&mut self, changes: &[PlacedChange], count: usize)
        requires onwards { self.old.reached ≤ count }
        ensures traced { (rs : List Record) (number all : ℕ)
            → AreChangesOf rs number all changes.now → IsTraced rs number self.old
            → IsTraced rs number self.new }
        ensures reached { self.new.reached ≡ count }
    {
        while self.done < changes.len() && is_among(&changes[self.done], count) {
            changes[self.done].apply_to(&mut self.page);
            self.done += 1;
        }
        self.reached = count;
    }

    /// Goes to the page as the log made it when it got a page's LSN, and answers whether it is that
    /// page. The log has so many records.
    pub(crate) fn is_past(
        &mut self,
        changes: &[PlacedChange],
        number: PageNo,
        count: usize,
        page: &Page,
    ) -> bool
        ensures seen { (rs : List Record) → AreChangesOf rs number count changes.now
            → IsTraced rs number self.old → IsSeen rs number page.now self.new result }
    {
        let named = (page.lsn.0 / LSN_STEP) as usize;
        self.go_to(changes, number, named.min(count));
        self.page == *page
    }

    /// Whether a page has an LSN below the one up to which the changes were redone.
    pub(crate) fn has_passed(&self, page: &Page) -> bool {
        ((page.lsn.0 / LSN_STEP) as usize) < self.reached
    }

    /// Goes to the page as the log made it when it got a page's LSN, and answers how far that page
    /// reaches.
    pub(crate) fn look(
        &mut self,
        changes: &[PlacedChange],
        number: PageNo,
        count: usize,
        page: &Page,
    ) -> Reach
        ensures traced { (rs : List Record) → AreChangesOf rs number count changes.now
            → IsTraced rs number self.old → IsTraced rs number self.new }
        ensures reach { (rs : List Record) → AreChangesOf rs number count changes.now
            → IsTraced rs number self.old → IsReach rs number page.now result }
    {
        let is_past = self.is_past(changes, number, count, page);
        self.reach(changes, is_past)
    }

    /// How far a page reaches that was looked at last, which is of the log's past or is not.
    pub(crate) fn reach(&self, changes: &[PlacedChange], is_past: bool) -> Reach
        ensures { (rs : List Record) (number count : ℕ) (page : Page)
            → IsSeen rs number page self.now is_past → AreChangesOf rs number count changes.now
            → IsReach rs number page result }
    {
        let last = self.next_change(changes);
        Reach { is_past, last }
    }

    /// The LSN of the next change, or the greatest number where there is none.
    fn next_change(&self, changes: &[PlacedChange]) -> Lsn
        ensures next { (d : Placed) → self.now.done < length changes.now
            → result ≡ (slice_index_or changes.now self.now.done d).lsn }
        ensures none { length changes.now ≤ self.now.done → result + 1 ≡ 2 ^ 64 }
    {
        if self.done < changes.len() {
            changes[self.done].lsn()
        } else {
            Lsn(u64::MAX)
        }
    }
}

/// Whether the record of a change is among so many, the log's first ones.
fn is_among(change: &PlacedChange, count: usize) -> bool
    ensures { result ≡ nat_le (change.now.lsn / LSN_STEP) count }
{
    (change.lsn().0 / LSN_STEP) as usize <= count
}
