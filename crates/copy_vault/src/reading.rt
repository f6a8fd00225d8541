//! An open image copy, whose pages are still being read.

ghost use Rattle.std.specs.Prelude.{◌≡◌, ◌≤◌, ◌<◌, ◌↔◌, length, IfOk, IfErr, OnOk, OnErr, IsTrue};
ghost use Rattle.std.specs.Prelude.{false, None};
ghost use Rattle.page_decisions.specs.Decisions.{undecided, decision_at, AreDecidedBelow};
ghost use Rattle.copy_vault.specs.Copy.{answer_of};
ghost use Rattle.page_decisions.specs.Decisions.{least_undecided};
ghost use Rattle.copy_vault.specs.Copy.{decided_by, new_copy, with_decision};
ghost use Rattle.copy_vault.specs.declared.copy_id.CopyKind.TheVariants.{Full};

use crate::complete::CompleteCopy;
use crate::copy_id::{CopyId, CopyKind, Decision};
use page_core::{Lsn, Page, PageNo};
use page_decisions::{CopyPages, Slots};
use std::alloc::{AllocError, Global};
use std::marker::Model;

/// A fuzzy image copy that is being read: the volume changes while its stored pages are read, in
/// any order.
#[derive(Drop)]
pub struct ReadingCopy {
    id: CopyId,
    kind: CopyKind,
    begin: Lsn,
    redo: Lsn,
    since: Lsn,
    slots: Slots,
    /// Something is decided of each page below this one.
    next: u32,
    /// Room for a page.
    room: Option<Box<Page>>,
}

impl Model for ReadingCopy {
    ghost use Rattle.std.specs.Prelude.{is_some};
    ghost use Rattle.copy_vault.specs.Copy.{CopyView};
    ghost use Rattle.copy_vault.specs.Reading.{IsReading, ReadingView};

    ghost Value = { ReadingView };

    ghost view = { λ it. record {
      copy = record {
        id = it.id;
        kind = it.kind;
        begin = it.begin;
        redo = it.redo;
        pages = it.slots;
      };
      since = it.since;
      has_room = is_some it.room;
    } };

    ghost invariant = { λ it. IsReading it.kind it.slots it.since it.next };
}

/// What a copy is of, before any of its pages is read.
#[derive(Clone, Copy)]
pub(crate) struct CopyStart {
    pub id: CopyId,
    pub kind: CopyKind,
    /// The LSN from which on a page is taken: the parent's redo point.
    pub since: Lsn,
    pub begin: Lsn,
    pub redo: Lsn,
}

impl ReadingCopy {
    /// A copy of so many pages, of which nothing is decided.
    pub(crate) fn new(
        alloc: Global,
        start: CopyStart,
        pages: u32,
    ) -> Result<ReadingCopy, AllocError>
        requires { start.kind ≡ Full → start.since ≡ 0 }
        ensures { IfOk result (λ it. it ≡ record {
          copy = new_copy start.id start.kind pages start.begin start.redo;
          since = start.since;
          has_room = false;
        }) }
    {
        Ok(ReadingCopy {
            id: start.id,
            kind: start.kind,
            begin: start.begin,
            redo: start.redo,
            since: start.since,
            slots: Slots::new(alloc, pages)?,
            next: 0,
            room: None,
        })
    }

    /// How many pages the volume has.
    pub fn pages(&self) -> u32
        ensures { result ≡ length self.now.copy.pages }
    {
        self.slots.count()
    }

    /// The least page of which nothing is decided yet.
    pub fn undecided(&self) -> Option<PageNo>
        ensures { result ≡ least_undecided self.now.copy.pages }
    {
        let first = first_undecided(&self.slots, self.next);
        if first < self.slots.count() {
            Some(PageNo(first))
        } else {
            None
        }
    }

    /// The least page of which nothing is decided yet. No later search begins below it.
    pub fn find_undecided(&mut self) -> Option<PageNo>
        ensures found { result ≡ least_undecided self.old.copy.pages }
        ensures same { self.new ≡ self.old }
    {
        self.next = first_undecided(&self.slots, self.next);
        self.undecided()
    }

    /// Whether nothing is decided yet of this page.
    pub fn is_undecided(&self, number: PageNo) -> bool
        requires { number < length self.now.copy.pages }
        ensures { IsTrue result ↔ (decision_at self.now.copy.pages number ≡ undecided) }
    {
        self.slots.is_undecided(number)
    }

    /// Makes room for one page, so that `decide` takes no memory. Room that was made stays until a
    /// page is taken.
    pub fn make_room(&mut self, alloc: Global) -> Result<(), AllocError>
        ensures room { OnOk result (IsTrue self.new.has_room) }
        ensures copy { self.new.copy ≡ self.old.copy }
        ensures since { self.new.since ≡ self.old.since }
    {
        if self.room.is_none() {
            self.room = Some(Box::new(alloc, Page::formatted(PageNo(0)))?);
        }
        Ok(())
    }

    /// Decides of a page as it was stored: a full copy takes it, an incremental one where its LSN
    /// is at least the redo point of the copy's parent. This takes no memory.
    pub fn decide(&mut self, number: PageNo, page: &Page) -> Decision
        requires there { number < length self.old.copy.pages }
        requires undecided { decision_at self.old.copy.pages number ≡ undecided }
        requires numbered { page.now.number ≡ number }
        requires room { IsTrue self.old.has_room }

        ensures answer { result ≡ answer_of self.old.since page.now }
        ensures copy { self.new.copy
            ≡ with_decision self.old.copy number (decided_by result page.now) }
        ensures since { self.new.since ≡ self.old.since }
    {
        if page.lsn.0 < self.since.0 {
            self.slots.keep(number);
            return Decision::Kept;
        }
        let Some(mut place) = self.room.take() else {
            unreachable!()
        };
        *place = page.copy();
        self.slots.take(number, place);
        Decision::Taken
    }

    /// The copy, complete, if something is decided of each page. This takes no memory.
    pub fn seal(self) -> Result<CompleteCopy, ReadingCopy>
        ensures ok { IfOk result (λ copy. copy ≡ self.copy) }
        ensures all { OnOk result (least_undecided self.copy.pages ≡ None) }
        ensures err { IfErr result (λ it. it ≡ self) }
        ensures left { OnErr result (¬ (least_undecided self.copy.pages ≡ None)) }
    {
        if self.slots.left() > 0 {
            return Err(self);
        }
        let pages = CopyPages::marked(self.slots);
        Ok(CompleteCopy::new(self.id, self.kind, self.begin, self.redo, pages))
    }
}

/// The least page of which nothing is decided, or the page count, where something is decided of
/// each page below `from`.
fn first_undecided(slots: &Slots, from: u32) -> u32
    requires within { from ≤ length slots.now }
    requires before { AreDecidedBelow from slots.now }
    ensures within { result ≤ length slots.now }
    ensures before { AreDecidedBelow result slots.now }
    ensures at { result < length slots.now → decision_at slots.now result ≡ undecided }
{
    let mut next = from;
    while next < slots.count() && !slots.is_undecided(PageNo(next)) {
        next += 1;
    }
    next
}
