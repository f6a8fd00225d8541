//! The rows of the transactions that have added to one slot.

ghost use Rattle.std.specs.Prelude.{ℕ, ◌≡◌, ◌<◌, ◌≤◌, ◌==◌, ◌&&◌, OnOk, OnErr, IfOk};
ghost use Rattle.std.specs.Prelude.{if◌then◌else◌, vec_len, true, false};
ghost use Rattle.slot_claims.specs.Adders.{has_set, has_set_at, has_set_in};
ghost use Rattle.slot_claims.specs.Adders.{rows_among, rows_at, rows_in};
ghost use Rattle.slot_claims.specs.RowSet.{IsWith, no_rows};

use crate::row_set::{ROWS, RowSet};
use crate::slot_sets::SlotSets;
use page_core::{PageNo, SLOTS, SlotNo};
use std::alloc::{AllocError, Global};

/// The rows of those who add to the slots of a page.
#[derive(Drop)]
enum PageAdders {
    /// No other slot than this one has rows.
    One { slot: u16, rows: RowSet },
    Several(Box<SlotSets>),
}

impl PageAdders {
    /// No slot of the page has a row.
    fn new() -> PageAdders
        ensures { (slot : ℕ) → rows_in result slot ≡ no_rows }
    {
        PageAdders::One {
            slot: 0,
            rows: RowSet::new(),
        }
    }

    /// The rows of a slot.
    #[inline(always)]
    fn rows(&self, slot: u16) -> RowSet
        requires { slot < SLOTS }
        ensures { result ≡ rows_in self.now slot }
    {
        match self {
            PageAdders::One { slot: held, rows } => {
                if *held == slot { *rows } else { RowSet::new() }
            }
            PageAdders::Several(sets) => sets.rows(slot),
        }
    }

    /// Puts these rows on a slot for which there is room.
    #[inline(always)]
    fn put(&mut self, slot: u16, rows: RowSet)
        requires slot { slot < SLOTS }
        requires room { has_set_in self.old slot ≡ true }
        ensures { (s : ℕ) → s < SLOTS → rows_in self.new s
            ≡ (if slot == s then rows else rows_in self.old s) }
    {
        match self {
            PageAdders::One {
                slot: held,
                rows: there,
            } => {
                *held = slot;
                *there = rows;
            }
            PageAdders::Several(sets) => sets.put(slot, rows),
        }
    }

    /// Makes room for the rows of a slot. An `Err` comes where memory for it is refused. The rows
    /// stay.
    #[inline(always)]
    fn make_room(&mut self, alloc: Global, slot: u16) -> Result<(), AllocError>
        requires { slot < SLOTS }
        ensures room { OnOk result (has_set_in self.new slot ≡ true) }
        ensures needed { OnErr result (has_set_in self.old slot ≡ false) }
        ensures same { (s : ℕ) → s < SLOTS → rows_in self.new s ≡ rows_in self.old s }
    {
        match self {
            PageAdders::One { slot: held, rows } => {
                if *held == slot || rows.is_empty() {
                    return Ok(());
                }
                let both = sets_of(alloc, *held, *rows, slot)?;
                *self = PageAdders::Several(both);
                Ok(())
            }
            PageAdders::Several(sets) => sets.make_room(slot),
        }
    }
}

/// The rows of those who add to one slot together. A look-up or a change reaches for one set,
/// whatever the log.
#[derive(Drop)]
pub struct Adders {
    /// Those of each page, in order, up to the last page that has had rows.
    pages: Vec<PageAdders>,
}

impl Adders {
    /// Nobody adds to a slot.
    pub fn new(alloc: Global) -> Adders
        ensures { (page slot : ℕ) → rows_at result page slot ≡ no_rows }
    {
        Adders {
            pages: Vec::new(alloc),
        }
    }

    /// The rows of a slot.
    pub fn rows(&self, page: PageNo, slot: SlotNo) -> RowSet
        ensures { result ≡ rows_at self.now page slot }
    {
        if slot.0 as usize >= SLOTS || page.0 as usize >= self.pages.len() {
            return RowSet::new();
        }
        self.pages[page.0 as usize].rows(slot.0)
    }

    /// Puts these rows on a slot for which there is room.
    pub fn put(&mut self, page: PageNo, slot: SlotNo, rows: RowSet)
        requires { has_set_at self.old page slot ≡ true }
        ensures { (p s : ℕ) → rows_at self.new p s
            ≡ (if page == p && slot == s then rows else rows_at self.old p s) }
    {
        self.pages[page.0 as usize].put(slot.0, rows)
    }

    /// Puts a row into the set of a slot for which there is room, or takes it out of it, and
    /// answers the set as it was.
    #[inline(always)]
    pub fn put_row(&mut self, page: PageNo, slot: SlotNo, row: u8, present: bool) -> RowSet
        requires row { row < ROWS }
        requires room { has_set_at self.old page slot ≡ true }
        ensures was { result ≡ rows_at self.old page slot }
        ensures now { IsWith (rows_at self.new page slot) (rows_at self.old page slot)
            row present }
        ensures put { (p s : ℕ) → rows_at self.new p s
            ≡ (if page == p && slot == s then rows_at self.new page slot
            else rows_at self.old p s) }
    {
        let was = self.rows(page, slot);
        self.put(page, slot, was.with(row, present));
        was
    }

    /// Makes room for the rows of a slot. An `Err` comes where memory for it is refused, or no page
    /// has the slot. The rows stay.
    pub fn make_room(&mut self, page: PageNo, slot: SlotNo) -> Result<(), AllocError>
        ensures room { OnOk result (has_set_at self.new page slot ≡ true) }
        ensures needed { OnErr result (has_set_at self.old page slot ≡ false) }
        ensures same { (p s : ℕ) → rows_at self.new p s ≡ rows_at self.old p s }
    {
        if slot.0 as usize >= SLOTS {
            return Err(AllocError);
        }
        self.make_page(page.0 as usize)?;
        let alloc = *self.pages.allocator();
        self.pages[page.0 as usize].make_room(alloc, slot.0)
    }

    /// Makes room for a page, where it is behind those with room.
    #[inline(always)]
    fn make_page(&mut self, page: usize) -> Result<(), AllocError>
        ensures ok { OnOk result (page < vec_len self.new.pages) }
        ensures needed { OnErr result (vec_len self.old.pages ≤ page) }
        ensures there { page < vec_len self.old.pages → self.new ≡ self.old }
        ensures same { (p s : ℕ) → rows_at self.new p s ≡ rows_at self.old p s }
    {
        if page < self.pages.len() {
            return Ok(());
        }
        self.make_pages(page)
    }

    /// Makes room for a page and those before it.
    #[cold]
    #[inline(never)]
    fn make_pages(&mut self, page: usize) -> Result<(), AllocError>
        ensures ok { OnOk result (page < vec_len self.new.pages) }
        ensures same { (p s : ℕ) → rows_at self.new p s ≡ rows_at self.old p s }
    {
        while self.pages.len() <= page {
            self.pages.push(PageAdders::new())?;
        }
        Ok(())
    }
}

/// The sets of a page of which one slot has these rows, and another one none yet.
#[cold]
#[inline(never)]
fn sets_of(alloc: Global, held: u16, there: RowSet, slot: u16) -> Result<Box<SlotSets>, AllocError>
    requires { slot < SLOTS }
    ensures room { IfOk result (λ sets. has_set sets.value slot ≡ true) }
    ensures rows { IfOk result (λ sets. (s : ℕ) → s < SLOTS → rows_among sets.value s
        ≡ (if held == s then there else no_rows)) }
{
    let mut sets = SlotSets::new(alloc);
    if (held as usize) < SLOTS {
        sets.make_room(held)?;
        sets.put(held, there);
    }
    sets.make_room(slot)?;
    Ok(Box::new(alloc, sets)?)
}
