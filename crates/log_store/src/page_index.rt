//! The records of a log by the pages that they change.

ghost use Rattle.std.specs.Prelude.{ℕ, ◌≡◌, ◌+◌, ◌<◌, ◌≤◌, List, length, OnOk};
ghost use Rattle.std.specs.Option.{option_map};
ghost use Rattle.log_records.specs.declared.limits.TheConstants.{MAX_RECORDS};
ghost use Rattle.log_records.specs.declared.record.Record.{Record};
ghost use Rattle.log_records.specs.Coverage.{IsPast};
ghost use Rattle.log_records.specs.Image.{image};
ghost use Rattle.log_records.specs.Log.{IsLog};
ghost use Rattle.log_records.specs.Record.{change_of};
ghost use Rattle.log_store.specs.PageHistory.{AreHistories};

use crate::page_history::PageHistory;
use log_records::Record;
use page_core::{Page, PageNo};
use std::alloc::{AllocError, Global};
use std::marker::Model;

/// What a log keeps of its pages. It looks at each record once, at the first call behind it: so a
/// log of which no page is rebuilt pays nothing for it.
#[derive(Drop)]
pub(crate) struct PageIndex {
    /// How many records were looked at.
    seen: usize,
    /// The histories of the pages below a number. The other pages have no records.
    pages: Vec<PageHistory>,
}

impl Model for PageIndex {
    ghost use Rattle.log_store.specs.PageHistory.{Histories};

    ghost Value = { Histories };

    ghost view = { λ it. record { seen = it.seen; pages = it.pages.items } };
}

impl PageIndex {
    /// No record was looked at. This takes no memory.
    pub fn new(alloc: Global) -> PageIndex
        ensures { (rs : List Record) → AreHistories rs result }
    {
        PageIndex {
            seen: 0,
            pages: Vec::new(alloc),
        }
    }

    /// Rolls an older image of a page forward to the end of the log.
    pub fn roll_forward(&mut self, records: &[Record], page: &mut Page) -> Result<(), AllocError>
        requires histories { AreHistories records.now self.old }
        requires log { (pages : ℕ) × IsLog (record { pages = pages; records = records.now }) }
        requires past { IsPast records.now page.old.number page.old }
        ensures histories { AreHistories records.now self.new }
        ensures image { OnOk result (page.new ≡ image records.now page.old.number) }
    {
        self.catch_up(records)?;
        let at = place(page.number);
        self.reach(records, at)?;
        let alloc = *self.pages.allocator();
        self.pages[at].roll_forward(alloc, records, page)
    }

    /// Looks at the records that came meanwhile.
    fn catch_up(&mut self, records: &[Record]) -> Result<(), AllocError>
        requires histories { AreHistories records.now self.old }
        requires few { length records.now ≤ MAX_RECORDS }
        ensures histories { AreHistories records.now self.new }
        ensures all { OnOk result (self.new.seen ≡ length records.now) }
    {
        while self.seen < records.len() {
            self.note_next(records)?;
        }
        Ok(())
    }

    /// Looks at the next record.
    fn note_next(&mut self, records: &[Record]) -> Result<(), AllocError>
        requires next { self.old.seen < length records.now }
        requires few { length records.now ≤ MAX_RECORDS }
        requires histories { AreHistories records.now self.old }
        ensures histories { AreHistories records.now self.new }
        ensures next { OnOk result (self.new.seen ≡ self.old.seen + 1) }
    {
        if let Some(place) = place_of(&records[self.seen]) {
            self.reach(records, place)?;
            self.pages[place].note(self.seen as u32)?;
        }
        self.seen += 1;
        Ok(())
    }

    /// Sees to it that the page of a number has its history.
    fn reach(&mut self, records: &[Record], place: usize) -> Result<(), AllocError>
        requires histories { AreHistories records.now self.old }
        ensures histories { AreHistories records.now self.new }
        ensures seen { self.new.seen ≡ self.old.seen }
        ensures reached { OnOk result (place < length self.new.pages) }
    {
        let alloc = *self.pages.allocator();
        while self.pages.len() <= place {
            self.pages.push(PageHistory::new(alloc))?;
        }
        Ok(())
    }
}

/// The place of the page that a record changes, if it changes one.
fn place_of(next: &Record) -> Option<usize>
    ensures { result ≡ option_map (λ c. c.page) (change_of next.now) }
{
    let change = next.change()?;
    Some(place(change.page))
}

/// The place of a page: its number.
fn place(number: PageNo) -> usize
    ensures { result ≡ number }
{
    number.0 as usize
}
