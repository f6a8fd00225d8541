//! What a log keeps of one page: the records that change it, and the page as it was rebuilt last.

ghost use Rattle.std.specs.Prelude.{◌≡◌, ◌++◌, [], ◌∷◌, None, Some, OnErr, OnOk};
ghost use Rattle.log_records.specs.Image.{image_from};
ghost use Rattle.log_store.specs.PageHistory.{records_at, rolled};

use crate::redo::redo_numbered;
use log_records::Record;
use page_core::Page;
use std::alloc::{AllocError, Global};
use std::marker::Model;

/// The records that change one page, and the page as it was rebuilt last.
#[derive(Drop)]
pub(crate) struct PageHistory {
    rebuilt: Option<Box<Page>>,
    /// The numbers of the page's records, counted from 0: of all of them, or, where it was rebuilt,
    /// of those that it lacks.
    later: Vec<u32>,
}

impl Model for PageHistory {
    ghost use Rattle.std.specs.Option.{option_map};
    ghost use Rattle.log_store.specs.PageHistory.{History};

    ghost Value = { History };

    ghost view = { λ it. record {
      rebuilt = option_map (λ page. page.value) it.rebuilt;
      later = it.later.items;
    } };
}

impl PageHistory {
    /// A page without records.
    pub fn new(alloc: Global) -> PageHistory
        ensures rebuilt { result.rebuilt ≡ None }
        ensures later { result.later ≡ [] }
    {
        PageHistory {
            rebuilt: None,
            later: Vec::new(alloc),
        }
    }

    /// Notes the number of the next record that changes the page.
    pub fn note(&mut self, number: u32) -> Result<(), AllocError>
        ensures rebuilt { self.new.rebuilt ≡ self.old.rebuilt }
        ensures later { OnOk result (self.new.later ≡ self.old.later ++ number ∷ []) }
        ensures err { OnErr result (self.new.later ≡ self.old.later) }
    {
        self.later.push(number)?;
        Ok(())
    }

    /// Rolls the page forward: from where it was rebuilt last, or else from an older image of it,
    /// by the records that it lacks. The next call goes on from here.
    pub fn roll_forward(
        &mut self,
        alloc: Global,
        records: &[Record],
        page: &mut Page,
    ) -> Result<(), AllocError>
        ensures page { page.new ≡ rolled self.old records.now page.old }
        ensures rebuilt { OnOk result (self.new.rebuilt ≡ Some page.new) }
        ensures later { OnOk result (self.new.later ≡ []) }
        ensures err { OnErr result (self.new ≡ self.old) }
    {
        match &self.rebuilt {
            Some(rebuilt) => {
                *page = rebuilt.copy();
                redo_all(page, records, &self.later);
            }
            None => redo_numbered(page, records, &self.later),
        }
        self.keep(alloc, page)
    }

    /// Keeps the page as it was rebuilt with all of its records.
    fn keep(&mut self, alloc: Global, page: &Page) -> Result<(), AllocError>
        ensures rebuilt { OnOk result (self.new.rebuilt ≡ Some page.now) }
        ensures later { OnOk result (self.new.later ≡ []) }
        ensures err { OnErr result (self.new ≡ self.old) }
    {
        match &mut self.rebuilt {
            Some(place) => **place = page.copy(),
            None => self.rebuilt = Some(Box::new(alloc, page.copy())?),
        }
        self.later.clear();
        Ok(())
    }
}

/// Redoes on a page the records of these numbers, in their order.
fn redo_all(page: &mut Page, records: &[Record], numbers: &[u32])
    ensures { page.new ≡ image_from page.old (records_at records.now numbers.now) }
{
    for number in numbers {
        if let Some(next) = records.get(*number as usize) {
            next.redo_on(page);
        }
    }
}
