//! What a copy decided for each page, when it is read back from its archive.

ghost use Rattle.std.specs.Prelude.{◌≡◌, ◌+◌, ◌-◌, ◌^◌, ◌<◌, ◌≤◌, ◌++◌, ◌∷◌, [], length};
ghost use Rattle.std.specs.Prelude.{map, replicate, OnOk};
ghost use Rattle.page_decisions.specs.Decisions.{taken, kept, decision_at, page_of, taken_count};
ghost use Rattle.page_decisions.specs.Slots.{AreLaidOver, page_list};

use crate::places::{first_from, lay_over};
use page_core::{Page, PageNo};
use std::alloc::{AllocError, Global};
use std::marker::Model;

/// What is decided of each page, up to some number, of a copy whose pages come in order of their
/// numbers: it took these, and kept each other one.
#[derive(Drop)]
pub struct RisingPages {
    count: u32,
    places: Vec<Box<Page>>,
}

impl Model for RisingPages {
    ghost use Rattle.std.specs.Prelude.{List};
    ghost use Rattle.page_decisions.specs.Decisions.{PageDecision};
    ghost use Rattle.page_decisions.specs.Slots.{AreRising, decisions_of, values};

    ghost Value = { List PageDecision };

    ghost view = { λ it. decisions_of (values it.places.items) it.count };

    ghost invariant = { λ it. AreRising (values it.places.items) it.count };
}

impl RisingPages {
    /// No pages yet. This takes no memory.
    pub fn new(alloc: Global) -> RisingPages
        ensures { result ≡ [] }
    {
        RisingPages {
            count: 0,
            places: Vec::new(alloc),
        }
    }

    /// Keeps what the parent has of each further page, up to this number.
    pub fn keep_to(&mut self, end: u32)
        requires { length self.old ≤ end }
        ensures { self.new ≡ self.old ++ replicate (end - length self.old) kept }
    {
        self.count = end;
    }

    /// Takes the next page.
    pub fn push_taken(&mut self, place: Box<Page>) -> Result<(), AllocError>
        requires few { length self.old + 1 < 2 ^ 32 }
        requires next { place.value.number ≡ length self.old }
        ensures { OnOk result (self.new ≡ self.old ++ taken place.value ∷ []) }
    {
        self.places.push(place)?;
        self.count += 1;
        Ok(())
    }

    /// The page, if it was taken.
    pub fn page(&self, number: PageNo) -> Option<&Page>
        requires { number < length self.now }
        ensures { page_list result ≡ page_of (decision_at self.now number) }
    {
        let place = first_from(&self.places, number);
        if place < self.places.len() && self.places[place].number.0 == number.0 {
            Some(&self.places[place])
        } else {
            None
        }
    }

    /// How many pages there are.
    pub fn count(&self) -> u32
        ensures { result ≡ length self.now }
    {
        self.count
    }

    /// How many pages were taken.
    pub fn taken(&self) -> u32
        ensures { result ≡ taken_count self.now }
    {
        self.places.len() as u32
    }

    /// Puts each page that was taken in the place of its number, if there is one.
    pub fn lay_over<'a>(&'a self, pages: &mut [Option<&'a Page>])
        ensures { AreLaidOver self.now (map page_list pages.old) (map page_list pages.new) }
    {
        lay_over(&self.places, pages);
    }
}
