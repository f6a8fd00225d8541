//! What an open copy has decided for each page so far.

ghost use Rattle.std.specs.Prelude.{◌≡◌, ◌<◌, ◌↔◌, length, map, replicate, slice_set, IfOk, IsTrue};
ghost use Rattle.page_decisions.specs.Decisions.{PageDecision, undecided, taken, kept, decision_at};
ghost use Rattle.page_decisions.specs.Decisions.{page_of, taken_count, undecided_count};
ghost use Rattle.page_decisions.specs.Slots.{AreLaidOver, page_list};

use crate::mark::Mark;
use crate::places::lay_over;
use page_core::{Page, PageNo};
use std::alloc::{AllocError, Global};
use std::marker::Model;

/// What is decided of a page, and where it stands among those that were taken.
#[derive(Clone, Copy)]
pub enum PlacedDecision {
    Undecided,
    Taken(u32),
    Kept,
}

/// What is decided of each page of a copy that is read in any order.
#[derive(Drop)]
pub struct Slots {
    /// Mark `p` is that of page `p`.
    marks: Vec<Mark>,
    /// The pages that were taken, in the order in which they were. There is room for all.
    places: Vec<Box<Page>>,
    /// Of how many pages nothing is decided.
    left: u32,
}

impl Model for Slots {
    ghost use Rattle.std.specs.Prelude.{List};
    ghost use Rattle.std.specs.Vec.{vec_capacity};
    ghost use Rattle.page_decisions.specs.Decisions.{PageDecision};
    ghost use Rattle.page_decisions.specs.Slots.{IsMarked, decisions_by, values};

    ghost Value = { List PageDecision };

    ghost view = { λ it. decisions_by (values it.places.items) it.marks.items };

    ghost invariant = { λ it. IsMarked it.marks.items (values it.places.items) it.left
        (vec_capacity it.places) };
}

impl Slots {
    /// Slots of so many pages, of which nothing is decided. `AllocError` comes where memory is
    /// refused. It always is for 2^32 - 2 pages and more, since no mark could name their places.
    pub fn new(alloc: Global, count: u32) -> Result<Slots, AllocError>
        ensures { IfOk result (λ slots. slots ≡ replicate count undecided) }
    {
        if count >= u32::MAX - 1 {
            return Err(AllocError);
        }
        let places = Vec::with_capacity(alloc, count as usize)?;
        let mut marks = Vec::with_capacity(alloc, count as usize)?;
        for _ in 0..count {
            marks.push(Mark::undecided())?;
        }
        Ok(Slots {
            marks,
            places,
            left: count,
        })
    }

    /// The page, if it was taken.
    pub fn page(&self, number: PageNo) -> Option<&Page>
        requires { number < length self.now }
        ensures { page_list result ≡ page_of (decision_at self.now number) }
    {
        match self.marks[number.0 as usize].decision() {
            PlacedDecision::Taken(place) => Some(&self.places[place as usize]),
            _ => None,
        }
    }

    /// How many pages there are.
    pub fn count(&self) -> u32
        ensures { result ≡ length self.now }
    {
        self.marks.len() as u32
    }

    /// How many pages were taken.
    pub fn taken(&self) -> u32
        ensures { result ≡ taken_count self.now }
    {
        self.places.len() as u32
    }

    /// Of how many pages nothing is decided.
    pub fn left(&self) -> u32
        ensures { result ≡ undecided_count self.now }
    {
        self.left
    }

    /// Whether nothing is decided of this page.
    pub fn is_undecided(&self, number: PageNo) -> bool
        requires { number < length self.now }
        ensures { IsTrue result ↔ (decision_at self.now number ≡ undecided) }
    {
        matches!(
            self.marks[number.0 as usize].decision(),
            PlacedDecision::Undecided
        )
    }

    /// Takes a page. This takes no memory.
    pub fn take(&mut self, number: PageNo, place: Box<Page>)
        requires there { number < length self.old }
        requires undecided { decision_at self.old number ≡ undecided }
        requires numbered { place.value.number ≡ number }
        ensures { self.new ≡ slice_set self.old number (taken place.value) }
    {
        self.marks[number.0 as usize] = Mark::taken(self.places.len() as u32);
        self.places.push_reserved(place);
        self.left -= 1;
    }

    /// Keeps what the parent has of a page.
    pub fn keep(&mut self, number: PageNo)
        requires there { number < length self.old }
        requires undecided { decision_at self.old number ≡ undecided }
        ensures { self.new ≡ slice_set self.old number kept }
    {
        self.marks[number.0 as usize] = Mark::kept();
        self.left -= 1;
    }

    /// Puts each page that was taken in the place of its number, if there is one.
    pub fn lay_over<'a>(&'a self, pages: &mut [Option<&'a Page>])
        ensures { AreLaidOver self.now (map page_list pages.old) (map page_list pages.new) }
    {
        lay_over(&self.places, pages);
    }
}
