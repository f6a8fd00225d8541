//! What a complete copy decided for each page: taken or kept.

ghost use Rattle.std.specs.Prelude.{◌≡◌, length, map};
ghost use Rattle.page_decisions.specs.Decisions.{decision_at, page_of, taken_count};
ghost use Rattle.page_decisions.specs.Slots.{AreLaidOver, page_list};

use crate::rising::RisingPages;
use crate::slots::Slots;
use page_core::{Page, PageNo};
use std::marker::Model;

/// How the decisions of a complete copy are held.
#[derive(Drop)]
pub enum HeldDecisions {
    /// As they were made while the volume was read.
    Marked(Slots),
    /// As they were read from an archive.
    Rising(RisingPages),
}

/// What a complete copy has decided of each of its pages.
#[derive(Drop)]
pub struct CopyPages {
    held: HeldDecisions,
}

impl Model for CopyPages {
    ghost use Rattle.std.specs.Prelude.{List};
    ghost use Rattle.page_decisions.specs.Decisions.{PageDecision};
    ghost use Rattle.page_decisions.specs.HeldDecisions.{decisions_in};

    ghost Value = { List PageDecision };

    ghost view = { λ it. decisions_in it.held };
}

impl CopyPages {
    /// What was decided while the volume was read.
    pub fn marked(slots: Slots) -> CopyPages
        ensures { result ≡ slots }
    {
        CopyPages {
            held: HeldDecisions::Marked(slots),
        }
    }

    /// What was read from an archive.
    pub fn rising(pages: RisingPages) -> CopyPages
        ensures { result ≡ pages }
    {
        CopyPages {
            held: HeldDecisions::Rising(pages),
        }
    }

    /// The page, if it was taken.
    pub fn page(&self, number: PageNo) -> Option<&Page>
        ensures { page_list result ≡ page_of (decision_at self.now number) }
    {
        if number.0 >= self.count() {
            return None;
        }
        match &self.held {
            HeldDecisions::Marked(slots) => slots.page(number),
            HeldDecisions::Rising(pages) => pages.page(number),
        }
    }

    /// How many pages there are.
    pub fn count(&self) -> u32
        ensures { result ≡ length self.now }
    {
        match &self.held {
            HeldDecisions::Marked(slots) => slots.count(),
            HeldDecisions::Rising(pages) => pages.count(),
        }
    }

    /// How many pages were taken.
    pub fn taken(&self) -> u32
        ensures { result ≡ taken_count self.now }
    {
        match &self.held {
            HeldDecisions::Marked(slots) => slots.taken(),
            HeldDecisions::Rising(pages) => pages.taken(),
        }
    }

    /// Puts each page that was taken in the place of its number, if there is one.
    pub fn lay_over<'a>(&'a self, pages: &mut [Option<&'a Page>])
        ensures { AreLaidOver self.now (map page_list pages.old) (map page_list pages.new) }
    {
        match &self.held {
            HeldDecisions::Marked(slots) => slots.lay_over(pages),
            HeldDecisions::Rising(rising) => rising.lay_over(pages),
        }
    }
}
