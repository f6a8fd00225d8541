//! What an open copy has decided of one page, in four bytes.

ghost use Rattle.std.specs.Prelude.{◌≡◌, ◌+◌, ◌^◌, ◌<◌};
ghost use Rattle.page_decisions.specs.declared.slots.PlacedDecision.TheVariants as decision;

use crate::slots::PlacedDecision;
use std::marker::Model;

/// A decision, as a copy of many pages holds one for each of them. 0 says undecided and 1 kept; a
/// greater number is that of the place, with 2 more.
#[derive(Drop)]
pub struct Mark(u32);

impl Model for Mark {
    ghost use Rattle.page_decisions.specs.declared.slots.PlacedDecision.{PlacedDecision};
    ghost use Rattle.page_decisions.specs.Slots.{marked_by};

    ghost Value = { PlacedDecision };

    ghost view = { λ it. marked_by it.0 };
}

impl Mark {
    /// Nothing is decided.
    pub fn undecided() -> Mark
        ensures { result ≡ decision.Undecided }
    {
        Mark(0)
    }

    /// The page of the parent is kept.
    pub fn kept() -> Mark
        ensures { result ≡ decision.Kept }
    {
        Mark(1)
    }

    /// The page was taken, and stands at this place.
    pub fn taken(place: u32) -> Mark
        requires { place + 2 < 2 ^ 32 }
        ensures { result ≡ decision.Taken place }
    {
        Mark(place + 2)
    }

    /// What it says.
    pub fn decision(&self) -> PlacedDecision
        ensures { result ≡ self.now }
    {
        match self.0 {
            0 => PlacedDecision::Undecided,
            1 => PlacedDecision::Kept,
            greater => PlacedDecision::Taken(greater - 2),
        }
    }
}
