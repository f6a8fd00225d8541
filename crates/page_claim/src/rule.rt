//! What a seat knows of the claims, the rule of their word, and the three kinds of step.

use atomic_table::{Join, Play, Split, TableRule};
use page_core::PageNo;
use std::collections::LinkedList;

/// What the claims are told once, when they are made. It is for contracts alone.
#[derive(Drop)]
pub struct ClaimTerms {
    /// How many pages there are.
    pub count: u32,
    pub workers: u32,
}

/// What a seat knows. It is for contracts alone: no value of it is made.
pub struct ClaimView {
    /// How many pages there are.
    pub count: u32,
    /// For how many workers the seat stands.
    pub weight: u32,
    /// The pages that it was given.
    pub pages: LinkedList<PageNo>,
    /// Whether it was told that no page is left.
    pub ended: bool,
}

/// The rule of the word: each page below it is in the list of one seat, once.
pub struct EachPageOnce;

impl TableRule<(), ClaimView, ClaimTerms> for EachPageOnce {
    ghost use Rattle.page_claim.specs.Rule.{IsFair, first_view};

    ghost holds = { IsFair };

    ghost first = { first_view };
}

/// A claim: the word as it was is a page, or tells that no page is left.
pub(crate) struct Claiming;

impl Play<(), ClaimView> for Claiming {
    ghost use Rattle.page_claim.specs.Rule.{IsClaim};

    ghost then = { IsClaim };
}

/// A seat gives the part of one worker to a new seat.
pub(crate) struct OneWorker;

impl Split<ClaimView> for OneWorker {
    ghost use Rattle.page_claim.specs.Rule.{one_less, one_worker};

    ghost left = { one_less };

    ghost right = { one_worker };
}

/// A seat takes in what another one has and knows.
pub(crate) struct Together;

impl Join<ClaimView> for Together {
    ghost use Rattle.page_claim.specs.Rule.{together, spent_view};

    ghost both = { together };

    ghost spent = { spent_view };
}
