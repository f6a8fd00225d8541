//! The ID and the kind of an image copy.

use std::marker::Model;

/// How many image copies one vault gives ids to, so their ids are 1 to this.
pub const MAX_COPIES: u32 = 1_024;

/// The id of an image copy. The first one is 1.
#[derive(Clone, Copy, Debug, PartialEq, Eq, PartialOrd, Ord, Hash)]
pub struct CopyId(pub u32);

impl Model for CopyId {
    ghost use Rattle.std.specs.Prelude.{ℕ};

    ghost Value = { ℕ };

    ghost view = { λ id. id.0 };

    ghost inverse = { λ n. record { 0 = n } };
}

/// What an image copy is of.
#[derive(Clone, Copy, Debug, PartialEq, Eq)]
pub enum CopyKind {
    /// Of every page.
    Full,
    /// Of the pages that may have changed since the copy of this id, its parent.
    Inc(CopyId),
}

/// What a copy answers to a stored page.
#[derive(Clone, Copy, Debug, PartialEq, Eq)]
pub enum Decision {
    /// It has the page from now on.
    Taken,
    /// It keeps what its parent has of this page.
    Kept,
}
