//! The phases of a checkpoint.

use page_core::{PageNo, TxnNo};
use std::marker::Model;

/// It gathers dirty pages.
#[derive(Drop)]
pub struct Pages {
    /// It has passed all pages below this one.
    pub(crate) from: PageNo,
}

impl Model for Pages {
    ghost use Rattle.std.specs.Prelude.{ℕ};

    ghost Value = { ℕ };

    ghost view = { λ it. it.from };
}

/// It has passed all pages, and gathers open transactions.
#[derive(Drop)]
pub struct Txns {
    /// It has passed all transactions below this one.
    pub(crate) from: TxnNo,
}

impl Model for Txns {
    ghost use Rattle.std.specs.Prelude.{ℕ};

    ghost Value = { ℕ };

    ghost view = { λ it. it.from };
}

/// It has passed all pages and all transactions.
#[derive(Drop)]
pub struct Gathered;
