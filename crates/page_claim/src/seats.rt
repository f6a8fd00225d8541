//! The claims on the pages of a volume, and the seats that claim them.

ghost use Rattle.std.specs.Prelude.{◌≡◌, [], ◌<◌, ◌+◌, ◌^◌};

use crate::rule::{ClaimTerms, ClaimView, EachPageOnce};
use atomic_table::{Seat, Table};
use std::alloc::Global;

/// The pages below a count, to be claimed by workers, each page by one of them.
#[derive(Drop)]
pub struct PageClaims {
    pub(crate) count: u32,
    pub(crate) alloc: Global,
    pub(crate) table: Table<(), ClaimView, ClaimTerms, EachPageOnce, Global>,
    ghost counted: { table.shared.key.count ≡ count },
    ghost one_word: { table.shared.table_id.words ≡ 1 },
    ghost no_slot: { table.shared.table_id.slots ≡ 0 },
}

/// What a worker claims pages with. It is of one `PageClaims`.
#[derive(Drop)]
pub struct ClaimSeat {
    /// Whether a claim was answered None.
    pub(crate) ended: bool,
    pub(crate) seat: Seat<(), ClaimView>,
    ghost one_worker: { seat.me.0.weight ≡ 1 },
    ghost no_slot: { seat.me.1 ≡ [] },
    ghost told: { seat.me.0.ended ≡ ended },
}
