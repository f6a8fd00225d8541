//! Sets of rows: each open transaction has a row, and no two have the same.

ghost use Rattle.std.specs.Prelude.{ℕ, ◌≡◌, ◌<◌, ◌==◌, ◌↔◌, false, true, IsFalse, IsTrue};
ghost use Rattle.slot_claims.specs.RowSet.{HasSome, IsWith, LacksOne, has_row, no_rows, only};

/// How many rows there are: one for each transaction that may be open.
pub const ROWS: u8 = 64;

/// A set of rows.
#[derive(Clone, Copy)]
pub struct RowSet {
    bits: u64,
}

impl RowSet {
    /// The set that has no row.
    pub fn new() -> RowSet
        ensures { result ≡ no_rows }
    {
        RowSet { bits: 0 }
    }

    /// The set of one row.
    pub fn only(row: u8) -> RowSet
        requires { row < ROWS }
        ensures { result ≡ only row }
    {
        RowSet { bits: 1 << row }
    }

    /// The set has no row.
    pub fn is_empty(self) -> bool
        ensures empty { IsTrue result ↔ (self ≡ no_rows) }
        ensures some { IsFalse result → HasSome self }
    {
        self.bits == 0
    }

    /// The lowest row that the set lacks, if it lacks one.
    pub fn first_absent(self) -> u8
        requires { LacksOne self }
        ensures within { result < ROWS }
        ensures absent { has_row self result ≡ false }
        ensures below { (other : ℕ) → other < result → has_row self other ≡ true }
    {
        self.bits.trailing_ones() as u8
    }

    /// The row is in the set.
    pub fn contains(self, row: u8) -> bool
        requires { row < ROWS }
        ensures { result ≡ has_row self row }
    {
        self.bits >> row & 1 == 1
    }

    /// The set with this row in it, or without it.
    pub fn with(self, row: u8, present: bool) -> RowSet
        requires { row < ROWS }
        ensures { IsWith result self row present }
    {
        let mask = 1u64 << row;
        if present {
            RowSet {
                bits: self.bits | mask,
            }
        } else {
            RowSet {
                bits: self.bits & !mask,
            }
        }
    }
}
