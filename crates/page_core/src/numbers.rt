//! Numbers that name a page, a slot of a page, a place in the log, or a transaction.

ghost use Rattle.std.specs.Prelude.{◌≡◌, ◌-◌, ◌/◌};

use std::marker::Model;

/// The number of a page in its volume, counted from 0.
#[derive(Clone, Copy, Debug, PartialEq, Eq, PartialOrd, Ord, Hash)]
pub struct PageNo(pub u32);

impl Model for PageNo {
    ghost use Rattle.std.specs.Prelude.{ℕ};

    ghost Value = { ℕ };

    ghost view = { λ number. number.0 };

    ghost inverse = { λ n. record { 0 = n } };
}

/// The number of a slot in its page, counted from 0.
#[derive(Clone, Copy, Debug, PartialEq, Eq, PartialOrd, Ord, Hash)]
pub struct SlotNo(pub u16);

impl Model for SlotNo {
    ghost use Rattle.std.specs.Prelude.{ℕ};

    ghost Value = { ℕ };

    ghost view = { λ slot. slot.0 };

    ghost inverse = { λ n. record { 0 = n } };
}

/// Each LSN is a multiple of this: so many bytes lie between two records of the log.
pub const LSN_STEP: u64 = 64;

/// A log sequence number: the byte offset of a record in the log. 0 means "none", since the log
/// begins with its header.
#[derive(Clone, Copy, Debug, PartialEq, Eq, PartialOrd, Ord, Hash)]
pub struct Lsn(pub u64);

impl Model for Lsn {
    ghost use Rattle.std.specs.Prelude.{ℕ};

    ghost Value = { ℕ };

    ghost view = { λ lsn. lsn.0 };

    ghost inverse = { λ n. record { 0 = n } };
}

impl Lsn {
    /// How many records stand below this LSN in a log that has so many: those of the LSNs
    /// `LSN_STEP`, `2 * LSN_STEP` and so on. There are none below `LSN_STEP`.
    pub fn records_below(self) -> usize
        ensures { result ≡ (self - 1) / LSN_STEP }
    {
        (self.0.saturating_sub(1) / LSN_STEP) as usize
    }
}

/// The number of a transaction. The first one is 1.
#[derive(Clone, Copy, Debug, PartialEq, Eq, PartialOrd, Ord, Hash)]
pub struct TxnNo(pub u32);

impl Model for TxnNo {
    ghost use Rattle.std.specs.Prelude.{ℕ};

    ghost Value = { ℕ };

    ghost view = { λ txn. txn.0 };

    ghost inverse = { λ n. record { 0 = n } };
}
