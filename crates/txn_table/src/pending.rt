//! A pending change in compact form: forty bytes, since a log may leave half a million of them.

ghost use Rattle.std.specs.Prelude.{◌≡◌};
ghost use Rattle.txn_table.specs.Pending.{hold_by_kept};

use log_rules::PendingChange;
use page_core::{Change, ChangeKind, Lsn, PageNo, SlotNo};
use slot_claims::Hold;
use std::marker::Model;

/// A `Hold` in one byte.
#[derive(Clone, Copy)]
enum Kept {
    Nothing,
    Sets,
    Adds,
    All,
}

impl Kept {
    fn of(hold: Hold) -> Kept
        ensures { hold_by_kept result ≡ hold }
    {
        match (hold.against_sets, hold.against_adds) {
            (false, false) => Kept::Nothing,
            (true, false) => Kept::Sets,
            (false, true) => Kept::Adds,
            (true, true) => Kept::All,
        }
    }

    fn hold(self) -> Hold
        ensures { result ≡ hold_by_kept self }
    {
        let (against_sets, against_adds) = match self {
            Kept::Nothing => (false, false),
            Kept::Sets => (true, false),
            Kept::Adds => (false, true),
            Kept::All => (true, true),
        };
        Hold {
            against_sets,
            against_adds,
        }
    }
}

/// A pending change, and what its transaction kept out of the slot before it. Its parts stand side
/// by side here, where a `Change` and a `Hold` would take sixteen bytes more.
#[derive(Drop)]
pub struct Pending {
    lsn: Lsn,
    prev: Lsn,
    /// The number before a Set, or the amount of an Add.
    number: u64,
    /// The number after a Set.
    after: u64,
    page: PageNo,
    slot: SlotNo,
    kind: ChangeKind,
    before: Kept,
}

impl Model for Pending {
    ghost use Rattle.txn_table.specs.Pending.{Pending, change_by, hold_by_kept};

    ghost Value = { Pending };

    ghost view = { λ it. record {
      change = record {
        lsn = it.lsn;
        prev = it.prev;
        page = it.page;
        slot = it.slot;
        change = change_by it.kind it.number it.after;
      };
      before = hold_by_kept it.before;
    } };
}

impl Pending {
    /// A change, of which nobody asks what was kept out before it.
    pub fn new(change: PendingChange) -> Pending
        ensures { result.change ≡ change }
    {
        Pending::of(
            change,
            Hold {
                against_sets: false,
                against_adds: false,
            },
        )
    }

    /// A change, and what was kept out before it.
    #[inline(always)]
    pub(crate) fn of(change: PendingChange, before: Hold) -> Pending
        ensures change { result.change ≡ change }
        ensures before { result.before ≡ before }
    {
        let (number, after) = match change.change {
            Change::Set { before, after } => (before, after),
            Change::Add { amount } => (amount, 0),
        };
        Pending {
            lsn: change.lsn,
            prev: change.prev,
            number,
            after,
            page: change.page,
            slot: change.slot,
            kind: change.change.kind(),
            before: Kept::of(before),
        }
    }

    /// The LSN of its Update.
    pub fn lsn(&self) -> Lsn
        ensures { result ≡ self.now.change.lsn }
    {
        self.lsn
    }

    /// The change.
    #[inline(always)]
    pub fn change(&self) -> PendingChange
        ensures { result ≡ self.now.change }
    {
        let change = match self.kind {
            ChangeKind::Set => Change::Set {
                before: self.number,
                after: self.after,
            },
            ChangeKind::Add => Change::Add {
                amount: self.number,
            },
        };
        PendingChange {
            lsn: self.lsn,
            prev: self.prev,
            page: self.page,
            slot: self.slot,
            change,
        }
    }

    /// What the transaction kept out of the slot before it.
    #[inline(always)]
    pub(crate) fn before(&self) -> Hold
        ensures { result ≡ self.now.before }
    {
        self.before.hold()
    }
}
