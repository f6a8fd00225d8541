//! A change as redo needs it.

ghost use Rattle.std.specs.Prelude.{ℕ, ◌≡◌, ◌<◌, if◌then◌else◌, nat_lt};
ghost use Rattle.log_records.specs.declared.limits.TheConstants.{MAX_RECORDS};
ghost use Rattle.log_records.specs.Log.{lsn_of};
ghost use Rattle.log_records.specs.Record.{IsPageChange};
ghost use Rattle.page_redo.specs.Placed.{number_of, placed_at};
ghost use Rattle.page_core.specs.Page.{put};

use log_records::PageChange;
use log_store::redo_change;
use page_core::{Change, ChangeKind, LSN_STEP, Lsn, Page, PageNo, SlotNo};
use std::marker::Model;

/// A change of a slot of a page, with the LSN of its record. It takes 16 bytes, since it has no
/// number that a Set replaces.
#[derive(Clone, Copy)]
pub struct PlacedChange {
    /// What the slot is set to, or what is added.
    number: u64,
    /// The LSN of the record, in steps.
    step: u32,
    page: u16,
    slot: u8,
    kind: ChangeKind,
}

impl Model for PlacedChange {
    ghost use Rattle.std.specs.Prelude.{◌*◌, ◌/◌};
    ghost use Rattle.page_core.specs.declared.numbers.TheConstants.{LSN_STEP};
    ghost use Rattle.page_core.specs.Change.{kind_of};
    ghost use Rattle.page_redo.specs.Placed.{Placed, change_with, number_of};

    ghost Value = { Placed };

    ghost view = { λ it. record {
      lsn = LSN_STEP * it.step;
      page = it.page;
      slot = it.slot;
      change = change_with it.kind it.number;
    } };

    ghost inverse = { λ it. record {
      number = number_of it.change;
      step = it.lsn / LSN_STEP;
      page = it.page;
      slot = it.slot;
      kind = kind_of it.change;
    } };

    ghost use Rattle.std.proofs.Common.{lit<};
    ghost use Rattle.std.proofs.Math.Nat.{mul-div_cancel_left};
    ghost use Rattle.page_redo.specs.Placed.{kind_again, number_again};

    ghost inverse_ok = { λ it valid i. record {
      number = number_again it.kind it.number i;
      step = mul-div_cancel_left it.step {n = LSN_STEP} (lit< tt) i;
      page = it.page;
      slot = it.slot;
      kind = kind_again it.kind it.number i;
    } };
}

impl PlacedChange {
    /// The change of a record that stands at an LSN.
    pub fn new(lsn: Lsn, change: PageChange) -> PlacedChange
        requires valid { IsPageChange change }
        requires stands { (n : ℕ) × ((n < MAX_RECORDS) × (lsn ≡ lsn_of n)) }
        ensures { result ≡ placed_at lsn change }
    {
        PlacedChange {
            number: number_of(&change.change),
            step: (lsn.0 / LSN_STEP) as u32,
            page: change.page.0 as u16,
            slot: change.slot.0 as u8,
            kind: change.change.kind(),
        }
    }

    /// The LSN of the record.
    pub fn lsn(&self) -> Lsn
        ensures { result ≡ self.now.lsn }
    {
        Lsn(LSN_STEP * self.step as u64)
    }

    /// The page that it changes.
    pub fn page(&self) -> PageNo
        ensures { result ≡ self.now.page }
    {
        PageNo(self.page as u32)
    }

    /// The slot that it changes.
    fn slot(&self) -> SlotNo
        ensures { result ≡ self.now.slot }
    {
        SlotNo(self.slot as u16)
    }

    /// Makes the change on a page, whatever its number and its LSN.
    pub fn apply_to(&self, page: &mut Page)
        ensures { page.new ≡ put page.old self.now.lsn self.now.slot self.now.change }
    {
        page.apply(self.lsn(), self.slot(), &self.change());
    }

    /// Redoes the change on a page, whatever its number, if the change is above `had`, the LSN that
    /// the page had when its redo began: so a page gets the changes that it lacks.
    #[inline(always)]
    pub(crate) fn redo_above(&self, had: Lsn, page: &mut Page)
        ensures { page.new ≡ if nat_lt had self.now.lsn
            then put page.old self.now.lsn self.now.slot self.now.change else page.old }
    {
        redo_change(page, had, self.lsn(), self.slot(), &self.change());
    }

    /// The change.
    fn change(&self) -> Change
        ensures { result ≡ self.now.change }
    {
        match self.kind {
            ChangeKind::Set => Change::Set {
                before: 0,
                after: self.number,
            },
            ChangeKind::Add => Change::Add {
                amount: self.number,
            },
        }
    }
}

/// The number that a change sets or adds.
fn number_of(change: &Change) -> u64
    ensures { result ≡ number_of change.now }
{
    match *change {
        Change::Set { after, .. } => after,
        Change::Add { amount } => amount,
    }
}
