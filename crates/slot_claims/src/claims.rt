//! Which open transactions have claims on a slot, by their rows.

ghost use Rattle.std.specs.Prelude.{ℕ, ◌≡◌, ◌≢◌, ◌<◌, ◌==◌, IsTrue, OnErr, OnOk};
ghost use Rattle.std.specs.Prelude.{if◌then◌else◌, false, true};
ghost use Rattle.slot_claims.specs.declared.row_set.RowSet.{RowSet};
ghost use Rattle.slot_claims.specs.Claims.{IsWeaker, KeepsHolds, SetsHold, Taken, Takes};
ghost use Rattle.slot_claims.specs.Claims.{claim_at, claim_of, has_room};
ghost use Rattle.slot_claims.specs.Claims.{hold_at, hold_in, hold_with, no_claim, no_hold};
ghost use Rattle.slot_claims.specs.Claims.{rows_against};
ghost use Rattle.slot_claims.specs.HolderByte.{HasRow};
ghost use Rattle.slot_claims.specs.Marks.{holder_at};
ghost use Rattle.slot_claims.specs.RowSet.{has_row};

use crate::adders::Adders;
use crate::holder_byte::Holder;
use crate::marks::Marks;
use crate::row_set::{ROWS, RowSet};
use page_core::{ChangeKind, PageNo, SlotNo};
use std::alloc::{AllocError, Global};

/// From which changes of a slot a transaction keeps the others.
#[derive(Clone, Copy)]
pub struct Hold {
    pub against_sets: bool,
    pub against_adds: bool,
}

impl Hold {
    /// A transaction that has no pending change on the slot.
    pub fn new() -> Hold
        ensures { result ≡ no_hold }
    {
        Hold {
            against_sets: false,
            against_adds: false,
        }
    }

    /// A transaction with pending changes of this kind on the slot; where it is `Set`, with Adds
    /// beside, too.
    pub fn by(kind: ChangeKind) -> Hold
        ensures { result ≡ hold_with no_hold kind }
    {
        Hold {
            against_sets: true,
            against_adds: kind == ChangeKind::Set,
        }
    }

    /// The transaction of a row, which is among those who add to the slot, or is not.
    fn among(adders: RowSet, row: u8) -> Hold
        requires { row < ROWS }
        ensures { result ≡ record {
          against_sets = has_row adders row;
          against_adds = false;
        } }
    {
        Hold {
            against_sets: adders.contains(row),
            against_adds: false,
        }
    }
}

/// The rows of the transactions that keep others from a slot.
#[derive(Clone, Copy)]
pub struct Claim {
    against_sets: RowSet,
    against_adds: RowSet,
}

impl Claim {
    /// What a holder keeps out, where these are the rows of the slot's adders.
    fn of(holder: Holder, adders: RowSet) -> Claim
        requires { HasRow holder }
        ensures { result ≡ claim_of holder adders }
    {
        let nobody = RowSet::new();
        match holder {
            Holder::Nobody => Claim {
                against_sets: nobody,
                against_adds: nobody,
            },
            Holder::One { row, kind } => {
                let one = RowSet::only(row);
                let against_adds = match kind {
                    ChangeKind::Add => nobody,
                    ChangeKind::Set => one,
                };
                Claim {
                    against_sets: one,
                    against_adds,
                }
            }
            Holder::Adders => Claim {
                against_sets: adders,
                against_adds: nobody,
            },
        }
    }

    /// The rows that keep changes of this kind out.
    pub fn against(self, kind: ChangeKind) -> RowSet
        ensures { result ≡ rows_against self kind }
    {
        match kind {
            ChangeKind::Set => self.against_sets,
            ChangeKind::Add => self.against_adds,
        }
    }
}

/// The claims on all slots. Nearly always the mark of a slot says all: nobody holds it, or one
/// transaction. Only where several add to a slot, their rows are kept beside it. Either way it is
/// found by its place, so no log makes a look-up longer.
#[derive(Drop)]
pub struct Claims {
    marks: Marks,
    adders: Adders,
}

impl Claims {
    /// No claims.
    pub fn new(alloc: Global) -> Claims
        ensures { (page slot : ℕ) → claim_at result page slot ≡ no_claim }
    {
        Claims {
            marks: Marks::new(alloc),
            adders: Adders::new(alloc),
        }
    }

    /// The claim on a slot.
    pub fn claim(&self, page: PageNo, slot: SlotNo) -> Claim
        ensures { result ≡ claim_at self.now page slot }
    {
        Claim::of(self.marks.holder(page, slot), self.adders.rows(page, slot))
    }

    /// Prefetches what a change of a slot will look at first.
    pub fn look(&self, page: PageNo, slot: SlotNo) -> u8 {
        self.marks.look(page, slot)
    }

    /// Makes room for a change of a slot by the transaction of this row: `take` needs no memory
    /// then. An `Err` comes where memory for it is refused, or no page has the slot. The claims
    /// stay.
    #[inline(always)]
    pub fn make_room(&mut self, page: PageNo, slot: SlotNo, row: u8) -> Result<(), AllocError>
        ensures room { OnOk result (has_room self.new page slot row ≡ true) }
        ensures needed { OnErr result (has_room self.old page slot row ≡ false) }
        ensures same { KeepsHolds self.old self.new }
    {
        self.marks.make_room(page, slot)?;
        match self.marks.holder(page, slot) {
            Holder::Nobody => Ok(()),
            Holder::One { row: holder, .. } => {
                if holder == row {
                    Ok(())
                } else {
                    self.adders.make_room(page, slot)
                }
            }
            Holder::Adders => self.adders.make_room(page, slot),
        }
    }

    /// Takes a slot, for which there is room, for one more pending change of the transaction of
    /// this row, and answers what the transaction kept out before; None where another one keeps the
    /// change out, and nothing changes.
    #[inline(always)]
    pub fn take(&mut self, page: PageNo, slot: SlotNo, row: u8, kind: ChangeKind) -> Option<Hold>
        requires row { row < ROWS }
        requires room { has_room self.old page slot row ≡ true }
        ensures { Takes self.old self.new page slot row kind result }
    {
        match self.marks.holder(page, slot) {
            Holder::Nobody => {
                self.marks.put(page, slot, Holder::One { row, kind });
                Some(Hold::new())
            }
            Holder::One {
                row: holder,
                kind: held,
            } => {
                if holder == row {
                    Some(self.keep(page, slot, row, held, kind))
                } else {
                    self.share(page, slot, row, holder, held, kind)
                }
            }
            Holder::Adders => self.join(page, slot, row, kind),
        }
    }

    /// Takes a slot that the transaction holds by itself.
    fn keep(
        &mut self,
        page: PageNo,
        slot: SlotNo,
        row: u8,
        held: ChangeKind,
        kind: ChangeKind,
    ) -> Hold
        requires row { row < ROWS }
        requires room { has_room self.old page slot row ≡ true }
        requires held { holder_at self.old.marks page slot ≡ Holder.One row held }
        ensures { Taken self.old self.new page slot row kind result }
    {
        let kind = stronger(held, kind);
        self.marks.put(page, slot, Holder::One { row, kind });
        Hold::by(held)
    }

    /// Takes a slot that another transaction holds by itself: the two may only add to it.
    fn share(
        &mut self,
        page: PageNo,
        slot: SlotNo,
        row: u8,
        holder: u8,
        held: ChangeKind,
        kind: ChangeKind,
    ) -> Option<Hold>
        requires row { row < ROWS }
        requires room { has_room self.old page slot row ≡ true }
        requires holder { holder < ROWS }
        requires other { holder ≢ row }
        requires held { holder_at self.old.marks page slot ≡ Holder.One holder held }
        ensures { Takes self.old self.new page slot row kind result }
    {
        match (held, kind) {
            (ChangeKind::Add, ChangeKind::Add) => {
                let both = RowSet::only(holder).with(row, true);
                self.adders.put(page, slot, both);
                self.marks.put(page, slot, Holder::Adders);
                Some(Hold::new())
            }
            _ => None,
        }
    }

    /// Takes a slot that others may add to.
    #[inline(always)]
    fn join(&mut self, page: PageNo, slot: SlotNo, row: u8, kind: ChangeKind) -> Option<Hold>
        requires row { row < ROWS }
        requires room { has_room self.old page slot row ≡ true }
        requires held { holder_at self.old.marks page slot ≡ Holder.Adders }
        ensures { Takes self.old self.new page slot row kind result }
    {
        match kind {
            ChangeKind::Add => {
                let adders = self.adders.put_row(page, slot, row, true);
                Some(Hold::among(adders, row))
            }
            ChangeKind::Set => {
                let adders = self.adders.rows(page, slot);
                if !adders.with(row, false).is_empty() {
                    return None;
                }
                self.marks.put(page, slot, Holder::One { row, kind });
                Some(Hold::among(adders, row))
            }
        }
    }

    /// The transaction of this row has one pending change less on a slot, and keeps out again what
    /// it kept out before that change.
    #[inline(always)]
    pub fn release(&mut self, page: PageNo, slot: SlotNo, row: u8, before: Hold)
        requires row { row < ROWS }
        requires weaker { IsWeaker before (hold_at self.old page slot row) }
        ensures { SetsHold self.old self.new page slot row before }
    {
        match self.marks.holder(page, slot) {
            Holder::Adders => self.leave(page, slot, row, before),
            _ => self.marks.put(page, slot, holder_by(row, before)),
        }
    }

    /// Releases one pending change so on a slot that others may add to.
    #[inline(always)]
    fn leave(&mut self, page: PageNo, slot: SlotNo, row: u8, before: Hold)
        requires row { row < ROWS }
        requires held { holder_at self.old.marks page slot ≡ Holder.Adders }
        requires weaker { IsWeaker before (hold_at self.old page slot row) }
        ensures { SetsHold self.old self.new page slot row before }
    {
        if !before.against_sets {
            let _ = self.adders.put_row(page, slot, row, false);
        }
    }
}

/// What changes of these two kinds together come to.
fn stronger(held: ChangeKind, kind: ChangeKind) -> ChangeKind
    ensures { hold_with no_hold result ≡ hold_with (hold_with no_hold held) kind }
{
    match (held, kind) {
        (ChangeKind::Add, ChangeKind::Add) => ChangeKind::Add,
        _ => ChangeKind::Set,
    }
}

/// Who holds a slot of which this transaction alone keeps something out, namely this.
fn holder_by(row: u8, hold: Hold) -> Holder
    requires row { row < ROWS }
    requires sets { IsTrue hold.against_adds → IsTrue hold.against_sets }
    ensures row { HasRow result }
    ensures hold { (rows : RowSet) (other : ℕ) → other < ROWS
        → hold_in (claim_of result rows) other ≡ (if other == row then hold else no_hold) }
{
    if hold.against_adds {
        Holder::One {
            row,
            kind: ChangeKind::Set,
        }
    } else if hold.against_sets {
        Holder::One {
            row,
            kind: ChangeKind::Add,
        }
    } else {
        Holder::Nobody
    }
}
