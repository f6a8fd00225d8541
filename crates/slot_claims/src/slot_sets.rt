//! The sets of rows of several slots of one page.

ghost use Rattle.std.specs.Prelude.{ℕ, ◌≡◌, ◌<◌, ◌==◌, OnOk, OnErr, true, false};
ghost use Rattle.std.specs.Prelude.{if◌then◌else◌};
ghost use Rattle.slot_claims.specs.Adders.{has_set, rows_among};
ghost use Rattle.slot_claims.specs.RowSet.{no_rows};

use crate::row_set::RowSet;
use page_core::SLOTS;
use std::alloc::{AllocError, Global};

/// A slot, and the rows of those who add to it.
#[derive(Clone, Copy)]
struct SlotRows {
    slot: u16,
    rows: RowSet,
}

/// The rows of several slots of one page. A set takes memory once a slot has it, and is found by
/// one look.
#[derive(Drop)]
pub struct SlotSets {
    /// Where the set of each slot stands, if it has one. What stands there names its slot, so a
    /// place that says nothing may be any.
    places: [u8; SLOTS],
    sets: Vec<SlotRows>,
}

impl SlotSets {
    /// No slot has a row.
    pub fn new(alloc: Global) -> SlotSets
        ensures { (slot : ℕ) → rows_among result slot ≡ no_rows }
    {
        SlotSets {
            places: [0; SLOTS],
            sets: Vec::new(alloc),
        }
    }

    /// The rows of a slot.
    #[inline(always)]
    pub fn rows(&self, slot: u16) -> RowSet
        requires { slot < SLOTS }
        ensures { result ≡ rows_among self.now slot }
    {
        let place = self.places[slot as usize] as usize;
        if place < self.sets.len() && self.sets[place].slot == slot {
            self.sets[place].rows
        } else {
            RowSet::new()
        }
    }

    /// Puts these rows on a slot that has a set.
    #[inline(always)]
    pub fn put(&mut self, slot: u16, rows: RowSet)
        requires slot { slot < SLOTS }
        requires room { has_set self.old slot ≡ true }
        ensures { (s : ℕ) → s < SLOTS → rows_among self.new s
            ≡ (if slot == s then rows else rows_among self.old s) }
    {
        let place = self.places[slot as usize] as usize;
        self.sets[place].rows = rows;
    }

    /// Makes room for the rows of a slot: it gets a set, where it has none. An `Err` comes where
    /// memory for it is refused. The rows stay.
    pub fn make_room(&mut self, slot: u16) -> Result<(), AllocError>
        requires { slot < SLOTS }
        ensures room { OnOk result (has_set self.new slot ≡ true) }
        ensures needed { OnErr result (has_set self.old slot ≡ false) }
        ensures same { (s : ℕ) → s < SLOTS → rows_among self.new s ≡ rows_among self.old s }
    {
        let place = self.places[slot as usize] as usize;
        if place < self.sets.len() && self.sets[place].slot == slot {
            return Ok(());
        }
        self.add(slot)
    }

    /// Gives a slot that has none a set without rows.
    #[cold]
    #[inline(never)]
    fn add(&mut self, slot: u16) -> Result<(), AllocError>
        requires slot { slot < SLOTS }
        requires absent { has_set self.old slot ≡ false }
        ensures room { OnOk result (has_set self.new slot ≡ true) }
        ensures needed { OnErr result (has_set self.old slot ≡ false) }
        ensures same { (s : ℕ) → s < SLOTS → rows_among self.new s ≡ rows_among self.old s }
    {
        // Each slot has one set at most, so there are fewer.
        let place = self.sets.len();
        if place > u8::MAX as usize {
            return Err(AllocError);
        }
        self.sets.push(SlotRows {
            slot,
            rows: RowSet::new(),
        })?;
        self.places[slot as usize] = place as u8;
        Ok(())
    }
}
