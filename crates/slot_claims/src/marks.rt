//! The holders of all slots.

ghost use Rattle.std.specs.Prelude.{ℕ, ◌≡◌, ◌+◌, ◌*◌, ◌<◌, ◌≤◌, ◌==◌, ◌&&◌, OnOk, OnErr, vec_len};
ghost use Rattle.std.specs.Prelude.{if◌then◌else◌, true, false};
ghost use Rattle.slot_claims.specs.HolderByte.{HasRow};
ghost use Rattle.slot_claims.specs.Marks.{has_mark, holder_at};

use crate::holder_byte::{Holder, HolderByte};
use page_core::{PageNo, SLOTS, SlotNo};
use std::alloc::{AllocError, Global};

/// The holders of all slots. A look-up or a change reaches for one byte, whatever the log.
#[derive(Drop)]
pub struct Marks {
    /// One for each slot, in order, up to the last page that has had a holder.
    marks: Vec<HolderByte>,
}

/// Where a slot stands among all slots of a volume.
fn place_of(page: PageNo, slot: SlotNo) -> usize
    ensures { result ≡ SLOTS * page + slot }
{
    SLOTS * page.0 as usize + slot.0 as usize
}

impl Marks {
    /// Nobody holds a slot.
    pub fn new(alloc: Global) -> Marks
        ensures { (page slot : ℕ) → holder_at result page slot ≡ Holder.Nobody }
    {
        Marks {
            marks: Vec::new(alloc),
        }
    }

    /// The holder of a slot.
    pub fn holder(&self, page: PageNo, slot: SlotNo) -> Holder
        ensures holder { result ≡ holder_at self.now page slot }
        ensures row { HasRow result }
    {
        let place = place_of(page, slot);
        if (slot.0 as usize) < SLOTS && place < self.marks.len() {
            self.marks[place].holder()
        } else {
            Holder::Nobody
        }
    }

    /// Reaches for the byte of a slot, so that it comes from memory. What it answers is that byte.
    pub fn look(&self, page: PageNo, slot: SlotNo) -> u8 {
        match self.marks.get(place_of(page, slot)) {
            Some(mark) => mark.byte(),
            None => 0,
        }
    }

    /// Makes room for the holder of a slot. An `Err` comes where memory for it is refused, or no
    /// page has the slot. The holders stay.
    #[inline(always)]
    pub fn make_room(&mut self, page: PageNo, slot: SlotNo) -> Result<(), AllocError>
        ensures room { OnOk result (has_mark self.new page slot ≡ true) }
        ensures needed { OnErr result (has_mark self.old page slot ≡ false) }
        ensures same { (p s : ℕ) → holder_at self.new p s ≡ holder_at self.old p s }
    {
        if slot.0 as usize >= SLOTS {
            return Err(AllocError);
        }
        if place_of(page, slot) < self.marks.len() {
            return Ok(());
        }
        self.make_page(page)
    }

    /// Puts this holder on a slot for which there is room.
    #[inline(always)]
    pub fn put(&mut self, page: PageNo, slot: SlotNo, holder: Holder)
        requires row { HasRow holder }
        requires room { has_mark self.old page slot ≡ true }
        ensures { (p s : ℕ) → holder_at self.new p s
            ≡ (if page == p && slot == s then holder else holder_at self.old p s) }
    {
        self.marks[place_of(page, slot)] = HolderByte::of(holder);
    }

    /// Makes room for a page that is behind those with room.
    #[cold]
    #[inline(never)]
    fn make_page(&mut self, page: PageNo) -> Result<(), AllocError>
        requires { vec_len self.old.marks ≤ SLOTS * (page + 1) }
        ensures ok { OnOk result (vec_len self.new.marks ≡ SLOTS * (page + 1)) }
        ensures same { (p s : ℕ) → holder_at self.new p s ≡ holder_at self.old p s }
    {
        let nobody = HolderByte::of(Holder::Nobody);
        self.marks.resize(SLOTS * (page.0 as usize + 1), nobody)
    }
}
