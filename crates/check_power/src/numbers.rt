//! The numbers of a volume, and changes of them.

use crate::wrong::Wrong;
use page_core::{Page, PageNo, SLOTS, SlotNo};
use std::alloc::{AllocError, Global};

/// How many pages a volume has at most.
pub const MOST_PAGES: u32 = 9;

/// What a change makes of a number.
#[derive(Clone, Copy)]
pub enum Change {
    Set(u64),
    Add(u64),
}

impl Change {
    fn after(&self, number: u64) -> u64 {
        match self {
            Change::Set(after) => *after,
            Change::Add(amount) => number.wrapping_add(*amount),
        }
    }
}

/// A change of a slot.
#[derive(Clone, Copy)]
pub struct SlotChange {
    pub page: PageNo,
    pub slot: SlotNo,
    pub change: Change,
}

impl SlotChange {
    /// What it makes of the number of a slot.
    pub fn after(&self, page: PageNo, slot: SlotNo, number: u64) -> u64 {
        if self.page == page && self.slot == slot {
            self.change.after(number)
        } else {
            number
        }
    }
}

/// The numbers of a volume with so many pages. Those of further pages are 0.
#[derive(Drop)]
pub struct Numbers {
    pub pages: u32,
    slots: Vec<u64>,
}

fn place_of(page: PageNo, slot: SlotNo) -> usize {
    page.0 as usize * SLOTS + slot.0 as usize
}

impl Numbers {
    /// Those of a formatted volume.
    pub fn new(alloc: Global, pages: u32) -> Result<Numbers, AllocError> {
        let slots = Vec::from_elem(alloc, 0, MOST_PAGES as usize * SLOTS)?;
        Ok(Numbers { pages, slots })
    }

    /// A copy of these numbers.
    pub fn copied(&self, alloc: Global) -> Result<Numbers, AllocError> {
        Ok(Numbers {
            pages: self.pages,
            slots: Vec::from_slice(alloc, &self.slots)?,
        })
    }

    /// The number in a slot.
    pub fn number(&self, page: PageNo, slot: SlotNo) -> u64 {
        match self.slots.get(place_of(page, slot)) {
            Some(number) => *number,
            None => 0,
        }
    }

    /// Makes the changes.
    pub fn make(&mut self, changes: &[SlotChange]) {
        for it in changes {
            if let Some(number) = self.slots.get_mut(place_of(it.page, it.slot)) {
                *number = it.change.after(*number);
            }
        }
    }

    /// Where pages have other numbers first, if they do.
    pub fn difference(&self, pages: &[Page]) -> Option<Wrong> {
        if pages.len() as u64 != self.pages as u64 {
            return Some(Wrong::PageCount {
                found: pages.len() as u64,
                wanted: self.pages as u64,
            });
        }
        for page in pages {
            for (slot, found) in page.slots.iter().enumerate() {
                let slot = SlotNo((slot & 0xff) as u16);
                let wanted = self.number(page.number, slot);
                if wanted != *found {
                    return Some(Wrong::Number {
                        page: page.number.0,
                        slot: slot.0,
                        found: *found,
                        wanted,
                    });
                }
            }
        }
        None
    }

    /// Takes the numbers of these pages.
    pub fn take(&mut self, pages: &[Page]) {
        self.pages = 0;
        self.slots.fill(0);
        for page in pages {
            self.pages = self.pages.saturating_add(1);
            for (slot, found) in page.slots.iter().enumerate() {
                let slot = SlotNo((slot & 0xff) as u16);
                if let Some(number) = self.slots.get_mut(place_of(page.number, slot)) {
                    *number = *found;
                }
            }
        }
    }
}
