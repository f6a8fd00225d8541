//! A page, and the redo of a change on it.

ghost use Rattle.std.specs.Prelude.{ℕ, ◌≡◌, ◌<◌, ◌*◌, ◌^◌, ◌++◌, List, length, IfOk, Ok};
ghost use Rattle.std.specs.List.{flat_map, AllByRecursion};
ghost use Rattle.std.specs.Int.{w64, to_le_bytes};
ghost use Rattle.page_core.specs.declared.page.Page.{Page};
ghost use Rattle.page_core.specs.Page.{IsPage, SpellsPage, formatted, page_bytes, put};
ghost use Rattle.page_core.specs.Page.{volume_bytes};

use crate::change::Change;
use crate::field::{u32_at, u64_at};
use crate::numbers::{LSN_STEP, Lsn, PageNo, SlotNo};
use std::error::Error;
use std::fmt;

/// How many slots a page has.
pub const SLOTS: usize = 62;

/// How many bytes a page has.
pub const PAGE_BYTES: usize = 512;

/// The format that a page names behind its number.
const FORMAT: u32 = 1;

/// How many pages a volume may have, so their numbers are below this.
pub const MAX_PAGES: u32 = 65_536;

/// A page: its number, the LSN of the last record whose change it has, and its slots.
#[derive(Clone, Debug, Drop, PartialEq, Eq)]
pub struct Page {
    pub number: PageNo,
    /// A multiple of 64, and 0 where the page has no record's change.
    pub lsn: Lsn,
    pub slots: [u64; SLOTS],
}

/// Bytes that are no page.
#[derive(Clone, Copy, Debug, PartialEq, Eq)]
pub struct BadPage;

impl fmt::Display for BadPage {
    ghost use Rattle.std.specs.Prelude.{Some, codes};

    ghost output = { λ _. Some (codes "the bytes are no page") };

    fn fmt<W: fmt::Write>(&self, f: &mut fmt::Formatter<W>) -> fmt::Result {
        f.write_str("the bytes are no page")
    }
}

impl Error for BadPage {}

/// What spells a page begins the spelling of no other one. So some bytes spell one page at most.
pub fn pages_are_spelled_apart()
    ensures { (a b : Page) (x y : List ℕ) → IsPage a → IsPage b
        → page_bytes a ++ x ≡ page_bytes b ++ y → a ≡ b }
{}

/// Two different volumes have different spellings.
pub fn volumes_are_spelled_apart()
    ensures { (a b : List Page) → AllByRecursion IsPage a → AllByRecursion IsPage b
        → volume_bytes a ≡ volume_bytes b → a ≡ b }
{}

/// The numbers of a page and of a volume, as the formats of logs and archives have them too.
pub fn pages_have_these_numbers()
    ensures slots { SLOTS ≡ 62 }
    ensures bytes { PAGE_BYTES ≡ 512 }
    ensures format { FORMAT ≡ 1 }
    ensures pages { MAX_PAGES ≡ 65536 }
    ensures lsn_step { LSN_STEP ≡ 64 }
{}

impl Page {
    /// The page as a new volume has it: LSN 0, and 0 in each slot.
    #[tactic(auto, unfolding(crate::specs::Page::formatted))]
    pub fn formatted(number: PageNo) -> Page
        ensures { result ≡ formatted number }
    {
        Page {
            number,
            lsn: Lsn(0),
            slots: [0; SLOTS],
        }
    }

    /// A copy of the page. Unlike a clone, it cannot be refused.
    pub fn copy(&self) -> Page
        ensures { result ≡ self.now }
    {
        Page {
            number: self.number,
            lsn: self.lsn,
            slots: self.slots,
        }
    }

    /// Redoes a change: the slot gets the changed number, and the page gets the record's LSN. A
    /// slot that no page has is left out.
    pub fn apply(&mut self, lsn: Lsn, slot: SlotNo, change: &Change)
        ensures { self.new ≡ put self.old lsn slot change.now }
    {
        let slot = slot.0 as usize;
        if slot < SLOTS {
            self.slots[slot] = change.changed(self.slots[slot]);
        }
        self.lsn = lsn;
    }

    /// The bytes of the page: its number in four bytes, the format 1 in four, its LSN in eight,
    /// and each slot in eight, each with the lowest byte first.
    pub fn to_bytes(&self) -> [u8; PAGE_BYTES]
        ensures { result ≡ page_bytes self.now }
    {
        let mut bytes = [0; PAGE_BYTES];
        self.write_to(&mut bytes);
        bytes
    }

    /// Overwrites the buffer with the bytes of the page, as `to_bytes` gives them.
    pub fn write_to(&self, bytes: &mut [u8])
        requires { length bytes.old ≡ PAGE_BYTES }
        ensures { bytes.new ≡ page_bytes self.now }
    {
        bytes[..4].copy_from_slice(&self.number.0.to_le_bytes());
        bytes[4..8].copy_from_slice(&FORMAT.to_le_bytes());
        bytes[8..16].copy_from_slice(&self.lsn.0.to_le_bytes());
        put_slots(&mut bytes[16..], &self.slots);
    }

    /// The page that these bytes spell. Bytes of another length, number, format or LSN spell none.
    pub fn from_bytes(bytes: &[u8]) -> Result<Page, BadPage>
        ensures found { IfOk result (λ page. SpellsPage page bytes.now) }
        ensures only { (page : Page) → SpellsPage page bytes.now → result ≡ Ok page }
    {
        if bytes.len() != PAGE_BYTES {
            return Err(BadPage);
        }
        let number = u32_at(bytes, 0);
        let format = u32_at(bytes, 4);
        let lsn = u64_at(bytes, 8);
        if number >= MAX_PAGES || format != FORMAT || lsn % LSN_STEP != 0 {
            return Err(BadPage);
        }
        Ok(Page {
            number: PageNo(number),
            lsn: Lsn(lsn),
            slots: slots_in(&bytes[16..]),
        })
    }
}

/// Writes each number in eight bytes.
fn put_slots(bytes: &mut [u8], slots: &[u64])
    requires { length bytes.old ≡ 8 * length slots.now }
    ensures { bytes.new ≡ flat_map (to_le_bytes w64) slots.now }
{
    for (i, number) in slots.iter().enumerate() {
        bytes[8 * i..8 * i + 8].copy_from_slice(&number.to_le_bytes());
    }
}

/// The numbers in these bytes, eight for each.
fn slots_in(bytes: &[u8]) -> [u64; SLOTS]
    requires { length bytes.now ≡ 8 * SLOTS }
    ensures count { length result ≡ SLOTS }
    ensures fit { AllByRecursion (λ n. n < 2 ^ 64) result }
    ensures found { bytes.now ≡ flat_map (to_le_bytes w64) result }
    ensures only { (slots : List ℕ) → length slots ≡ SLOTS → AllByRecursion (λ n. n < 2 ^ 64) slots
        → bytes.now ≡ flat_map (to_le_bytes w64) slots → result ≡ slots }
{
    let mut slots = [0; SLOTS];
    for (i, slot) in slots.iter_mut().enumerate() {
        *slot = u64_at(bytes, 8 * i);
    }
    slots
}
