//! The slots in which the pages of a pool stand.

ghost use Rattle.std.specs.Prelude.{◌≡◌, ◌+◌, ◌-◌, ◌*◌, ◌<◌, ◌≤◌, ◌++◌, [], ◌∷◌, None, Some};
ghost use Rattle.std.specs.Prelude.{◌↔◌, false, true};
ghost use Rattle.std.specs.Prelude.{length, map, is_some, slice_get, slice_index_or, slice_set};
ghost use Rattle.std.specs.Prelude.{IfOk, IfSome, IsSome, OnErr, OnOk, nat_eq, nat_le};
ghost use Rattle.std.specs.List.{Contains};
ghost use Rattle.std.specs.Option.{option_copied, option_map};
ghost use Rattle.indexmap.specs.IndexMap.{get, spare, values};
ghost use Rattle.log_records.specs.Image.{with_record};
ghost use Rattle.log_records.specs.Record.{change_of};
ghost use Rattle.buffer_pool.specs.Frames.{is_resident};
ghost use Rattle.buffer_pool.specs.Slots.{IsPlace, IsTrimmed, pages_in};

use crate::frame::{Frame, MAX_FRAMES};
use crate::page_hasher::PageHasher;
use indexmap::IndexMap;
use log_records::Record;
use page_core::{MAX_PAGES, Page, PageNo};
use std::alloc::{AllocError, Global};
use std::hash::BuildHasherDefault;
use std::marker::Model;

/// A frame under the number of its page, or a hole.
type SlotMap = IndexMap<u32, Option<Frame>, BuildHasherDefault<PageHasher>>;

/// Frames in slots, in the order in which they came, with holes among them. A page is found by its
/// number.
#[derive(Drop)]
pub(crate) struct Slots {
    /// A page that is taken out leaves a hole under its number. Other holes have numbers past
    /// those of all pages.
    slots: SlotMap,
    /// How many slots have a frame.
    count: usize,
    /// Whether no hole has a number past those of all pages.
    is_named: bool,
}

impl Model for Slots {
    ghost use Rattle.indexmap.specs.IndexMap.{spare as room_of, values};
    ghost use Rattle.std.specs.Prelude.{◌≡◌, true};
    ghost use Rattle.buffer_pool.specs.Slots.{AreCounted, ArePageNumbers, AreUnderNumbers, SlotsView};

    ghost Value = { SlotsView };

    ghost view = { λ it. record { list = values it.slots; spare = room_of it.slots } };

    ghost invariant = { λ it. AreUnderNumbers it.slots.entries
        × AreCounted it.count (values it.slots)
        × (it.is_named ≡ true → ArePageNumbers it.slots.entries) };
}

impl Slots {
    /// No slot, for so many frames. The map has room for 32 entries for each frame, up to two for
    /// each page that a volume may have, so that few slots share a group of its table.
    /// `AllocError` comes where memory is refused.
    pub(crate) fn new(alloc: Global, frames: u32) -> Result<Slots, AllocError>
        ensures list { IfOk result (λ it. it.list ≡ []) }
    {
        let room = (32 * frames.min(MAX_FRAMES)).min(2 * MAX_PAGES);
        Ok(Slots {
            slots: IndexMap::with_capacity_and_hasher(
                alloc,
                room as usize,
                BuildHasherDefault::new(),
            )?,
            count: 0,
            is_named: true,
        })
    }

    /// What the slots take memory of.
    pub(crate) fn allocator(&self) -> Global {
        *self.slots.allocator()
    }

    /// How many slots there are.
    pub(crate) fn len(&self) -> usize
        ensures { result ≡ length self.now.list }
    {
        self.slots.len()
    }

    /// How many pages stand in them.
    pub(crate) fn count(&self) -> usize
        ensures { result ≡ length (pages_in self.now.list) }
    {
        self.count
    }

    /// Whether there are at least as many holes as pages.
    pub(crate) fn is_sparse(&self) -> bool
        ensures { result ≡ nat_le (2 * length (pages_in self.now.list)) (length self.now.list) }
    {
        self.slots.len() - self.count >= self.count
    }

    /// The page in a slot.
    pub(crate) fn at(&self, place: usize) -> Option<&Page>
        ensures { option_copied result ≡ slice_index_or self.now.list place None }
    {
        Some(self.slots.get_index(place)?.1.as_ref()?.page())
    }

    /// The place of the page of this number.
    pub(crate) fn place_of(&self, number: PageNo) -> Option<usize>
        ensures found { is_some result ≡ is_resident (pages_in self.now.list) number }
        ensures place { IfSome result (IsPlace self.now.list number) }
    {
        let place = self.slots.get_index_of(&number.0)?;
        self.at(place)?;
        Some(place)
    }

    /// The page of this number.
    pub(crate) fn page(&self, number: PageNo) -> Option<&Page>
        ensures found { is_some result ≡ is_resident (pages_in self.now.list) number }
        ensures there { IfSome result (λ page. Contains (pages_in self.now.list) page.now) }
        ensures numbered { IfSome result (λ page. page.now.number ≡ number) }
    {
        self.at(self.place_of(number)?)
    }

    /// Redoes a record on the page that it changes.
    pub(crate) fn redo(&mut self, number: PageNo, next: &Record)
        requires { IfSome (change_of next.now) (λ c. c.page ≡ number) }
        ensures list { self.new.list
            ≡ map (option_map (λ page. with_record page next.now)) self.old.list }
        ensures spare { self.new.spare ≡ self.old.spare }
    {
        if let Some(place) = self.slots.get_index_of(&number.0) {
            redo_slot(&mut self.slots[place], next);
        }
    }

    /// Makes room for one slot more. `AllocError` comes where it is refused.
    pub(crate) fn reserve(&mut self) -> Result<(), AllocError>
        ensures room { OnOk result (0 < self.new.spare) }
        ensures needed { OnErr result (self.old.spare ≡ 0) }
        ensures same { self.new.list ≡ self.old.list }
    {
        self.slots.reserve(1)
    }

    /// Puts a frame into a slot behind the others. It takes no memory.
    pub(crate) fn push(&mut self, frame: Frame)
        requires room { 0 < self.old.spare }
        requires within { frame.number < MAX_PAGES }
        requires absent { is_resident (pages_in self.old.list) frame.number ≡ false }
        ensures { self.new.list ≡ self.old.list ++ Some frame ∷ [] }
    {
        let number = frame.page().number.0;
        let found = self.slots.get_index_of(&number);
        self.count += 1;
        match found {
            None => put_last(&mut self.slots, number, Some(frame)),
            Some(hole) => {
                self.is_named = false;
                put_past_hole(&mut self.slots, hole, number, frame);
            }
        }
    }

    /// Takes the frame out of a slot, and leaves a hole there.
    pub(crate) fn take(&mut self, place: usize) -> Option<Frame>
        requires taken { IsSome (slice_index_or self.old.list place None) }
        requires holes { length self.old.list ≤ 2 * length (pages_in self.old.list) - 1 }
        ensures frame { result ≡ slice_index_or self.old.list place None }
        ensures list { self.new.list ≡ slice_set self.old.list place None }
        ensures spare { self.new.spare ≡ self.old.spare }
    {
        self.count -= 1;
        self.slots[place].take()
    }

    /// Takes the last slot away if it is a hole, unless a hole has a number past those of all
    /// pages: such numbers are made from the count of slots, which must not fall then.
    pub(crate) fn trim(&mut self)
        ensures list { IsTrimmed self.old.list self.new.list }
        ensures spare { self.old.spare ≤ self.new.spare }
    {
        if self.is_named && has_hole_last(&self.slots) {
            self.slots.pop();
        }
    }

    /// Squeezes the holes out, so that the pages move to the front.
    pub(crate) fn squeeze(&mut self)
        ensures list { self.new.list ≡ map Some (pages_in self.old.list) }
        ensures spare { self.old.spare ≤ self.new.spare }
    {
        self.slots.retain(
            |_number: &u32, slot: &mut Option<Frame>| -> bool
                ensures { (result ≡ is_some slot.old) × (slot.new ≡ slot.old) }
            { slot.is_some() },
        );
        self.is_named = true;
    }
}

/// Whether the last slot is a hole.
fn has_hole_last(slots: &SlotMap) -> bool
    ensures { (result ≡ true)
        ↔ (slice_get (values slots.now) (length slots.now.entries - 1) ≡ Some None) }
{
    matches!(slots.last(), Some((_, None)))
}

/// Puts a slot behind the others. It takes no memory.
fn put_last(slots: &mut SlotMap, number: u32, slot: Option<Frame>)
    requires room { 0 < spare slots.old }
    requires absent { get nat_eq slots.old number ≡ None }
    ensures { slots.new.entries ≡ slots.old.entries ++ (number, slot) ∷ [] }
{
    slots.insert(number, slot).unwrap();
}

/// Puts a frame behind the others, under the number of a hole that stands among them. The hole gets
/// a number past all that there are.
fn put_past_hole(slots: &mut SlotMap, hole: usize, number: u32, frame: Frame)
    requires room { 0 < spare slots.old }
    requires few { length slots.old.entries ≤ 2 * MAX_PAGES + 1 }
    requires free { get nat_eq slots.old (MAX_PAGES + length slots.old.entries) ≡ None }
    requires hole { slice_get slots.old.entries hole ≡ Some (number, None) }
    ensures { slots.new.entries
        ≡ slice_set slots.old.entries hole (MAX_PAGES + length slots.old.entries, None)
        ++ (number, Some frame) ∷ [] }
{
    let end = slots.len();
    put_last(slots, MAX_PAGES + end as u32, None);
    slots.swap_indices(hole, end);
    slots[end] = Some(frame);
}

/// Redoes a record on the page of a slot, if it is a change of this page.
fn redo_slot(slot: &mut Option<Frame>, next: &Record)
    ensures { slot.new ≡ option_map (λ page. with_record page next.now) slot.old }
{
    if let Some(frame) = slot {
        frame.redo(next);
    }
}
