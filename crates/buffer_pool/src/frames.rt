//! The frames of a pool.

ghost use Rattle.std.specs.Prelude.{ℕ, ◌≡◌, ◌≢◌, ◌-◌, ◌*◌, ◌<◌, ◌≤◌, ◌++◌, Bool, Option, [], ◌∷◌};
ghost use Rattle.std.specs.Prelude.{true, false, length, map, position, slice_index_or};
ghost use Rattle.std.specs.Prelude.{is_some};
ghost use Rattle.std.specs.Prelude.{IfOk, IfSome, OnErr, OnOk};
ghost use Rattle.std.specs.List.{Contains, list_any};
ghost use Rattle.page_core.specs.Volume.{formatted_pages};
ghost use Rattle.page_core.specs.declared.page.Page.{Page};
ghost use Rattle.log_records.specs.Image.{with_record};
ghost use Rattle.log_records.specs.Record.{change_of};
ghost use Rattle.buffer_pool.specs.Frames.{IsResident, IsSought, given_up, is_resident};
ghost use Rattle.buffer_pool.specs.Marks.{IsPassed, has_clean};
ghost use Rattle.buffer_pool.specs.Pool.{is_clean_in};

use crate::frame::Frame;
use crate::marks::Marks;
use crate::page_states::PageStates;
use crate::slots::Slots;
use log_records::Record;
use page_core::{MAX_PAGES, Page, PageNo};
use std::alloc::{AllocError, Global};
use std::marker::Model;

/// The pages in memory, in the order in which they were fetched.
#[derive(Drop)]
pub(crate) struct Frames {
    /// A slot for each page. A page that was given up leaves a hole, so that no other page has to
    /// move. The holes are squeezed out once there are as many of them as pages.
    slots: Slots,
    /// A frame that holds nothing, for the next page that comes in.
    free: Option<Frame>,
    /// A mark at the slot of each clean page.
    marks: Marks,
}

impl Model for Frames {
    ghost use Rattle.buffer_pool.specs.Frames.{FramesView, frames_view};

    ghost Value = { FramesView };

    ghost view = { λ it. frames_view it.slots it.free it.marks };
}

impl Frames {
    /// No frame is taken of so many. `AllocError` comes where memory is refused.
    pub(crate) fn new(alloc: Global, count: u32) -> Result<Frames, AllocError>
        ensures slots { IfOk result (λ it. it.slots ≡ []) }
        ensures pages { IfOk result (λ it. it.pages ≡ []) }
        ensures room { IfOk result (λ it. it.room ≡ 0) }
    {
        Ok(Frames {
            slots: Slots::new(alloc, count)?,
            free: None,
            marks: Marks::new(alloc, count)?,
        })
    }

    /// A frame for each of so many pages, which are formatted. `AllocError` comes where memory is
    /// refused.
    pub(crate) fn formatted(alloc: Global, count: u32) -> Result<Frames, AllocError>
        requires { count ≤ MAX_PAGES }
        ensures pages { IfOk result (λ it. it.pages ≡ formatted_pages count) }
        ensures sought { IfOk result (IsSought (λ _. true)) }
    {
        let mut frames = Frames::new(alloc, count)?;
        for number in 0..count {
            frames.make_room()?;
            frames.put(Page::formatted(PageNo(number)));
        }
        Ok(frames)
    }

    /// How many frames are taken.
    pub(crate) fn len(&self) -> usize
        ensures { result ≡ length self.now.pages }
    {
        self.slots.count()
    }

    /// Whether the page has a frame.
    pub(crate) fn is_resident(&self, number: PageNo) -> bool
        ensures { result ≡ is_resident self.now.pages number }
    {
        self.slots.place_of(number).is_some()
    }

    /// The page of this number.
    pub(crate) fn page(&self, number: PageNo) -> &Page
        requires { IsResident self.now.pages number }
        ensures there { Contains self.now.pages result.now }
        ensures numbered { result.now.number ≡ number }
    {
        let Some(page) = self.slots.page(number) else {
            unreachable!();
        };
        page
    }

    /// Redoes a record on the page that it changes.
    pub(crate) fn redo(&mut self, number: PageNo, next: &Record)
        requires { IfSome (change_of next.now) (λ c. c.page ≡ number) }
        ensures pages { self.new.pages ≡ map (λ page. with_record page next.now) self.old.pages }
        ensures room { self.new.room ≡ self.old.room }
        ensures sought { (clean : ℕ → Bool) → IsSought clean self.old → IsSought clean self.new }
    {
        self.slots.redo(number, next);
    }

    /// What the frames take memory of.
    pub(crate) fn allocator(&self) -> Global {
        self.slots.allocator()
    }

    /// The slot of the clean page that was fetched earliest.
    pub(crate) fn first_clean(&self, states: &PageStates) -> Option<usize>
        requires { IsSought (is_clean_in states.now) self.now }
        ensures place { result ≡ position (has_clean (is_clean_in states.now)) self.now.slots }
        ensures found { is_some result
            ≡ list_any (λ page. is_clean_in states.now page.number) self.now.pages }
    {
        let mut place = self.marks.next(0);
        while place < self.slots.len() {
            if self.has_clean_at(place, states) {
                return Some(place);
            }
            place = self.marks.next(place + 1);
        }
        None
    }

    /// Whether a slot has a clean page.
    fn has_clean_at(&self, place: usize, states: &PageStates) -> bool
        ensures { (d : Option Page) → place < length self.now.slots
            → result ≡ has_clean (is_clean_in states.now) (slice_index_or self.now.slots place d) }
    {
        match self.slots.at(place) {
            Some(page) => states.is_clean(page.number),
            None => false,
        }
    }

    /// The page of this number may have become clean, or is not clean any more.
    pub(crate) fn note(&mut self, number: PageNo, states: &PageStates)
        ensures pages { self.new.pages ≡ self.old.pages }
        ensures room { self.new.room ≡ self.old.room }
        ensures sought { (clean : ℕ → Bool) → IsSought clean self.old
            → ((n : ℕ) → n ≢ number → clean n ≡ false → is_clean_in states.now n ≡ false)
            → IsSought (is_clean_in states.now) self.new }
    {
        if let Some(place) = self.slots.place_of(number) {
            if states.is_clean(number) {
                self.marks.set(place);
            } else {
                self.marks.clear(place);
            }
        }
    }

    /// The page of this number has changed, so it is not clean any more.
    pub(crate) fn note_change(&mut self, number: PageNo, was_clean: bool, states: &PageStates)
        ensures pages { self.new.pages ≡ self.old.pages }
        ensures room { self.new.room ≡ self.old.room }
        ensures sought { (clean : ℕ → Bool) → IsSought clean self.old
            → ((n : ℕ) → n ≢ number → clean n ≡ false → is_clean_in states.now n ≡ false)
            → is_clean_in states.now number ≡ false
            → IsSought (is_clean_in states.now) self.new }
    {
        if was_clean {
            self.note(number, states);
        }
    }

    /// Makes room for one page more. `AllocError` comes where it is refused. The pages stay.
    pub(crate) fn make_room(&mut self) -> Result<(), AllocError>
        ensures room { OnOk result (0 < self.new.room) }
        ensures needed { OnErr result (self.old.room ≡ 0) }
        ensures same { self.new.pages ≡ self.old.pages }
        ensures sought { (clean : ℕ → Bool) → IsSought clean self.old → IsSought clean self.new }
    {
        if self.free.is_none() {
            self.free = Some(Frame::new(self.allocator())?);
        }
        self.slots.reserve()
    }

    /// Puts a page into a frame of its own, behind the others. It takes no memory, since
    /// `make_room` has made its room.
    pub(crate) fn put(&mut self, page: Page)
        requires room { 0 < self.old.room }
        requires within { page.number < MAX_PAGES }
        requires absent { is_resident self.old.pages page.number ≡ false }
        ensures pages { self.new.pages ≡ self.old.pages ++ page ∷ [] }
        ensures sought { (clean : ℕ → Bool) → IsSought clean self.old → IsSought clean self.new }
    {
        self.marks.set(self.slots.len());
        let Some(mut frame) = self.free.take() else {
            unreachable!();
        };
        frame.hold(page);
        self.slots.push(frame);
    }

    /// Puts a page into a frame of its own, behind the others, and gives up the clean page that
    /// was fetched earliest. Its frame is free for the next page that comes in.
    pub(crate) fn replace(&mut self, page: Page, states: &PageStates)
        requires room { 0 < self.old.room }
        requires within { page.number < MAX_PAGES }
        requires absent { is_resident self.old.pages page.number ≡ false }
        requires sought { IsSought (is_clean_in states.now) self.old }
        ensures pages { self.new.pages ≡ given_up (is_clean_in states.now) self.old.pages
            ++ page ∷ [] }
        ensures free { self.new.has_free
            ≡ list_any (λ page. is_clean_in states.now page.number) self.old.pages }
        ensures sought { IsSought (is_clean_in states.now) self.new }
    {
        self.limit_holes(states);
        let given_up = self.give_up(states);
        self.put(page);
        self.free = given_up;
    }

    /// Gives up the clean page that was fetched earliest, and hands out its frame.
    fn give_up(&mut self, states: &PageStates) -> Option<Frame>
        requires holes { length self.old.slots ≤ 2 * length self.old.pages - 1 }
        requires sought { IsSought (is_clean_in states.now) self.old }
        ensures pages { self.new.pages ≡ given_up (is_clean_in states.now) self.old.pages }
        ensures frame { is_some result
            ≡ list_any (λ page. is_clean_in states.now page.number) self.old.pages }
        ensures room { self.old.room ≤ self.new.room }
        ensures sought { IsSought (is_clean_in states.now) self.new }
    {
        let place = self.first_clean(states)?;
        let frame = self.slots.take(place);
        self.marks.clear(place);
        self.slots.trim();
        frame
    }

    /// Squeezes the holes out where there are as many of them as pages.
    fn limit_holes(&mut self, states: &PageStates)
        requires sought { IsSought (is_clean_in states.now) self.old }
        ensures pages { self.new.pages ≡ self.old.pages }
        ensures holes { length self.new.slots ≤ 2 * length self.new.pages - 1 }
        ensures room { self.old.room ≤ self.new.room }
        ensures sought { IsSought (is_clean_in states.now) self.new }
    {
        if self.slots.is_sparse() {
            self.squeeze(states);
        }
    }

    /// Squeezes the holes out, and marks the clean pages anew, since they have moved.
    fn squeeze(&mut self, states: &PageStates)
        ensures pages { self.new.pages ≡ self.old.pages }
        ensures holes { length self.new.slots ≡ length self.new.pages }
        ensures room { self.old.room ≤ self.new.room }
        ensures sought { IsSought (is_clean_in states.now) self.new }
    {
        self.slots.squeeze();
        for place in 0..self.slots.len() {
            self.mark_at(place, states);
        }
    }

    /// Marks a slot if it has a clean page.
    fn mark_at(&mut self, place: usize, states: &PageStates)
        ensures slots { self.new.slots ≡ self.old.slots }
        ensures pages { self.new.pages ≡ self.old.pages }
        ensures room { self.new.room ≡ self.old.room }
        ensures others { (k : ℕ) → IsPassed self.new.marks k → k ≢ place
            → IsPassed self.old.marks k }
        ensures here { (d : Option Page) → place < length self.new.slots
            → IsPassed self.new.marks place
            → has_clean (is_clean_in states.now) (slice_index_or self.new.slots place d) ≡ false }
    {
        if self.has_clean_at(place, states) {
            self.marks.set(place);
        } else {
            self.marks.clear(place);
        }
    }
}
