//! What the pool knows of each page besides its content.

ghost use Rattle.std.specs.Prelude.{ℕ, ◌≡◌, ◌<◌, ◌≤◌, [], length, replicate, slice_set, IfOk};
ghost use Rattle.std.specs.Prelude.{None, Some, IfSome, IsSome, MatchOption};
ghost use Rattle.std.specs.Option.{option_copied, unwrap_or};
ghost use Rattle.log_records.specs.Coverage.{entries_of, next_dirty};
ghost use Rattle.buffer_pool.specs.PageStates.{AreClean, IsFirstDirty, dirty_in};
ghost use Rattle.buffer_pool.specs.Pool.{changed, grown_states, is_clean_in, state_in, unwritten};
ghost use Rattle.buffer_pool.specs.Pool.{stored_states, write_begun};
ghost use Rattle.buffer_pool.specs.Pool.{write_ended};

use crate::growth::{grow_column, grow_column_with};
use crate::page_image::PageImage;
use crate::rec_lsns::RecLsns;
use log_records::{DirtyPage, DirtyPages};
use page_core::{Lsn, MAX_PAGES, Page, PageNo};
use std::alloc::{AllocError, Global};
use std::marker::Model;

/// The state of each page, in columns.
#[derive(Drop)]
pub(crate) struct PageStates {
    /// The LSN of the last write.
    last_writes: Vec<Lsn>,
    /// The RecLSN, if the page is dirty.
    rec_lsns: RecLsns,
    /// The image that is being written.
    images: Vec<Option<PageImage>>,
    /// The first change since that image.
    first_changes: Vec<Option<Lsn>>,
}

impl Model for PageStates {
    ghost use Rattle.std.specs.Prelude.{List, vec_capacity};
    ghost use Rattle.buffer_pool.specs.Pool.{PageState};
    ghost use Rattle.buffer_pool.specs.PageStates.{AreColumns, HaveRoom, states_of};

    ghost Value = { List PageState };

    ghost view = { λ it. states_of it.last_writes.items it.rec_lsns it.images.items
        it.first_changes.items };

    ghost invariant = { λ it. AreColumns it.last_writes.items it.rec_lsns it.images.items
        it.first_changes.items
        × HaveRoom (vec_capacity it.last_writes) (vec_capacity it.images)
        (vec_capacity it.first_changes) };
}

impl PageStates {
    /// The states of so many pages, neither changed nor written, with room for those of as many as
    /// a volume may have. `AllocError` comes where memory is refused.
    pub(crate) fn new(alloc: Global, count: u32) -> Result<PageStates, AllocError>
        requires { count ≤ MAX_PAGES }
        ensures { IfOk result (λ states. states ≡ replicate count unwritten) }
    {
        let mut states = PageStates {
            last_writes: Vec::with_capacity(alloc, MAX_PAGES as usize)?,
            rec_lsns: RecLsns::new(alloc)?,
            images: Vec::with_capacity(alloc, MAX_PAGES as usize)?,
            first_changes: Vec::with_capacity(alloc, MAX_PAGES as usize)?,
        };
        states.grow(count);
        Ok(states)
    }

    /// The states of pages that are stored as they are, and were not changed since, with room as
    /// `new` makes it.
    pub(crate) fn stored(alloc: Global, pages: &[Page]) -> Result<PageStates, AllocError>
        requires { length pages.now ≤ MAX_PAGES }
        ensures { IfOk result (λ states. states ≡ stored_states pages.now) }
    {
        let mut states = PageStates::new(alloc, pages.len() as u32)?;
        for (index, page) in pages.iter().enumerate() {
            states.end_write(PageNo(index as u32), page.lsn);
        }
        Ok(states)
    }

    /// There are `count` pages, at least: those that are added were neither changed nor written. It
    /// takes no memory.
    pub(crate) fn grow(&mut self, count: u32)
        requires { count ≤ MAX_PAGES }
        ensures { self.new ≡ grown_states count self.old }
    {
        grow_column_with(&mut self.last_writes, count, Lsn(0));
        self.rec_lsns.grow(count);
        grow_column(&mut self.images, count);
        grow_column(&mut self.first_changes, count);
    }

    /// How many pages there are.
    pub(crate) fn count(&self) -> u32
        ensures { result ≡ length self.now }
    {
        self.last_writes.len() as u32
    }

    /// The RecLSN of a page, if it is dirty.
    pub(crate) fn rec_lsn(&self, number: PageNo) -> Option<Lsn>
        requires { number < length self.now }
        ensures { result ≡ (state_in self.now number).rec_lsn }
    {
        self.rec_lsns.of(number)
    }

    /// Whether a page is not dirty.
    pub(crate) fn is_clean(&self, number: PageNo) -> bool
        ensures { result ≡ is_clean_in self.now number }
    {
        self.rec_lsns.has_none(number)
    }

    /// The image of a page that is being written, if it is.
    pub(crate) fn image(&self, number: PageNo) -> Option<&PageImage>
        requires { number < length self.now }
        ensures image { option_copied result ≡ (state_in self.now number).writing }
        ensures numbered { IfSome result (λ image. image.now.number ≡ number) }
    {
        self.images[number.0 as usize].as_ref()
    }

    /// A record has changed a page: the page is dirty from it on, if it was not before, and an
    /// image that is being written lacks the change.
    pub(crate) fn change(&mut self, number: PageNo, lsn: Lsn)
        requires { number < length self.old }
        ensures { self.new ≡ slice_set self.old number (changed (state_in self.old number) lsn) }
    {
        let index = number.0 as usize;
        self.rec_lsns.note(number, lsn);
        if self.images[index].is_some() {
            note_first(&mut self.first_changes[index], lsn);
        }
    }

    /// A write of a page begins, with this image.
    pub(crate) fn begin_write(&mut self, image: PageImage)
        requires { image.number < length self.old }
        ensures { self.new ≡ slice_set self.old image.number
            (write_begun (state_in self.old image.number) image) }
    {
        let number = image.page().number;
        let index = number.0 as usize;
        self.images[index] = Some(image);
        self.first_changes[index] = None;
    }

    /// A write of a page has ended: its image, which has this LSN, is stored.
    pub(crate) fn end_write(&mut self, number: PageNo, lsn: Lsn)
        requires { number < length self.old }
        ensures { self.new
            ≡ slice_set self.old number (write_ended (state_in self.old number) lsn) }
    {
        let index = number.0 as usize;
        self.last_writes[index] = lsn;
        self.rec_lsns.replace(number, self.first_changes[index]);
        self.images[index] = None;
        self.first_changes[index] = None;
    }

    /// The next dirty pages from a page number on, in order of their numbers: as many as there are,
    /// and at most three. `None` comes where none is left.
    pub(crate) fn dirty_from(&self, cursor: PageNo) -> Option<DirtyPages>
        ensures { let next = next_dirty (dirty_in self.now) cursor in
            MatchOption result (next ≡ []) (λ some. entries_of some ≡ next) }
    {
        let first = self.next_dirty(cursor.0)?;
        let Some(second) = self.next_dirty(first.page + 1) else {
            return Some(DirtyPages::One(first));
        };
        let Some(third) = self.next_dirty(second.page + 1) else {
            return Some(DirtyPages::Two(first, second));
        };
        Some(DirtyPages::Three(first, second, third))
    }

    /// The first dirty page from a number on.
    fn next_dirty(&self, from: u32) -> Option<DirtyPage>
        ensures first { MatchOption result (AreClean self.now from (length self.now))
            (IsFirstDirty self.now from) }
        ensures fits { IfSome result (λ e. e.page < u32.MAX) }
    {
        self.rec_lsns.first_from(from)
    }
}

/// Notes the LSN of a change, if none was noted before.
fn note_first(first: &mut Option<Lsn>, lsn: Lsn)
    ensures { first.new ≡ Some (unwrap_or first.old lsn) }
{
    if first.is_none() {
        *first = Some(lsn);
    }
}
