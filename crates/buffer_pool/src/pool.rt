//! The buffer pool.

ghost use Rattle.std.specs.Prelude.{ℕ, ◌≡◌, ◌<◌, ◌≤◌, List, [], ◌∷◌, false, length, map, slice_get};
ghost use Rattle.std.specs.Prelude.{slice_index_or, slice_set, None, Some, IfSome, IsNone, IsSome};
ghost use Rattle.std.specs.Prelude.{MatchOption, is_some, Ok, Err, IfOk, IfErr, OnOk, OnErr};
ghost use Rattle.std.specs.List.{Contains};
ghost use Rattle.page_core.specs.declared.page.Page.{Page};
ghost use Rattle.page_core.specs.declared.page.TheConstants.{MAX_PAGES};
ghost use Rattle.page_core.specs.Volume.{AreNumbered, formatted_pages};
ghost use Rattle.log_records.specs.Image.{image, redo_all, with_record};
ghost use Rattle.log_records.specs.Log.{IsLog, IsPageCount, Log, page_count, with_next};
ghost use Rattle.log_records.specs.Coverage.{dirty, entries_of, next_dirty};
ghost use Rattle.log_records.specs.PageCount.{given_count};
ghost use Rattle.log_records.specs.Record.{change_of};
ghost use Rattle.log_records.specs.declared.record.Record.TheVariants.{Extend};
ghost use Rattle.page_store.specs.Store.{IsGrown, StoresOrKeeps};
ghost use Rattle.buffer_pool.specs.Frames.{IsResident, fetched, is_full, is_resident};
ghost use Rattle.buffer_pool.specs.Pool.{IsPoolOf, clean_pool, grown_pool, is_clean, new_pool};
ghost use Rattle.buffer_pool.specs.Pool.{stored_as_now};
ghost use Rattle.buffer_pool.specs.Pool.{state_at};
ghost use Rattle.buffer_pool.specs.Pool.{whole_pool};
ghost use Rattle.buffer_pool.specs.Pool.{with_state, write_begun, write_ended, writing_of};
ghost use Rattle.buffer_pool.specs.Pool.{written_of};

use crate::frames::Frames;
use crate::page_image::PageImage;
use crate::page_states::PageStates;
use log_records::{DirtyPages, Record};
use page_core::{Lsn, Page, PageNo};
use page_store::{PageStore, StoreFault};
use std::alloc::{AllocError, Global};
use std::marker::Model;

/// Pages of a volume in memory, over a store of all of them. It knows which pages are dirty, and
/// which are being written.
#[derive(Drop)]
pub struct Pool<S: PageStore> {
    store: S,
    /// How many frames may be taken.
    limit: u32,
    frames: Frames,
    states: PageStates,
}

impl<S: PageStore> Model for Pool<S> {
    ghost use Rattle.buffer_pool.specs.Pool.{IsPool, PoolView};

    ghost Value = { PoolView S };

    ghost view = { λ it. record {
      store = it.store;
      frames = it.limit;
      room = it.frames.room;
      resident = it.frames.pages;
      states = it.states;
    } };

    ghost invariant = { λ it. IsPool (S.stored it.store) it.states it.frames };
}

impl<S: PageStore + Drop> Pool<S> {
    /// A pool of so many frames over a store whose pages are formatted. No page is resident. It
    /// calls nothing of the store but its count. `AllocError` comes where memory is refused, and the
    /// store is handed back.
    pub fn new(alloc: Global, store: S, frames: u32) -> Result<Pool<S>, (AllocError, S)>
        requires { (n : ℕ) × (IsPageCount n × (S.stored store ≡ formatted_pages n)) }

        ensures new { IfOk result (λ pool. (n : ℕ) → S.stored store ≡ formatted_pages n
            → pool ≡ new_pool store n frames) }
        ensures empty { IfOk result (λ pool. (n : ℕ) → S.stored store ≡ formatted_pages n
            → IsPoolOf S.stored (record { pages = n; records = [] }) pool) }
        ensures untouched { IfErr result (λ e. e.1 ≡ store) }
    {
        let count = store.pages();
        let Ok(states) = PageStates::new(alloc, count) else {
            return Err((AllocError, store));
        };
        let Ok(held) = Frames::new(alloc, frames) else {
            return Err((AllocError, store));
        };
        Ok(Pool {
            store,
            limit: frames,
            frames: held,
            states,
        })
    }

    /// A pool of so many frames over a store of pages that are as a log makes them, for a volume
    /// that goes on where it ended. No page is resident, and none is dirty. It calls nothing of the
    /// store but its count. `AllocError` comes where memory is refused, and the store is handed back.
    pub fn resume(
        alloc: Global,
        store: S,
        pages: &[Page],
        frames: u32,
    ) -> Result<Pool<S>, (AllocError, S)>
        requires { S.stored store ≡ pages.now }

        ensures clean { IfOk result (λ pool. pool ≡ clean_pool store pages.now frames) }
        ensures of_log { IfOk result (λ pool. (log : Log) → IsLog log
            → pages.now ≡ redo_all log.records (page_count log) → IsPoolOf S.stored log pool) }
        ensures untouched { IfErr result (λ e. e.1 ≡ store) }
    {
        let _count = store.pages();
        let Ok(states) = PageStates::stored(alloc, pages) else {
            return Err((AllocError, store));
        };
        let Ok(held) = Frames::new(alloc, frames) else {
            return Err((AllocError, store));
        };
        Ok(Pool {
            store,
            limit: frames,
            frames: held,
            states,
        })
    }

    /// A pool over a formatted store, with a frame for each page. All pages are resident, as they
    /// are formatted. Memory and calls of the store are as for `new`.
    pub fn whole(alloc: Global, store: S) -> Result<Pool<S>, (AllocError, S)>
        requires { (n : ℕ) × (IsPageCount n × (S.stored store ≡ formatted_pages n)) }

        ensures new { IfOk result (λ pool. (n : ℕ) → S.stored store ≡ formatted_pages n
            → pool ≡ record (whole_pool store n) { room = pool.room }) }
        ensures empty { IfOk result (λ pool. (n : ℕ) → S.stored store ≡ formatted_pages n
            → IsPoolOf S.stored (record { pages = n; records = [] }) pool) }
        ensures untouched { IfErr result (λ e. e.1 ≡ store) }
    {
        let count = store.pages();
        let Ok(frames) = Frames::formatted(alloc, count) else {
            return Err((AllocError, store));
        };
        let Ok(states) = PageStates::new(alloc, count) else {
            return Err((AllocError, store));
        };
        Ok(Pool {
            store,
            limit: count,
            frames,
            states,
        })
    }
}

impl<S: PageStore> Pool<S> {
    /// Ends the pool, and hands the store back as it is: no dirty page is stored.
    pub fn into_store(self) -> S
        ensures { result ≡ self.store }
    {
        let Pool {
            store,
            limit: _,
            frames: _,
            states: _,
        } = self;
        store
    }

    /// How many pages the volume has.
    pub fn pages(&self) -> u32
        ensures states { result ≡ length self.now.states }
        ensures stored { result ≤ length (S.stored self.now.store) }
        ensures numbered { AreNumbered (S.stored self.now.store) }
    {
        self.states.count()
    }

    /// Whether a page is in memory.
    pub fn is_resident(&self, number: PageNo) -> bool
        ensures { result ≡ is_resident self.now.resident number }
    {
        self.frames.is_resident(number)
    }

    /// Whether no frame can be had for a page that comes in: each is taken, and none has a clean
    /// page.
    pub fn is_full(&self) -> bool
        ensures { (log : Log) → IsPoolOf S.stored log self.now
            → result ≡ is_full self.now.frames
            (is_clean log.records (written_of self.now.states)) self.now.resident }
    {
        self.frames.len() >= self.limit as usize && self.frames.first_clean(&self.states).is_none()
    }

    /// Makes room for one page to come in. `AllocError` comes where there is none and it is refused.
    /// The pages stay.
    pub fn make_room(&mut self) -> Result<(), AllocError>
        ensures room { OnOk result (0 < self.new.room) }
        ensures needed { OnErr result (self.old.room ≡ 0) }
        ensures same { self.new ≡ record self.old { room = self.new.room } }
        ensures kept { (log : Log) → IsPoolOf S.stored log self.old
            → IsPoolOf S.stored log self.new }
    {
        self.frames.make_room()
    }

    /// Fetches a page from the store into a free frame, or, where none is free, into that of the
    /// clean page that was fetched earliest, which is given up. It takes no memory, since
    /// `make_room` has made its room.
    ///
    /// An `Err` comes where the store fails, and of nothing else. No frame is given up then.
    pub fn fetch(&mut self, number: PageNo) -> Result<(), StoreFault>
        requires within { number < length self.old.states }
        requires absent { is_resident self.old.resident number ≡ false }
        requires room { 0 < self.old.room }
        requires frame { (log : Log) × (IsPoolOf S.stored log self.old
            × (is_full self.old.frames (is_clean log.records (written_of self.old.states))
            self.old.resident ≡ false)) }

        ensures fetched { OnOk result ((log : Log) (d : Page) → IsPoolOf S.stored log self.old
            → self.new.resident ≡ fetched self.old.frames
            (is_clean log.records (written_of self.old.states)) self.old.resident
            (slice_index_or (S.stored self.old.store) number d)) }
        ensures resident { OnOk result (IsResident self.new.resident number) }
        ensures stays { OnErr result (self.new ≡ record self.old { store = self.new.store }) }

        ensures stored { S.stored self.new.store ≡ S.stored self.old.store }
        ensures frames { self.new.frames ≡ self.old.frames }
        ensures states { self.new.states ≡ self.old.states }
        ensures kept { (log : Log) → IsPoolOf S.stored log self.old
            → IsPoolOf S.stored log self.new }

        // The store was asked for the page once, and for nothing else.
        ensures gave { OnOk result ((d : Page) → S.gave self.old.store number
            (Ok (slice_index_or (S.stored self.old.store) number d)) self.new.store) }
        ensures failed { IfErr result (λ why.
            S.gave self.old.store number (Err why) self.new.store) }
        ensures no_failure { OnOk result
            (S.failures self.new.store ≡ S.failures self.old.store) }
        ensures failure { OnErr result (S.failures self.old.store < S.failures self.new.store) }
    {
        let page = self.store.read(number)?;
        if self.frames.len() < self.limit as usize {
            self.frames.put(page);
        } else {
            self.frames.replace(page, &self.states);
        }
        Ok(())
    }

    /// A resident page as it is now, with each change so far.
    pub fn current(&self, number: PageNo) -> &Page
        requires { IsResident self.now.resident number }

        ensures resident { Contains self.now.resident result.now }
        ensures numbered { result.now.number ≡ number }
        ensures image { (log : Log) → IsPoolOf S.stored log self.now
            → result.now ≡ image log.records number }
    {
        self.frames.page(number)
    }

    /// The page as the store has it. It comes into no frame.
    ///
    /// An `Err` comes where the store fails, and of nothing else. Each stored page stays even then.
    pub fn stored(&mut self, number: PageNo) -> Result<Page, StoreFault>
        requires { number < length self.old.states }

        ensures found { IfOk result
            (λ page. slice_get (S.stored self.old.store) number ≡ Some page) }
        ensures numbered { IfOk result (λ page. page.number ≡ number) }
        ensures same { S.stored self.new.store ≡ S.stored self.old.store }
        ensures rest { self.new ≡ record self.old { store = self.new.store } }
        ensures kept { (log : Log) → IsPoolOf S.stored log self.old
            → IsPoolOf S.stored log self.new }

        ensures gave { S.gave self.old.store number result self.new.store }
        ensures no_failure { OnOk result
            (S.failures self.new.store ≡ S.failures self.old.store) }
        ensures failure { OnErr result (S.failures self.old.store < S.failures self.new.store) }
    {
        self.store.read(number)
    }

    /// Makes the change of the log's next record, if it makes one, on its page, which is resident,
    /// and dirty then. The record gives the volume no page count. It takes no memory and does not
    /// call the store.
    pub fn change(&mut self, next: &Record)
        requires next { (log : Log) × (IsPoolOf S.stored log self.old
            × IsLog (with_next log (next.now ∷ []))) }
        requires same_count { given_count next.now ≡ None }
        requires resident { IfSome (change_of next.now) (λ c. IsResident self.old.resident c.page) }

        ensures kept { (log : Log) → IsPoolOf S.stored log self.old
            → IsLog (with_next log (next.now ∷ []))
            → IsPoolOf S.stored (with_next log (next.now ∷ [])) self.new }
        ensures store { self.new.store ≡ self.old.store }
        ensures frames { self.new.frames ≡ self.old.frames }
        ensures pages { self.new.resident
            ≡ map (λ page. with_record page next.now) self.old.resident }
        ensures written { written_of self.new.states ≡ written_of self.old.states }
        ensures writing { writing_of self.new.states ≡ writing_of self.old.states }
    {
        if let Some(change) = next.change() {
            let was_clean = self.states.is_clean(change.page);
            self.frames.redo(change.page, next);
            self.states.change(change.page, next.lsn());
            self.frames
                .note_change(change.page, was_clean, &self.states);
        }
    }

    /// The RecLSN of a page, if it is dirty: the LSN of the first change that its stored page may
    /// lack.
    pub fn rec_lsn(&self, number: PageNo) -> Option<Lsn>
        requires { number < length self.now.states }
        ensures { result ≡ (state_at self.now number).rec_lsn }
    {
        self.states.rec_lsn(number)
    }

    /// Whether a write of a page is in progress.
    pub fn is_writing(&self, number: PageNo) -> bool
        requires { number < length self.now.states }
        ensures { result ≡ is_some (state_at self.now number).writing }
    {
        self.states.image(number).is_some()
    }

    /// The image of a resident page for a write of it: the page as it is now. It is all the memory
    /// that a write takes. `AllocError` comes where it is refused.
    pub fn image_of(&self, number: PageNo) -> Result<PageImage, AllocError>
        requires { IsResident self.now.resident number }

        ensures resident { IfOk result (λ image. Contains self.now.resident image) }
        ensures numbered { IfOk result (λ image. image.number ≡ number) }
        ensures image { IfOk result (λ it. (log : Log) → IsPoolOf S.stored log self.now
            → it ≡ image log.records number) }
    {
        PageImage::of(self.frames.allocator(), self.frames.page(number))
    }

    /// Begins a write of the dirty page that this is the image of, and answers the image's LSN. The
    /// image is kept until the write has ended. It takes no memory and does not call the store.
    pub fn write_begin(&mut self, image: PageImage) -> Lsn
        requires within { image.number < length self.old.states }
        requires current { Contains self.old.resident image }
        requires idle { IsNone (state_at self.old image.number).writing }
        requires dirty { IsSome (state_at self.old image.number).rec_lsn }

        ensures lsn { result ≡ image.lsn }
        ensures begun { self.new ≡ with_state self.old image.number
            (write_begun (state_at self.old image.number) image) }
        ensures kept { (log : Log) → IsPoolOf S.stored log self.old
            → IsPoolOf S.stored log self.new }
    {
        let lsn = image.page().lsn;
        self.states.begin_write(image);
        lsn
    }

    /// Ends a write of a page: stores the image, and answers its LSN. The page stays dirty where it
    /// was changed since the image, and its RecLSN is the first such change. It takes no memory.
    ///
    /// An `Err` comes where the store fails, and of nothing else. The write has not ended then, and
    /// the call may be made again; what is stored is either page, the older one or the image, and
    /// the page is as dirty as before.
    pub fn write_end(&mut self, number: PageNo) -> Result<Lsn, StoreFault>
        requires within { number < length self.old.states }
        requires begun { IsSome (state_at self.old number).writing }

        ensures lsn { IfOk result (λ lsn. IfSome (state_at self.old number).writing
            (λ q. lsn ≡ q.lsn)) }
        ensures stored { OnOk result (IfSome (state_at self.old number).writing
            (λ q. S.stored self.new.store ≡ slice_set (S.stored self.old.store) number q)) }
        ensures ended { OnOk result (IfSome (state_at self.old number).writing
            (λ q. self.new ≡ record (with_state self.old number
            (write_ended (state_at self.old number) q.lsn)) { store = self.new.store })) }

        ensures either { OnErr result (IfSome (state_at self.old number).writing
            (λ q. StoresOrKeeps (S.stored self.old.store) number q (S.stored self.new.store))) }
        ensures goes_on { OnErr result (self.new ≡ record self.old { store = self.new.store }) }

        ensures kept { (log : Log) → IsPoolOf S.stored log self.old
            → IsPoolOf S.stored log self.new }

        // The image was stored by one call, and nothing else was asked of the store.
        ensures wrote { OnOk result (IfSome (state_at self.old number).writing
            (λ q. S.wrote self.old.store number q (Ok tt) self.new.store)) }
        ensures failed { IfErr result (λ why. IfSome (state_at self.old number).writing
            (λ q. S.wrote self.old.store number q (Err why) self.new.store)) }
        ensures no_failure { OnOk result
            (S.failures self.new.store ≡ S.failures self.old.store) }
        ensures failure { OnErr result (S.failures self.old.store < S.failures self.new.store) }
    {
        let Some(image) = self.states.image(number) else {
            unreachable!();
        };
        let page = image.page();
        let lsn = page.lsn;
        self.store.write(number, page)?;
        self.states.end_write(number, lsn);
        self.frames.note(number, &self.states);
        Ok(lsn)
    }

    /// Stores a page as it is now, of which no write is in progress. It is not dirty then. It need
    /// not be resident, and a frame that has it stays as it is. The stored page is not read, so it
    /// may be one that no read gives. It takes no memory.
    ///
    /// An `Err` comes where the store fails, and of nothing else. The stored page is the old one or
    /// this one then, and the page is as dirty as before.
    pub fn repair(&mut self, number: PageNo, rebuilt: &Page) -> Result<(), StoreFault>
        requires within { number < length self.old.states }
        requires idle { IsNone (state_at self.old number).writing }
        requires now { (log : Log) × (IsPoolOf S.stored log self.old
            × (rebuilt.now ≡ image log.records number)) }

        ensures stored { OnOk result
            (S.stored self.new.store ≡ slice_set (S.stored self.old.store) number rebuilt.now) }
        ensures clean { OnOk result (self.new ≡ record (with_state self.old number
            (stored_as_now rebuilt.now.lsn)) { store = self.new.store }) }

        ensures either { OnErr result
            (StoresOrKeeps (S.stored self.old.store) number rebuilt.now (S.stored self.new.store)) }
        ensures stays { OnErr result (self.new ≡ record self.old { store = self.new.store }) }

        ensures kept { (log : Log) → IsPoolOf S.stored log self.old
            → rebuilt.now ≡ image log.records number → IsPoolOf S.stored log self.new }
        ensures wrote { S.wrote self.old.store number rebuilt.now result self.new.store }
        ensures no_failure { OnOk result
            (S.failures self.new.store ≡ S.failures self.old.store) }
        ensures failure { OnErr result (S.failures self.old.store < S.failures self.new.store) }
    {
        self.store.write(number, rebuilt)?;
        self.states.end_write(number, rebuilt.lsn);
        self.frames.note(number, &self.states);
        Ok(())
    }

    /// Grows the volume to `count` pages, by one call of the store. The pages that are added are
    /// formatted, and neither resident nor dirty. It takes no memory.
    ///
    /// An `Err` comes where the store fails, and of nothing else. The volume has as many pages as
    /// before then; more may be stored, and those past the volume are formatted.
    pub fn grow(&mut self, count: u32) -> Result<(), StoreFault>
        requires more { length self.old.states ≤ count }
        requires few { count ≤ MAX_PAGES }

        ensures stored { IsGrown (S.stored self.old.store) (S.stored self.new.store) }
        ensures enough { OnOk result (count ≤ length (S.stored self.new.store)) }
        ensures grown { OnOk result
            (self.new ≡ record (grown_pool count self.old) { store = self.new.store }) }
        ensures next { OnOk result ((log : Log) (lsn : ℕ) → IsPoolOf S.stored log self.old
            → IsLog (with_next log (Extend lsn count ∷ []))
            → IsPoolOf S.stored (with_next log (Extend lsn count ∷ [])) self.new) }

        ensures stays { OnErr result (self.new ≡ record self.old { store = self.new.store }) }
        ensures kept { OnErr result ((log : Log) → IsPoolOf S.stored log self.old
            → IsPoolOf S.stored log self.new) }

        // The store was asked for that many pages by one call, and for nothing else.
        ensures grew { S.grew self.old.store count result self.new.store }
        ensures no_failure { OnOk result
            (S.failures self.new.store ≡ S.failures self.old.store) }
        ensures failure { OnErr result (S.failures self.old.store < S.failures self.new.store) }
    {
        self.store.grow(count)?;
        self.states.grow(count);
        Ok(())
    }

    /// The next dirty pages from a page number on, in order of their numbers: as many as there are,
    /// and at most three. `None` comes where none is left.
    pub fn dirty_from(&self, cursor: PageNo) -> Option<DirtyPages>
        ensures { (log : Log) → IsPoolOf S.stored log self.now
            → let next = next_dirty (dirty log.records (written_of self.now.states)) cursor in
            MatchOption result (next ≡ []) (λ some. entries_of some ≡ next) }
    {
        self.states.dirty_from(cursor)
    }
}
