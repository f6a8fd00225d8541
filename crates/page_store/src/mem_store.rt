//! A store in memory.

ghost use Rattle.std.specs.Prelude.{◌≡◌, ◌<◌, ◌≤◌, length, IfOk};
ghost use Rattle.page_core.specs.declared.page.TheConstants.{MAX_PAGES};
ghost use Rattle.page_core.specs.Volume.{AreNumbered, formatted_pages};
ghost use Rattle.page_store.specs.MemStore.{Grows, Reads, Writes};

use crate::store::{PageStore, StoreFault};
use page_core::{MAX_PAGES, Page, PageNo, grow_reserved};
use std::alloc::{AllocError, Global};
use std::marker::Model;

/// A store in memory. It never fails, since it has room for as many pages as a volume may have.
#[derive(Drop)]
pub struct MemStore {
    pages: Vec<Page>,
}

impl Model for MemStore {
    ghost use Rattle.std.specs.Prelude.{◌≤◌, List, length, vec_capacity};
    ghost use Rattle.page_core.specs.declared.page.Page.{Page};
    ghost use Rattle.page_core.specs.declared.page.TheConstants.{MAX_PAGES};
    ghost use Rattle.page_core.specs.Volume.{AreNumbered};

    ghost Value = { List Page };

    ghost view = { λ store. store.pages.items };

    ghost invariant = { λ store.
        (length store.pages.items ≤ MAX_PAGES) × (MAX_PAGES ≤ vec_capacity store.pages)
        × AreNumbered store.pages.items };
}

impl MemStore {
    /// A store of so many pages, formatted. It takes all of its memory here: room for `MAX_PAGES`
    /// pages, of which it fills only these. `AllocError` comes where that is refused.
    pub fn new(alloc: Global, pages: u32) -> Result<MemStore, AllocError>
        requires some { 1 ≤ pages }
        requires few { pages ≤ MAX_PAGES }
        ensures { IfOk result (λ store. store ≡ formatted_pages pages) }
    {
        let mut stored = Vec::with_capacity(alloc, MAX_PAGES as usize)?;
        grow_reserved(&mut stored, pages);
        Ok(MemStore { pages: stored })
    }

    /// The stored pages, in order of their numbers.
    pub fn stored(&self) -> &[Page]
        ensures { result.now ≡ self.now }
    {
        &self.pages
    }
}

impl PageStore for MemStore {
    ghost stored = { λ pages. pages };

    ghost gave = { λ old number result new. Reads old number result new };

    ghost wrote = { λ old number page result new. Writes old number page result new };

    ghost grew = { λ old count result new. Grows old count result new };

    ghost failures = { λ _. 0 };

    fn pages(&self) -> u32
        ensures count { result ≡ length self.now }
        ensures few { length self.now ≤ MAX_PAGES }
        ensures numbered { AreNumbered self.now }
    {
        self.pages.len() as u32
    }

    /// It never fails, and takes no memory.
    fn read(&mut self, number: PageNo) -> Result<Page, StoreFault>
        requires { number < length self.old }

        ensures exact { Reads self.old number result self.new }
        ensures numbered { IfOk result (λ page. page.number ≡ number) }
    {
        Ok(self.pages[number.0 as usize].copy())
    }

    /// It never fails, and takes no memory.
    fn write(&mut self, number: PageNo, page: &Page) -> Result<(), StoreFault>
        requires there { number < length self.old }
        requires numbered { page.now.number ≡ number }

        ensures exact { Writes self.old number page.now result self.new }
    {
        self.pages[number.0 as usize] = page.copy();
        Ok(())
    }

    /// It never fails, and takes no memory.
    fn grow(&mut self, count: u32) -> Result<(), StoreFault>
        requires { count ≤ MAX_PAGES }

        ensures exact { Grows self.old count result self.new }
        ensures enough { count ≤ length self.new }
        ensures same { count ≤ length self.old → self.new ≡ self.old }
    {
        grow_reserved(&mut self.pages, count);
        Ok(())
    }
}
