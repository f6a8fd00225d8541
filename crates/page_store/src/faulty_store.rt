//! A store that fails where a test tells it to.

ghost use Rattle.std.specs.Prelude.{◌≡◌, ◌<◌, ◌≤◌, ◌↔◌, ◌-◌, ◌++◌, length, replicate, false};
ghost use Rattle.std.specs.Prelude.{slice_set, vec_capacity, None, Some, IfOk, IsOk, IsTrue};
ghost use Rattle.std.specs.Prelude.{OnOk, true};
ghost use Rattle.page_core.specs.declared.page.TheConstants.{MAX_PAGES};
ghost use Rattle.page_core.specs.Volume.{AreNumbered};
ghost use Rattle.page_store.specs.FaultyStore.{FaultyGrows, FaultyReads, FaultyWrites};
ghost use Rattle.page_store.specs.FaultyStore.{after_call, after_failed_growth};
ghost use Rattle.page_store.specs.FaultyStore.{after_failed_write, after_failure, after_growth};
ghost use Rattle.page_store.specs.FaultyStore.{is_damaged};

use crate::mem_store::MemStore;
use crate::store::{PageStore, StoreFault};
use page_core::{Failures, MAX_PAGES, Page, PageNo};
use std::alloc::{AllocError, Global};
use std::marker::Model;

/// A store in memory of which one call fails, and each read of a damaged page.
#[derive(Drop)]
pub struct FaultyStore {
    store: MemStore,
    /// How many calls were made, up to the greatest number that fits.
    calls: u64,
    calls_to_fault: u64,
    /// Whether a write that is to fail leaves the new page, and a growth the new pages.
    is_late: bool,
    /// For each page after how many calls it is damaged. There is room for `MAX_PAGES` of them.
    damaged_from: Vec<Option<u64>>,
    failures: Failures,
}

impl Model for FaultyStore {
    ghost use Rattle.std.specs.Prelude.{◌≡◌, ◌≤◌, length, vec_capacity, vec_len};
    ghost use Rattle.page_core.specs.declared.page.TheConstants.{MAX_PAGES};
    ghost use Rattle.page_core.specs.Failures.{failure_count};
    ghost use Rattle.page_store.specs.FaultyStore.{Faulty};

    ghost Value = { Faulty };

    ghost view = { λ faulty. record {
      pages = faulty.store;
      calls = faulty.calls;
      calls_to_fault = faulty.calls_to_fault;
      is_late = faulty.is_late;
      damaged_from = faulty.damaged_from.items;
      failures = failure_count faulty.failures;
    } };

    ghost invariant = { λ faulty. (vec_len faulty.damaged_from ≡ length faulty.store)
        × (MAX_PAGES ≤ vec_capacity faulty.damaged_from) };
}

/// Adds pages that are not damaged, in room that was reserved, so that there are `count`.
fn add_undamaged(damaged_from: &mut Vec<Option<u64>>, count: usize)
    requires { count ≤ vec_capacity damaged_from.old }
    ensures added { damaged_from.new.items ≡ damaged_from.old.items
        ++ replicate (count - length damaged_from.old.items) None }
    ensures room { vec_capacity damaged_from.new ≡ vec_capacity damaged_from.old }
{
    for _ in damaged_from.len()..count {
        damaged_from.push_reserved(None);
    }
}

impl FaultyStore {
    /// A store whose `k`-th call of `read`, `write` or `grow` fails, counted from 1. If it is a
    /// write, it leaves the old page; if it is a growth, it adds no page. Each other call goes on
    /// to `store`. At 0 all of them do. No page is damaged.
    ///
    /// It takes all of its memory here. `AllocError` comes where that is refused.
    pub fn new(alloc: Global, store: MemStore, k: u64) -> Result<FaultyStore, AllocError>
        ensures { IfOk result (λ faulty. faulty ≡ record {
          pages = store;
          calls = 0;
          calls_to_fault = k;
          is_late = false;
          damaged_from = replicate (length store) None;
          failures = 0;
        }) }
    {
        let mut damaged_from = Vec::with_capacity(alloc, MAX_PAGES as usize)?;
        add_undamaged(&mut damaged_from, store.pages() as usize);
        Ok(FaultyStore {
            store,
            calls: 0,
            calls_to_fault: k,
            is_late: false,
            damaged_from,
            failures: Failures::None,
        })
    }

    /// A store whose `k`-th call fails late. If it is a write, it leaves the new page: the store
    /// fails after the page was written. The page is not mended by that, if it is damaged. If it is
    /// a growth, the pages were added.
    pub fn late(alloc: Global, store: MemStore, k: u64) -> Result<FaultyStore, AllocError>
        ensures { IfOk result (λ faulty. faulty ≡ record {
          pages = store;
          calls = 0;
          calls_to_fault = k;
          is_late = true;
          damaged_from = replicate (length store) None;
          failures = 0;
        }) }
    {
        let mut faulty = FaultyStore::new(alloc, store, k)?;
        faulty.is_late = true;
        Ok(faulty)
    }

    /// Damages a page: each read of it fails, until a write of it succeeds. It is no call that is
    /// counted, and takes no memory.
    pub fn damage(&mut self, number: PageNo)
        requires { number < length self.old.pages }
        ensures { self.new ≡ record self.old {
          damaged_from = slice_set self.old.damaged_from number (Some 0);
        } }
    {
        self.damage_from(number, 0);
    }

    /// Damages a page once `k` calls of `read`, `write` or `grow` were made of this store: each
    /// read of it after them fails, until a write of it after them succeeds. So the `k`-th call
    /// does not mend it. It is no call that is counted, and takes no memory.
    pub fn damage_from(&mut self, number: PageNo, k: u64)
        requires { number < length self.old.pages }
        ensures { self.new ≡ record self.old {
          damaged_from = slice_set self.old.damaged_from number (Some k);
        } }
    {
        self.damaged_from[number.0 as usize] = Some(k);
    }

    /// The stored pages, in order of their numbers, also those that are damaged.
    pub fn stored(&self) -> &[Page]
        ensures { result.now ≡ self.now.pages }
    {
        self.store.stored()
    }

    /// Whether a page is damaged after the calls that were made.
    fn is_damaged(&self, number: PageNo) -> bool
        requires { number < length self.now.pages }
        ensures { result ≡ is_damaged self.now number }
    {
        match self.damaged_from[number.0 as usize] {
            Some(k) => k <= self.calls,
            None => false,
        }
    }

    /// Counts a call, and tells whether it is the one that is to fail.
    fn count_call(&mut self) -> bool
        ensures fault { IsTrue result ↔ (self.old.calls_to_fault ≡ 1) }
        ensures counted { self.new ≡ after_call self.old }
    {
        let is_to_fail = self.calls_to_fault == 1;
        self.calls = self.calls.saturating_add(1);
        self.calls_to_fault = self.calls_to_fault.saturating_sub(1);
        is_to_fail
    }

    /// A failure. What is stored stays.
    fn fail(&mut self) -> StoreFault
        ensures { self.new ≡ after_failure self.old }
    {
        self.failures.add_one();
        StoreFault
    }

    /// A write that fails.
    fn fail_write(&mut self, number: PageNo, page: &Page) -> StoreFault
        requires there { number < length self.old.pages }
        requires numbered { page.now.number ≡ number }
        ensures { self.new ≡ after_failure (after_failed_write self.old number page.now) }
    {
        if self.is_late {
            if let Err(fault) = self.store.write(number, page) {
                return fault;
            }
        }
        self.fail()
    }

    /// Adds the pages that a growth adds.
    fn add_pages(&mut self, count: u32) -> Result<(), StoreFault>
        requires { count ≤ MAX_PAGES }
        ensures ok { IsOk result }
        ensures added { self.new ≡ after_growth self.old count }
        ensures enough { count ≤ length self.new.pages }
    {
        self.store.grow(count)?;
        add_undamaged(&mut self.damaged_from, self.store.pages() as usize);
        Ok(())
    }

    /// A growth that fails.
    fn fail_growth(&mut self, count: u32) -> StoreFault
        requires { count ≤ MAX_PAGES }
        ensures { self.new ≡ after_failure (after_failed_growth self.old count) }
    {
        if self.is_late {
            if let Err(fault) = self.add_pages(count) {
                return fault;
            }
        }
        self.fail()
    }
}

impl PageStore for FaultyStore {
    ghost stored = { λ faulty. faulty.pages };

    ghost gave = { λ old number result new. FaultyReads old number result new };

    ghost wrote = { λ old number page result new. FaultyWrites old number page result new };

    ghost grew = { λ old count result new. FaultyGrows old count result new };

    ghost failures = { λ faulty. faulty.failures };

    fn pages(&self) -> u32
        ensures count { result ≡ length self.now.pages }
        ensures few { length self.now.pages ≤ MAX_PAGES }
        ensures numbered { AreNumbered self.now.pages }
    {
        self.store.pages()
    }

    /// An `Err` comes at the call that is to fail, and where the page is damaged after the calls
    /// before this one. The call takes no memory.
    fn read(&mut self, number: PageNo) -> Result<Page, StoreFault>
        requires { number < length self.old.pages }

        ensures exact { FaultyReads self.old number result self.new }
        ensures numbered { IfOk result (λ page. page.number ≡ number) }
    {
        let is_damaged = self.is_damaged(number);
        if self.count_call() || is_damaged {
            return Err(self.fail());
        }
        self.store.read(number)
    }

    /// An `Err` comes at the call that is to fail. It leaves the old page, or, in a store that
    /// fails late, the new one. An `Ok` mends a page that was damaged after the calls before this
    /// one. The call takes no memory.
    fn write(&mut self, number: PageNo, page: &Page) -> Result<(), StoreFault>
        requires there { number < length self.old.pages }
        requires numbered { page.now.number ≡ number }

        ensures exact { FaultyWrites self.old number page.now result self.new }
    {
        let is_damaged = self.is_damaged(number);
        if self.count_call() {
            return Err(self.fail_write(number, page));
        }
        self.store.write(number, page)?;
        if is_damaged {
            self.damaged_from[number.0 as usize] = None;
        }
        Ok(())
    }

    /// An `Err` comes at the call that is to fail. It adds no page, or, in a store that fails late,
    /// those that were asked for. No page that is added is damaged. The call takes no memory.
    fn grow(&mut self, count: u32) -> Result<(), StoreFault>
        requires { count ≤ MAX_PAGES }

        ensures exact { FaultyGrows self.old count result self.new }
        ensures enough { OnOk result (count ≤ length self.new.pages) }
        ensures same { OnOk result
            (count ≤ length self.old.pages → self.new.pages ≡ self.old.pages) }
    {
        if self.count_call() {
            return Err(self.fail_growth(count));
        }
        self.add_pages(count)
    }
}
