//! The RecLSNs of all pages.

ghost use Rattle.std.specs.Prelude.{ℕ, ◌≡◌, ◌-◌, ◌++◌, ◌<◌, ◌≤◌, [], length, replicate, slice_index_or};
ghost use Rattle.std.specs.Prelude.{slice_set, is_none, IfOk, None, Some, MatchOption};
ghost use Rattle.std.specs.Option.{unwrap_or};
ghost use Rattle.buffer_pool.specs.RecLsns.{HasNoneDirty, IsFirstEntry};

use crate::growth::grow_column;
use crate::page_set::PageSet;
use log_records::DirtyPage;
use page_core::{Lsn, MAX_PAGES, PageNo};
use std::alloc::{AllocError, Global};
use std::marker::Model;

/// Of each page the RecLSN, if it is dirty. The next dirty page is found without a search of them.
#[derive(Drop)]
pub(crate) struct RecLsns {
    lsns: Vec<Option<Lsn>>,
    /// The pages that have one.
    dirty: PageSet,
}

impl Model for RecLsns {
    ghost use Rattle.std.specs.Prelude.{ℕ, List, Option, vec_capacity};
    ghost use Rattle.buffer_pool.specs.RecLsns.{AreFound};

    ghost Value = { List (Option ℕ) };

    ghost view = { λ it. it.lsns.items };

    ghost invariant = { λ it. AreFound it.lsns.items it.dirty (vec_capacity it.lsns) };
}

impl RecLsns {
    /// Those of no page, with room for as many as a volume may have. `AllocError` comes where
    /// memory is refused.
    pub(crate) fn new(alloc: Global) -> Result<RecLsns, AllocError>
        ensures { IfOk result (λ rec_lsns. rec_lsns ≡ []) }
    {
        Ok(RecLsns {
            lsns: Vec::with_capacity(alloc, MAX_PAGES as usize)?,
            dirty: PageSet::new(alloc, MAX_PAGES)?,
        })
    }

    /// There are `count` pages, at least: those that are added are not dirty. It takes no memory.
    pub(crate) fn grow(&mut self, count: u32)
        requires { count ≤ MAX_PAGES }
        ensures { self.new ≡ self.old ++ replicate (count - length self.old) None }
    {
        grow_column(&mut self.lsns, count);
    }

    /// The RecLSN of a page.
    pub(crate) fn of(&self, number: PageNo) -> Option<Lsn>
        requires { number < length self.now }
        ensures { result ≡ slice_index_or self.now number None }
    {
        self.lsns[number.0 as usize]
    }

    /// Whether a page has none.
    pub(crate) fn has_none(&self, number: PageNo) -> bool
        ensures { result ≡ is_none (slice_index_or self.now number None) }
    {
        match self.lsns.get(number.0 as usize) {
            Some(rec_lsn) => rec_lsn.is_none(),
            None => true,
        }
    }

    /// A page is dirty from an LSN on, if it was not before.
    pub(crate) fn note(&mut self, number: PageNo, lsn: Lsn)
        requires { number < length self.old }
        ensures { self.new ≡ slice_set self.old number
            (Some (unwrap_or (slice_index_or self.old number None) lsn)) }
    {
        let rec_lsn = &mut self.lsns[number.0 as usize];
        if rec_lsn.is_none() {
            *rec_lsn = Some(lsn);
            self.dirty.insert(number.0);
        }
    }

    /// A page has another RecLSN, or none.
    pub(crate) fn replace(&mut self, number: PageNo, rec_lsn: Option<Lsn>)
        requires { number < length self.old }
        ensures { self.new ≡ slice_set self.old number rec_lsn }
    {
        self.lsns[number.0 as usize] = rec_lsn;
        if rec_lsn.is_some() {
            self.dirty.insert(number.0);
        } else {
            self.dirty.remove(number.0);
        }
    }

    /// The first dirty page from a number on.
    pub(crate) fn first_from(&self, from: u32) -> Option<DirtyPage>
        ensures { MatchOption result (HasNoneDirty self.now from (length self.now))
            (IsFirstEntry self.now from) }
    {
        let page = self.dirty.first_from(from)?;
        let rec_lsn = self.lsns[page as usize]?;
        Some(DirtyPage {
            page,
            rec_lsn: rec_lsn.0,
        })
    }
}
