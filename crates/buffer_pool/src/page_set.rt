//! Sets of numbers.

ghost use Rattle.std.specs.Prelude.{◌≡◌, ◌+◌, ◌/◌, ◌<◌, ◌≤◌, length, slice_set, IfOk};
ghost use Rattle.std.specs.Prelude.{true, false, MatchOption};
ghost use Rattle.buffer_pool.specs.PageSet.{HasNone, IsFirstFrom, IsSummary};

use crate::bit_row::{BitRow, WORD};
use std::alloc::{AllocError, Global};
use std::marker::Model;

/// How many numbers a set has room for at most: 64 words of 64 words of 64 bits.
pub(crate) const MAX_MEMBERS: u32 = 262_144;

/// A set of numbers, of pages or of slots. The next member is found by looking at no more than five
/// words.
#[derive(Drop)]
pub(crate) struct PageSet {
    /// A bit for each page.
    pages: BitRow,
    /// A bit for each word of `pages`: the word has a bit.
    words: BitRow,
    /// A bit for each word of `words`: the word has a bit. It is one word.
    groups: BitRow,
}

impl Model for PageSet {
    ghost use Rattle.std.specs.Prelude.{List, Bool};
    ghost use Rattle.buffer_pool.specs.PageSet.{AreLevels};

    ghost Value = { List Bool };

    ghost view = { λ it. it.pages };

    ghost invariant = { λ it. AreLevels it.pages it.words it.groups };
}

impl PageSet {
    /// A set that has room for so many pages, and none of them. `AllocError` comes where memory is
    /// refused.
    pub(crate) fn new(alloc: Global, count: u32) -> Result<PageSet, AllocError>
        requires { count ≤ MAX_MEMBERS }
        ensures room { IfOk result (λ set. count ≤ length set) }
        ensures empty { IfOk result (λ set. HasNone set 0 (length set)) }
    {
        let words = count.div_ceil(WORD);
        let groups = words.div_ceil(WORD);
        Ok(PageSet {
            pages: BitRow::new(alloc, words)?,
            words: BitRow::new(alloc, groups)?,
            groups: BitRow::new(alloc, groups.div_ceil(WORD))?,
        })
    }

    /// Puts a page into the set.
    pub(crate) fn insert(&mut self, number: u32)
        requires { number < length self.old }
        ensures { self.new ≡ slice_set self.old number true }
    {
        let word = number / WORD;
        self.pages.insert(number);
        self.words.insert(word);
        self.groups.insert(word / WORD);
    }

    /// Takes a page out of the set.
    pub(crate) fn remove(&mut self, number: u32)
        requires { number < length self.old }
        ensures { self.new ≡ slice_set self.old number false }
    {
        let word = number / WORD;
        let group = word / WORD;
        self.pages.remove(number);
        if self.pages.first_in_word(word * WORD).is_none() {
            self.words.remove(word);
            if self.words.first_in_word(group * WORD).is_none() {
                self.groups.remove(group);
            }
        }
    }

    /// The first page of the set from a number on.
    pub(crate) fn first_from(&self, from: u32) -> Option<u32>
        ensures { MatchOption result (HasNone self.now from (length self.now))
            (IsFirstFrom self.now from) }
    {
        if let Some(found) = self.pages.first_in_word(from) {
            return Some(found);
        }
        let word = first_of(&self.words, &self.groups, from / WORD + 1)?;
        self.pages.first_in_word(word * WORD)
    }
}

/// The first bit from a number on that is set in a row, beside the word that tells which of its
/// words have a bit.
fn first_of(row: &BitRow, summary: &BitRow, from: u32) -> Option<u32>
    requires few { length row.now ≤ MAX_MEMBERS }
    requires summary { IsSummary row.now summary.now }
    requires one_word { length summary.now ≤ WORD }
    ensures { MatchOption result (HasNone row.now from (length row.now))
        (IsFirstFrom row.now from) }
{
    if let Some(found) = row.first_in_word(from) {
        return Some(found);
    }
    let word = summary.first_in_word(from / WORD + 1)?;
    row.first_in_word(word * WORD)
}
