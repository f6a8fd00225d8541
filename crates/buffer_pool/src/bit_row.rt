//! A row of bits.

ghost use Rattle.std.specs.Prelude.{◌≡◌, ◌+◌, ◌*◌, ◌/◌, ◌<◌, length, replicate, slice_set};
ghost use Rattle.std.specs.Prelude.{true, false, IfOk, IfSome, MatchOption};
ghost use Rattle.buffer_pool.specs.PageSet.{HasNone, IsFirstFrom};

use std::alloc::{AllocError, Global};
use std::marker::Model;

/// How many bits a word has.
pub(crate) const WORD: u32 = 64;

/// A row of bits, in words.
#[derive(Drop)]
pub(crate) struct BitRow {
    words: Vec<u64>,
}

impl Model for BitRow {
    ghost use Rattle.std.specs.Prelude.{List, Bool};
    ghost use Rattle.buffer_pool.specs.BitRow.{bits_of};

    ghost Value = { List Bool };

    ghost view = { λ it. bits_of it.words.items };
}

impl BitRow {
    /// So many words, in which no bit is set. `AllocError` comes where memory is refused.
    pub(crate) fn new(alloc: Global, words: u32) -> Result<BitRow, AllocError>
        ensures { IfOk result (λ row. row ≡ replicate (WORD * words) false) }
    {
        Ok(BitRow {
            words: vec![in alloc; 0; words as usize]?,
        })
    }

    /// Sets a bit.
    pub(crate) fn insert(&mut self, number: u32)
        requires { number < length self.old }
        ensures { self.new ≡ slice_set self.old number true }
    {
        self.words[(number / WORD) as usize] |= 1 << (number % WORD);
    }

    /// Clears a bit.
    pub(crate) fn remove(&mut self, number: u32)
        requires { number < length self.old }
        ensures { self.new ≡ slice_set self.old number false }
    {
        self.words[(number / WORD) as usize] &= !(1 << (number % WORD));
    }

    /// The first bit from a number on that is set in that number's word.
    pub(crate) fn first_in_word(&self, from: u32) -> Option<u32>
        ensures first { MatchOption result (HasNone self.now from (from / WORD * WORD + WORD))
            (IsFirstFrom self.now from) }
        ensures within { IfSome result (λ n. n / WORD ≡ from / WORD) }
    {
        let word = *self.words.get((from / WORD) as usize)?;
        let rest = word >> (from % WORD);
        if rest == 0 {
            return None;
        }
        Some(from + rest.trailing_zeros())
    }
}
