//! Marks at the slots of frames, for the search of a clean page.

ghost use Rattle.std.specs.Prelude.{ℕ, ◌≢◌, ◌<◌, ◌≤◌};
ghost use Rattle.buffer_pool.specs.Marks.{IsPassed};

use crate::frame::MAX_FRAMES;
use crate::page_set::PageSet;
use std::alloc::{AllocError, Global};
use std::marker::Model;

/// Marks at slots: a search passes over each slot that has none. A slot that the marks do not reach
/// counts as marked.
#[derive(Drop)]
pub(crate) struct Marks {
    /// The slots that have a mark.
    set: PageSet,
    /// How many slots there is room for.
    reach: u32,
}

impl Model for Marks {
    ghost use Rattle.std.specs.Prelude.{◌≤◌, length};
    ghost use Rattle.buffer_pool.specs.Marks.{MarksView};

    ghost Value = { MarksView };

    ghost view = { λ it. record { set = it.set; reach = it.reach } };

    ghost invariant = { λ it. it.reach ≤ length it.set };
}

impl Marks {
    /// Marks that reach as many slots as so many frames and their holes take. `AllocError` comes
    /// where memory is refused.
    pub(crate) fn new(alloc: Global, frames: u32) -> Result<Marks, AllocError> {
        let reach = 2 * frames.min(MAX_FRAMES) + 1;
        Ok(Marks {
            set: PageSet::new(alloc, reach)?,
            reach,
        })
    }

    /// The first slot from one on that the search does not pass over.
    pub(crate) fn next(&self, from: usize) -> usize
        ensures later { from ≤ result }
        ensures passed { (k : ℕ) → from ≤ k → k < result → IsPassed self.now k }
    {
        let reach = self.reach as usize;
        if from >= reach {
            return from;
        }
        match self.set.first_from(from as u32) {
            Some(found) if found < self.reach => found as usize,
            _ => reach,
        }
    }

    /// Sets the mark of a slot.
    pub(crate) fn set(&mut self, place: usize)
        ensures { (k : ℕ) → IsPassed self.new k → IsPassed self.old k × (k ≢ place) }
    {
        if place < self.reach as usize {
            self.set.insert(place as u32);
        }
    }

    /// Clears the mark of a slot.
    pub(crate) fn clear(&mut self, place: usize)
        ensures { (k : ℕ) → IsPassed self.new k → k ≢ place → IsPassed self.old k }
    {
        if place < self.reach as usize {
            self.set.remove(place as u32);
        }
    }
}
