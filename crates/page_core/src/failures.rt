//! A count of failures that only contracts see.

use std::snapshot::Snapshot;

/// A count of failures. It has the count before the last failure for contracts alone, so it takes
/// one byte, and the count has no last value.
#[derive(Drop)]
pub enum Failures {
    None,
    After(Snapshot<Failures>),
}

impl Failures {
    ghost use Rattle.std.specs.Prelude.{◌≡◌, ◌+◌};
    ghost use Rattle.page_core.specs.Failures.{failure_count};

    /// Counts one failure more.
    pub fn add_one(&mut self)
        ensures { failure_count self.new ≡ failure_count self.old + 1 }
    {
        let before = Snapshot::of(self);
        *self = Failures::After(before);
    }
}
