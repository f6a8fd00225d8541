//! The page counts of a volume, as its log goes on.

ghost use Rattle.std.specs.Prelude.{◌≡◌, ◌++◌, ◌∷◌, [], OnErr, OnOk};
ghost use Rattle.page_core.specs.PageCounts.{count_below, last_count};

use crate::numbers::Lsn;
use std::alloc::{AllocError, Global};
use std::marker::Model;

/// A page count that a record of the log gave to the volume, and the LSN of that record.
#[derive(Clone, Copy, Debug, PartialEq, Eq)]
pub struct GivenCount {
    pub lsn: Lsn,
    pub pages: u32,
}

/// The page counts of a volume: the one that the log's header gives, and those that the log's
/// records gave, in their order. A volume never gets smaller.
#[derive(Drop)]
pub struct PageCounts {
    first: u32,
    given: Vec<GivenCount>,
}

impl Model for PageCounts {
    ghost use Rattle.page_core.specs.PageCounts.{PageCounts};

    ghost Value = { PageCounts };

    ghost view = { λ it. record { first = it.first; given = it.given.items } };
}

impl PageCounts {
    /// The counts of a volume whose log's header gives this one. It takes no memory.
    pub fn new(alloc: Global, first: u32) -> PageCounts
        ensures { result ≡ record { first = first; given = [] } }
    {
        PageCounts {
            first,
            given: Vec::new(alloc),
        }
    }

    /// Notes a count that the record at an LSN gave. An `Err` comes where memory for it is refused.
    pub fn note(&mut self, count: GivenCount) -> Result<(), AllocError>
        ensures ok { OnOk result (self.new ≡ record self.old {
          given = self.old.given ++ count ∷ [];
        }) }
        ensures err { OnErr result (self.new ≡ self.old) }
    {
        Ok(self.given.push(count)?)
    }

    /// The page count behind all records.
    pub fn last(&self) -> u32
        ensures { result ≡ last_count self.now }
    {
        let mut count = self.first;
        for given in &self.given {
            count = count.max(given.pages);
        }
        count
    }

    /// The page count behind the records below an LSN.
    pub fn below(&self, lsn: Lsn) -> u32
        ensures { result ≡ count_below self.now lsn }
    {
        let mut count = self.first;
        for given in &self.given {
            if given.lsn < lsn {
                count = count.max(given.pages);
            }
        }
        count
    }
}
