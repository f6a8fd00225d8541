//! The store of a volume's pages: nonvolatile storage, in the words of ARIES.

ghost use Rattle.std.specs.Prelude.{ℕ, ◌≡◌, ◌<◌, ◌≤◌, List, length, slice_get, slice_set, Some};
ghost use Rattle.std.specs.Prelude.{IfOk, OnOk, OnErr};
ghost use Rattle.page_core.specs.declared.page.Page.{Page};
ghost use Rattle.page_core.specs.declared.page.TheConstants.{MAX_PAGES};
ghost use Rattle.page_core.specs.Volume.{AreNumbered};
ghost use Rattle.page_store.specs.Store.{GrowCall, IsGrown, ReadCall, StoresOrKeeps, WriteCall};

use page_core::{Page, PageNo};
use std::error::Error;
use std::fmt;

/// A store of the pages of a volume. Each page is read and written as a whole.
pub trait PageStore {
    /// The stored pages.
    ghost stored: { Self → List Page };

    /// What one call of `read` gave: the store before it, the number, what it answered, and the
    /// store after it. A caller that is written for any store has no other way to show this than to
    /// make the call. A store of which no more is to be known than what follows may say that it
    /// always holds; the same goes for `wrote` and `grew`.
    ghost gave: { ReadCall Self };

    /// What one call of `write` wrote: the store before it, the number, the page, what it answered,
    /// and the store after it.
    ghost wrote: { WriteCall Self };

    /// How one call of `grow` went: the store before it, the page count that was asked for, what it
    /// answered, and the store after it.
    ghost grew: { GrowCall Self };

    /// How often the store has failed. Contracts count this, and no code can read it; it may always
    /// grow by one more.
    ghost failures: { Self → ℕ };

    /// How many pages are stored. No read and no write changes that.
    fn pages(&self) -> u32
        ensures count { result ≡ length (stored self.now) }
        ensures few { length (stored self.now) ≤ MAX_PAGES }
        ensures numbered { AreNumbered (stored self.now) };

    /// The stored page of this number.
    ///
    /// An `Err` comes where the store fails, and of nothing else. Each stored page stays even then.
    fn read(&mut self, number: PageNo) -> Result<Page, StoreFault>
        requires { number < length (stored self.old) }

        ensures found { IfOk result (λ page. slice_get (stored self.old) number ≡ Some page) }
        ensures numbered { IfOk result (λ page. page.number ≡ number) }
        ensures same { stored self.new ≡ stored self.old }

        ensures gave { gave self.old number result self.new }
        ensures no_failure { OnOk result (failures self.new ≡ failures self.old) }
        ensures failure { OnErr result (failures self.old < failures self.new) };

    /// Stores a page in the place of the one of its number.
    ///
    /// An `Err` comes where the store fails, and of nothing else. Then either page may be stored,
    /// the old one or this one, and a read tells which. Every other page stays.
    fn write(&mut self, number: PageNo, page: &Page) -> Result<(), StoreFault>
        requires there { number < length (stored self.old) }
        requires numbered { page.now.number ≡ number }

        ensures stored { OnOk result
            (stored self.new ≡ slice_set (stored self.old) number page.now) }
        ensures either { OnErr result
            (StoresOrKeeps (stored self.old) number page.now (stored self.new)) }

        ensures wrote { wrote self.old number page.now result self.new }
        ensures no_failure { OnOk result (failures self.new ≡ failures self.old) }
        ensures failure { OnErr result (failures self.old < failures self.new) };

    /// Adds formatted pages behind the last one, so that at least `count` are stored. Where as many
    /// are, nothing changes.
    ///
    /// An `Err` comes where the store fails, and of nothing else. Then some of these pages may have
    /// been added, and `pages` tells how many there are. Each page that was stored stays.
    fn grow(&mut self, count: u32) -> Result<(), StoreFault>
        requires { count ≤ MAX_PAGES }

        ensures grown { IsGrown (stored self.old) (stored self.new) }
        ensures enough { OnOk result (count ≤ length (stored self.new)) }
        ensures same { OnOk result
            (count ≤ length (stored self.old) → stored self.new ≡ stored self.old) }

        ensures grew { grew self.old count result self.new }
        ensures no_failure { OnOk result (failures self.new ≡ failures self.old) }
        ensures failure { OnErr result (failures self.old < failures self.new) };
}

/// The store failed. `PageStore` says of each call what is stored then.
#[derive(Clone, Copy, Debug, PartialEq, Eq)]
pub struct StoreFault;

impl fmt::Display for StoreFault {
    ghost use Rattle.std.specs.Prelude.{Some, codes};

    ghost output = { λ _. Some (codes "the page store failed") };

    fn fmt<W: fmt::Write>(&self, f: &mut fmt::Formatter<W>) -> fmt::Result {
        f.write_str("the page store failed")
    }
}

impl Error for StoreFault {}
