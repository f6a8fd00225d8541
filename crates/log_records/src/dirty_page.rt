//! Entries of the dirty page table.

/// A dirty page: its number, and its RecLSN, the LSN of the first change that its stored page may
/// lack (ARIES, section 4.4). They are plain numbers, since a record that has newtypes within an
/// enum of its own cannot be kept in a `Vec` with this version of the kit.
#[derive(Clone, Copy, Debug, PartialEq, Eq)]
pub struct DirtyPage {
    pub page: u32,
    pub rec_lsn: u64,
}

/// One to three dirty pages.
#[derive(Clone, Copy, Debug, PartialEq, Eq)]
pub enum DirtyPages {
    One(DirtyPage),
    Two(DirtyPage, DirtyPage),
    Three(DirtyPage, DirtyPage, DirtyPage),
}

impl DirtyPages {
    ghost use Rattle.std.specs.Prelude.{◌<◌, ◌↔◌, IsTrue};
    ghost use Rattle.std.specs.List.{AllByRecursion};
    ghost use Rattle.log_records.specs.DirtyPage.{entries_of};

    /// Each of them is a page of a volume of so many.
    pub fn are_within(&self, pages: u32) -> bool
        ensures { IsTrue result ↔ AllByRecursion (λ e. e.page < pages) (entries_of self.now) }
    {
        match *self {
            DirtyPages::One(a) => a.page < pages,
            DirtyPages::Two(a, b) => a.page < pages && b.page < pages,
            DirtyPages::Three(a, b, c) => a.page < pages && b.page < pages && c.page < pages,
        }
    }
}
