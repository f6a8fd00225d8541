//! Pages, slots, changes and their bytes, and the page counts of a volume.

pub use page_core::{BadPage, Change, GivenCount, Lsn, Page, PageCounts, PageNo, SlotNo, undo_of};
