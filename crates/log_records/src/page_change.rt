//! A change of a slot of a page.

use page_core::{Change, PageNo, SlotNo};

/// A change, and the slot that it falls on.
#[derive(Clone, Copy, Debug, PartialEq, Eq)]
pub struct PageChange {
    pub page: PageNo,
    pub slot: SlotNo,
    pub change: Change,
}
