//! Where an audit found the first unsound page.

use page_core::PageNo;

/// A page of a chain up to one of its members that is not sound.
#[derive(Clone, Copy, Debug, PartialEq, Eq)]
pub(crate) struct Found {
    /// The place of the member in the chain, counted from 0.
    pub(crate) member: usize,
    pub(crate) page: PageNo,
}
