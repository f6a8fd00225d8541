//! The memory that settling takes.

ghost use Rattle.std.specs.Prelude.{◌≡◌, ◌^◌, ◌<◌, false, length, replicate, IfOk};
ghost use Rattle.log_records.specs.Log.{IsPageCount};

use copy_vault::MAX_COPIES;
use page_core::{Page, formatted_pages};
use std::alloc::{AllocError, Global};

/// Room for a volume, a mark for each record and one for each id of a copy.
#[derive(Drop)]
pub(crate) struct Room {
    pub(crate) pages: Vec<Page>,
    pub(crate) marks: Vec<bool>,
    pub(crate) copies: Vec<bool>,
}

impl Room {
    /// Room in which nothing is marked.
    pub(crate) fn new(alloc: Global, pages: u32, records: usize) -> Result<Room, AllocError>
        ensures pages { IfOk result (λ room. length room.pages.items ≡ pages) }
        ensures marks { IfOk result (λ room. room.marks.items ≡ replicate records false) }
        ensures copies { IfOk result (λ room. room.copies.items ≡ replicate 1025 false) }
    {
        let pages = formatted_pages(alloc, pages)?;
        let marks = vec![in alloc; false; records]?;
        let copies = vec![in alloc; false; MAX_COPIES as usize + 1]?;
        Ok(Room {
            pages,
            marks,
            copies,
        })
    }
}
