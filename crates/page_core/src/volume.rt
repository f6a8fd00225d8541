//! The pages of a volume, as a list.

ghost use Rattle.std.specs.Prelude.{ℕ, ◌≡◌, ◌≤◌, IfOk, vec_capacity};
ghost use Rattle.page_core.specs.Volume.{AreNumbered, formatted_pages, grown_to};

use crate::numbers::PageNo;
use crate::page::Page;
use std::alloc::{AllocError, Global};

/// Pages 0 to `count` - 1, formatted.
pub fn formatted_pages(alloc: Global, count: u32) -> Result<Vec<Page>, AllocError>
    ensures formatted { IfOk result (λ pages. pages.items ≡ formatted_pages count) }
    ensures numbered { IfOk result (λ pages. AreNumbered pages.items) }
{
    let mut pages = Vec::with_capacity(alloc, count as usize)?;
    grow_reserved(&mut pages, count);
    Ok(pages)
}

/// Grows a volume to `count` pages, in room that was reserved: the added ones are formatted. One
/// that has as many stays as it is. It takes no memory.
pub fn grow_reserved(pages: &mut Vec<Page>, count: u32)
    requires room { count ≤ vec_capacity pages.old }
    ensures grown { pages.new.items ≡ grown_to count pages.old.items }
    ensures numbered { AreNumbered pages.old.items → AreNumbered pages.new.items }
    ensures room { vec_capacity pages.new ≡ vec_capacity pages.old }
{
    for number in pages.len()..count as usize {
        pages.push_reserved(Page::formatted(PageNo(number as u32)));
    }
}

/// A new volume that grows is a new volume of more pages.
pub fn new_volumes_grow_to_new_ones()
    ensures { (n count : ℕ) → n ≤ count
        → grown_to count (formatted_pages n) ≡ formatted_pages count }
{}
