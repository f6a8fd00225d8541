//! A store in memory of pages that are there already.

ghost use Rattle.std.specs.Prelude.{◌≡◌, ◌≤◌, IfOk, length};
ghost use Rattle.page_core.specs.declared.page.TheConstants.{MAX_PAGES};
ghost use Rattle.page_core.specs.Volume.{AreNumbered};

use page_core::{Page, PageNo};
use page_store::{MemStore, PageStore};
use std::alloc::{AllocError, Global};

/// A store in memory of these pages, in order of their numbers. `AllocError` comes where its memory
/// is refused.
pub fn store_of(alloc: Global, pages: &[Page]) -> Result<MemStore, AllocError>
    requires some { 1 ≤ length pages.now }
    requires few { length pages.now ≤ MAX_PAGES }
    requires numbered { AreNumbered pages.now }
    ensures { IfOk result (λ store. store ≡ pages.now) }
{
    let mut store = MemStore::new(alloc, pages.len() as u32)?;
    for (number, page) in pages.iter().enumerate() {
        let _ = store.write(PageNo(number as u32), page);
    }
    Ok(store)
}
