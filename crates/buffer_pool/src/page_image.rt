//! The image of a page that is being written.

ghost use Rattle.std.specs.Prelude.{◌≡◌, IfOk};

use page_core::Page;
use std::alloc::{AllocError, Global};
use std::marker::Model;

/// A page as it was when a write of it began. It is one page on the heap.
#[derive(Drop)]
pub struct PageImage {
    page: Box<Page>,
}

impl Model for PageImage {
    ghost use Rattle.page_core.specs.declared.page.Page.{Page};

    ghost Value = { Page };

    ghost view = { λ image. image.page.value };
}

impl PageImage {
    /// A copy of this page. `AllocError` comes where its memory is refused.
    pub(crate) fn of(alloc: Global, page: &Page) -> Result<PageImage, AllocError>
        ensures { IfOk result (λ image. image ≡ page.now) }
    {
        Ok(PageImage {
            page: Box::new(alloc, page.copy())?,
        })
    }

    /// The page.
    pub fn page(&self) -> &Page
        ensures { result.now ≡ self.now }
    {
        &self.page
    }
}
