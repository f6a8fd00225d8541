//! One frame, which holds a page.

ghost use Rattle.std.specs.Prelude.{◌≡◌, IfOk};
ghost use Rattle.log_records.specs.Image.{with_record};

use log_records::Record;
use page_core::{Page, PageNo};
use std::alloc::{AllocError, Global};
use std::marker::Model;

/// How many frames a pool has at most.
pub const MAX_FRAMES: u32 = 65_536;

/// A place in memory for one page, with the page that it holds.
#[derive(Drop)]
pub(crate) struct Frame {
    page: Box<Page>,
}

impl Model for Frame {
    ghost use Rattle.page_core.specs.declared.page.Page.{Page};

    ghost Value = { Page };

    ghost view = { λ frame. frame.page.value };
}

impl Frame {
    /// A frame whose page nobody asks for yet. `AllocError` comes where its memory is refused.
    pub(crate) fn new(alloc: Global) -> Result<Frame, AllocError> {
        Ok(Frame {
            page: Box::new(alloc, Page::formatted(PageNo(0)))?,
        })
    }

    /// The page.
    pub(crate) fn page(&self) -> &Page
        ensures { result.now ≡ self.now }
    {
        &self.page
    }

    /// Puts another page into the frame.
    pub(crate) fn hold(&mut self, page: Page)
        ensures { self.new ≡ page }
    {
        *self.page = page;
    }

    /// Redoes a record on the page, if it is a change of this page.
    pub(crate) fn redo(&mut self, next: &Record)
        ensures { self.new ≡ with_record self.old next.now }
    {
        next.redo_on(&mut self.page);
    }
}
