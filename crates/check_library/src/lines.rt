//! Lines of pages.

use page_core::Page;
use std::alloc::AllocError;

/// Puts a line: the number of a page, its LSN, and its slots that are not 0.
pub fn put_page(text: &mut String, page: &Page) -> Result<(), AllocError> {
    write!(text, "page {} lsn {}", page.number.0, page.lsn.0)?;
    for (slot, value) in page.slots.iter().enumerate() {
        if *value != 0 {
            write!(text, " {slot}={value}")?;
        }
    }
    text.push_str("\n")
}
