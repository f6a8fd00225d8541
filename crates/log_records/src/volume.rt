//! The pages of a volume, in the order of their numbers.

ghost use Rattle.std.specs.Prelude.{◌≡◌, length, map};
ghost use Rattle.log_records.specs.Image.{AreNumbered, with_record};
ghost use Rattle.log_records.specs.Log.{IsWithin};

use crate::record::Record;
use page_core::Page;

/// Redoes a record on the page that it names, if it is a change. Every other page stays.
pub fn redo_on_its_page(pages: &mut [Page], next: &Record)
    requires within { IsWithin (length pages.old) next.now }
    requires numbered { AreNumbered pages.old }
    ensures { pages.new ≡ map (λ page. with_record page next.now) pages.old }
{
    if let Some(change) = next.change() {
        next.redo_on(&mut pages[change.page.0 as usize]);
    }
}
