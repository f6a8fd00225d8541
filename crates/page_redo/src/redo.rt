//! Redoes records on pages (ARIES, section 6.2).

ghost use Rattle.std.specs.Prelude.{◌≡◌};
ghost use Rattle.page_redo.specs.Redo.{redone};

use log_records::Record;
use log_store::redo_record;
use page_core::Page;

/// Redoes on a page the records above its LSN, in their order, and leaves out all others: a page
/// that was stored with some of the changes gets just those that it lacks. The LSN is the one at
/// the call, so the records have to be in the log's order. Those of other pages and those that
/// change nothing are passed over.
pub fn redo_page(page: &mut Page, records: &[Record])
    ensures { page.new ≡ redone page.old records.now }
{
    let had = page.lsn;
    for record in records {
        redo_record(page, had, record);
    }
}
