//! One page of a volume, rebuilt from image copies and the log.

ghost use Rattle.std.specs.Prelude.{ℕ, ◌≡◌};
ghost use Rattle.page_core.specs.declared.page.Page.{Page};
ghost use Rattle.log_records.specs.Coverage.{Covers, resume};
ghost use Rattle.log_records.specs.Image.{image};
ghost use Rattle.log_records.specs.Log.{IsLog};
ghost use Rattle.copy_vault.specs.Chain.{content, last_redo};
ghost use Rattle.page_redo.specs.Redo.{redone};

use crate::redo::redo_page;
use copy_vault::Chain;
use log_records::Record;
use page_core::{Lsn, Page, PageNo};

/// A page as media recovery makes it (ARIES, section 8): the chain's page, on which the changes are
/// redone that stand in the log at or above the chain's redo point and are above that page's LSN,
/// in their order. Where the chain's page lacks no change below the redo point, this is the page as
/// the whole log makes it.
///
/// It takes no memory. It looks at one page of the chain, and goes once over the records from the
/// redo point on.
pub fn rebuild_page(chain: &Chain, log: &[Record], number: PageNo) -> Page
    requires log { (pages : ℕ) × IsLog (record { pages = pages; records = log.now }) }

    ensures resumed { result ≡ resume (content chain.now number) log.now (last_redo chain.now) }
    ensures image { Covers log.now number (content chain.now number) (last_redo chain.now)
        → result ≡ image log.now number }
    ensures numbered { result.number ≡ number }
{
    let mut page = chain.content(number);
    redo_page(&mut page, records_from(log, chain.redo()));
    page
}

/// The records of a log from a redo point on.
fn records_from(log: &[Record], from: Lsn) -> &[Record]
    requires { (pages : ℕ) × IsLog (record { pages = pages; records = log.now }) }
    ensures { (page : Page) → redone page result.now ≡ resume page log.now from }
{
    let first = from.records_below();
    &log[first.min(log.len())..]
}
