//! Laws of pages that are kept elsewhere while their log grows, for readers of the contracts.

ghost use Rattle.std.specs.Prelude.{ℕ, ◌≡◌, ◌<◌, ◌≤◌, ◌++◌, ◌∷◌, [], List, length, take, Some};
ghost use Rattle.std.specs.Prelude.{None, Option, slice_index_or};
ghost use Rattle.log_records.specs.declared.record.Record.{Record};
ghost use Rattle.log_records.specs.Log.{Log, IsLog, lsn_of, page_count};
ghost use Rattle.log_records.specs.Image.{image};
ghost use Rattle.log_records.specs.Record.{own_lsn};
ghost use Rattle.page_core.specs.declared.page.Page.{Page};
ghost use Rattle.page_core.specs.Page.{formatted};
ghost use Rattle.log_records.specs.Coverage.{AreStored, Covers, IsPast, rec_lsn, resume, up_to};

/// An image names by its LSN the records that it was made of.
pub fn an_image_names_its_records()
    ensures { (log : Log) (number : ℕ) (page : Page) → IsLog log → IsPast log.records number page
        → page ≡ image (up_to log.records page.lsn) number }
{}

/// A page that lacks nothing below an LSN lacks nothing below a lower one.
pub fn covering_goes_down()
    ensures { (rs : List Record) (number : ℕ) (page : Page) (high low : ℕ) → low ≤ high
        → Covers rs number page high → Covers rs number page low }
{}

/// A log that grows leaves a page as it was: an image of the log's past, which lacks nothing below
/// an LSN that is not above the new record.
pub fn covering_outlasts_new_records()
    ensures { (rs : List Record) (next : Record) (number : ℕ) (page : Page) (bound : ℕ)
        → bound ≤ own_lsn next → Covers rs number page bound
        → Covers (rs ++ next ∷ []) number page bound }
{}

/// Redo from an LSN below which a page lacks nothing turns it into what the whole log makes of it.
pub fn redo_of_a_covering_page_is_its_image()
    ensures { (log : Log) (number : ℕ) (page : Page) (from : ℕ) → IsLog log
        → Covers log.records number page from
        → resume page log.records from ≡ image log.records number }
{}

/// A stored page that has reached the LSN of its last write lacks nothing below its RecLSN; where
/// it has none, it is the page as it is now.
pub fn a_stored_page_covers_its_rec_lsn()
    ensures dirty { (log : Log) (number : ℕ) (page : Page) (written rec : ℕ) → IsLog log
        → IsPast log.records number page → written ≤ page.lsn
        → rec_lsn log.records number written ≡ Some rec → Covers log.records number page rec }
    ensures clean { (log : Log) (number : ℕ) (page : Page) (written : ℕ) → IsLog log
        → IsPast log.records number page → written ≤ page.lsn
        → rec_lsn log.records number written ≡ None → page ≡ image log.records number }
{}

/// A store may have more pages than the volume. Those past the volume are formatted, since no
/// record of the log names one.
pub fn stored_pages_past_the_volume_are_formatted()
    ensures { (log : Log) (stored : List Page) (written : List ℕ) (writing : List (Option Page))
        (number : ℕ) (d : Page) → IsLog log → AreStored log.records stored written writing
        → page_count log ≤ number → number < length stored
        → slice_index_or stored number d ≡ formatted number }
{}
