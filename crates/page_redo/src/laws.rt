//! Laws of the pages that a log makes, for readers of the contracts.

ghost use Rattle.std.specs.Prelude.{ℕ, ◌≡◌, ◌≤◌, length, take};
ghost use Rattle.std.specs.List.{AllByRecursion};
ghost use Rattle.page_core.specs.Page.{IsPage};
ghost use Rattle.log_records.specs.Log.{Log, IsLog, page_count};
ghost use Rattle.log_records.specs.Image.{image, redo_all};
ghost use Rattle.page_redo.specs.Redo.{redone};

/// The pages that a log makes are pages that a volume may have, so they have a spelling.
pub fn pages_of_logs_are_valid()
    ensures { (log : Log) → IsLog log → AllByRecursion IsPage
        (redo_all log.records (page_count log)) }
{}

/// Redo turns a page that was stored with the changes of the log's first records, however many,
/// into what the whole log makes of it.
pub fn redo_completes_a_page()
    ensures { (log : Log) (count number : ℕ) → IsLog log → count ≤ length log.records
        → redone (image (take count log.records) number) log.records ≡ image log.records number }
{}
