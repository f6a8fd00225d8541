//! Laws of the page count of a volume, for readers of the contracts.

ghost use Rattle.std.specs.Prelude.{ℕ, ◌≡◌, ◌-◌, ◌/◌, ◌<◌, ◌≤◌, List, length, slice_index_or, take};
ghost use Rattle.page_core.specs.PageCounts.{count_below, last_count};
ghost use Rattle.page_core.specs.declared.numbers.TheConstants.{LSN_STEP};
ghost use Rattle.log_records.specs.declared.record.Record.{Record};
ghost use Rattle.log_records.specs.Log.{AreWithin, IsLog, Log, StandsAt, counts_of};
ghost use Rattle.log_records.specs.Log.{lsn_of, page_count, page_count_at, page_count_below};
ghost use Rattle.log_records.specs.Log.{with_next};
ghost use Rattle.log_records.specs.Record.{IsPageCount};

/// A longer log has no smaller page count, and what comes behind a place changes nothing there.
pub fn volumes_never_get_smaller()
    ensures longer { (log : Log) (more : List Record)
        → page_count log ≤ page_count (with_next log more) }
    ensures before { (log : Log) (more : List Record) (n : ℕ) → n ≤ length log.records
        → page_count_at (with_next log more) n ≡ page_count_at log n }
{}

/// The page count below an LSN is that of the log that is cut there, and at most that of the whole
/// log.
pub fn page_counts_below_an_lsn_are_of_the_log_cut_there()
    ensures cut { (log : Log) (lsn : ℕ) → page_count_below log lsn
        ≡ page_count (record log { records = take ((lsn - 1) / LSN_STEP) log.records }) }
    ensures most { (log : Log) (lsn : ℕ) → page_count_below log lsn ≤ page_count log }
{}

/// The counts that a log gave say its page count, in the end and below each LSN.
pub fn given_counts_say_the_page_count()
    ensures last { (log : Log) → last_count (counts_of log) ≡ page_count log }
    ensures below { (log : Log) (lsn : ℕ) → IsLog log
        → count_below (counts_of log) lsn ≡ page_count_below log lsn }
{}

/// Each record of a log names only pages that the volume has in the end.
pub fn records_name_pages_of_the_volume()
    ensures stands { (log : Log) (i : ℕ) (d : Record) → IsLog log → i < length log.records
        → StandsAt (page_count log) (lsn_of i) (slice_index_or log.records i d) }
    ensures within { (log : Log) → IsLog log → AreWithin (page_count log) log.records }
{}

/// The page count of a log is one that a header may have.
pub fn page_counts_are_those_of_a_header()
    ensures { (log : Log) → IsLog log → IsPageCount (page_count log) }
{}
