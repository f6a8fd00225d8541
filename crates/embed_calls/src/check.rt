//! Checks a whole log.

ghost use Rattle.std.specs.Prelude.{◌≡◌, ◌≢◌, ◌≤◌, length};
ghost use Rattle.log_records.specs.Log.{IsLog, Log, lsn_of, page_count};
ghost use Rattle.log_rules.specs.History.{IsMadeOf};
ghost use Rattle.log_prefix.specs.Front.{end_of};
ghost use Rattle.embed_calls.specs.Calls.{IsChecked, IsNoLog};
ghost use Rattle.embed_calls.specs.Outcome.{answers};

use crate::outcome::Outcome;
use log_records::MAX_RECORDS;
use log_store::{History, scan_log};
use page_core::LSN_STEP;
use std::alloc::Global;

/// Checks whether bytes are a whole log, as `imgcopy redo` does before it writes. With code 0
/// `first` is how many pages its volume has, `second` how many records the log has, and `third` the
/// LSN behind the last of them, which is the log's length in bytes.
///
/// The faults are those of reading a log: 30, 31, 32, 34 and 35, each of which is the first one of
/// the bytes, with the offset of the record at 31, 32 and 35; and 1 where memory is refused.
pub fn check_log(alloc: Global, log: &[u8]) -> Outcome
    ensures right { result.code ≡ 0 → IsChecked log.now result }
    ensures wrong { result.code ≢ 0 → IsNoLog log.now result }
{
    let mut reader = log;
    match scan_log::<&[u8], ()>(alloc, &mut reader) {
        Ok(scan) => counted(scan.history),
        Err(why) => Outcome::from(why),
    }
}

/// The counts of a log, by what its records lead to.
fn counted(history: History) -> Outcome
    requires { (log : Log) × IsMadeOf log history × IsLog log }
    ensures { (log : Log) → IsMadeOf log history → IsLog log
        → result ≡ answers (page_count log) (length log.records) (end_of log) }
{
    let found = history.into_analysis();
    let end = end_behind(found.records);
    Outcome::answers(found.pages.len() as u64, found.records as u64, end)
}

/// The LSN behind so many records.
pub(crate) fn end_behind(records: usize) -> u64
    requires { records ≤ MAX_RECORDS }
    ensures { result ≡ lsn_of records }
{
    LSN_STEP * (records as u64 + 1)
}
