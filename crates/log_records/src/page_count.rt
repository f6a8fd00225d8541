//! The page count of a volume, as the records of its log make it.

ghost use Rattle.std.specs.Prelude.{◌≡◌, ◌++◌, OnErr, OnOk};
ghost use Rattle.std.specs.List.{filter_map};
ghost use Rattle.log_records.specs.PageCount.{count_after, count_behind, given_by, given_count};

use crate::record::Record;
use page_core::{GivenCount, PageCounts};
use std::alloc::AllocError;

impl Record {
    /// The page count that the record gives to the volume, if it gives one.
    pub fn given_count(&self) -> Option<u32>
        ensures { result ≡ given_count self.now }
    {
        match *self {
            Record::Extend { pages, .. } => Some(pages),
            Record::Begin { .. }
            | Record::Update { .. }
            | Record::Comp { .. }
            | Record::Commit { .. }
            | Record::Abort { .. }
            | Record::End { .. }
            | Record::BeginChkpt { .. }
            | Record::ChkptPages { .. }
            | Record::ChkptTxns { .. }
            | Record::EndChkpt { .. } => None,
        }
    }

    /// The page count behind the record, of a volume that had so many pages before it.
    pub fn count_after(&self, count: u32) -> u32
        ensures { result ≡ count_after count self.now }
    {
        match self.given_count() {
            Some(given) => count.max(given),
            None => count,
        }
    }
}

/// The page count behind these records, of a volume that had so many pages before them.
pub fn count_behind(count: u32, records: &[Record]) -> u32
    ensures { result ≡ count_behind count records.now }
{
    let mut last = count;
    for record in records {
        last = record.count_after(last);
    }
    last
}

/// Notes the counts that these records give. An `Err` comes where memory for one is refused; then
/// some of them may be noted.
pub fn note_counts(counts: &mut PageCounts, records: &[Record]) -> Result<(), AllocError>
    ensures { OnOk result (counts.new ≡ record counts.old {
      given = counts.old.given ++ filter_map given_by records.now;
    }) }
{
    for record in records {
        if let Some(pages) = record.given_count() {
            counts.note(GivenCount {
                lsn: record.lsn(),
                pages,
            })?;
        }
    }
    Ok(())
}
