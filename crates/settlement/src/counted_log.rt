//! A log with the page count that its volume had at each place.

ghost use Rattle.std.specs.Prelude.{◌≡◌, IfOk};
ghost use Rattle.log_records.specs.Log.{page_count_below};

use log_records::Record;
use page_core::Lsn;
use std::alloc::{AllocError, Global};
use std::marker::Model;

/// The records of a log, with the page count of the volume along them. It is counted once, and each
/// look at a place of the log is then one look.
#[derive(Drop)]
pub struct CountedLog<'a> {
    records: &'a [Record],
    /// The page count that the log's header gives.
    first: u32,
    /// The page count behind each record.
    behind: Vec<u32>,
}

impl<'a> Model for CountedLog<'a> {
    ghost use Rattle.log_records.specs.Log.{Log};
    ghost use Rattle.settlement.specs.CountedLog.{AreBehind};

    ghost Value = { Log };

    ghost view = { λ it. record { pages = it.first; records = it.records.now } };

    ghost invariant = { λ it.
        AreBehind (record { pages = it.first; records = it.records.now }) it.behind.items };
}

impl<'a> CountedLog<'a> {
    /// A log of these records, whose header gives this page count. An `Err` comes where memory for
    /// the counts is refused.
    pub fn new(
        alloc: Global,
        first: u32,
        records: &'a [Record],
    ) -> Result<CountedLog<'a>, AllocError>
        ensures { IfOk result (λ it. it ≡ record { pages = first; records = records.now }) }
    {
        let mut behind = Vec::with_capacity(alloc, records.len())?;
        let mut count = first;
        for record in records {
            count = record.count_after(count);
            behind.push(count)?;
        }
        Ok(CountedLog {
            records,
            first,
            behind,
        })
    }

    /// The records, the oldest first.
    pub fn records(&self) -> &[Record]
        ensures { result.now ≡ self.now.records }
    {
        self.records
    }

    /// The page count of the log below an LSN.
    pub fn count_below(&self, lsn: Lsn) -> u32
        ensures { result ≡ page_count_below self.now lsn }
    {
        let count = lsn.records_below().min(self.records.len());
        if count == 0 {
            return self.first;
        }
        self.behind[count - 1]
    }
}
