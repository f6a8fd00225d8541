//! A whole log that was read, as a value.

ghost use Rattle.std.specs.Prelude.{◌≡◌, IfOk, length, take};
ghost use Rattle.log_records.specs.Log.{IsLog, counts_of, lsn_of, page_count};
ghost use Rattle.log_records.specs.PageCount.{count_behind};

use crate::sink::RecordSink;
use log_records::{Record, count_behind, note_counts};
use page_core::{LSN_STEP, Lsn, PageCounts};
use std::alloc::{AllocError, Global};
use std::marker::Model;

/// A log as it was read: the page count of its header, and its records, the oldest first.
#[derive(Drop)]
pub struct LogImage {
    pages: u32,
    /// The page count behind all records.
    count: u32,
    records: Vec<Record>,
}

impl Model for LogImage {
    ghost use Rattle.std.specs.Prelude.{◌≡◌};
    ghost use Rattle.log_records.specs.Log.{IsLog, Log};
    ghost use Rattle.log_records.specs.PageCount.{count_behind};

    ghost Value = { Log };

    ghost view = { λ image. record { pages = image.pages; records = image.records.items } };

    ghost invariant = { λ image.
        IsLog (record { pages = image.pages; records = image.records.items })
        × (image.count ≡ count_behind image.pages image.records.items) };
}

impl LogImage {
    /// A log of these records, the oldest first, over a volume of so many pages.
    pub fn from_records(pages: u32, records: Vec<Record>) -> LogImage
        requires { IsLog (record { pages = pages; records = records.items }) }
        ensures { result ≡ record { pages = pages; records = records.items } }
    {
        let count = count_behind(pages, &records);
        LogImage {
            pages,
            count,
            records,
        }
    }

    /// A log of these records, of which the page count behind all of them is known.
    pub(crate) fn from_parts(pages: u32, count: u32, records: Vec<Record>) -> LogImage
        requires log { IsLog (record { pages = pages; records = records.items }) }
        requires count { count ≡ count_behind pages records.items }
        ensures { result ≡ record { pages = pages; records = records.items } }
    {
        LogImage {
            pages,
            count,
            records,
        }
    }

    /// The page count that its header gives.
    pub fn pages(&self) -> u32
        ensures pages { result ≡ self.now.pages }
        ensures valid { IsLog self.now }
    {
        self.pages
    }

    /// How many pages the volume has behind all records.
    pub fn page_count(&self) -> u32
        ensures count { result ≡ page_count self.now }
        ensures valid { IsLog self.now }
    {
        self.count
    }

    /// The page counts of the volume, as the log goes on. An `Err` comes where memory for them is
    /// refused.
    pub fn counts(&self, alloc: Global) -> Result<PageCounts, AllocError>
        ensures { IfOk result (λ counts. counts ≡ counts_of self.now) }
    {
        let mut counts = PageCounts::new(alloc, self.pages);
        note_counts(&mut counts, &self.records)?;
        Ok(counts)
    }

    /// The records, the oldest first. The record at index i has LSN 64 * (i + 1).
    pub fn records(&self) -> &[Record]
        ensures records { result.now ≡ self.now.records }
        ensures valid { IsLog self.now }
    {
        &self.records
    }

    /// The LSN after the last record.
    pub fn end(&self) -> Lsn
        ensures { result ≡ lsn_of (length self.now.records) }
    {
        Lsn(LSN_STEP * (self.records.len() as u64 + 1))
    }

    /// Keeps the first `count` records, or all if there are fewer.
    pub fn keep_first(&mut self, count: usize)
        ensures { self.new ≡ record self.old { records = take count self.old.records } }
    {
        self.records.truncate(count);
        self.count = count_behind(self.pages, &self.records);
    }

    /// Its parts: the page count that its header gives, and the records.
    pub fn into_parts(self) -> (u32, Vec<Record>)
        ensures parts { (result.0 ≡ self.pages) × (result.1.items ≡ self.records) }
        ensures valid { IsLog self }
    {
        (self.pages, self.records)
    }
}

impl RecordSink for LogImage {
    ghost holds = { λ image log. image ≡ log };

    fn start(alloc: Global, pages: u32) -> Result<LogImage, AllocError> {
        Ok(LogImage {
            pages,
            count: pages,
            records: Vec::new(alloc),
        })
    }

    fn take(&mut self, next: &[Record]) -> Result<(), AllocError> {
        // A scan hands over one record at a time, and a push of it is cheaper than a copy.
        if next.len() == 1 {
            self.records.push(next[0])?;
        } else {
            self.records.extend_from_slice(next)?;
        }
        self.count = count_behind(self.count, next);
        Ok(())
    }
}
