//! The copies of a folder, and which of their chains are whole.

ghost use Rattle.std.specs.Prelude.{◌≡◌, [], OnErr, OnOk};
ghost use Rattle.file_view.specs.CopyRows.{AddsRow, IsFlawOf, lacking_at, lacking_from};

use crate::copy_header::CopyHeader;
use crate::summary::LogFacts;
use page_core::FaultName;
use std::alloc::{AllocError, Global};
use std::fmt;

/// What is wrong with a copy, by its header, its length and the log beside it. Its text stands in
/// the copy's line.
#[derive(Clone, Copy, Debug, PartialEq, Eq)]
pub enum CopyFlaw {
    /// Its file is shorter or longer than its header says.
    Length,
    /// It has another page count than the log before its checkpoint.
    Pages,
    /// Its redo point is not below the log's end.
    Redo,
    /// The checkpoint that it notes does not begin below the log's end.
    Begin,
}

impl fmt::Display for CopyFlaw {
    fn fmt<W: fmt::Write>(&self, f: &mut fmt::Formatter<W>) -> fmt::Result {
        match self {
            CopyFlaw::Length => write!(f, "{}", FaultName::CountDiffers),
            CopyFlaw::Pages => write!(f, "{}", FaultName::ChainBroken),
            CopyFlaw::Redo => write!(f, "{}", FaultName::RedoBeyondLog),
            CopyFlaw::Begin => f.write_str("begins past the log"),
        }
    }
}

/// A copy of a folder.
#[derive(Clone, Copy)]
pub struct CopyRow {
    pub header: CopyHeader,
    /// How many bytes its file has.
    pub bytes: u64,
    /// What is wrong with it itself.
    pub flaw: Option<CopyFlaw>,
    /// The nearest copy below this one of which there is no archive, or one with a flaw. Without
    /// one, and without a flaw, the chain is whole.
    pub missing: Option<u32>,
}

/// The copies of a folder, in order of their ids.
#[derive(Drop)]
pub struct Rows {
    rows: Vec<CopyRow>,
}

impl Rows {
    /// No copies yet.
    pub fn new(alloc: Global) -> Rows
        ensures { result.rows.items ≡ [] }
    {
        Rows {
            rows: Vec::new(alloc),
        }
    }

    /// Notes the next copy, whose file has so many bytes, beside this log, if one is known. Its id
    /// has to be above those of the copies before it, as each parent is below its child.
    pub fn push(
        &mut self,
        header: CopyHeader,
        bytes: u64,
        log: &Option<LogFacts>,
    ) -> Result<(), AllocError>
        ensures ok { OnOk result (AddsRow header bytes log.now
            self.old.rows.items self.new.rows.items) }
        ensures err { OnErr result (self.new.rows.items ≡ self.old.rows.items) }
    {
        let missing = if header.parent == 0 {
            None
        } else {
            missing_at(&self.rows, header.parent)
        };
        let flaw = flaw_of(&header, bytes, log);
        self.rows.push(CopyRow {
            header,
            bytes,
            flaw,
            missing,
        })?;
        Ok(())
    }

    /// The copies, in order of their ids.
    pub fn rows(&self) -> &[CopyRow]
        ensures { result.now ≡ self.now.rows.items }
    {
        &self.rows
    }
}

/// The nearest copy from that of an id down of which there is no archive, or one with a flaw.
fn missing_at(rows: &[CopyRow], id: u32) -> Option<u32>
    ensures { result ≡ lacking_at id rows.now }
{
    for row in rows {
        if row.header.id == id {
            return missing_from(row);
        }
    }
    Some(id)
}

/// The nearest copy, from one of which there is an archive on, that has none or has a flaw.
fn missing_from(row: &CopyRow) -> Option<u32>
    ensures { result ≡ lacking_from row.now }
{
    if row.flaw.is_some() {
        Some(row.header.id)
    } else {
        row.missing
    }
}

/// What is wrong with a copy, whose file has so many bytes, beside this log. As a restore does, it
/// looks at the page count before the redo point.
fn flaw_of(header: &CopyHeader, bytes: u64, log: &Option<LogFacts>) -> Option<CopyFlaw>
    ensures { IsFlawOf header.now bytes log.now result }
{
    if bytes != header.bytes() {
        return Some(CopyFlaw::Length);
    }
    let Some(log) = log else {
        return None;
    };
    if header.pages != log.counts.below(header.begin) {
        Some(CopyFlaw::Pages)
    } else if header.redo >= log.end() {
        Some(CopyFlaw::Redo)
    } else if header.begin >= log.end() {
        Some(CopyFlaw::Begin)
    } else {
        None
    }
}
