//! Undoes a whole log.

ghost use Rattle.std.specs.Prelude.{◌≡◌, ◌↔◌, ◌+◌, ◌<◌, ◌≤◌, length, IfOk, IfErr, IsErrAnd};
ghost use Rattle.log_records.specs.declared.limits.TheConstants.{MAX_RECORDS};
ghost use Rattle.log_rules.specs.Transactions.{owed};
ghost use Rattle.loser_undo.specs.declared.fault.UndoFault.TheVariants.{LogFull};
ghost use Rattle.loser_undo.specs.Recovery.{HasCommitted, HasLogsPages, undone};

use crate::fault::UndoFault;
use crate::redone::Redone;
use crate::undo_sink::undo_into;
use log_records::Record;
use log_store::{LogImage, Master};
use page_core::Page;
use std::marker::Model;

/// A log, its master record and its pages after undo: no transaction is open.
#[derive(Drop)]
pub struct Undone {
    /// The page count that the log's header gives.
    first_count: u32,
    records: Vec<Record>,
    master: Master,
    pages: Vec<Page>,
}

impl Model for Undone {
    ghost use Rattle.loser_undo.specs.Recovery.{IsUndone, Recovery};

    ghost Value = { Recovery };

    ghost view = { λ it. record {
      log = record { pages = it.first_count; records = it.records.items };
      master = it.master;
      pages = it.pages.items;
    } };

    ghost invariant = { λ it. IsUndone (record {
      log = record { pages = it.first_count; records = it.records.items };
      master = it.master;
      pages = it.pages.items;
    }) };
}

impl Undone {
    ghost use Rattle.log_records.specs.Log.{page_count};
    ghost use Rattle.loser_undo.specs.Recovery.{IsUndone};

    /// How many pages the volume has.
    pub fn page_count(&self) -> u32
        ensures { result ≡ page_count self.now.log }
    {
        self.pages.len() as u32
    }

    /// Where the last complete checkpoint of the log stands.
    pub fn master(&self) -> Master
        ensures { result ≡ self.now.master }
    {
        self.master
    }

    /// The records of the log, the oldest first.
    pub fn records(&self) -> &[Record]
        ensures records { result.now ≡ self.now.log.records }
        ensures undone { IsUndone self.now }
    {
        &self.records
    }

    /// The pages, in order of their numbers.
    pub fn pages(&self) -> &[Page]
        ensures { result.now ≡ self.now.pages }
    {
        &self.pages
    }
}

/// Undoes all transactions that are open at the log's end (ARIES, section 6.3). It appends an End
/// for each that has nothing pending, and then compensates each pending change, the last one first,
/// and ends each transaction of which nothing is left. What it appends is redone on the pages,
/// whatever these have. Where they are those that the log makes, so they are afterwards, and have
/// what was committed.
///
/// `LogFull` comes where the records do not fit, and `OutOfMemory` where memory for them is
/// refused. Both come before the first record, and hand the log and its pages back.
pub fn undo_all(redone: Redone) -> Result<Undone, (Redone, UndoFault)>
    ensures ok { IfOk result (λ it. it ≡ undone redone) }
    ensures whole { IfOk result (λ it. HasLogsPages redone → HasLogsPages it) }
    ensures committed { IfOk result (λ it. HasLogsPages redone
        → HasCommitted redone.log.records it.pages) }
    ensures full { IsErrAnd result (λ e. e.1 ≡ LogFull)
        ↔ (MAX_RECORDS < length redone.log.records + owed redone.log.records) }
    ensures same { IfErr result (λ e. e.0 ≡ redone) }
{
    if redone.is_full() {
        return Err((redone, UndoFault::LogFull));
    }
    let owed = redone.losers.owed() as usize;
    let Redone {
        log,
        master,
        losers,
        pages,
    } = redone;
    let (first_count, mut records) = log.into_parts();
    match records.reserve(owed) {
        Ok(()) => {}
        Err(_) => {
            let redone = Redone {
                log: LogImage::from_records(first_count, records),
                master,
                losers,
                pages,
            };
            return Err((redone, UndoFault::OutOfMemory));
        }
    }
    let count = records.len();
    let mut sink = (records, pages);
    undo_into(losers, count, &mut sink);
    let (records, pages) = sink;
    Ok(Undone {
        first_count,
        records,
        master,
        pages,
    })
}
