//! A log, its master record and its pages after redo.

ghost use Rattle.std.specs.Prelude.{◌≡◌, ◌↔◌, ◌+◌, ◌<◌, ◌≤◌, length, map, IfOk, IfErr, IsTrue};
ghost use Rattle.log_records.specs.Coverage.{resume};
ghost use Rattle.log_records.specs.declared.limits.TheConstants.{MAX_RECORDS};
ghost use Rattle.log_rules.specs.Checkpoint.{IsCompleteCheckpoint};
ghost use Rattle.log_rules.specs.Transactions.{owed};
ghost use Rattle.log_records.specs.Log.{page_count};
ghost use Rattle.loser_undo.specs.Recovery.{IsRecovery};

use crate::analysis::losers;
use log_records::{MAX_RECORDS, Record};
use log_store::{LogImage, Master};
use page_core::{Lsn, Page};
use page_redo::redo_pages;
use std::alloc::Global;
use std::marker::Model;
use std::thread::Threads;
use txn_table::Losers;

/// A log, its master record and its pages after redo (ARIES, section 6): the pages still have the
/// changes of the transactions that are open at the log's end. Which these are is known too.
#[derive(Drop)]
pub struct Redone {
    pub(crate) log: LogImage,
    pub(crate) master: Master,
    pub(crate) losers: Losers,
    pub(crate) pages: Vec<Page>,
}

impl Model for Redone {
    ghost use Rattle.loser_undo.specs.Recovery.{IsRedone, Recovery};

    ghost Value = { Recovery };

    ghost view = { λ it. record { log = it.log; master = it.master; pages = it.pages.items } };

    ghost invariant = { λ it. IsRedone
        (record { log = it.log; master = it.master; pages = it.pages.items }) it.losers };
}

impl Redone {
    /// Takes a log, its master record and its pages, whatever has been redone on them, and finds
    /// the log's open transactions from its last checkpoint on. An `Err` comes where memory for
    /// these is refused, and hands the log and the pages back.
    pub fn new(
        alloc: Global,
        log: LogImage,
        master: Master,
        pages: Vec<Page>,
    ) -> Result<Redone, (LogImage, Vec<Page>)>
        requires recovery { IsRecovery (record {
          log = log;
          master = master;
          pages = pages.items;
        }) }
        requires complete { IsCompleteCheckpoint log.records master.begin master.end }
        ensures ok { IfOk result (λ it.
            it ≡ record { log = log; master = master; pages = pages.items }) }
        ensures err { IfErr result (λ e. (e.0 ≡ log) × (e.1.items ≡ pages.items)) }
    {
        match losers(alloc, &log, &master) {
            Ok(losers) => Ok(Redone {
                log,
                master,
                losers,
                pages,
            }),
            Err(_) => Err((log, pages)),
        }
    }

    /// Redoes the log from a redo point on: on each page the records at or above that point that
    /// are above the page's LSN (ARIES, section 6.2). Where these are many, it is done in threads.
    /// It never refuses, as `redo_pages` does not.
    pub fn redo_from(&mut self, rt: &(impl Threads + Sync), alloc: Global, from: Lsn)
        ensures { self.new ≡ record self.old {
          pages = map (λ page. resume page self.old.log.records from) self.old.pages;
        } }
    {
        redo_pages(rt, alloc, &mut self.pages, &self.log, from);
    }

    /// How many pages the volume has.
    pub fn page_count(&self) -> u32
        ensures { result ≡ page_count self.now.log }
    {
        self.log.page_count()
    }

    /// Where the last complete checkpoint of the log stands.
    pub fn master(&self) -> Master
        ensures { result ≡ self.now.master }
    {
        self.master
    }

    /// The records of the log, the oldest first.
    pub fn records(&self) -> &[Record]
        ensures { result.now ≡ self.now.log.records }
    {
        self.log.records()
    }

    /// The pages, in order of their numbers.
    pub fn pages(&self) -> &[Page]
        ensures pages { result.now ≡ self.now.pages }
        ensures kept { IsRecovery self.now }
    {
        &self.pages
    }

    /// The records of the log, with those that its open transactions may still need, are more than
    /// a log may have.
    pub(crate) fn is_full(&self) -> bool
        ensures full { IsTrue result ↔ (MAX_RECORDS
            < length self.now.log.records + owed self.now.log.records) }
        ensures kept { IsRecovery self.now }
    {
        self.log.records().len() as u64 + self.losers.owed() > MAX_RECORDS as u64
    }
}
