//! A loaded copy, and the redo of its log.

ghost use Rattle.std.specs.Prelude.{◌≡◌, map, IfErr, IfOk};
ghost use Rattle.log_records.specs.Coverage.{resume};
ghost use Rattle.media_restore.specs.Load.{IsLoaded};
ghost use Rattle.media_restore.specs.declared.fault.RedoFault.TheVariants.{OutOfMemory};

use crate::fault::RedoFault;
use log_store::{LogImage, Master};
use loser_undo::Redone;
use page_core::{Lsn, Page};
use std::alloc::Global;
use std::marker::Model;
use std::thread::Threads;

/// A loaded copy: the kept log, its last complete checkpoint, the pages of the copy's chain, and
/// the LSN from which the log is to be redone on them. The type does not say that these pages lack
/// nothing below that LSN.
#[derive(Drop)]
pub struct Loaded {
    log: LogImage,
    master: Master,
    pages: Vec<Page>,
    redo: Lsn,
}

impl Model for Loaded {
    ghost use Rattle.media_restore.specs.Load.{IsLoaded, LoadedView};

    ghost Value = { LoadedView };

    ghost view = { λ it. record {
      log = it.log;
      master = it.master;
      pages = it.pages.items;
      redo = it.redo;
    } };

    ghost invariant = { λ it. IsLoaded (record {
      log = it.log;
      master = it.master;
      pages = it.pages.items;
      redo = it.redo;
    }) };
}

impl Loaded {
    /// A copy that is loaded, of its parts.
    pub(crate) fn new(log: LogImage, master: Master, pages: Vec<Page>, redo: Lsn) -> Loaded
        requires { IsLoaded (record {
          log = log;
          master = master;
          pages = pages.items;
          redo = redo;
        }) }
        ensures { result ≡ record {
          log = log;
          master = master;
          pages = pages.items;
          redo = redo;
        } }
    {
        Loaded {
            log,
            master,
            pages,
            redo,
        }
    }

    /// The kept log.
    pub fn log(&self) -> &LogImage
        ensures log { result.now ≡ self.now.log }
        ensures loaded { IsLoaded self.now }
    {
        &self.log
    }

    /// Where the last complete checkpoint of what was retired stands. The kept log has it too.
    pub fn master(&self) -> Master
        ensures { result ≡ self.now.master }
    {
        self.master
    }

    /// The pages of the copy's chain, in order of their numbers.
    pub fn pages(&self) -> &[Page]
        ensures { result.now ≡ self.now.pages }
    {
        &self.pages
    }

    /// The LSN from which the log is to be redone on the pages.
    pub fn redo_point(&self) -> Lsn
        ensures { result ≡ self.now.redo }
    {
        self.redo
    }

    /// Redoes the log from the redo point on: on each page the records that are above its LSN, in
    /// threads where these are many. The memory for the table of the open transactions is asked for
    /// first. An `Err` comes where it is refused, and gives all back as it was. Redo itself refuses
    /// nothing: without memory for its lists, or without threads, the calling thread does it all.
    pub fn redo(
        self,
        rt: &(impl Threads + Sync),
        alloc: Global,
    ) -> Result<Redone, (Loaded, RedoFault)>
        ensures log { IfOk result (λ it. it.log ≡ self.log) }
        ensures master { IfOk result (λ it. it.master ≡ self.master) }
        ensures pages { IfOk result (λ it. it.pages
            ≡ map (λ page. resume page self.log.records self.redo) self.pages) }
        ensures err { IfErr result (λ e. (e.0 ≡ self) × (e.1 ≡ OutOfMemory)) }
    {
        let Loaded {
            log,
            master,
            pages,
            redo,
        } = self;
        let Master { begin, end } = master;
        let (log, pages) = match Redone::new(alloc, log, master, pages) {
            Ok(mut redone) => {
                redone.redo_from(rt, alloc, redo);
                return Ok(redone);
            }
            Err(given_back) => given_back,
        };
        let loaded = Loaded::new(log, Master { begin, end }, pages, redo);
        Err((loaded, RedoFault::OutOfMemory))
    }
}
