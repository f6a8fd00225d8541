//! What a restart leaves for an engine to go on from.

ghost use Rattle.std.specs.Prelude.{◌≡◌, IfErr, IfOk};
ghost use Rattle.buffer_pool.specs.Pool.{IsFrameCount};
ghost use Rattle.fuzzy_ckpt.specs.LogCheckpoints.{IsLastPoint};
ghost use Rattle.engine_restart.specs.Lives.{GoesOnFrom};
ghost use Rattle.engine_restart.specs.Restart.{HasLasting, IsRestarted};
ghost use Rattle.engine_rules.specs.Resumed.{resumed_state};

use aries_core::{Engine, NotResumed, ResumedParts};
use copy_vault::Vault;
use fuzzy_ckpt::LogCheckpoints;
use log_records::Record;
use log_store::{LogDevice, LogImage};
use page_core::Page;
use page_store::PageStore;
use std::alloc::Global;
use std::marker::Model;

/// A log in which no transaction is open any more, the pages that it makes, and the image copies
/// that are at hand: an engine may go on from there.
#[derive(Drop)]
pub struct Restarted {
    pub(crate) log: LogImage,
    pub(crate) pages: Vec<Page>,
    /// Those of the log, as its reader knew them: undo changes none.
    pub(crate) checkpoints: LogCheckpoints,
    /// How many transactions began in the log.
    pub(crate) begun: u32,
    pub(crate) vault: Vault,
}

impl Model for Restarted {
    ghost use Rattle.engine_restart.specs.Restart.{IsReady, RestartedView};

    ghost Value = { RestartedView };

    ghost view = { λ it. record {
      log = it.log;
      pages = it.pages.items;
      copies = it.vault.copies;
    } };

    ghost invariant = { λ it. IsReady (record {
      log = it.log;
      pages = it.pages.items;
      copies = it.vault.copies;
    }) it.checkpoints it.begun };
}

impl Restarted {
    /// The records of the log, the oldest first.
    pub fn records(&self) -> &[Record]
        ensures records { result.now ≡ self.now.log.records }
        ensures kept { IsRestarted self.now }
    {
        self.log.records()
    }

    /// The page count that the log's header gives.
    pub fn header_pages(&self) -> u32
        ensures { result ≡ self.now.log.pages }
    {
        self.log.pages()
    }

    /// The pages, in order of their numbers, each as the log makes it.
    pub fn pages(&self) -> &[Page]
        ensures pages { result.now ≡ self.now.pages }
        ensures kept { IsRestarted self.now }
    {
        &self.pages
    }

    /// The image copies.
    pub fn vault(&self) -> &Vault
        ensures { result.now.copies ≡ self.now.copies }
    {
        &self.vault
    }

    /// An engine that goes on from there, over a store that has these pages and a device that has
    /// this log. It is as `Engine::resume` says, with its faults, which hand both back.
    pub fn into_engine<S: PageStore + Drop, D: LogDevice + Drop>(
        self,
        alloc: Global,
        frames: u32,
        store: S,
        device: D,
    ) -> Result<Engine<S, D>, NotResumed<S, D>>
        requires frames { IsFrameCount frames }
        requires stored { S.stored store ≡ self.pages }
        requires device { HasLasting D.bytes D.lasting self.log device }

        ensures state { IfOk result (λ it. it.state
            ≡ resumed_state self.log frames it.state.master self.copies) }
        ensures master { IfOk result (λ it.
            IsLastPoint self.log self.log.records it.state.master) }
        ensures store { IfOk result (λ it. it.store ≡ store) }
        ensures device { IfOk result (λ it. it.device ≡ device) }
        ensures goes_on { IfOk result (λ it. GoesOnFrom self.log it.state) }
        ensures untouched { IfErr result (λ e. (e.store ≡ store) × (e.device ≡ device)) }
    {
        let Restarted {
            log,
            pages,
            checkpoints,
            begun,
            vault,
        } = self;
        let parts = ResumedParts {
            log,
            checkpoints,
            begun,
            vault,
        };
        let engine = Engine::resume(alloc, parts, &pages, frames, store, device)?;
        // An engine is fit, which one of its calls tells.
        let _end = engine.log_end();
        Ok(engine)
    }
}
