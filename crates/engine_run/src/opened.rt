//! A shared engine that was taken out of its lock.

ghost use Rattle.std.specs.Prelude.{◌≡◌};
ghost use Rattle.engine_rules.specs.EngineState.{log_of};
ghost use Rattle.engine_run.specs.Left.{IsLeftBy};
ghost use Rattle.engine_run.specs.Life.{BeginsBy};

use crate::beginning::Beginning;
use crate::held::Held;
use crate::life::Life;
use crate::shared::Shared;
use crate::spare::Spare;
use copy_coverage::Retired;
use log_store::LogDevice;
use page_store::PageStore;
use std::marker::Model;
use std::sync::Mutex;

/// A shared engine out of its lock. Nobody else can change it, so contracts see what lay under the
/// lock. `into_shared` puts it behind a lock again.
#[derive(Drop)]
pub struct Opened<S: PageStore, D: LogDevice, G: Life> {
    held: Held<S, D, G>,
    spares: Vec<Mutex<Spare<G>>>,
    sessions: u32,
    began: Beginning,
}

impl<S: PageStore, D: LogDevice, G: Life> Model for Opened<S, D, G> {
    ghost use Rattle.std.specs.Prelude.{◌≡◌, ◌+◌, vec_len};
    ghost use Rattle.engine_run.specs.Shared.{OpenedView};

    ghost Value = { OpenedView S D };

    ghost view = { λ it. record {
      held = it.held;
      sessions = it.sessions;
      began = it.began;
    } };

    ghost invariant = { λ it. (it.sessions + vec_len it.spares ≡ 64) × (G.parts ≡ 65) };
}

impl<S: PageStore, D: LogDevice, G: Life> Opened<S, D, G> {
    /// Takes a shared engine out of its lock.
    pub(crate) fn new(shared: Shared<S, D, G>) -> Opened<S, D, G>
        ensures sessions { result.sessions ≡ shared.sessions }
        ensures began { result.began ≡ shared.began }
    {
        let Shared {
            held,
            spares,
            sessions,
            began,
        } = shared;
        Opened {
            held: held.into_inner(),
            spares,
            sessions,
            began,
        }
    }

    /// How many sessions were made.
    pub fn sessions(&self) -> u32
        ensures { result ≡ self.now.sessions }
    {
        self.sessions
    }

    /// What was there before its first session.
    pub fn began(&self) -> Beginning
        ensures { result ≡ self.now.began }
    {
        self.began
    }

    /// What lay under the lock.
    pub fn held(&self) -> &Held<S, D, G>
        ensures { result.now ≡ self.now.held }
    {
        &self.held
    }

    /// Puts the engine behind a lock again, for its sessions, flushers and copies to go on.
    pub fn into_shared(self) -> Shared<S, D, G>
        ensures sessions { result.sessions ≡ self.sessions }
        ensures began { result.began ≡ self.began }
    {
        let Opened {
            held,
            spares,
            sessions,
            began,
        } = self;
        Shared {
            held: Mutex::new(held),
            spares,
            sessions,
            began,
        }
    }
}

impl<S: PageStore + Drop, D: LogDevice + Drop, G: Life> Opened<S, D, G> {
    /// Ends the engine, as `Held::into_parts` does. The spare parts of the ledger go.
    pub fn into_parts(self) -> (Retired, S, D)
        ensures log { result.0.log ≡ log_of self.held.engine.state }
        ensures forced_end { result.0.forced_end ≡ self.held.engine.state.forced_end }
        ensures copies { result.0.copies ≡ self.held.engine.state.copies }
        ensures left { IsLeftBy S.PageStore D.LogDevice G.before result.0 result.1 result.2 }
        ensures begins { BeginsBy G.before result.0.log.records }
    {
        self.held.into_parts()
    }
}
