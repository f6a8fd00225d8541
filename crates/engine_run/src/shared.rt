//! One engine for many threads.

ghost use Rattle.std.specs.Prelude.{◌≡◌, ◌+◌, ◌<◌, ◌≤◌, [], length, vec_len, IfErr, IfOk};
ghost use Rattle.page_core.specs.Volume.{formatted_pages};
ghost use Rattle.buffer_pool.specs.Pool.{IsFrameCount};
ghost use Rattle.log_records.specs.Log.{IsPageCount};
ghost use Rattle.engine_run.specs.Beginning.{IsBeginning};

use crate::beginning::Beginning;
use crate::check_sessions::txn_record_count;
use crate::held::Held;
use crate::life::Life;
use crate::session::Session;
use crate::spare::Spare;
use aries_core::{Engine, PlayFault, Setup};
use log_store::LogDevice;
use page_store::PageStore;
use std::alloc::{AllocError, Global};
use std::marker::Model;
use std::sync::Mutex;
use std::sync::ledger::{Blank, Share};

/// How many sessions an engine can have.
pub const MAX_SESSIONS: u32 = 64;

/// An engine behind one lock, for its sessions, a flusher, a checkpointer and copies. Each call of
/// theirs is one hold of the lock or several, and each hold is one event.
#[derive(Drop)]
pub struct Shared<S: PageStore, D: LogDevice, G: Life> {
    pub(crate) held: Mutex<Held<S, D, G>>,
    /// The shares of the sessions that are not made yet.
    pub(crate) spares: Vec<Mutex<Spare<G>>>,
    pub(crate) sessions: u32,
    /// What was there before the first session.
    pub(crate) began: Beginning,
}

impl<S: PageStore, D: LogDevice, G: Life> Model for Shared<S, D, G> {
    ghost use Rattle.std.specs.Prelude.{◌≡◌, ◌+◌, vec_len};
    ghost use Rattle.engine_run.specs.Shared.{SharedView};

    ghost Value = { SharedView };

    ghost view = { λ it. record { sessions = it.sessions; began = it.began } };

    ghost invariant = { λ it. (it.sessions + vec_len it.spares ≡ 64) × (G.parts ≡ 65) };
}

impl<S: PageStore + Drop, D: LogDevice + Drop, G: Life> Shared<S, D, G> {
    /// An engine over a formatted volume, as `Engine::new` makes it, and no session. The ledger `G`
    /// is opened here: it has a part for each session that may be made, and one more.
    pub fn new(
        alloc: Global,
        blank: Blank,
        setup: Setup,
        store: S,
        device: D,
    ) -> Result<Shared<S, D, G>, PlayFault>
        requires name { blank.name ≡ G.name }
        requires parts { blank.parts ≡ G.parts }
        requires sessions { blank.parts ≡ 65 }
        requires before { G.before ≡ [] }
        requires pages { IsPageCount setup.pages }
        requires frames { IsFrameCount setup.frames }
        requires formatted { S.stored store ≡ formatted_pages setup.pages }

        ensures sessions { IfOk result (λ it. it.sessions ≡ 0) }
        ensures began { IfOk result (λ it.
            it.began ≡ record { records = 0; last_copy = 0 }) }
        ensures past_bound { IfErr result (λ why. why ≡ PlayFault.LogFault
            → D.fails_from device ≤ 64) }
    {
        let (book, rest) = blank.open::<G>();
        let Ok((spares, _)) = spares_of(alloc, rest) else {
            return Err(PlayFault::OutOfMemory);
        };
        let engine = match Engine::new(alloc, setup, store, device) {
            Ok(engine) => engine,
            Err((fault, _)) => return Err(fault),
        };
        Ok(Shared {
            held: Mutex::new(Held::new(engine, book)),
            spares,
            sessions: 0,
            began: Beginning {
                records: 0,
                last_copy: 0,
            },
        })
    }
}

impl<S: PageStore, D: LogDevice, G: Life> Shared<S, D, G> {
    /// An engine that goes on from an older one, as `Engine::resume` makes it, and no session. The
    /// ledger `G` is opened here. The share that no session gets counts the records of transactions
    /// that the log has already, so those of the sessions add up to those from here on. What is open
    /// stays so.
    /// An `Err` comes where memory is refused, and hands the engine back.
    pub fn resume(
        alloc: Global,
        blank: Blank,
        engine: Engine<S, D>,
    ) -> Result<Shared<S, D, G>, Engine<S, D>>
        requires name { blank.name ≡ G.name }
        requires parts { blank.parts ≡ G.parts }
        requires sessions { blank.parts ≡ 65 }
        requires before { G.before ≡ engine.state.log }
        ensures sessions { IfOk result (λ it. it.sessions ≡ 0) }
        ensures began { IfOk result (λ it. IsBeginning engine.state it.began) }
        ensures same { IfErr result (λ it. it ≡ engine) }
    {
        let (mut book, rest) = blank.open::<G>();
        let Ok((spares, mut rest)) = spares_of(alloc, rest) else {
            return Err(engine);
        };
        let began = Beginning::of(&engine);
        book.add(&mut rest, txn_record_count(engine.log().records()) as u64);
        Ok(Shared {
            held: Mutex::new(Held::new(engine, book)),
            spares,
            sessions: 0,
            began,
        })
    }
}

/// A share for each session that may be made, and the part that is left.
fn spares_of<G: Life>(
    alloc: Global,
    mut rest: Share<G>,
) -> Result<(Vec<Mutex<Spare<G>>>, Share<G>), AllocError>
    requires parts { rest.parts ≡ 65 }
    requires none { rest.amount ≡ 0 }
    ensures spares { IfOk result (λ it. vec_len it.0 ≡ 64) }
    ensures part { IfOk result (λ it. it.1.parts ≡ 1) }
    ensures amount { IfOk result (λ it. it.1.amount ≡ 0) }
{
    let mut spares = Vec::new(alloc);
    for _ in 0..MAX_SESSIONS {
        let spare = Spare::new(rest.split_off(1, 0));
        spares.push(Mutex::new(spare))?;
    }
    Ok((spares, rest))
}

impl<S: PageStore, D: LogDevice, G: Life> Shared<S, D, G> {
    /// How many sessions were made.
    pub fn sessions(&self) -> u32
        ensures { result ≡ self.now.sessions }
    {
        self.sessions
    }

    /// What was there before the first session.
    pub fn began(&self) -> Beginning
        ensures { result ≡ self.now.began }
    {
        self.began
    }

    /// Makes a session. All are made before the engine is shared.
    pub fn session(&mut self, alloc: Global) -> Session<G>
        requires { self.old.sessions < 64 }
        ensures one_more { self.new.sessions ≡ self.old.sessions + 1 }
        ensures began { self.new.began ≡ self.old.began }
        ensures empty { result ≡ [] }
    {
        let Some(spare) = self.spares.pop() else {
            unreachable!();
        };
        self.sessions += 1;
        Session::new(alloc, spare.into_inner().into_share())
    }
}
