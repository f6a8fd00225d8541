//! Plays a list of calls.

ghost use Rattle.std.specs.Prelude.{◌≡◌, ◌<◌, ◌≤◌, All, Any, IfOk, IfErr, length, map};
ghost use Rattle.log_records.specs.Log.{IsPageCount, lsn_of};
ghost use Rattle.log_rules.specs.Work.{work};
ghost use Rattle.engine_rules.specs.Accepted.{accepted};
ghost use Rattle.engine_rules.specs.Catalogue.{catalogue, entry_of};
ghost use Rattle.engine_rules.specs.EngineState.{IsFit, new_state};
ghost use Rattle.engine_rules.specs.Run.{Run};
ghost use Rattle.engine_rules.specs.Step.{IsByDevice, IsByStore, IsFaultReply};
ghost use Rattle.engine_rules.specs.Storage.{FailsAtHeader, PlaysOn};
ghost use Rattle.engine_rules.specs.Written.{written_by};
ghost use Rattle.page_core.specs.Volume.{formatted_pages};
ghost use Rattle.buffer_pool.specs.Pool.{IsFrameCount};

use crate::engine::Engine;
use engine_calls::{Event, PlayFault, Reply, Setup};
use log_store::LogDevice;
use page_store::PageStore;
use std::alloc::Global;

/// The result of playing a list of events.
#[derive(Drop)]
pub struct Played<S: PageStore, D: LogDevice> {
    /// A reply for each event, in their order.
    pub replies: Vec<Reply>,
    /// The engine after the last event.
    pub engine: Engine<S, D>,
}

/// Makes an engine, and makes the calls of the events in order. A refused event is a reply too, and
/// the next one is played.
///
/// A fault comes before the first event, of want of memory for the replies or for the engine, or
/// of the log's device at the header. It hands the device back: where memory ran out, it was not
/// called. The store is dropped then.
pub fn play<S: PageStore + Drop, D: LogDevice + Drop>(
    alloc: Global,
    setup: Setup,
    store: S,
    device: D,
    events: &[Event],
) -> Result<Played<S, D>, (PlayFault, D)>
    requires pages { IsPageCount setup.pages }
    requires frames { IsFrameCount setup.frames }
    requires formatted { S.stored store ≡ formatted_pages setup.pages }

    ensures run { IfOk result (λ it.
        Run (new_state setup.pages setup.frames) events.now it.replies.items it.engine.state) }
    ensures work { IfOk result (λ it.
        work it.engine.state.log ≡ accepted events.now it.replies.items) }
    ensures written { IfOk result (λ it.
        it.engine.state.written ≡ written_by setup.pages events.now it.replies.items) }
    ensures catalogue { IfOk result (λ it. map entry_of it.engine.state.copies
        ≡ catalogue setup.pages events.now it.replies.items) }
    ensures fit { IfOk result (λ it. IsFit it.engine.state) }

    // Each call was one on the store and the device that were given, as the calls before it left
    // them, and its reply tells of a fault of theirs just where there was one in it.
    ensures played { IfOk result (λ it. PlaysOn
        (record {
          called = D.called;
          synced = D.synced;
          bytes = D.bytes;
          device_failures = D.failures;
          gave = S.gave;
          wrote = S.wrote;
          grew = S.grew;
          stored = S.stored;
          store_failures = S.failures;
        })
        setup.pages setup.frames store device events.now it.replies.items it.engine) }
    ensures frames { IfOk result (λ it. it.engine.state.frames ≡ setup.frames) }

    // So the device failed just where a reply tells of it.
    ensures no_failure { IfOk result (λ it.
        All (λ reply. ¬ IsFaultReply IsByDevice reply) it.replies.items
        → D.failures it.engine.device ≡ D.failures device) }
    ensures failure { IfOk result (λ it. Any (IsFaultReply IsByDevice) it.replies.items
        → D.failures device < D.failures it.engine.device) }

    // And it does not where it has room for a record of each event.
    ensures within_bound { IfOk result (λ it. lsn_of (length events.now) < D.fails_from device
        → All (λ reply. ¬ IsFaultReply IsByDevice reply) it.replies.items) }

    // The same of the store.
    ensures no_store_failure { IfOk result (λ it.
        All (λ reply. ¬ IsFaultReply IsByStore reply) it.replies.items
        → S.failures it.engine.store ≡ S.failures store) }
    ensures store_failure { IfOk result (λ it. Any (IsFaultReply IsByStore) it.replies.items
        → S.failures store < S.failures it.engine.store) }

    ensures untouched { IfErr result (λ e. e.0 ≡ PlayFault.OutOfMemory → e.1 ≡ device) }
    ensures cause { IfErr result (λ e. e.0 ≡ PlayFault.LogFault
        → FailsAtHeader D.called D.synced D.failures setup.pages device e.1) }
    ensures header_fits { IfErr result (λ e. e.0 ≡ PlayFault.LogFault
        → D.fails_from device ≤ 64) }
{
    let mut replies = match Vec::with_capacity(alloc, events.len()) {
        Ok(replies) => replies,
        Err(_) => return Err((PlayFault::OutOfMemory, device)),
    };
    let mut engine = Engine::new(alloc, setup, store, device)?;
    // What an engine keeps holds of it now, and is seen where it is read.
    let _ = engine.log();
    for event in events {
        // There is room for each reply, so this takes no memory.
        replies.push(engine.apply(*event)).unwrap();
        let _ = engine.log();
    }
    let _ = &engine.log;
    Ok(Played { replies, engine })
}
