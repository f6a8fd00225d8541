//! Plays events in memory.

ghost use Rattle.std.specs.Prelude.{◌≡◌, ◌≤◌, All, IfOk, List, Result};
ghost use Rattle.std.specs.String.{string_bytes};
ghost use Rattle.buffer_pool.specs.Pool.{IsFrameCount};
ghost use Rattle.log_records.specs.Log.{IsPageCount};
ghost use Rattle.engine_calls.specs.declared.event.Answer.{Answer};
ghost use Rattle.engine_calls.specs.declared.refusal.Refusal.{Refusal};
ghost use Rattle.engine_rules.specs.EngineState.{EngineState, new_state};
ghost use Rattle.engine_rules.specs.Run.{Run};
ghost use Rattle.script_run.specs.Left.{IsLeftBy};
ghost use Rattle.script_run.specs.ReplyLines.{reply_lines};
ghost use Rattle.script_run.specs.Run.{IsFaultless};

use crate::counting_device::CountingDevice;
use crate::reply_lines::put_reply;
use aries_core::{Engine, Event, PlayFault, Setup};
use copy_coverage::Retired;
use page_store::MemStore;
use std::alloc::{AllocError, Global};

/// Plays events on a new engine, and answers the lines of its replies and what it leaves. The log
/// has room for a record for each event, so neither the device nor the store ever fails. The lines
/// take the memory of a text that is no longer needed.
pub(crate) fn play_in_memory(
    alloc: Global,
    setup: Setup,
    events: &[Event],
    room: String,
) -> Result<(String, Retired), AllocError>
    requires pages { IsPageCount setup.pages }
    requires frames { IsFrameCount setup.frames }
    ensures { IfOk result (λ it. (replies : List (Result Answer Refusal))
        × ((string_bytes it.0 ≡ reply_lines replies) × All IsFaultless replies
        × ((e : EngineState) × Run (new_state setup.pages setup.frames) events.now replies e
        × IsLeftBy e it.1))) }
{
    let store = MemStore::new(alloc, setup.pages)?;
    let device = CountingDevice::new(events.len())?;
    let mut engine = match Engine::new(alloc, setup, store, device) {
        Ok(engine) => engine,
        Err((PlayFault::OutOfMemory, _)) => return Err(AllocError),
        Err((PlayFault::LogFault, _)) => unreachable!(),
    };
    let mut text = room;
    text.clear();
    for event in events {
        put_reply(&mut text, engine.apply(*event))?;
    }
    Ok((text, engine.retire()))
}
