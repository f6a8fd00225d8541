//! A whole restore: load, redo and undo; and the same after playing a list of events.

ghost use Rattle.std.specs.Prelude.{◌≡◌, ◌+◌, ◌<◌, ◌≤◌, All, IfErr, IfOk, OnOk, length, None};
ghost use Rattle.std.specs.Prelude.{Some};
ghost use Rattle.log_records.specs.Log.{IsPageCount, lsn_of};
ghost use Rattle.copy_coverage.specs.Kept.{IsKeptOf};
ghost use Rattle.log_records.specs.declared.limits.TheConstants.{MAX_RECORDS};
ghost use Rattle.log_rules.specs.Transactions.{owed};
ghost use Rattle.loser_undo.specs.Recovery.{HasLogsPages};
ghost use Rattle.engine_rules.specs.EngineView.{EngineView};
ghost use Rattle.engine_rules.specs.Step.{IsByDevice, IsFaultReply};
ghost use Rattle.engine_rules.specs.Storage.{FailsAtHeader, PlaysOn};
ghost use Rattle.page_core.specs.Volume.{formatted_pages};
ghost use Rattle.buffer_pool.specs.Pool.{IsFrameCount};
ghost use Rattle.media_restore.specs.Load.{kept_log, load_refusal};
ghost use Rattle.media_restore.specs.Rebuild.{IsRebuilt, IsRestored, RestoreRefuses};

use crate::copy_load::load;
use crate::fault::Refused;
use aries_core::{Event, PlayFault, Played, Reply, Setup, play};
use copy_coverage::Retired;
use copy_vault::CopyId;
use log_store::LogDevice;
use loser_undo::{Redone, Undone, undo_all};
use page_store::PageStore;
use std::alloc::Global;
use std::thread::Threads;

/// The result of playing a list of events, and of the restore after it.
#[derive(Drop)]
pub struct Rebuilt {
    /// A reply for each event, in their order.
    pub replies: Vec<Reply>,
    /// The volume as it was restored, with its log, or why there is none.
    pub outcome: Result<Undone, Refused>,
}

/// Plays a list of events from a new engine on, and restores a volume of what the engine leaves
/// then: of its log the first `cut` records, or all where there are fewer, and of its image copies
/// the one of this id, with those that it stands on.
///
/// A fault comes before the first event, as that of `play`. The outcome is as that of `recover`.
pub fn rebuild<S: PageStore + Drop, D: LogDevice + Drop>(
    rt: &(impl Threads + Sync),
    alloc: Global,
    setup: Setup,
    store: S,
    device: D,
    events: &[Event],
    copy: CopyId,
    cut: usize,
) -> Result<Rebuilt, (PlayFault, D)>
    requires pages { IsPageCount setup.pages }
    requires frames { IsFrameCount setup.frames }
    requires formatted { S.stored store ≡ formatted_pages setup.pages }

    // The engine of which this holds was made on the store and the device that were given; its
    // calls were calls on these two as the calls before left them, and each reply tells of a fault
    // of theirs just where there was one in its call.
    ensures rebuilt { IfOk result (λ it. (e : EngineView S D)
        × PlaysOn
        (record {
          called = D.called;
          synced = D.synced;
          bytes = D.bytes;
          device_failures = D.failures;
          gave = S.gave;
          wrote = S.wrote;
          grew = S.grew;
          stored = S.stored;
          store_failures = S.failures;
        })
        setup.pages setup.frames store device events.now it.replies.items e
        × IsRebuilt setup.pages setup.frames events.now copy cut it.replies.items it.outcome
        e.state) }

    // And none tells of the device where this has room for a record of each event.
    ensures within_bound { IfOk result (λ it. lsn_of (length events.now) < D.fails_from device
        → All (λ reply. ¬ IsFaultReply IsByDevice reply) it.replies.items) }

    ensures untouched { IfErr result (λ e. e.0 ≡ PlayFault.OutOfMemory → e.1 ≡ device) }
    ensures cause { IfErr result (λ e. e.0 ≡ PlayFault.LogFault
        → FailsAtHeader D.called D.synced D.failures setup.pages device e.1) }
    ensures header_fits { IfErr result (λ e. e.0 ≡ PlayFault.LogFault
        → D.fails_from device ≤ 64) }
{
    let Played { replies, engine } = play(alloc, setup, store, device, events)?;
    let outcome = recover(rt, alloc, engine.retire(), copy, cut);
    Ok(Rebuilt { replies, outcome })
}

/// Restores a volume from what an engine left (ARIES, section 8): loads a complete copy with those
/// that it stands on, keeps the first `cut` records of the log, or all where there are fewer,
/// redoes these from the copy's redo point on, and undoes the transactions that are open at their
/// end.
///
/// Refusals in order: `NoCopy`, `CopyNotComplete`, `CutTooShort`, and then `OutOfMemory` of any of
/// the three steps. The log is never full: an engine keeps room for all records of undo. What was
/// retired is dropped at a refusal.
pub fn recover(
    rt: &(impl Threads + Sync),
    alloc: Global,
    retired: Retired,
    copy: CopyId,
    cut: usize,
) -> Result<Undone, Refused>
    ensures master { IfOk result (λ it. retired.master ≡ Some it.master) }
    ensures kept { OnOk result
        (IsKeptOf retired.log retired.forced_end (kept_log retired.log cut)) }
    ensures restored { IfOk result (λ it. IsRestored (kept_log retired.log cut) it) }
    ensures ok { OnOk result (load_refusal retired copy cut ≡ None) }
    ensures err { IfErr result (λ why. RestoreRefuses (load_refusal retired copy cut) why) }
{
    let redone = redo_copy(rt, alloc, retired, copy, cut)?;
    undo(redone)
}

/// Loads a copy, and redoes the kept log over it: the pages are then those that this log makes.
fn redo_copy(
    rt: &(impl Threads + Sync),
    alloc: Global,
    retired: Retired,
    copy: CopyId,
    cut: usize,
) -> Result<Redone, Refused>
    ensures log { IfOk result (λ it. it.log ≡ kept_log retired.log cut) }
    ensures master { IfOk result (λ it. retired.master ≡ Some it.master) }
    ensures kept { OnOk result
        (IsKeptOf retired.log retired.forced_end (kept_log retired.log cut)) }
    ensures room { IfOk result (λ it.
        length it.log.records + owed it.log.records ≤ MAX_RECORDS) }
    ensures whole { IfOk result (λ it. HasLogsPages it) }
    ensures ok { OnOk result (load_refusal retired copy cut ≡ None) }
    ensures err { IfErr result (λ why. RestoreRefuses (load_refusal retired copy cut) why) }
{
    let loaded = match load(alloc, retired, copy, cut) {
        Ok(loaded) => loaded,
        Err((_, fault)) => return Err(Refused::Load(fault)),
    };
    match loaded.redo(rt, alloc) {
        Ok(redone) => Ok(redone),
        Err((_, fault)) => Err(Refused::Redo(fault)),
    }
}

/// Undoes the transactions that are open at the end of a log that has room for that.
fn undo(redone: Redone) -> Result<Undone, Refused>
    requires room { length redone.log.records + owed redone.log.records ≤ MAX_RECORDS }
    requires whole { HasLogsPages redone }
    ensures master { IfOk result (λ it. it.master ≡ redone.master) }
    ensures restored { IfOk result (λ it. IsRestored redone.log it) }
    ensures err { IfErr result (λ why. RestoreRefuses None why) }
{
    match undo_all(redone) {
        Ok(undone) => Ok(undone),
        Err((_, fault)) => Err(Refused::Undo(fault)),
    }
}
