//! Restart from a log alone.

ghost use Rattle.std.specs.Prelude.{◌≡◌, ◌+◌, ◌<◌, [], length, IfErr, IfOk};
ghost use Rattle.log_records.specs.declared.limits.TheConstants.{MAX_RECORDS};
ghost use Rattle.log_records.specs.Log.{log_bytes};
ghost use Rattle.log_rules.specs.Transactions.{owed};
ghost use Rattle.loser_undo.specs.Recovery.{HasCommitted};
ghost use Rattle.engine_restart.specs.Restart.{FailsUndo, ForcesMore, HasLasting, IsRestarted};
ghost use Rattle.engine_restart.specs.Restart.{IsStopped, undone_log};
ghost use Rattle.engine_restart.specs.declared.fault.RestartFault.TheVariants.{LogFault, LogFull};

use crate::fault::RestartFault;
use crate::restarted::Restarted;
use crate::undo_on_log::take_back;
use copy_vault::Vault;
use fuzzy_ckpt::LogCheckpoints;
use log_prefix::Front;
use log_store::LogDevice;
use std::alloc::Global;

/// Restarts a volume from its log alone, whatever the volume's own file has: takes back what was open
/// on the log, its device and its pages (ARIES, section 6). The log was read from its first record
/// on, and so its pages are there already, as they were formatted and redone. Each slot has its
/// committed number then. No image copy is at hand yet; `Restarted::add` takes them.
///
/// The faults, and what stands after them, are those of `take_back`.
pub fn restart<D: LogDevice + Drop>(
    alloc: Global,
    front: Front,
    device: D,
) -> Result<(Restarted, D), (RestartFault, D)>
    requires { HasLasting D.bytes D.lasting front.log device }

    ensures log { IfOk result (λ it. it.0.log ≡ undone_log front.log) }
    ensures copies { IfOk result (λ it. it.0.copies ≡ []) }
    ensures restarted { IfOk result (λ it. IsRestarted it.0) }
    ensures committed { IfOk result (λ it. HasCommitted front.log.records it.0.pages) }
    ensures device { IfOk result (λ it. HasLasting D.bytes D.lasting it.0.log it.1) }
    ensures alone { IfOk result (λ it. length front.log.records < length it.0.log.records
        → D.bytes it.1 ≡ log_bytes it.0.log) }
    ensures called { IfOk result (λ it.
        ForcesMore D.called D.synced front.log it.0.log device it.1) }
    ensures full { IfErr result (λ e. e.0 ≡ LogFull
        → MAX_RECORDS < length front.log.records + owed front.log.records) }
    ensures fault { IfErr result (λ e. IsStopped D.failures device e.0 e.1) }
    ensures last_call { IfErr result (λ e. e.0 ≡ LogFault
        → FailsUndo D.called D.synced front.log device e.1) }
    ensures stands { IfErr result (λ e. HasLasting D.bytes D.lasting front.log e.1) }
{
    let found = front.analysis();
    let checkpoints = LogCheckpoints::of(found);
    let begun = found.txns.begun();
    let (log, pages, device) = take_back(front, device)?;
    let restarted = Restarted {
        log,
        pages,
        checkpoints,
        begun,
        vault: Vault::new(alloc),
    };
    Ok((restarted, device))
}
