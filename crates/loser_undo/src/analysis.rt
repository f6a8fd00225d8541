//! The open transactions of a log, with their pending changes.

ghost use Rattle.std.specs.Prelude.{◌≡◌, IfOk};
ghost use Rattle.log_rules.specs.Checkpoint.{IsCompleteCheckpoint};
ghost use Rattle.log_rules.specs.Linked.{IsLinked};
ghost use Rattle.loser_undo.specs.Losers.{losers_of};

use crate::tail::open_at_end;
use crate::trace::trace;
use log_store::{LogImage, Master};
use std::alloc::{AllocError, Global};
use txn_table::Losers;

/// The open transactions of a log with their pending changes (the analysis of ARIES, section 6.1).
/// It reads the log from the BeginChkpt of the complete checkpoint that the master record names.
/// What an open transaction did before, it finds from its last record back: a Comp names in its
/// UndoNxt where to go on, and each Update in its PrevLSN. So it takes time for the records from
/// the checkpoint on, for the pending changes, and for the Comps between them and behind them, and
/// for no change that was taken back. An `Err` comes where memory for the answer is refused.
pub fn losers(alloc: Global, log: &LogImage, master: &Master) -> Result<Losers, AllocError>
    requires linked { IsLinked log.now.records }
    requires complete { IsCompleteCheckpoint log.now.records master.now.begin master.now.end }
    ensures { IfOk result (λ it. it ≡ losers_of log.now.records) }
{
    let open = open_at_end(alloc, log, master)?;
    let mut found = Losers::new(alloc);
    for one in &open {
        found.push(trace(alloc, log, *one)?)?;
    }
    Ok(found)
}
