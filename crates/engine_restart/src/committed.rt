//! The committed numbers of a log's volume, without a device.

ghost use Rattle.std.specs.Prelude.{◌≡◌, ◌+◌, ◌<◌, length, IfErr, IfOk};
ghost use Rattle.log_records.specs.declared.limits.TheConstants.{MAX_RECORDS};
ghost use Rattle.log_records.specs.Log.{page_count};
ghost use Rattle.log_rules.specs.Transactions.{owed};
ghost use Rattle.loser_undo.specs.Recovery.{HasCommitted};
ghost use Rattle.engine_restart.specs.declared.fault.RestartFault.TheVariants.{LogFull};

use crate::fault::RestartFault;
use log_prefix::Front;
use log_records::MAX_RECORDS;
use loser_undo::undo_into;
use page_core::Page;

/// The pages of a log's volume, in order of their numbers, each slot with its committed number: what
/// is open at the log's end is taken back on them (ARIES, section 6.3), and no record of that is
/// kept. So a log of another one is looked at without being changed.
///
/// `LogFull` comes where the records of undo would not fit into the log. No engine makes such a log.
pub fn committed_pages(front: Front) -> Result<Vec<Page>, RestartFault>
    ensures committed { IfOk result (λ pages. HasCommitted front.log.records pages.items) }
    ensures counted { IfOk result (λ pages. length pages.items ≡ page_count front.log) }
    ensures full { IfErr result (λ why. (why ≡ LogFull)
        × (MAX_RECORDS < length front.log.records + owed front.log.records)) }
{
    let (log, mut pages, losers) = front.into_replayed();
    let count = log.records().len();
    if count as u64 + losers.owed() > MAX_RECORDS as u64 {
        return Err(RestartFault::LogFull);
    }
    undo_into(losers, count, &mut pages);
    Ok(pages)
}
