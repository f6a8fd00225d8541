//! Undo on a log, its device and its pages.

ghost use Rattle.std.specs.Prelude.{◌≡◌, ◌+◌, ◌<◌, ◌≤◌, length, IfErr, IfOk, OnOk};
ghost use Rattle.log_prefix.specs.Front.{LeadsTo};
ghost use Rattle.log_rules.specs.Linked.{IsLinked};
ghost use Rattle.log_rules.specs.Transactions.{owed};
ghost use Rattle.log_records.specs.declared.limits.TheConstants.{MAX_RECORDS};
ghost use Rattle.log_records.specs.Image.{redo_all};
ghost use Rattle.log_records.specs.Log.{IsLog, log_bytes, lsn_of, page_count};
ghost use Rattle.engine_restart.specs.Restart.{FailsUndo, ForcesMore, HasGrown, HasLasting};
ghost use Rattle.engine_restart.specs.Restart.{IsStopped, undone_log};
ghost use Rattle.engine_restart.specs.declared.fault.RestartFault.TheVariants.{LogFault, LogFull};

use crate::fault::RestartFault;
use log_prefix::Front;
use log_records::{MAX_RECORDS, Record};
use log_store::{Log, LogDevice, LogImage};
use loser_undo::{UndoSink, undo_into};
use page_core::Page;
use txn_table::Losers;

/// Takes back all that is open at a log's end (ARIES, section 6.3): appends undo's records, forces
/// them to the device that has the log, and redoes them on the pages that the log makes. Behind the
/// log the device may have anything; it is cut off by the first record that is stored, so that then
/// the device has the log alone. Where nothing is open, the device is not called.
///
/// `LogFull` comes where the records do not fit, before the first one; `OutOfMemory` where memory
/// is refused, before the device is called; and `LogFault` where a call of the device fails. Each
/// hands the device back, on which all of the log still lasts. At a `LogFault` the device was asked
/// for no more than the first of undo's records, in their order, and to sync them. So where a crash
/// leaves no other record behind the log, who opens it anew finds it taken back in part
/// (`failed_restarts_leave_a_part_of_undo`), and a restart goes on from there. The value that is
/// handed back may be of no more use: a `FileLog` stores nothing once a sync has failed.
pub fn take_back<D: LogDevice + Drop>(
    front: Front,
    device: D,
) -> Result<(LogImage, Vec<Page>, D), (RestartFault, D)>
    requires { HasLasting D.bytes D.lasting front.log device }

    ensures undone { IfOk result (λ it. it.0 ≡ undone_log front.log) }
    ensures pages { IfOk result (λ it. it.1.items ≡ redo_all it.0.records (page_count it.0)) }
    ensures device { IfOk result (λ it. HasLasting D.bytes D.lasting it.0 it.2) }
    ensures alone { IfOk result (λ it. length front.log.records < length it.0.records
        → D.bytes it.2 ≡ log_bytes it.0) }
    ensures called { IfOk result (λ it.
        ForcesMore D.called D.synced front.log it.0 device it.2) }
    ensures room { OnOk result
        (length front.log.records + owed front.log.records ≤ MAX_RECORDS) }
    ensures full { IfErr result (λ e. e.0 ≡ LogFull
        → MAX_RECORDS < length front.log.records + owed front.log.records) }
    ensures fault { IfErr result (λ e. IsStopped D.failures device e.0 e.1) }
    ensures last_call { IfErr result (λ e. e.0 ≡ LogFault
        → FailsUndo D.called D.synced front.log device e.1) }
    ensures stands { IfErr result (λ e. HasLasting D.bytes D.lasting front.log e.1) }
    ensures valid { IsLog front.log }
    ensures linked { IsLinked front.log.records }
{
    let (log, pages, losers) = front.into_replayed();
    if log.records().len() as u64 + losers.owed() > MAX_RECORDS as u64 {
        return Err((RestartFault::LogFull, device));
    }
    let (mut written, pages) = match with_undo(log, pages, losers, device) {
        Ok(undone) => undone,
        Err(device) => return Err((RestartFault::OutOfMemory, device)),
    };
    match written.force() {
        Ok(()) => {
            let (log, device) = written.into_parts();
            Ok((log, pages, device))
        }
        Err(_) => {
            let (_, device) = written.into_parts();
            Err((RestartFault::LogFault, device))
        }
    }
}

/// The log with the records of undo in memory, and its pages with what these change. An `Err` comes
/// where memory for these is refused.
fn with_undo<D: LogDevice + Drop>(
    log: LogImage,
    pages: Vec<Page>,
    losers: Losers,
    device: D,
) -> Result<(Log<D>, Vec<Page>), D>
    requires leads { LeadsTo log pages.items losers }
    requires device { HasLasting D.bytes D.lasting log device }
    requires room { length log.records + owed log.records ≤ MAX_RECORDS }
    ensures undone { IfOk result (λ it. it.0.log ≡ undone_log log) }
    ensures pages { IfOk result (λ it.
        it.1.items ≡ redo_all (undone_log log).records (page_count (undone_log log))) }
    ensures forced_end { IfOk result (λ it. it.0.forced_end ≡ lsn_of (length log.records)) }
    ensures device { IfOk result (λ it. it.0.device ≡ device) }
    ensures refused { IfErr result (λ it. it ≡ device) }
    ensures valid { IsLog log }
{
    let count = log.records().len();
    let growing = GrowingLog {
        written: Log::resume(log, device),
        is_refused: false,
    };
    let mut sink = (growing, pages);
    undo_into(losers, count, &mut sink);
    let (growing, pages) = sink;
    if growing.is_refused {
        return Err(growing.written.into_parts().1);
    }
    Ok((growing.written, pages))
}

/// A log on its device, and whether memory for a record was refused. From then on it takes none.
#[derive(Drop)]
struct GrowingLog<D: LogDevice> {
    written: Log<D>,
    is_refused: bool,
}

/// The records come behind those of the log, in memory.
impl<D: LogDevice> UndoSink for GrowingLog<D> {
    ghost took = { λ start log behind it. HasGrown start.written log behind it.written it.is_refused };

    fn take(&mut self, next: &Record) {
        if self.is_refused {
            return;
        }
        match self.written.make_room() {
            Ok(()) => self.written.append(*next),
            Err(_) => self.is_refused = true,
        }
    }
}
