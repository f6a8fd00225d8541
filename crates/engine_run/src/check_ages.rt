//! Whether sessions, checkpoints and copies were answered what was there before them.

ghost use Rattle.std.specs.Prelude.{ℕ, ◌≡◌, ◌≤◌, ◌<◌, true, false, IfErr, OnOk};
ghost use Rattle.std.specs.List.{All, filter_map};
ghost use Rattle.log_records.specs.Log.{lsn_of};
ghost use Rattle.settlement.specs.Receipt.{times, written};
ghost use Rattle.settlement.specs.Sessions.{all_receipts};
ghost use Rattle.engine_run.specs.Settled.{AreNewCopies, AreNewer, HasOlderCopy, IsOlderAt};
ghost use Rattle.engine_run.specs.Settled.{begin_of, copies_of};

use crate::beginning::Beginning;
use crate::life::Life;
use crate::session::Session;
use crate::work::Work;
use page_core::{LSN_STEP, Lsn};
use settlement::check_age;

/// Checks that each receipt and each Point is of a record behind the log's first ones, and that no
/// copy was there before. An `Err` has the LSN of a record that is older, or 0 where a copy is.
pub(crate) fn check_ages<G: Life>(
    began: Beginning,
    sessions: &[Session<G>],
    works: &[Work],
) -> Result<(), Lsn>
    ensures ok { OnOk result (AreNewer began.records sessions.now works.now) }
    ensures copies { OnOk result (AreNewCopies began.last_copy works.now) }
    ensures err { IfErr result (IsOlderAt began sessions.now works.now) }
{
    let bound = Lsn(LSN_STEP * (u64::from(began.records) + 1));
    if let Err(at) = check_receipts(bound, sessions) {
        return Err(at);
    }
    if let Err(at) = check_points(bound, works) {
        return Err(at);
    }
    if !are_new_copies(began.last_copy, works) {
        return Err(Lsn(0));
    }
    Ok(())
}

/// The same of receipts alone.
fn check_receipts<G: Life>(bound: Lsn, sessions: &[Session<G>]) -> Result<(), Lsn>
    ensures ok { OnOk result (All (λ lsn. bound ≤ lsn) (written (all_receipts sessions.now))) }
    ensures err { IfErr result (λ at. (at < bound)
        × (0 < times at (written (all_receipts sessions.now)))) }
{
    for session in sessions {
        if let Err(at) = check_age(session.receipts(), bound) {
            return Err(at);
        }
    }
    Ok(())
}

/// The same of Points alone.
fn check_points(bound: Lsn, works: &[Work]) -> Result<(), Lsn>
    ensures ok { OnOk result (All (λ lsn. bound ≤ lsn) (filter_map begin_of works.now)) }
    ensures err { IfErr result (λ at. (at < bound)
        × (0 < times at (filter_map begin_of works.now))) }
{
    for work in works {
        if let Work::Pointed(point) = *work {
            if point.begin.0 < bound.0 {
                return Err(point.begin);
            }
        }
    }
    Ok(())
}

/// Whether each copy has an id behind this one.
fn are_new_copies(last: u32, works: &[Work]) -> bool
    ensures yes { result ≡ true → AreNewCopies last works.now }
    ensures no { result ≡ false → HasOlderCopy last works.now }
{
    for work in works {
        if let Work::Copied { id, .. } = *work {
            if id.0 <= last {
                return false;
            }
        }
    }
    true
}
