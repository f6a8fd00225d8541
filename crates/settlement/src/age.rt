//! The age of the records that a session's receipts speak of.

ghost use Rattle.std.specs.Prelude.{◌≤◌, ◌<◌, IfErr, OnOk};
ghost use Rattle.std.specs.List.{All};
ghost use Rattle.settlement.specs.Receipt.{times, written};

use crate::receipt::Receipt;
use page_core::Lsn;

/// Checks that no receipt of a session is of a record below an LSN: one that was there before the
/// session. An `Err` has the position of the first one that is.
pub fn check_age(receipts: &[Receipt], bound: Lsn) -> Result<(), Lsn>
    ensures ok { OnOk result (All (λ lsn. bound ≤ lsn) (written receipts.now)) }
    ensures err { IfErr result (λ at. (at < bound) × (0 < times at (written receipts.now))) }
{
    for receipt in receipts {
        let at = receipt.position();
        if !receipt.is_read() && at.0 < bound.0 {
            return Err(at);
        }
    }
    Ok(())
}
