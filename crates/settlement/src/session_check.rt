//! Whether the receipts of one session stand.

ghost use Rattle.std.specs.Prelude.{ℕ, ◌≡◌, ◌<◌, ◌++◌, List, length, take, slice_index_or};
ghost use Rattle.std.specs.Prelude.{IfErr, OnOk};
ghost use Rattle.settlement.specs.Marks.{AreMarked};
ghost use Rattle.settlement.specs.Receipt.{written};
ghost use Rattle.settlement.specs.Session.{AllStand, IsUnsettled};
ghost use Rattle.settlement.specs.Volume.{AreOfVolume};
ghost use Rattle.settlement.specs.declared.receipt.Receipt.{Receipt};

use crate::marks::mark_records;
use crate::order::check_order;
use crate::reads::check_reads;
use crate::receipt::Receipt;
use log_records::Record;
use page_core::{Lsn, Page};

/// Checks the receipts of a session against the log, and marks the records that they speak of.
/// `pages` is room for the volume: its content does not matter, before or after. An `Err` has the
/// position of a receipt that does not stand, or of whose LSN there is another receipt.
pub fn check_session(
    pages: &mut [Page],
    marks: &mut [bool],
    records: &[Record],
    forced_end: Lsn,
    receipts: &[Receipt],
) -> Result<(), Lsn>
    requires log { AreOfVolume (length pages.old) records.now }
    requires lengths { length marks.old ≡ length records.now }
    ensures ok { OnOk result (AllStand records.now forced_end receipts.now) }
    ensures marked { OnOk result ((lsns : List ℕ) → AreMarked marks.old lsns
        → AreMarked marks.new (lsns ++ written receipts.now)) }
    ensures err { IfErr result (λ at. (i : ℕ) × (i < length receipts.now)
        × ((d : Receipt) → IsUnsettled records.now forced_end marks.old (take i receipts.now)
        (slice_index_or receipts.now i d) at)) }
    ensures pages { length pages.new ≡ length pages.old }
    ensures marks { length marks.new ≡ length marks.old }
{
    if let Err(at) = check_order(receipts) {
        return Err(at);
    }
    if let Err(at) = check_reads(pages, records, receipts) {
        return Err(at);
    }
    if let Err(at) = mark_records(records, forced_end, receipts, marks) {
        return Err(at);
    }
    Ok(())
}
