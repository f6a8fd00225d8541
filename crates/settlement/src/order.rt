//! The order of a session's receipts.

ghost use Rattle.std.specs.Prelude.{ℕ, ◌≡◌, ◌<◌, true, false, length, take, slice_index_or};
ghost use Rattle.std.specs.Prelude.{IfErr, OnOk};
ghost use Rattle.settlement.specs.Receipt.{AreInOrder, ComesBehind, IsBehind, position};
ghost use Rattle.settlement.specs.declared.receipt.Receipt.{Receipt};

use crate::receipt::Receipt;
use page_core::Lsn;

/// Checks that each receipt of a session is behind those before it. An `Err` has the position of
/// the first one that is not.
pub fn check_order(receipts: &[Receipt]) -> Result<(), Lsn>
    ensures ok { OnOk result (AreInOrder receipts.now) }
    ensures err { IfErr result (λ at. (i : ℕ) × (i < length receipts.now)
        × ((d : Receipt) → (position (slice_index_or receipts.now i d) ≡ at)
        × (¬ IsBehind (take i receipts.now) (slice_index_or receipts.now i d)))) }
{
    for i in 1..receipts.len() {
        if !comes_behind(&receipts[i - 1], &receipts[i]) {
            return Err(receipts[i].position());
        }
    }
    Ok(())
}

/// Whether a receipt may come behind another one.
fn comes_behind(before: &Receipt, next: &Receipt) -> bool
    ensures yes { result ≡ true → ComesBehind before.now next.now }
    ensures no { result ≡ false → ¬ ComesBehind before.now next.now }
{
    let (last, at) = (before.position(), next.position());
    if before.is_read() {
        last <= at
    } else {
        last < at
    }
}
