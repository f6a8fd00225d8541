//! The numbers of an open transaction.

use log_records::TxnPhase;
use page_core::{Lsn, TxnNo};

/// An open transaction, as the transaction table has it (ARIES, section 4.3).
#[derive(Clone, Copy, Debug, PartialEq, Eq)]
pub struct TxnState {
    pub txn: TxnNo,
    /// The LSN of its Begin.
    pub first: Lsn,
    /// The LSN of its last record.
    pub last: Lsn,
    /// It takes all its changes back: it has an Abort.
    pub rolling: bool,
    /// How many of its changes are pending.
    pub pending: usize,
}

impl TxnState {
    ghost use Rattle.std.specs.Prelude.{◌≡◌, if◌then◌else◌};
    ghost use Rattle.log_records.specs.declared.txn_phase.TxnPhase.TheVariants.{Active, Rolling};

    /// What it is doing.
    pub fn phase(&self) -> TxnPhase
        ensures { result ≡ (if self.now.rolling then Rolling else Active) }
    {
        if self.rolling {
            TxnPhase::Rolling
        } else {
            TxnPhase::Active
        }
    }
}
