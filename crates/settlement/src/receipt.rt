//! The receipt of each call of a session that was answered.

use page_core::{ChangeKind, Lsn, PageNo, SlotNo, TxnNo};

/// The step of a transaction that a receipt is of, where it is no change that a session asked for.
#[derive(Clone, Copy, Debug, PartialEq, Eq)]
pub enum TxnStep {
    /// The transaction begins.
    Begin,
    /// It ends, and its changes last: its Commit is forced.
    Commit,
    /// It ends with a Commit, and nobody knows whether that is forced.
    Unsure,
    /// It begins to take its changes back.
    Abort,
    /// It takes one change back.
    Comp,
    /// It ends with all changes taken back.
    End,
}

/// The receipt of a change. `number` was set or added, as `kind` says, and the Update stands at
/// `lsn`.
#[derive(Clone, Copy, Debug, PartialEq, Eq)]
pub struct ChangeReceipt {
    pub lsn: Lsn,
    pub txn: TxnNo,
    pub page: PageNo,
    pub slot: SlotNo,
    pub kind: ChangeKind,
    pub number: u64,
}

/// The receipt of a begin, commit, abort or undo step. The record of this kind stands at `lsn`; of an
/// unsure commit it is a Commit.
#[derive(Clone, Copy, Debug, PartialEq, Eq)]
pub struct StepReceipt {
    pub lsn: Lsn,
    pub txn: TxnNo,
    pub step: TxnStep,
}

/// The receipt of a read. The slot had `number` when the log ended at `end`.
#[derive(Clone, Copy, Debug, PartialEq, Eq)]
pub struct ReadReceipt {
    pub end: Lsn,
    pub page: PageNo,
    pub slot: SlotNo,
    pub number: u64,
}

/// What a session is answered and keeps of a call: the call, and where the log shows it.
#[derive(Clone, Copy, Debug, PartialEq, Eq)]
pub enum Receipt {
    Changed(ChangeReceipt),
    Stepped(StepReceipt),
    Read(ReadReceipt),
}

impl Receipt {
    ghost use Rattle.std.specs.Prelude.{◌≡◌};
    ghost use Rattle.settlement.specs.Receipt.{is_read, position};

    /// Where the log shows it: the LSN of its record, or the log's end at the read.
    pub fn position(&self) -> Lsn
        ensures { result ≡ position self.now }
    {
        match *self {
            Receipt::Changed(it) => it.lsn,
            Receipt::Stepped(it) => it.lsn,
            Receipt::Read(it) => it.end,
        }
    }

    /// Whether it is of a read, which leaves no record.
    pub fn is_read(&self) -> bool
        ensures { result ≡ is_read self.now }
    {
        matches!(self, Receipt::Read(_))
    }
}
