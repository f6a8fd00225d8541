//! The reasons why the engine refuses a call.

use copy_vault::CopyFault;
use page_core::{FaultName, Lsn, PageNo, TxnNo};
use std::error::Error;
use std::fmt;

/// Why a call is refused. A refusal changes nothing but what its variant says. Its text is its
/// line.
#[derive(Clone, Copy, Debug, PartialEq, Eq)]
pub enum Refusal {
    /// Memory ran out.
    OutOfMemory,
    /// No open transaction has this number.
    NoTxn,
    /// The volume has no such page.
    PageOut,
    /// A page has no such slot.
    SlotOut,
    /// This transaction holds the slot: the least one that does.
    SlotBusy(TxnNo),
    /// The transaction is rolling back.
    TxnRolling,
    /// The transaction did not abort.
    NotRolling,
    /// After the call the log's records and those that open transactions may still need would be
    /// more than a log may have.
    LogFull,
    /// 64 transactions are open.
    TooManyTxns,
    /// The page has no change that its stored page may lack.
    NotDirty,
    /// A write of the page is in progress.
    WriteBegun,
    /// No write of the page is in progress.
    NoWrite,
    /// A checkpoint is open.
    CkptOpen,
    /// No checkpoint is open.
    NoCkpt,
    /// The gather of the open checkpoint has not ended.
    GatherLeft,
    /// No checkpoint is complete yet.
    NoMaster,
    /// No copy has this id, or it was dropped.
    NoCopy,
    /// The copy is complete.
    CopyNotOpen,
    /// The copy is still being read.
    CopyNotComplete,
    /// The copy has decided of this page.
    PageDecided,
    /// Nothing is decided yet of this page, the least such one.
    PagesLeft(PageNo),
    /// The page store failed. Where a write was to end, it has not: it still has its image, and the
    /// call may be made again; what is stored is either page, the older one or the image. At a
    /// repair the log is forced through the page's LSN, the old page is stored, or the rebuilt one,
    /// and the page is as dirty as before. At a call that reads a page, nothing changed. At a
    /// growth the store may have more pages than the volume, and nothing else changed.
    StoreFault,
    /// The page has to come in, each frame is taken, and none has a clean page.
    PoolFull,
    /// The LSN is no savepoint of the transaction: none of its records stands there, or some change
    /// that was pending then was taken back since.
    NoSavepoint,
    /// The volume has as many pages, or so many are more than a volume may have: the present count.
    NotLarger(u32),
    /// All 1,024 ids of copies were given, dropped ones counted.
    TooManyCopies,
    /// The log's device failed. The records that were stored before the fault count as forced.
    LogFault,
    /// The log's device failed while the Commit at this LSN was forced. The Commit stands in the
    /// log, not known to be forced, and its transaction has ended.
    CommitUnsure(Lsn),
}

impl From<CopyFault> for Refusal {
    ghost use Rattle.std.specs.Prelude.{◌≡◌};
    ghost use Rattle.engine_calls.specs.Refusal.{of_vault};

    ghost from_gives = { λ fault why. why ≡ of_vault fault };

    fn from(fault: CopyFault) -> Refusal {
        match fault {
            CopyFault::OutOfMemory => Refusal::OutOfMemory,
            CopyFault::NoCopy => Refusal::NoCopy,
            CopyFault::CopyNotOpen => Refusal::CopyNotOpen,
            CopyFault::CopyNotComplete => Refusal::CopyNotComplete,
            CopyFault::PagesLeft(page) => Refusal::PagesLeft(page),
            CopyFault::TooManyCopies => Refusal::TooManyCopies,
        }
    }
}

impl fmt::Display for Refusal {
    ghost use Rattle.std.specs.Prelude.{Some};
    ghost use Rattle.engine_calls.specs.Refusal.{line_of};

    ghost output = { λ refusal. Some (line_of refusal) };

    fn fmt<W: fmt::Write>(&self, f: &mut fmt::Formatter<W>) -> fmt::Result {
        let (name, number) = self.parts();
        match number {
            Some(number) => write!(f, "{name} {number}"),
            None => write!(f, "{name}"),
        }
    }
}

impl Refusal {
    ghost use Rattle.std.specs.Prelude.{◌≡◌};
    ghost use Rattle.engine_calls.specs.Refusal.{line_of, line_with_any};

    /// Its line in two parts: the name, and the number behind it, if it has one.
    fn parts(&self) -> (FaultName, Option<u64>)
        ensures { line_of self.now ≡ line_with_any result.0 result.1 }
    {
        match self {
            Refusal::OutOfMemory => (FaultName::OutOfMemory, None),
            Refusal::NoTxn => (FaultName::NoTxn, None),
            Refusal::PageOut => (FaultName::PageOut, None),
            Refusal::SlotOut => (FaultName::SlotOut, None),
            Refusal::SlotBusy(txn) => (FaultName::SlotBusy, Some(txn.0 as u64)),
            Refusal::TxnRolling => (FaultName::TxnRolling, None),
            Refusal::NotRolling => (FaultName::NotRolling, None),
            Refusal::LogFull => (FaultName::LogFull, None),
            Refusal::TooManyTxns => (FaultName::TooManyTxns, None),
            Refusal::NotDirty => (FaultName::NotDirty, None),
            Refusal::WriteBegun => (FaultName::WriteBegun, None),
            Refusal::NoWrite => (FaultName::NoWrite, None),
            Refusal::CkptOpen => (FaultName::CkptOpen, None),
            Refusal::NoCkpt => (FaultName::NoCkpt, None),
            Refusal::GatherLeft => (FaultName::GatherLeft, None),
            Refusal::NoMaster => (FaultName::NoMaster, None),
            Refusal::NoCopy => (FaultName::NoCopy, None),
            Refusal::CopyNotOpen => (FaultName::CopyNotOpen, None),
            Refusal::CopyNotComplete => (FaultName::CopyNotComplete, None),
            Refusal::PageDecided => (FaultName::PageDecided, None),
            Refusal::PagesLeft(page) => (FaultName::PagesLeft, Some(page.0 as u64)),
            Refusal::StoreFault => (FaultName::StoreFault, None),
            Refusal::LogFault => (FaultName::LogFault, None),
            Refusal::PoolFull => (FaultName::PoolFull, None),
            Refusal::TooManyCopies => (FaultName::TooManyCopies, None),
            Refusal::NoSavepoint => (FaultName::NoSavepoint, None),
            Refusal::NotLarger(present) => (FaultName::NotLarger, Some(*present as u64)),
            Refusal::CommitUnsure(lsn) => (FaultName::CommitUnsure, Some(lsn.0)),
        }
    }
}

impl Error for Refusal {}
