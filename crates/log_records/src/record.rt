//! A record of the log: one action of a transaction, or one finding of a checkpoint.

use crate::dirty_page::DirtyPages;
use crate::page_change::PageChange;
use crate::txn_phase::TxnPhase;
use page_core::{Change, Lsn, Page, PageNo, SlotNo, TxnNo};

/// A record of the log (ARIES, section 4.1). `lsn` is its own LSN, and `prev` its PrevLSN: the LSN
/// of the same transaction's record before it.
#[derive(Clone, Copy, Debug, PartialEq, Eq)]
pub enum Record {
    /// A transaction begins.
    Begin {
        lsn: Lsn,
        txn: TxnNo,
    },
    /// A transaction changes a slot.
    Update {
        lsn: Lsn,
        txn: TxnNo,
        prev: Lsn,
        page: PageNo,
        slot: SlotNo,
        change: Change,
    },
    /// A compensation record: a transaction takes back its last pending change. `undo_next` is its
    /// UndoNxt, the PrevLSN of the Update that it compensates. It is never undone, so a Set in it
    /// has 0 as its `before`.
    Comp {
        lsn: Lsn,
        txn: TxnNo,
        prev: Lsn,
        undo_next: Lsn,
        page: PageNo,
        slot: SlotNo,
        change: Change,
    },
    /// A transaction ends, and its changes are to last.
    Commit {
        lsn: Lsn,
        txn: TxnNo,
        prev: Lsn,
    },
    /// A transaction begins to take its changes back.
    Abort {
        lsn: Lsn,
        txn: TxnNo,
        prev: Lsn,
    },
    /// A transaction ends whose changes are all taken back.
    End {
        lsn: Lsn,
        txn: TxnNo,
        prev: Lsn,
    },
    /// A checkpoint begins (ARIES, section 5.4).
    BeginChkpt {
        lsn: Lsn,
    },
    /// Dirty pages that a checkpoint found. `begin` is the LSN of its BeginChkpt, here and below.
    ChkptPages {
        lsn: Lsn,
        begin: Lsn,
        pages: DirtyPages,
    },
    /// An open transaction that a checkpoint found: the LSN of its last record, and its UndoNxt,
    /// where a rollback would begin: at the newest Update that is still pending, or else at its
    /// Begin.
    ChkptTxns {
        lsn: Lsn,
        begin: Lsn,
        txn: TxnNo,
        state: TxnPhase,
        last: Lsn,
        undo_next: Lsn,
    },
    /// A checkpoint is complete. From `redo` on redo has to read the log.
    EndChkpt {
        lsn: Lsn,
        begin: Lsn,
        redo: Lsn,
    },
    /// The volume grows: from here on it has so many pages. The new ones are formatted. It is of no
    /// transaction and of no checkpoint, and is never undone.
    Extend {
        lsn: Lsn,
        pages: u32,
    },
}

impl Record {
    ghost use Rattle.std.specs.Prelude.{◌≡◌};
    ghost use Rattle.log_records.specs.Image.{with_record};
    ghost use Rattle.log_records.specs.Record.{change_of, own_lsn};

    /// The record's own LSN.
    pub fn lsn(&self) -> Lsn
        ensures { result ≡ own_lsn self.now }
    {
        match *self {
            Record::Begin { lsn, .. }
            | Record::Update { lsn, .. }
            | Record::Comp { lsn, .. }
            | Record::Commit { lsn, .. }
            | Record::Abort { lsn, .. }
            | Record::End { lsn, .. }
            | Record::BeginChkpt { lsn }
            | Record::ChkptPages { lsn, .. }
            | Record::ChkptTxns { lsn, .. }
            | Record::EndChkpt { lsn, .. }
            | Record::Extend { lsn, .. } => lsn,
        }
    }

    /// The change that redo makes of the record, if it makes one.
    pub fn change(&self) -> Option<PageChange>
        ensures { result ≡ change_of self.now }
    {
        match *self {
            Record::Update {
                page,
                slot,
                change,
                ..
            }
            | Record::Comp {
                page,
                slot,
                change,
                ..
            } => Some(PageChange { page, slot, change }),
            Record::Begin { .. }
            | Record::Commit { .. }
            | Record::Abort { .. }
            | Record::End { .. }
            | Record::BeginChkpt { .. }
            | Record::ChkptPages { .. }
            | Record::ChkptTxns { .. }
            | Record::EndChkpt { .. }
            | Record::Extend { .. } => None,
        }
    }

    /// Redoes the record on the page, if it is a change of this page. The LSN that the page has is
    /// not looked at.
    pub fn redo_on(&self, page: &mut Page)
        ensures { page.new ≡ with_record page.old self.now }
    {
        if let Some(change) = self.change() {
            if change.page == page.number {
                page.apply(self.lsn(), change.slot, &change.change);
            }
        }
    }
}
