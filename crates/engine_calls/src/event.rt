//! The calls of the engine and their answers, as values.

use crate::refusal::Refusal;
use copy_vault::CopyId;
use page_core::{Lsn, PageNo, SlotNo, TxnNo};

/// A call of the engine, with its arguments.
#[derive(Clone, Copy, Debug, PartialEq, Eq)]
pub enum Event {
    /// Begins a transaction.
    Begin,
    /// Puts a number into a slot.
    Set {
        txn: TxnNo,
        page: PageNo,
        slot: SlotNo,
        number: u64,
    },
    /// Adds to the number in a slot, modulo 2^64.
    Add {
        txn: TxnNo,
        page: PageNo,
        slot: SlotNo,
        amount: u64,
    },
    /// Reads the number in a slot.
    Read {
        page: PageNo,
        slot: SlotNo,
    },
    /// Ends a transaction whose changes are to last, and forces the log through its record.
    Commit(TxnNo),
    /// Begins to take the changes of a transaction back.
    Abort(TxnNo),
    /// Takes the last pending change of a transaction back, or ends it where none is left.
    UndoStep(TxnNo),
    /// Tells to where a transaction may go back.
    Savepoint(TxnNo),
    /// Takes the last pending change of a transaction back, or none where those are pending that
    /// were at its savepoint. The transaction goes on.
    UndoTo {
        txn: TxnNo,
        savepoint: Lsn,
    },
    /// Forces the whole log.
    Force,
    /// Begins to write a page: keeps an image of it, and forces the log through its LSN.
    WriteBegin(PageNo),
    /// Stores the image of a page whose write has begun.
    WriteEnd(PageNo),
    /// Begins a checkpoint.
    CkptBegin,
    /// Gathers the next dirty pages, or the next open transaction, for the open checkpoint.
    CkptGather,
    /// Ends the open checkpoint, and forces the log through its last record.
    CkptEnd,
    /// Begins a full image copy.
    CopyFull,
    /// Begins an incremental image copy, whose parent is the complete copy of this id.
    CopyInc(CopyId),
    /// Has an image copy decide of a page as it is stored.
    Take {
        copy: CopyId,
        page: PageNo,
    },
    /// Makes an image copy complete.
    Seal(CopyId),
    /// Drops an image copy that is being read.
    DropCopy(CopyId),
    /// Stores a page anew, rebuilt from a complete image copy and the log.
    Repair {
        copy: CopyId,
        page: PageNo,
    },
    /// Grows the volume to so many pages.
    Extend(u32),
}

/// What an accepted call answers.
#[derive(Clone, Copy, Debug, PartialEq, Eq)]
pub enum Answer {
    /// The number of the new transaction, and the LSN of its Begin.
    Began { txn: TxnNo, lsn: Lsn },
    /// The LSN of the record that was appended.
    Logged(Lsn),
    /// The number in the slot.
    Number(u64),
    /// The LSN of the compensation record.
    Undid(Lsn),
    /// The LSN of the End.
    Ended(Lsn),
    /// The LSN that names the savepoint: that of the last record of the transaction.
    Saved(Lsn),
    /// The pending changes are those that were pending at the savepoint.
    Reached,
    /// The forced end of the log.
    Forced(Lsn),
    /// The LSN of the image that is being written.
    Writing(Lsn),
    /// The LSN of the image that was stored.
    Written(Lsn),
    /// The gather of the open checkpoint goes on.
    More,
    /// The gather of the open checkpoint has ended.
    Done,
    /// The LSNs of the BeginChkpt and of the EndChkpt of the checkpoint, and its redo point.
    Point { begin: Lsn, end: Lsn, redo: Lsn },
    /// The id of the new copy.
    Copied(CopyId),
    /// The copy has the page as it was stored, with this LSN.
    Taken(Lsn),
    /// The copy keeps what its parent has of the page.
    Kept,
    /// How many pages the complete copy has.
    Sealed(u32),
    /// The copy is dropped.
    Dropped,
    /// The LSN of the page that was rebuilt and stored.
    Repaired(Lsn),
}

/// What a step of a rollback did.
#[derive(Clone, Copy, Debug, PartialEq, Eq)]
pub enum Undone {
    /// It took a change back: the LSN of the compensation record.
    Undid(Lsn),
    /// It ended the transaction: the LSN of the End.
    Ended(Lsn),
}

/// What a step back to a savepoint did.
#[derive(Clone, Copy, Debug, PartialEq, Eq)]
pub enum SteppedBack {
    /// It took a change back: the LSN of the compensation record.
    Undid(Lsn),
    /// It took none back: the pending changes are those that were pending at the savepoint.
    Reached,
}

/// What a step of a gather answers.
#[derive(Clone, Copy, Debug, PartialEq, Eq)]
pub enum Gathered {
    /// The gather goes on.
    More,
    /// The gather has ended.
    Done,
}

/// What a copy did with a page.
#[derive(Clone, Copy, Debug, PartialEq, Eq)]
pub enum Took {
    /// It has the page as it was stored, with this LSN.
    Taken(Lsn),
    /// It keeps what its parent has of the page.
    Kept,
}

/// The answer of a call, or why it was refused.
pub type Reply = Result<Answer, Refusal>;
