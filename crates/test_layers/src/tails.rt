//! What no clause says: that the open transactions are found in known records of a checkpoint.

use crate::asserts::same_at;
use log_records::{DirtyPage, DirtyPages, Record, TxnPhase};
use loser_undo::{OpenTxn, open_by_tail};
use page_core::{Change, Lsn, PageNo, SlotNo, TxnNo};
use std::alloc::AllocError;

const FIRST: TxnNo = TxnNo(1);

fn checkpoint_begins(lsn: u64) -> Record {
    Record::BeginChkpt { lsn: Lsn(lsn) }
}

fn checkpoint_ends(lsn: u64, begin: u64) -> Record {
    Record::EndChkpt {
        lsn: Lsn(lsn),
        begin: Lsn(begin),
        redo: Lsn(begin),
    }
}

/// An entry of an active transaction of which the last record is an Update or its Begin.
fn entry(lsn: u64, begin: u64, txn: TxnNo, last: u64) -> Record {
    Record::ChkptTxns {
        lsn: Lsn(lsn),
        begin: Lsn(begin),
        txn,
        state: TxnPhase::Active,
        last: Lsn(last),
        undo_next: Lsn(last),
    }
}

/// Transaction 1 adds 5 to slot 0 of page 0.
fn added(lsn: u64, prev: u64) -> Record {
    Record::Update {
        lsn: Lsn(lsn),
        txn: FIRST,
        prev: Lsn(prev),
        page: PageNo(0),
        slot: SlotNo(0),
        change: Change::Add { amount: 5 },
    }
}

fn is_open(txn: TxnNo, last: u64) -> OpenTxn {
    OpenTxn {
        txn,
        last: Lsn(last),
    }
}

/// It began before the checkpoint, and commits before its entry would come.
#[test]
fn an_ended_transaction_is_not_open(rt: HostRuntime) -> Result<(), AllocError> {
    let commit = Record::Commit {
        lsn: Lsn(192),
        txn: FIRST,
        prev: Lsn(64),
    };
    let tail = [checkpoint_begins(128), commit, checkpoint_ends(256, 128)];
    assert!(rt; open_by_tail(rt.alloc(), &tail)?.is_empty());
    Ok(())
}

/// It begins behind the last step of the gather, so it has no entry.
#[test]
fn a_transaction_without_an_entry_is_open(rt: HostRuntime) -> Result<(), AllocError> {
    let begin = Record::Begin {
        lsn: Lsn(128),
        txn: FIRST,
    };
    let tail = [
        checkpoint_begins(64),
        begin,
        added(192, 128),
        checkpoint_ends(256, 64),
    ];
    let found = open_by_tail(rt.alloc(), &tail)?;
    same_at(&rt, &found.as_slice(), &&[is_open(FIRST, 192)][..], &64);
    Ok(())
}

/// Its last record stands before the checkpoint, and its entry names it.
#[test]
fn a_transaction_with_an_entry_alone_is_open(rt: HostRuntime) -> Result<(), AllocError> {
    let dirty = Record::ChkptPages {
        lsn: Lsn(256),
        begin: Lsn(192),
        pages: DirtyPages::One(DirtyPage {
            page: 0,
            rec_lsn: 128,
        }),
    };
    let tail = [
        checkpoint_begins(192),
        dirty,
        entry(320, 192, FIRST, 128),
        checkpoint_ends(384, 192),
    ];
    let found = open_by_tail(rt.alloc(), &tail)?;
    same_at(&rt, &found.as_slice(), &&[is_open(FIRST, 128)][..], &192);
    Ok(())
}

/// It goes on between the BeginChkpt and its entry.
#[test]
fn an_entry_is_as_of_its_own_place(rt: HostRuntime) -> Result<(), AllocError> {
    let tail = [
        checkpoint_begins(128),
        added(192, 64),
        entry(256, 128, FIRST, 192),
        checkpoint_ends(320, 128),
    ];
    let found = open_by_tail(rt.alloc(), &tail)?;
    same_at(&rt, &found.as_slice(), &&[is_open(FIRST, 192)][..], &128);
    Ok(())
}

/// Transaction 2 begins before the entry of transaction 1.
#[test]
fn open_transactions_come_by_their_numbers(rt: HostRuntime) -> Result<(), AllocError> {
    let second = TxnNo(2);
    let begin = Record::Begin {
        lsn: Lsn(192),
        txn: second,
    };
    let tail = [
        checkpoint_begins(128),
        begin,
        entry(256, 128, FIRST, 64),
        entry(320, 128, second, 192),
        checkpoint_ends(384, 128),
    ];
    let found = open_by_tail(rt.alloc(), &tail)?;
    let wanted = [is_open(FIRST, 64), is_open(second, 192)];
    same_at(&rt, &found.as_slice(), &&wanted[..], &128);
    Ok(())
}
