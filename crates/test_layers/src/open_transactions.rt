//! The table of open transactions on short logs, and that each call succeeds. A test is a list of
//! steps, and one function runs them.

use log_records::{Record, TxnPhase};
use log_rules::PendingChange;
use page_core::{Change, ChangeKind, Lsn, PageNo, SlotNo, TxnNo};
use std::alloc::AllocError;
use std::process::Abort;
use txn_table::{OpenTransactions, TxnState};

const PAGE: PageNo = PageNo(7);

const SLOT: SlotNo = SlotNo(3);

fn begin(lsn: u64, txn: u32) -> Record {
    Record::Begin {
        lsn: Lsn(lsn),
        txn: TxnNo(txn),
    }
}

fn update(lsn: u64, txn: u32, prev: u64, slot: SlotNo, change: Change) -> Record {
    Record::Update {
        lsn: Lsn(lsn),
        txn: TxnNo(txn),
        prev: Lsn(prev),
        page: PAGE,
        slot,
        change,
    }
}

fn comp(lsn: u64, txn: u32, prev: u64, undo_next: u64, slot: SlotNo, change: Change) -> Record {
    Record::Comp {
        lsn: Lsn(lsn),
        txn: TxnNo(txn),
        prev: Lsn(prev),
        undo_next: Lsn(undo_next),
        page: PAGE,
        slot,
        change,
    }
}

fn commit(lsn: u64, txn: u32, prev: u64) -> Record {
    Record::Commit {
        lsn: Lsn(lsn),
        txn: TxnNo(txn),
        prev: Lsn(prev),
    }
}

fn abort(lsn: u64, txn: u32, prev: u64) -> Record {
    Record::Abort {
        lsn: Lsn(lsn),
        txn: TxnNo(txn),
        prev: Lsn(prev),
    }
}

fn end(lsn: u64, txn: u32, prev: u64) -> Record {
    Record::End {
        lsn: Lsn(lsn),
        txn: TxnNo(txn),
        prev: Lsn(prev),
    }
}

const SET: Change = Change::Set {
    before: 0,
    after: 9,
};

const UNSET: Change = Change::Set {
    before: 0,
    after: 0,
};

const ADD: Change = Change::Add { amount: 5 };

const UNDO_ADD: Change = Change::Add {
    amount: 18_446_744_073_709_551_611,
};

/// What a test does with a table, or wants of it.
#[derive(Clone, Copy)]
enum Step {
    /// The record may come next, and comes.
    Note(Record),
    /// The record may not come next.
    Refused(Record),
    /// Room is made for a change of a slot by a transaction.
    Room(u32, SlotNo),
    /// None can be had.
    NoRoom(u32, SlotNo),
    /// Who holds a slot against a change of this kind by a transaction.
    Holder(SlotNo, ChangeKind, TxnNo, Option<TxnNo>),
    /// The numbers of a transaction.
    State(u32, Option<TxnState>),
    /// The numbers of the first transaction at or above a number.
    Next(u32, Option<TxnState>),
    /// The last pending change of a transaction.
    Pending(u32, Option<PendingChange>),
    /// How many transactions began, how many are open, and how many records they are owed.
    Counts(u32, usize, u64),
}

/// Takes a step, and answers whether all was as the test wants it.
fn is_as_wanted(table: &mut OpenTransactions, step: &Step) -> Result<bool, AllocError> {
    Ok(match *step {
        Step::Note(record) => {
            let may = table.may_note(&record);
            if may {
                table.note(&record)?;
            }
            may
        }
        Step::Refused(record) => !table.may_note(&record),
        Step::Room(txn, slot) => {
            table.make_room(TxnNo(txn), PAGE, slot)?;
            true
        }
        Step::NoRoom(txn, slot) => table.make_room(TxnNo(txn), PAGE, slot).is_err(),
        Step::Holder(slot, kind, txn, want) => { table.holder(PAGE, slot, kind, txn) == want }
        Step::State(txn, want) => table.state(TxnNo(txn)) == want,
        Step::Next(from, want) => table.next_from(TxnNo(from)) == want,
        Step::Pending(txn, want) => table.last_pending(TxnNo(txn)) == want,
        Step::Counts(begun, open_count, owed) => {
            table.begun() == begun && table.open_count() == open_count && table.owed() == owed
        }
    })
}

fn take(rt: &impl Abort, table: &mut OpenTransactions, steps: &[Step]) -> Result<(), AllocError> {
    for (index, step) in steps.iter().enumerate() {
        assert!(rt; is_as_wanted(table, step)?, "step {index}");
    }
    Ok(())
}

/// Takes the last steps of a table.
fn take_over(
    rt: &impl Abort,
    mut table: OpenTransactions,
    steps: &[Step],
) -> Result<(), AllocError> {
    let done = take(rt, &mut table, steps);
    drop(table);
    done
}

/// The first transaction, with one pending change.
fn first_state(last: u64, rolling: bool) -> TxnState {
    TxnState {
        last: Lsn(last),
        rolling,
        pending: 1,
        ..begun_state(64, 1)
    }
}

/// A transaction that only began.
fn begun_state(lsn: u64, txn: u32) -> TxnState {
    TxnState {
        txn: TxnNo(txn),
        first: Lsn(lsn),
        last: Lsn(lsn),
        rolling: false,
        pending: 0,
    }
}

#[test]
fn a_transaction_has_its_state(rt: HostRuntime) -> Result<(), AllocError> {
    let table = OpenTransactions::new(rt.alloc());
    let change = PendingChange {
        lsn: Lsn(128),
        prev: Lsn(64),
        page: PAGE,
        slot: SLOT,
        change: SET,
    };
    let steps = [
        Step::Note(begin(64, 1)),
        Step::Note(update(128, 1, 64, SLOT, SET)),
        Step::State(1, Some(first_state(128, false))),
        Step::State(2, None),
        Step::Pending(1, Some(change)),
        Step::Counts(1, 1, 3),
        Step::Note(abort(192, 1, 128)),
        Step::State(1, Some(first_state(192, true))),
        Step::Counts(1, 1, 2),
        Step::Refused(update(256, 1, 192, SLOT, ADD)),
        Step::Refused(end(256, 1, 192)),
        Step::Refused(comp(256, 1, 192, 128, SLOT, UNSET)),
        Step::Note(comp(256, 1, 192, 64, SLOT, UNSET)),
        Step::Pending(1, None),
        Step::Refused(commit(320, 1, 256)),
        Step::Note(end(320, 1, 256)),
        Step::State(1, None),
        Step::Counts(1, 0, 0),
    ];
    take_over(&rt, table, &steps)
}

#[test]
fn a_slot_has_its_holder(rt: HostRuntime) -> Result<(), AllocError> {
    let table = OpenTransactions::new(rt.alloc());
    let other = SlotNo(4);
    let steps = [
        Step::Note(begin(64, 1)),
        Step::Note(begin(128, 2)),
        Step::Note(begin(192, 3)),
        Step::Note(update(256, 3, 192, SLOT, ADD)),
        Step::Note(update(320, 2, 128, SLOT, ADD)),
        Step::Holder(SLOT, ChangeKind::Add, TxnNo(1), None),
        Step::Holder(SLOT, ChangeKind::Set, TxnNo(1), Some(TxnNo(2))),
        Step::Holder(SLOT, ChangeKind::Set, TxnNo(2), Some(TxnNo(3))),
        Step::Holder(other, ChangeKind::Set, TxnNo(1), None),
        Step::Refused(update(384, 1, 64, SLOT, SET)),
        Step::Note(update(384, 1, 64, SLOT, ADD)),
        Step::Note(update(448, 1, 384, other, SET)),
        Step::Holder(other, ChangeKind::Add, TxnNo(2), Some(TxnNo(1))),
        Step::Holder(other, ChangeKind::Add, TxnNo(1), None),
        // What transaction 3 takes back, it keeps out no more.
        Step::Note(comp(512, 3, 256, 192, SLOT, UNDO_ADD)),
        Step::Holder(SLOT, ChangeKind::Set, TxnNo(2), Some(TxnNo(1))),
        // An Abort keeps out what its transaction did, and a Commit does not.
        Step::Note(abort(576, 2, 320)),
        Step::Note(commit(640, 1, 448)),
        Step::Holder(SLOT, ChangeKind::Set, TxnNo(3), Some(TxnNo(2))),
        Step::Holder(other, ChangeKind::Set, TxnNo(3), None),
        Step::Note(comp(704, 2, 576, 128, SLOT, UNDO_ADD)),
        Step::Holder(SLOT, ChangeKind::Set, TxnNo(3), None),
    ];
    take_over(&rt, table, &steps)
}

/// A transaction that changed a slot twice still keeps it after one compensation.
#[test]
fn a_slot_is_kept_until_the_first_change_is_taken_back(rt: HostRuntime) -> Result<(), AllocError> {
    let table = OpenTransactions::new(rt.alloc());
    let steps = [
        Step::Note(begin(64, 1)),
        Step::Note(begin(128, 2)),
        Step::Note(update(192, 1, 64, SLOT, ADD)),
        Step::Note(update(256, 1, 192, SLOT, SET)),
        Step::Holder(SLOT, ChangeKind::Add, TxnNo(2), Some(TxnNo(1))),
        Step::Note(comp(320, 1, 256, 192, SLOT, UNSET)),
        Step::Holder(SLOT, ChangeKind::Add, TxnNo(2), None),
        Step::Holder(SLOT, ChangeKind::Set, TxnNo(2), Some(TxnNo(1))),
    ];
    take_over(&rt, table, &steps)
}

/// A checkpoint's entry of the first transaction.
fn found(state: TxnPhase, last: u64, undo_next: u64) -> Record {
    Record::ChkptTxns {
        lsn: Lsn(640),
        begin: Lsn(576),
        txn: TxnNo(1),
        state,
        last: Lsn(last),
        undo_next: Lsn(undo_next),
    }
}

/// A transaction takes back its last change, makes another one behind the Comp, takes that back
/// too, and aborts only then.
#[test]
fn a_transaction_goes_on_behind_a_comp(rt: HostRuntime) -> Result<(), AllocError> {
    let table = OpenTransactions::new(rt.alloc());
    let other = SlotNo(4);
    let first = PendingChange {
        lsn: Lsn(128),
        prev: Lsn(64),
        page: PAGE,
        slot: SLOT,
        change: ADD,
    };
    let steps = [
        Step::Note(begin(64, 1)),
        Step::Note(update(128, 1, 64, SLOT, ADD)),
        Step::Note(update(192, 1, 128, SLOT, ADD)),
        Step::Note(comp(256, 1, 192, 128, SLOT, UNDO_ADD)),
        Step::State(1, Some(first_state(256, false))),
        Step::Counts(1, 1, 3),
        Step::Note(found(TxnPhase::Active, 256, 128)),
        Step::Refused(found(TxnPhase::Rolling, 256, 128)),
        Step::Refused(end(320, 1, 256)),
        Step::Note(update(320, 1, 256, other, SET)),
        // The PrevLSN of the change that is taken back is the LSN of a Comp.
        Step::Refused(comp(384, 1, 320, 128, other, UNSET)),
        Step::Note(comp(384, 1, 320, 256, other, UNSET)),
        Step::Pending(1, Some(first)),
        Step::Note(abort(448, 1, 384)),
        Step::State(1, Some(first_state(448, true))),
        Step::Note(found(TxnPhase::Rolling, 448, 128)),
        Step::Refused(update(512, 1, 448, SLOT, ADD)),
        Step::Note(comp(512, 1, 448, 64, SLOT, UNDO_ADD)),
        Step::Note(end(576, 1, 512)),
        Step::Counts(1, 0, 0),
    ];
    take_over(&rt, table, &steps)
}

/// As many transactions begin as may be open.
fn begin_each(table: &mut OpenTransactions) -> Result<(), AllocError> {
    for txn in 1..65 {
        let record = begin(64 * txn as u64, txn);
        if table.may_note(&record) {
            table.note(&record)?;
        }
    }
    Ok(())
}

#[test]
fn seats_are_taken_again(rt: HostRuntime) -> Result<(), AllocError> {
    let mut table = OpenTransactions::new(rt.alloc());
    begin_each(&mut table)?;
    let other = SlotNo(9);
    let reused = TxnState {
        last: Lsn(4416),
        pending: 1,
        ..begun_state(4352, 65)
    };
    let steps = [
        Step::Counts(64, 64, 128),
        Step::Refused(begin(4160, 65)),
        Step::Note(update(4160, 2, 128, SLOT, SET)),
        Step::Note(update(4224, 63, 4032, other, SET)),
        Step::Note(commit(4288, 2, 4160)),
        Step::Refused(begin(4352, 66)),
        Step::Note(begin(4352, 65)),
        Step::Note(update(4416, 65, 4352, SLOT, SET)),
        Step::Holder(SLOT, ChangeKind::Set, TxnNo(1), Some(TxnNo(65))),
        Step::Holder(SLOT, ChangeKind::Set, TxnNo(65), None),
        Step::Holder(other, ChangeKind::Set, TxnNo(65), Some(TxnNo(63))),
        Step::Next(2, Some(begun_state(192, 3))),
        Step::Next(64, Some(begun_state(4096, 64))),
        Step::Next(65, Some(reused)),
        Step::Next(66, None),
    ];
    take_over(&rt, table, &steps)
}

/// Room may be made for one change or several, and is there for a slot that others add to as well;
/// it changes nothing else. No page has a slot past the last one.
#[test]
fn room_comes_before_a_change(rt: HostRuntime) -> Result<(), AllocError> {
    let table = OpenTransactions::new(rt.alloc());
    let steps = [
        Step::Room(1, SLOT),
        Step::Note(begin(64, 1)),
        Step::Note(begin(128, 2)),
        Step::Room(1, SLOT),
        Step::Counts(2, 2, 4),
        Step::Holder(SLOT, ChangeKind::Set, TxnNo(2), None),
        Step::Note(update(192, 1, 64, SLOT, ADD)),
        Step::Room(2, SLOT),
        Step::Room(2, SlotNo(9)),
        Step::Note(update(256, 2, 128, SLOT, ADD)),
        Step::Note(update(320, 2, 256, SlotNo(9), ADD)),
        Step::Room(1, SlotNo(9)),
        Step::Note(update(384, 1, 192, SlotNo(9), ADD)),
        Step::Holder(SLOT, ChangeKind::Set, TxnNo(1), Some(TxnNo(2))),
        Step::Holder(SlotNo(9), ChangeKind::Set, TxnNo(2), Some(TxnNo(1))),
        Step::NoRoom(1, SlotNo(62)),
        Step::Counts(2, 2, 8),
    ];
    take_over(&rt, table, &steps)
}
