//! Parts of transactions: what is taken back where one is stopped, and what stays.

ghost use Rattle.std.specs.Prelude.{[], ◌≡◌};

use crate::volume::{PAGE, device, new_session, stepped, volume, was_set};
use imgcopy_engine::{
    Calls, Client, Life, Lsn, MemDevice, MemStore, NotDone, Receipt, Refusal, SlotNo, Stop, TxnNo,
    TxnStep, attempt, step_back,
};
use std::marker::Brand;
use std::process::Abort;
use std::sync::Wait;
use std::sync::ledger::Blank;

type User<'a, G, R> = Client<'a, MemStore, MemDevice, G, R>;

const FIRST: TxnNo = TxnNo(1);

/// Begins transaction 1, and sets slot 0 to 1: the records 64 and 128.
fn begin<G: Life, R: Wait + Abort>(client: &mut User<'_, G, R>) {
    let begun = client.begin();
    assert_eq!(client.rt; begun.map(|it| (it.txn, it.lsn)), Ok((FIRST, Lsn(64))));
    let set = client.set(FIRST, PAGE, SlotNo(0), 1);
    assert_eq!(client.rt; set.map(|it| it.lsn), Ok(Lsn(128)));
}

/// Asserts which numbers the first slots have.
fn assert_slots<G: Life, R: Wait + Abort>(client: &User<'_, G, R>, numbers: [u64; 3]) {
    for slot in 0..3u16 {
        let number = client.peek(PAGE, SlotNo(slot));
        assert_eq!(client.rt; number, Ok(numbers[slot as usize]));
    }
}

/// A part that sets slots 0 and 1, and ends as it is told.
fn set_both<G: Life, R: Wait + Abort>(
    client: &mut User<'_, G, R>,
    txn: TxnNo,
    ends: Result<u32, Stop<u32>>,
) -> Result<u32, NotDone<u32>> {
    attempt(client, txn, |client, txn| {
        client.set(txn, PAGE, SlotNo(0), 5)?;
        client.set(txn, PAGE, SlotNo(1), 6)?;
        ends
    })
}

/// What the session of a transaction has been told that made such a part, and one change before it.
fn receipts_of_both() -> [Receipt; 4] {
    [
        stepped(64, 1, TxnStep::Begin),
        was_set(128, 1, 0, 1),
        was_set(192, 1, 0, 5),
        was_set(256, 1, 1, 6),
    ]
}

/// Both changes of the part are taken back, and the one before it stays. The transaction goes on.
fn stop_a_part<G: Life, R: Wait + Abort + AllocGlobal>(rt: &R, blank: Blank)
    requires name { blank.name ≡ G.name }
    requires parts { blank.parts ≡ G.parts }
    requires before { G.before ≡ [] }
    requires sessions { blank.parts ≡ 65 }
{
    let mut shared = volume::<MemDevice, G, R>(rt, blank, device(rt));
    let session = new_session(rt, &mut shared);
    let mut client = Client {
        session,
        shared: &shared,
        rt,
    };
    begin(&mut client);
    let told = set_both(&mut client, FIRST, Err(Stop::Own(7)));
    assert_eq!(rt; told, Err(NotDone::Stopped(Stop::Own(7))));
    assert_slots(&client, [1, 0, 0]);
    let set = client.set(FIRST, PAGE, SlotNo(2), 2);
    assert_eq!(rt; set.map(|it| it.lsn), Ok(Lsn(448)));
    assert_eq!(rt; client.commit(FIRST).map(|it| it.lsn), Ok(Lsn(512)));
    assert_slots(&client, [1, 0, 2]);
    let [begun, before, first, second] = receipts_of_both();
    let receipts = [
        begun,
        before,
        first,
        second,
        stepped(320, 1, TxnStep::Comp),
        stepped(384, 1, TxnStep::Comp),
        was_set(448, 1, 2, 2),
        stepped(512, 1, TxnStep::Commit),
    ];
    assert_eq!(rt; client.session.receipts(), receipts.as_slice());
}

/// A part that is done stays.
fn do_a_part<G: Life, R: Wait + Abort + AllocGlobal>(rt: &R, blank: Blank)
    requires name { blank.name ≡ G.name }
    requires parts { blank.parts ≡ G.parts }
    requires before { G.before ≡ [] }
    requires sessions { blank.parts ≡ 65 }
{
    let mut shared = volume::<MemDevice, G, R>(rt, blank, device(rt));
    let session = new_session(rt, &mut shared);
    let mut client = Client {
        session,
        shared: &shared,
        rt,
    };
    begin(&mut client);
    assert_eq!(rt; set_both(&mut client, FIRST, Ok(9)), Ok(9));
    assert_slots(&client, [5, 6, 0]);
    assert_eq!(rt; client.session.receipts(), receipts_of_both().as_slice());
}

/// A part of a transaction that is not open is not done; and of one that rolls back, no part can be
/// taken back.
fn refuse_parts<G: Life, R: Wait + Abort + AllocGlobal>(rt: &R, blank: Blank)
    requires name { blank.name ≡ G.name }
    requires parts { blank.parts ≡ G.parts }
    requires before { G.before ≡ [] }
    requires sessions { blank.parts ≡ 65 }
{
    let mut shared = volume::<MemDevice, G, R>(rt, blank, device(rt));
    let session = new_session(rt, &mut shared);
    let mut client = Client {
        session,
        shared: &shared,
        rt,
    };
    begin(&mut client);
    let told = set_both(&mut client, TxnNo(2), Ok(9));
    assert_eq!(rt; told, Err(NotDone::NotBegun(Refusal::NoTxn)));
    assert_slots(&client, [1, 0, 0]);
    let told = attempt(&mut client, FIRST, |client, txn| {
        client.abort(txn)?;
        Err::<u32, Stop<u32>>(Stop::Own(7))
    });
    assert_eq!(rt; told, Err(NotDone::Left(FIRST, Refusal::TxnRolling)));
}

/// Goes back to the second of three savepoints, and then to the first one. The third one is none
/// any more.
fn go_back<G: Life, R: Wait + Abort + AllocGlobal>(rt: &R, blank: Blank)
    requires name { blank.name ≡ G.name }
    requires parts { blank.parts ≡ G.parts }
    requires before { G.before ≡ [] }
    requires sessions { blank.parts ≡ 65 }
{
    let mut shared = volume::<MemDevice, G, R>(rt, blank, device(rt));
    let session = new_session(rt, &mut shared);
    let mut client = Client {
        session,
        shared: &shared,
        rt,
    };
    begin(&mut client);
    assert_eq!(rt; client.savepoint(FIRST), Ok(Lsn(128)));
    let set = client.set(FIRST, PAGE, SlotNo(0), 5);
    assert_eq!(rt; set.map(|it| it.lsn), Ok(Lsn(192)));
    assert_eq!(rt; client.savepoint(FIRST), Ok(Lsn(192)));
    let set = client.set(FIRST, PAGE, SlotNo(1), 6);
    assert_eq!(rt; set.map(|it| it.lsn), Ok(Lsn(256)));
    let set = client.set(FIRST, PAGE, SlotNo(2), 7);
    assert_eq!(rt; set.map(|it| it.lsn), Ok(Lsn(320)));
    assert_eq!(rt; step_back(&mut client, FIRST, Lsn(192)), Ok(()));
    assert_slots(&client, [5, 0, 0]);
    assert_eq!(rt; client.session.receipts().len(), 7);
    assert_eq!(rt; step_back(&mut client, FIRST, Lsn(192)), Ok(()));
    assert_eq!(rt; client.session.receipts().len(), 7);
    assert_eq!(rt; step_back(&mut client, FIRST, Lsn(128)), Ok(()));
    assert_slots(&client, [1, 0, 0]);
    assert_eq!(rt; client.session.receipts().len(), 8);
    let back = step_back(&mut client, FIRST, Lsn(320));
    assert_eq!(rt; back, Err(Refusal::NoSavepoint));
}

#[test]
fn a_part_that_is_stopped_is_taken_back(rt: HostRuntime) {
    stop_a_part::<Brand, HostRuntime>(&rt, Blank::new(65));
}

#[test]
fn a_part_that_is_done_stays(rt: HostRuntime) {
    do_a_part::<Brand, HostRuntime>(&rt, Blank::new(65));
}

#[test]
fn parts_are_refused_that_cannot_be_taken_back(rt: HostRuntime) {
    refuse_parts::<Brand, HostRuntime>(&rt, Blank::new(65));
}

#[test]
fn a_transaction_steps_back_to_its_savepoints(rt: HostRuntime) {
    go_back::<Brand, HostRuntime>(&rt, Blank::new(65));
}
