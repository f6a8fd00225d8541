//! Transactions whose work is a closure: how each of them ends, and what is told.

ghost use Rattle.std.specs.Prelude.{[], ◌≡◌};

use crate::volume::{PAGE, Volume, device, new_session, stepped, volume, was_set};
use imgcopy_engine::{
    Calls, Client, Committed, FaultyDevice, Life, LogDevice, Lsn, MemDevice, MemStore, NotDone,
    Refusal, Session, SlotNo, Stop, TxnNo, TxnStep, transact,
};
use std::marker::Brand;
use std::process::Abort;
use std::sync::Wait;
use std::sync::ledger::Blank;

type User<'a, D, G, R> = Client<'a, MemStore, D, G, R>;

/// What a transaction of these tests answers.
type Told = Result<Committed<u32>, NotDone<u32>>;

/// Holds slot 0 in transaction 1, with the records 64 and 128.
fn hold<G: Life, R: Wait + Abort>(rt: &R, shared: &Volume<MemDevice, G>, holder: &mut Session<G>) {
    let begun = holder.begin(rt, shared);
    assert_eq!(rt; begun.map(|it| (it.txn, it.lsn)), Ok((TxnNo(1), Lsn(64))));
    let set = holder.set(rt, shared, TxnNo(1), PAGE, SlotNo(0), 7);
    assert_eq!(rt; set.map(|it| it.lsn), Ok(Lsn(128)));
}

/// Sets slot 0 to 8, and answers at which try. The holder commits before the try of this number.
fn set_when_free<G: Life, R: Wait + Abort>(
    client: &mut User<'_, MemDevice, G, R>,
    holder: &mut Session<G>,
    free_at: u32,
    tries: u32,
) -> Told {
    let mut made = 0u32;
    transact(client, tries, |client, txn| {
        made = made.wrapping_add(1);
        if made == free_at {
            let done = holder.commit(client.rt, client.shared, TxnNo(1));
            assert!(client.rt; done.is_ok());
        }
        client.set(txn, PAGE, SlotNo(0), 8)?;
        Ok(made)
    })
}

/// The slot is free at the third try. The first two have ended by then, each with an End.
fn commit_at_the_last_try<G: Life, R: Wait + Abort + AllocGlobal>(rt: &R, blank: Blank)
    requires name { blank.name ≡ G.name }
    requires parts { blank.parts ≡ G.parts }
    requires before { G.before ≡ [] }
    requires sessions { blank.parts ≡ 65 }
{
    let mut shared = volume::<MemDevice, G, R>(rt, blank, device(rt));
    let mut holder = new_session(rt, &mut shared);
    let session = new_session(rt, &mut shared);
    hold(rt, &shared, &mut holder);
    let mut client = Client {
        session,
        shared: &shared,
        rt,
    };
    let told = set_when_free(&mut client, &mut holder, 3, 2);
    let wanted = Committed {
        value: 3,
        lsn: Lsn(768),
    };
    assert_eq!(rt; told, Ok(wanted));
    let receipts = [
        stepped(192, 2, TxnStep::Begin),
        stepped(256, 2, TxnStep::Abort),
        stepped(320, 2, TxnStep::End),
        stepped(384, 3, TxnStep::Begin),
        stepped(448, 3, TxnStep::Abort),
        stepped(512, 3, TxnStep::End),
        stepped(576, 4, TxnStep::Begin),
        was_set(704, 4, 0, 8),
        stepped(768, 4, TxnStep::Commit),
    ];
    assert_eq!(rt; client.session.receipts(), receipts.as_slice());
}

/// The slot is held for longer than it is tried. Each try has ended.
fn busy_to_the_last_try<G: Life, R: Wait + Abort + AllocGlobal>(rt: &R, blank: Blank)
    requires name { blank.name ≡ G.name }
    requires parts { blank.parts ≡ G.parts }
    requires before { G.before ≡ [] }
    requires sessions { blank.parts ≡ 65 }
{
    let mut shared = volume::<MemDevice, G, R>(rt, blank, device(rt));
    let mut holder = new_session(rt, &mut shared);
    let session = new_session(rt, &mut shared);
    hold(rt, &shared, &mut holder);
    let mut client = Client {
        session,
        shared: &shared,
        rt,
    };
    let told = set_when_free(&mut client, &mut holder, 9, 1);
    let busy = Stop::Refused(Refusal::SlotBusy(TxnNo(1)));
    assert_eq!(rt; told, Err(NotDone::Stopped(busy)));
    let receipts = [
        stepped(192, 2, TxnStep::Begin),
        stepped(256, 2, TxnStep::Abort),
        stepped(320, 2, TxnStep::End),
        stepped(384, 3, TxnStep::Begin),
        stepped(448, 3, TxnStep::Abort),
        stepped(512, 3, TxnStep::End),
    ];
    assert_eq!(rt; client.session.receipts(), receipts.as_slice());
}

/// Sets slots 0 and 1, and ends as it is told.
fn set_two<D: LogDevice, G: Life, R: Wait + Abort>(
    client: &mut User<'_, D, G, R>,
    ends: Result<u32, Stop<u32>>,
) -> Told {
    transact(client, 5, |client, txn| {
        client.set(txn, PAGE, SlotNo(0), 3)?;
        client.set(txn, PAGE, SlotNo(1), 4)?;
        ends
    })
}

/// The device fails at the Commit of the first transaction. Nobody knows whether it lasts, and that
/// is what is told; it is not tried again.
fn unsure<G: Life, R: Wait + Abort + AllocGlobal>(rt: &R, blank: Blank)
    requires name { blank.name ≡ G.name }
    requires parts { blank.parts ≡ G.parts }
    requires before { G.before ≡ [] }
    requires sessions { blank.parts ≡ 65 }
{
    // The header is stored first, and then a Begin, two Updates and the Commit.
    let failing = FaultyDevice::new(device(rt), 5);
    let mut shared = volume::<FaultyDevice, G, R>(rt, blank, failing);
    let session = new_session(rt, &mut shared);
    let mut client = Client {
        session,
        shared: &shared,
        rt,
    };
    let told = set_two(&mut client, Ok(1));
    assert_eq!(rt; told, Err(NotDone::Unsure(Lsn(256))));
    let receipts = [
        stepped(64, 1, TxnStep::Begin),
        was_set(128, 1, 0, 3),
        was_set(192, 1, 1, 4),
        stepped(256, 1, TxnStep::Unsure),
    ];
    assert_eq!(rt; client.session.receipts(), receipts.as_slice());
}

/// The work has a reason of its own to stop: both of its changes are taken back, and it has ended.
fn stopped<G: Life, R: Wait + Abort + AllocGlobal>(rt: &R, blank: Blank)
    requires name { blank.name ≡ G.name }
    requires parts { blank.parts ≡ G.parts }
    requires before { G.before ≡ [] }
    requires sessions { blank.parts ≡ 65 }
{
    let mut shared = volume::<MemDevice, G, R>(rt, blank, device(rt));
    let session = new_session(rt, &mut shared);
    let mut client = Client {
        session,
        shared: &shared,
        rt,
    };
    let told = set_two(&mut client, Err(Stop::Own(9)));
    assert_eq!(rt; told, Err(NotDone::Stopped(Stop::Own(9))));
    let receipts = [
        stepped(64, 1, TxnStep::Begin),
        was_set(128, 1, 0, 3),
        was_set(192, 1, 1, 4),
        stepped(256, 1, TxnStep::Abort),
        stepped(320, 1, TxnStep::Comp),
        stepped(384, 1, TxnStep::Comp),
        stepped(448, 1, TxnStep::End),
    ];
    assert_eq!(rt; client.session.receipts(), receipts.as_slice());
    assert_eq!(rt; client.peek(PAGE, SlotNo(0)), Ok(0));
    assert_eq!(rt; client.peek(PAGE, SlotNo(1)), Ok(0));
}

#[test]
fn a_transaction_commits_at_its_last_try(rt: HostRuntime) {
    commit_at_the_last_try::<Brand, HostRuntime>(&rt, Blank::new(65));
}

#[test]
fn a_transaction_that_is_busy_to_the_last_has_ended(rt: HostRuntime) {
    busy_to_the_last_try::<Brand, HostRuntime>(&rt, Blank::new(65));
}

#[test]
fn an_unsure_commit_is_told(rt: HostRuntime) {
    unsure::<Brand, HostRuntime>(&rt, Blank::new(65));
}

#[test]
fn a_transaction_that_is_stopped_is_taken_back(rt: HostRuntime) {
    stopped::<Brand, HostRuntime>(&rt, Blank::new(65));
}
