//! A shared engine that goes on from an older one.

ghost use Rattle.std.specs.Prelude.{◌≡◌};

use crate::settling::assert_refused;
use crate::volume::{Volume, add_one, assert_copy, full_copy, new_session, only, settled};
use aries_core::{Engine, Gathered, Setup};
use copy_vault::CopyKind;
use engine_run::{Life, Session};
use log_store::MemDevice;
use page_core::{Lsn, PageNo, SlotNo};
use page_store::MemStore;
use std::marker::Brand;
use std::process::Abort;
use std::sync::Wait;
use std::sync::ledger::Blank;
use std::thread::Threads;

/// An engine for one thread, in which a transaction has added 5 to a slot.
fn older_engine(rt: &(impl Abort + AllocGlobal)) -> Engine<MemStore, MemDevice> {
    let alloc = rt.alloc();
    let setup = Setup {
        pages: 8,
        frames: 8,
    };
    let store = MemStore::new(alloc, 8).expect(rt, "a store");
    let device = MemDevice::new(alloc, 4096).expect(rt, "a device");
    let Ok(mut engine) = Engine::new(alloc, setup, store, device) else {
        panic!(rt; "an engine");
    };
    let (txn, _) = engine.begin().expect(rt, "begin");
    let added = engine.add(txn, PageNo(0), SlotNo(0), 5);
    assert_eq!(rt; added, Ok(Lsn(128)));
    assert_eq!(rt; engine.commit(txn), Ok(Lsn(192)));
    engine
}

/// A session finds the older number, and adds to it. Its changes are those that the log has got
/// since, and so the run is settled.
fn go_on<G: Life, R: Wait + Abort + AllocGlobal>(
    rt: &R,
    blank: Blank,
    engine: Engine<MemStore, MemDevice>,
)
    requires name { blank.name ≡ G.name }
    requires parts { blank.parts ≡ G.parts }
    requires before { G.before ≡ engine.state.log }
    requires sessions { blank.parts ≡ 65 }
{
    let Ok(mut shared) = Volume::<G>::resume(rt.alloc(), blank, engine) else {
        panic!(rt; "memory for the sessions");
    };
    let session = go_on_in(rt, &mut shared);
    let left = settled(rt, only(rt, session), &[], shared);
    assert_eq!(rt; left.log().records().len(), 6);
}

/// A session goes on so with an engine that is lent.
fn go_on_in<G: Life>(rt: &(impl Wait + Abort + AllocGlobal), shared: &mut Volume<G>) -> Session<G> {
    assert_eq!(rt; shared.began().records, 3);
    assert_eq!(rt; shared.began().last_copy, 0);
    let mut session = new_session(rt, shared);
    let read = session.read(rt, shared, PageNo(0), SlotNo(0));
    assert_eq!(rt; read.map(|it| it.number), Ok(5));
    add_one(rt, shared, &mut session, PageNo(0));
    let read = session.read(rt, shared, PageNo(0), SlotNo(0));
    assert_eq!(rt; read.map(|it| it.number), Ok(6));
    session
}

/// The older engine with a complete copy.
fn copied_engine(rt: &(impl Abort + AllocGlobal)) -> Engine<MemStore, MemDevice> {
    let mut engine = older_engine(rt);
    assert!(rt; engine.ckpt_begin().is_ok());
    for _ in 0..8 {
        if engine.ckpt_gather() == Ok(Gathered::Done) {
            break;
        }
    }
    assert!(rt; engine.ckpt_end().is_ok());
    let copy = engine.copy_full().expect(rt, "a copy begins");
    for number in 0..8 {
        assert!(rt; engine.take(copy, PageNo(number)).is_ok());
    }
    assert_eq!(rt; engine.seal(copy), Ok(8));
    engine
}

/// The copy that was there before is not settled as one of the run, and a new one is.
fn copy_anew<G: Life + Send + Sync, R: Threads + Wait + Abort + AllocGlobal + Sync>(
    rt: &R,
    blank: Blank,
    engine: Engine<MemStore, MemDevice>,
)
    requires name { blank.name ≡ G.name }
    requires parts { blank.parts ≡ G.parts }
    requires before { G.before ≡ engine.state.log }
    requires sessions { blank.parts ≡ 65 }
{
    let Ok(shared) = Volume::<G>::resume(rt.alloc(), blank, engine) else {
        panic!(rt; "memory for the sessions");
    };
    assert_next_copy(rt, &shared);
    let run = (Vec::new(rt.alloc()), shared);
    let works = [full_copy(2), full_copy(1)];
    let (sessions, shared) = assert_refused(rt, run, &works, "E28 Unsettled 0");
    let _ = settled(rt, sessions, &[full_copy(2)], shared);
}

/// Copy 1 is there, and a new one is copy 2.
fn assert_next_copy<G: Life + Send + Sync, R: Threads + Wait + Abort + AllocGlobal + Sync>(
    rt: &R,
    shared: &Volume<G>,
) {
    assert_eq!(rt; shared.began().last_copy, 1);
    assert_copy(rt, shared, CopyKind::Full, 1, Ok(full_copy(2)));
}

#[test]
fn a_shared_engine_goes_on_from_an_older_one(rt: HostRuntime) {
    go_on::<Brand, HostRuntime>(&rt, Blank::new(65), older_engine(&rt));
}

#[test]
fn a_copy_from_before_a_run_is_not_settled(rt: HostRuntime) {
    copy_anew::<Brand, HostRuntime>(&rt, Blank::new(65), copied_engine(&rt));
}
