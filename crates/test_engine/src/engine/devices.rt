//! What a log's device holds after one of its calls fails.

use super::{called_on, device_of, failing_device, played_on, setup_of, store_of};
use crate::asserts::{same, same_at};
use crate::calls::{Calls, assert_replies, calls_of};
use aries_core::{Engine, Event, PlayFault, play};
use log_store::{FaultyDevice, read_log};
use page_core::Lsn;
use page_store::MemStore;
use std::process::Abort;

/// Calls, and which one of the device fails at the event with the index `place`: one from `first`
/// on, and before `end`. The first call stores the header, and each further one a record, so the
/// record that this one was to store is the first that is not forced.
struct Failing {
    first: u64,
    end: u64,
    place: usize,
    parts: &'static [&'static str],
}

/// Asserts that the device has the forced records, and nothing more.
fn assert_forced(rt: &(impl Abort + AllocGlobal), engine: &Engine<MemStore, FaultyDevice>) {
    let mut bytes = engine.log().device().bytes();
    same(rt, &(bytes.len() as u64), &engine.log().forced_end().0);
    let read = read_log(rt.alloc(), &mut bytes).expect(rt, "a log");
    let forced = engine.log().records().get(..read.records().len());
    same(rt, &Some(read.records()), &forced);
}

/// Makes the calls one by one, and asserts their replies, and what is on the device all the while.
fn call_each(
    rt: &(impl Abort + AllocGlobal),
    engine: &mut Engine<MemStore, FaultyDevice>,
    calls: &Calls,
    k: u64,
    place: usize,
) {
    let mut replies = Vec::new(rt.alloc());
    for (index, event) in calls.events.iter().enumerate() {
        replies
            .push(engine.apply(*event))
            .expect(rt, "memory for replies");
        assert_forced(rt, engine);
        if index == place {
            same(rt, &(engine.log().forced_end().0 / 64 + 1), &k);
        }
    }
    assert_replies(rt, &replies, calls);
}

/// Tries calls both ways where the `k`-th call of the device fails.
fn assert_failing(rt: &(impl Abort + AllocGlobal), calls: &Calls, k: u64, place: usize) {
    let records = calls.events.len();
    let store = store_of(rt, 1);
    let device = failing_device(rt, records, k);
    let played = played_on(rt, 1, store, device, calls);
    assert_forced(rt, &played);
    drop(played);
    let store = store_of(rt, 1);
    let device = failing_device(rt, records, k);
    let mut engine = Engine::new(rt.alloc(), setup_of(1), store, device)
        .ok()
        .expect(rt, "an engine");
    call_each(rt, &mut engine, calls, k, place);
    drop(engine);
}

/// Tries each of these calls for each call of the device.
fn assert_each(rt: &(impl Abort + AllocGlobal), table: &[Failing]) {
    for failing in table {
        let calls = calls_of(rt, failing.parts);
        for k in failing.first..failing.end {
            assert_failing(rt, &calls, k, failing.place);
        }
    }
}

const UNTIL_A_COMMIT: &str = "
    begin -> began 1 at 64
    set 1 0 0 5 -> lsn 128
";

/// The transaction has committed, and another one is rolled back.
const AFTER_A_COMMIT: &str = "
    commit 1 -> E2 NoTxn
    read 0 0 -> value 5
    begin -> began 2 at 256
    add 2 0 0 3 -> lsn 320
    abort 2 -> lsn 384
    undo 2 -> undid 448
    undo 2 -> ended 512
";

static ONE_AFTER_ANOTHER: [Failing; 2] = [
    Failing {
        first: 2,
        end: 5,
        place: 2,
        parts: &[
            UNTIL_A_COMMIT,
            "commit 1 -> E26 CommitUnsure 192",
            AFTER_A_COMMIT,
            "force -> forced 576",
        ],
    },
    Failing {
        first: 5,
        end: 10,
        place: 10,
        parts: &[
            UNTIL_A_COMMIT,
            "commit 1 -> lsn 192",
            AFTER_A_COMMIT,
            "force -> E23 LogFault",
        ],
    },
];

#[test]
fn each_call_of_the_device_fails(rt: HostRuntime) {
    assert_each(&rt, &ONE_AFTER_ANOTHER);
}

/// Two transactions commit, of which one begins before the other and commits after it.
const TWO_BEGUN: &str = "
    begin -> began 1 at 64
    begin -> began 2 at 128
";

const TWO_ADDED: &str = "
    add 1 0 0 5 -> lsn 192
    add 2 0 0 3 -> lsn 256
";

const SET_BY_THE_FIRST: &str = "set 1 0 1 9 -> lsn 384";

const ALL_FORCED: &str = "force -> forced 512";

static ONE_BESIDE_ANOTHER: [Failing; 3] = [
    Failing {
        first: 2,
        end: 4,
        place: 2,
        parts: &[
            TWO_BEGUN,
            "force -> E23 LogFault",
            TWO_ADDED,
            "commit 2 -> lsn 320",
            SET_BY_THE_FIRST,
            "commit 1 -> lsn 448",
            ALL_FORCED,
        ],
    },
    Failing {
        first: 4,
        end: 7,
        place: 5,
        parts: &[
            TWO_BEGUN,
            "force -> forced 192",
            TWO_ADDED,
            "commit 2 -> E26 CommitUnsure 320",
            SET_BY_THE_FIRST,
            "commit 1 -> lsn 448",
            ALL_FORCED,
        ],
    },
    Failing {
        first: 7,
        end: 9,
        place: 7,
        parts: &[
            TWO_BEGUN,
            "force -> forced 192",
            TWO_ADDED,
            "commit 2 -> lsn 320",
            SET_BY_THE_FIRST,
            "commit 1 -> E26 CommitUnsure 448",
            ALL_FORCED,
        ],
    },
];

#[test]
fn each_call_fails_beside_another_transaction(rt: HostRuntime) {
    assert_each(&rt, &ONE_BESIDE_ANOTHER);
}

/// The end of a checkpoint is not forced.
const UNTIL_AN_END: &str = "
    begin -> began 1 at 64
    set 1 0 0 5 -> lsn 128
    ckpt -> lsn 192
    gather -> more
    gather -> more
    gather -> more
    gather -> done
    endckpt -> E23 LogFault
";

/// The checkpoint is closed then, and the next one gathers what it did.
const NEXT_CHECKPOINT: &str = "
    endckpt -> E14 NoCkpt
    gather -> E14 NoCkpt
    ckpt -> lsn 448
    gather -> more
    gather -> more
    gather -> more
    gather -> done
    endckpt -> point 448 640 128
";

/// The end of an engine's first checkpoint is not forced. Only the next one can be copied.
const FIRST_CHECKPOINT: &str = "
    ckpt -> lsn 64
    gather -> more
    gather -> done
    endckpt -> E23 LogFault
    full -> E16 NoMaster
    ckpt -> lsn 192
    gather -> more
    gather -> done
    endckpt -> point 192 256 192
    full -> copy 1
";

static CHECKPOINTS: [Failing; 2] = [
    Failing {
        first: 2,
        end: 8,
        place: 7,
        parts: &[UNTIL_AN_END, NEXT_CHECKPOINT],
    },
    Failing {
        first: 2,
        end: 4,
        place: 3,
        parts: &[FIRST_CHECKPOINT],
    },
];

/// Makes the calls up to the first end of a checkpoint on a device whose `k`-th call fails, and
/// asserts that no checkpoint is complete then.
fn assert_no_master(rt: &(impl Abort + AllocGlobal), k: u64) {
    let calls = calls_of(rt, &[UNTIL_AN_END]);
    let store = store_of(rt, 1);
    let engine = called_on(rt, 1, store, failing_device(rt, 16, k), &calls);
    same_at(rt, &engine.master(), &None, &k);
    drop(engine);
}

#[test]
fn each_call_at_the_end_of_a_checkpoint_fails(rt: HostRuntime) {
    assert_each(&rt, &CHECKPOINTS);
    for k in 2..8 {
        assert_no_master(&rt, k);
    }
}

/// The device has room for one record alone.
const ONE_RECORD: &str = "
    begin -> began 1 at 64
    force -> forced 128
    add 1 0 0 1 -> lsn 128
    force -> E23 LogFault
";

#[test]
fn the_log_is_not_forced(rt: HostRuntime) {
    let calls = calls_of(&rt, &[ONE_RECORD]);
    let store = store_of(&rt, 1);
    let device = device_of(&rt, 1);
    drop(called_on(&rt, 1, store, device, &calls));
}

#[test]
fn the_log_is_not_forced_in_a_list(rt: HostRuntime) {
    let calls = calls_of(&rt, &[ONE_RECORD]);
    let store = store_of(&rt, 1);
    let device = device_of(&rt, 1);
    drop(played_on(&rt, 1, store, device, &calls));
}

#[test]
fn the_header_is_not_stored(rt: HostRuntime) {
    let store = store_of(&rt, 1);
    let device = failing_device(&rt, 1, 1);
    let fault = Engine::new(rt.alloc(), setup_of(1), store, device).err();
    let left = fault.map(|(fault, device)| (fault, device.bytes().len()));
    same(&rt, &left, &Some((PlayFault::LogFault, 0)));
}

#[test]
fn the_header_is_not_stored_for_a_list(rt: HostRuntime) {
    let store = store_of(&rt, 1);
    let device = failing_device(&rt, 1, 1);
    let fault = play(rt.alloc(), setup_of(1), store, device, &[Event::Begin]).err();
    let left = fault.map(|(fault, device)| (fault, device.bytes().len()));
    same(&rt, &left, &Some((PlayFault::LogFault, 0)));
}
