//! Runs of tasks: each has a session of its own, and all that they are told is settled.

ghost use Rattle.std.specs.Prelude.{◌≡◌, List};
ghost use Rattle.imgcopy_engine.specs.settlement.declared.receipt.Receipt.{Receipt};
ghost use Rattle.imgcopy_engine.specs.engine_run.declared.work.Work.{Work};

use crate::volume::device;
use imgcopy_engine::{
    Calls, Client, CopyId, CopyKind, Life, LogDevice, MemStore, OpenGate, PageNo, PageStore,
    Receipt, RunFault, Setup, SlotNo, Stop, Task, Work, run_new, transact,
};
use std::process::Abort;
use std::sync::Wait;

/// What a task of these tests does.
#[derive(Clone, Copy, Debug, PartialEq, Eq)]
enum Duty {
    /// Adds 1 to a slot of its own.
    Add,
    /// Reads a slot.
    Read,
    /// Takes a checkpoint, and makes a copy.
    Copy,
}

/// A task with its number, which counts how often it has worked.
#[derive(Drop)]
struct Worker {
    number: u16,
    duty: Duty,
    worked: u32,
}

impl Worker {
    fn new(number: u16, duty: Duty) -> Worker {
        Worker {
            number,
            duty,
            worked: 0,
        }
    }

    /// Adds 1 to the slot of its number.
    fn add<C: Calls>(&self, client: &mut C) -> bool {
        let slot = SlotNo(self.number);
        let told = transact(client, 5, |client, txn| {
            client.add(txn, PageNo(0), slot, 1)?;
            Ok::<(), Stop<()>>(())
        });
        told.is_ok()
    }

    /// Takes a checkpoint and makes a copy.
    fn copy<S: PageStore, D: LogDevice, G: Life, R: Wait>(
        client: &Client<'_, S, D, G, R>,
        works: &mut Vec<Work>,
    ) -> Option<()> {
        let (rt, shared) = (client.rt, client.shared);
        works.push(shared.checkpoint(rt, &OpenGate).ok()?).ok()?;
        let copy = shared.copy_alone(rt, CopyKind::Full, &OpenGate).ok()?;
        works.push(copy).ok()
    }
}

impl<R: Wait + Abort> Task<R> for Worker {
    // A task of these tests keeps its number.
    ghost worked = { λ old new receipts works. new.number ≡ old.number };

    fn work<S: PageStore, D: LogDevice, G: Life>(
        &mut self,
        client: &mut Client<'_, S, D, G, R>,
        works: &mut Vec<Work>,
    ) {
        let is_done = match self.duty {
            Duty::Add => self.add(client),
            Duty::Read => client.read(PageNo(0), SlotNo(0)).is_ok(),
            Duty::Copy => Worker::copy(client, works).is_some(),
        };
        assert!(client.rt; is_done);
        self.worked = self.worked.wrapping_add(1);
    }
}

/// A setup of four pages.
const SETUP: Setup = Setup {
    pages: 4,
    frames: 4,
};

/// So many tasks, in order of their numbers: the first one makes a copy, the second one reads, and
/// the others add.
fn workers(rt: &(impl Abort + AllocGlobal), count: u16) -> Vec<Worker> {
    let mut workers = Vec::new(rt.alloc());
    for number in 0..count {
        let duty = match number {
            0 => Duty::Copy,
            1 => Duty::Read,
            _ => Duty::Add,
        };
        workers
            .push(Worker::new(number, duty))
            .expect(rt, "memory for a list");
    }
    workers
}

/// Asserts that each task is at its place, and has worked so often.
fn assert_workers(rt: &impl Abort, workers: &[Worker], count: u16, worked: u32) {
    assert_eq!(rt; workers.len(), count as usize);
    let mut number = 0u16;
    for worker in workers {
        assert_eq!(rt; worker.number, number);
        assert_eq!(rt; worker.worked, worked);
        number = number.wrapping_add(1);
    }
}

/// Each of 62 tasks works once, and comes back at its place. The log has a transaction of each one
/// that adds, the records of a checkpoint, and nothing else.
#[test]
fn tasks_come_back_in_their_order(rt: HostRuntime) {
    let store = MemStore::new(rt.alloc(), 4).expect(&rt, "a store");
    let mut tasks = workers(&rt, 62);
    let end = run_new(&rt, rt.alloc(), SETUP, store, device(&rt), &mut tasks);
    let end = end.ok().expect(&rt, "the run is settled");
    assert_workers(&rt, &tasks, 62, 1);
    assert!(&rt; end.retired.log().records().len() >= 60 * 3 + 2);
    assert!(&rt; end.retired.vault().complete(CopyId(1)).is_some());
    assert_eq!(&rt; end.receipts.len(), 62);
    let works = end.works.get(0).expect(&rt, "the works of the first task");
    assert!(&rt; matches!(works.as_slice(), [Work::Pointed(_), Work::Copied { .. }]));
    let receipts = end
        .receipts
        .get(1)
        .expect(&rt, "the receipts of the second task");
    assert!(&rt; matches!(receipts.as_slice(), [Receipt::Read(_)]));
}

/// More tasks than an engine has sessions: none of them works, and all come back.
#[test]
fn too_many_tasks_come_back(rt: HostRuntime) {
    let store = MemStore::new(rt.alloc(), 4).expect(&rt, "a store");
    let mut tasks = workers(&rt, 65);
    let Err(back) = run_new(&rt, rt.alloc(), SETUP, store, device(&rt), &mut tasks) else {
        panic!(&rt; "so many tasks have worked");
    };
    assert!(&rt; back.fault == RunFault::TooManyTasks);
    assert!(&rt; back.end.is_none());
    assert_workers(&rt, &tasks, 65, 0);
}
