//! A program on a shared engine: its tasks, each in a thread of its own.

ghost use Rattle.std.specs.Prelude.{◌≡◌, ◌≤◌, [], IfErr, IfOk, IfSome, IsSome};
ghost use Rattle.page_core.specs.Volume.{formatted_pages};
ghost use Rattle.buffer_pool.specs.Pool.{IsFrameCount};
ghost use Rattle.log_records.specs.Log.{IsPageCount};
ghost use Rattle.engine_run.specs.Beginning.{IsBeginning};
ghost use Rattle.engine_run.specs.declared.beginning.Beginning.{Beginning};
ghost use Rattle.engine_run.specs.Left.{IsLeftBy};
ghost use Rattle.engine_run.specs.Life.{BeginsBy};
ghost use Rattle.imgcopy_engine.specs.Run.{IsOfEngine, IsUnsettledAt, TaskWork, WasRefused};
ghost use Rattle.imgcopy_engine.specs.Run.{WasSettled, WasTried};
ghost use Rattle.imgcopy_engine.specs.declared.run.RunFault.TheVariants.{NoEngine};

use crate::client::Client;
use crate::run_end::{Room, RunEnd, RunRefused, receipts_of};
use crate::seats::{give_back, seats_of, sessions_of, work_all, works_of};
use aries_core::{Engine, PlayFault, Setup};
use engine_run::{Life, MAX_SESSIONS, SettleFault, Shared, Work, settle_whole};
use log_store::LogDevice;
use page_core::FaultName;
use page_store::PageStore;
use std::alloc::Global;
use std::error::Error;
use std::fmt;
use std::marker::Brand;
use std::sync::Wait;
use std::sync::ledger::Blank;
use std::thread::Threads;

/// What one thread of a program does with a shared engine. It is written once for all stores,
/// devices and ledgers: `run_new` and `run_on` pick the ledger, and start the threads.
pub trait Task<R: Wait> {
    /// What the work makes of a task: it was the first, and is the second; its session was answered
    /// these receipts, and its checkpoints and copies these works.
    ghost worked: { TaskWork Self };

    /// Does it, as the user of a session that made no call yet. What its checkpoints and copies are
    /// answered goes into `works`, which has none yet.
    fn work<S: PageStore, D: LogDevice, G: Life>(
        &mut self,
        client: &mut Client<'_, S, D, G, R>,
        works: &mut Vec<Work>,
    )
        requires session { client.old.session ≡ [] }
        requires works { works.old.items ≡ [] }
        ensures { worked self.old self.new client.new.session works.new.items };
}

/// Why a run has no settled end.
#[derive(Clone, Copy, Debug, PartialEq, Eq)]
pub enum RunFault {
    /// No engine was made, as `Shared::new` says. No task has worked.
    NoEngine(PlayFault),
    /// There are more tasks than an engine can have sessions. No task has worked.
    TooManyTasks,
    /// Memory was refused before a task has worked.
    OutOfMemory,
    /// The tasks have worked, and what they were answered is not settled, or memory was refused.
    Unsettled(SettleFault),
}

impl fmt::Display for RunFault {
    ghost use Rattle.imgcopy_engine.specs.Run.{text_of};

    ghost output = { λ fault. text_of fault };

    fn fmt<W: fmt::Write>(&self, f: &mut fmt::Formatter<W>) -> fmt::Result {
        match self {
            RunFault::NoEngine(why) => write!(f, "no engine: {why}"),
            RunFault::TooManyTasks => write!(f, "more tasks than an engine has sessions"),
            RunFault::OutOfMemory => write!(f, "{}", FaultName::OutOfMemory),
            RunFault::Unsettled(why) => write!(f, "not settled: {why}"),
        }
    }
}

impl Error for RunFault {}

/// Makes a shared engine over a formatted volume, as `Shared::new` does, has each task work in a
/// thread of its own, with a session of its own, and settles the run with what all of them were
/// answered. Where no thread can be made, the tasks work one after another. Either way the tasks
/// are in the list again in the end, in their order, and what each of them was answered is handed
/// out. Where it is refused the engine is gone: its log and its volume are what the devices have,
/// and, where its answers were compared, what `RunRefused` has.
pub fn run_new<S, D, R, T>(
    rt: &R,
    alloc: Global,
    setup: Setup,
    store: S,
    device: D,
    tasks: &mut Vec<T>,
) -> Result<RunEnd<S, D>, RunRefused<S, D>>
where
    S: PageStore + Send + Drop,
    D: LogDevice + Send + Drop,
    R: Threads + Wait + Sync,
    T: Task<R> + Send + Drop,
    requires pages { IsPageCount setup.pages }
    requires frames { IsFrameCount setup.frames }
    requires formatted { S.stored store ≡ formatted_pages setup.pages }
    ensures settled { IfOk result (λ end.
        WasSettled T.worked (record { records = 0; last_copy = 0 }) tasks.old.items
        tasks.new.items end.receipts.items end.works.items end.retired) }
    ensures devices { IfOk result (λ end.
        IsLeftBy S.PageStore D.LogDevice [] end.retired end.store end.device) }
    ensures tried { IfErr result (λ back.
        WasTried T.worked back.fault tasks.old.items tasks.new.items) }
    ensures compared { IfErr result (λ back. IfSome back.end (λ end.
        WasRefused T.worked (λ began. began ≡ record { records = 0; last_copy = 0 }) back.fault
        tasks.old.items tasks.new.items end.receipts.items end.works.items end.retired)) }
    ensures told { IfErr result (λ back. IsUnsettledAt back.fault → IsSome back.end) }
    ensures past_bound { IfErr result (λ back. back.fault ≡ NoEngine PlayFault.LogFault
        → D.fails_from device ≤ 64) }
{
    new_with::<S, D, Brand, R, T>(rt, alloc, Blank::new(65), setup, store, device, tasks)
}

fn new_with<S, D, G, R, T>(
    rt: &R,
    alloc: Global,
    blank: Blank,
    setup: Setup,
    store: S,
    device: D,
    tasks: &mut Vec<T>,
) -> Result<RunEnd<S, D>, RunRefused<S, D>>
where
    S: PageStore + Send + Drop,
    D: LogDevice + Send + Drop,
    G: Life + Send + Sync,
    R: Threads + Wait + Sync,
    T: Task<R> + Send + Drop,
    requires name { blank.name ≡ G.name }
    requires parts { blank.parts ≡ G.parts }
    requires before { G.before ≡ [] }
    requires sessions { blank.parts ≡ 65 }
    requires pages { IsPageCount setup.pages }
    requires frames { IsFrameCount setup.frames }
    requires formatted { S.stored store ≡ formatted_pages setup.pages }
    ensures settled { IfOk result (λ end.
        WasSettled T.worked (record { records = 0; last_copy = 0 }) tasks.old.items
        tasks.new.items end.receipts.items end.works.items end.retired) }
    ensures devices { IfOk result (λ end.
        IsLeftBy S.PageStore D.LogDevice [] end.retired end.store end.device) }
    ensures tried { IfErr result (λ back.
        WasTried T.worked back.fault tasks.old.items tasks.new.items) }
    ensures compared { IfErr result (λ back. IfSome back.end (λ end.
        WasRefused T.worked (λ began. began ≡ record { records = 0; last_copy = 0 }) back.fault
        tasks.old.items tasks.new.items end.receipts.items end.works.items end.retired)) }
    ensures told { IfErr result (λ back. IsUnsettledAt back.fault → IsSome back.end) }
    ensures past_bound { IfErr result (λ back. back.fault ≡ NoEngine PlayFault.LogFault
        → D.fails_from device ≤ 64) }
{
    match Shared::<S, D, G>::new(alloc, blank, setup, store, device) {
        Ok(shared) => run_tasks(rt, alloc, shared, tasks),
        Err(fault) => Err(RunRefused::of(RunFault::NoEngine(fault))),
    }
}

/// The same on an engine that goes on from an older one, as `Shared::resume` takes it. Its log begins
/// with the older one's.
pub fn run_on<S, D, R, T>(
    rt: &R,
    alloc: Global,
    engine: Engine<S, D>,
    tasks: &mut Vec<T>,
) -> Result<RunEnd<S, D>, RunRefused<S, D>>
where
    S: PageStore + Send + Drop,
    D: LogDevice + Send + Drop,
    R: Threads + Wait + Sync,
    T: Task<R> + Send + Drop,
    ensures settled { IfOk result (λ end. (began : Beginning) × IsBeginning engine.state began
        × WasSettled T.worked began tasks.old.items tasks.new.items end.receipts.items
        end.works.items end.retired) }
    ensures begins { IfOk result (λ end.
        BeginsBy engine.state.log end.retired.log.records) }
    ensures devices { IfOk result (λ end. IsLeftBy S.PageStore D.LogDevice engine.state.log
        end.retired end.store end.device) }
    ensures tried { IfErr result (λ back. WasTried T.worked back.fault tasks.old.items
        tasks.new.items) }
    ensures compared { IfErr result (λ back. IfSome back.end (λ end.
        WasRefused T.worked (IsBeginning engine.state) back.fault
        tasks.old.items tasks.new.items end.receipts.items end.works.items end.retired)) }
    ensures told { IfErr result (λ back. IsUnsettledAt back.fault → IsSome back.end) }
    ensures engine { IfErr result (λ back. IsOfEngine back.fault) }
{
    on_with::<S, D, Brand, R, T>(rt, alloc, Blank::new(65), engine, tasks)
}

fn on_with<S, D, G, R, T>(
    rt: &R,
    alloc: Global,
    blank: Blank,
    engine: Engine<S, D>,
    tasks: &mut Vec<T>,
) -> Result<RunEnd<S, D>, RunRefused<S, D>>
where
    S: PageStore + Send + Drop,
    D: LogDevice + Send + Drop,
    G: Life + Send + Sync,
    R: Threads + Wait + Sync,
    T: Task<R> + Send + Drop,
    requires name { blank.name ≡ G.name }
    requires parts { blank.parts ≡ G.parts }
    requires before { G.before ≡ engine.state.log }
    requires sessions { blank.parts ≡ 65 }
    ensures settled { IfOk result (λ end. (began : Beginning) × IsBeginning engine.state began
        × WasSettled T.worked began tasks.old.items tasks.new.items end.receipts.items
        end.works.items end.retired) }
    ensures begins { IfOk result (λ end.
        BeginsBy engine.state.log end.retired.log.records) }
    ensures devices { IfOk result (λ end. IsLeftBy S.PageStore D.LogDevice engine.state.log
        end.retired end.store end.device) }
    ensures tried { IfErr result (λ back. WasTried T.worked back.fault tasks.old.items
        tasks.new.items) }
    ensures compared { IfErr result (λ back. IfSome back.end (λ end.
        WasRefused T.worked (IsBeginning engine.state) back.fault
        tasks.old.items tasks.new.items end.receipts.items end.works.items end.retired)) }
    ensures told { IfErr result (λ back. IsUnsettledAt back.fault → IsSome back.end) }
    ensures engine { IfErr result (λ back. IsOfEngine back.fault) }
{
    match Shared::<S, D, G>::resume(alloc, blank, engine) {
        Ok(shared) => run_tasks(rt, alloc, shared, tasks),
        Err(_engine) => Err(RunRefused::of(RunFault::OutOfMemory)),
    }
}

/// Has all tasks work on an engine without a session, and settles.
fn run_tasks<S, D, G, R, T>(
    rt: &R,
    alloc: Global,
    mut shared: Shared<S, D, G>,
    tasks: &mut Vec<T>,
) -> Result<RunEnd<S, D>, RunRefused<S, D>>
where
    S: PageStore + Send + Drop,
    D: LogDevice + Send + Drop,
    G: Life + Send + Sync,
    R: Threads + Wait + Sync,
    T: Task<R> + Send + Drop,
    requires none { shared.sessions ≡ 0 }
    ensures settled { IfOk result (λ end. WasSettled T.worked shared.began tasks.old.items
        tasks.new.items end.receipts.items end.works.items end.retired) }
    ensures begins { IfOk result (λ end. BeginsBy G.before end.retired.log.records) }
    ensures devices { IfOk result (λ end. IsLeftBy S.PageStore D.LogDevice G.before
        end.retired end.store end.device) }
    ensures tried { IfErr result (λ back. WasTried T.worked back.fault tasks.old.items
        tasks.new.items) }
    ensures compared { IfErr result (λ back. IfSome back.end (λ end.
        WasRefused T.worked (λ began. began ≡ shared.began) back.fault
        tasks.old.items tasks.new.items end.receipts.items end.works.items end.retired)) }
    ensures told { IfErr result (λ back. IsUnsettledAt back.fault → IsSome back.end) }
    ensures engine { IfErr result (λ back. IsOfEngine back.fault) }
{
    if tasks.len() > MAX_SESSIONS as usize {
        return Err(RunRefused::of(RunFault::TooManyTasks));
    }
    let Ok(room) = Room::<G>::new(alloc, tasks.len()) else {
        return Err(RunRefused::of(RunFault::OutOfMemory));
    };
    let Ok(sessions) = sessions_of(alloc, &mut shared, tasks.len()) else {
        return Err(RunRefused::of(RunFault::OutOfMemory));
    };
    let Ok(mut seats) = seats_of(rt, alloc, &shared, sessions, tasks) else {
        return Err(RunRefused::of(RunFault::OutOfMemory));
    };
    work_all(rt, &mut seats);
    let all = works_of(alloc, &seats);
    let Room {
        mut sessions,
        receipts,
        mut works,
    } = room;
    give_back(seats, &mut sessions, &mut works, tasks);
    let Ok(all) = all else {
        return Err(RunRefused {
            fault: RunFault::Unsettled(SettleFault::OutOfMemory),
            end: None,
        });
    };
    match settle_whole(alloc, sessions, &all, shared) {
        Ok(left) => Ok(RunEnd {
            retired: left.retired,
            receipts: receipts_of(left.sessions, receipts),
            works,
            store: left.store,
            device: left.device,
        }),
        Err(back) => {
            let (retired, store, device) = back.shared.into_parts();
            Err(RunRefused {
                fault: RunFault::Unsettled(back.fault),
                end: Some(RunEnd {
                    retired,
                    receipts: receipts_of(back.sessions, receipts),
                    works,
                    store,
                    device,
                }),
            })
        }
    }
}
