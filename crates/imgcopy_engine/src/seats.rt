//! The tasks of a run, each with its session and its works.

ghost use Rattle.std.specs.Prelude.{◌≡◌, ◌+◌, ◌<◌, ◌≤◌, [], map, vec_capacity, vec_len};
ghost use Rattle.std.specs.Prelude.{IfOk, OnErr, OnOk};
ghost use Rattle.std.specs.List.{All};
ghost use Rattle.imgcopy_engine.specs.Run.{HaveWorked, all_works, lists_of};

use crate::client::Client;
use crate::run::Task;
use engine_run::{Life, Session, Shared, Work};
use log_store::LogDevice;
use page_store::PageStore;
use std::alloc::{AllocError, Global};
use std::sync::Wait;
use std::thread::Threads;
use std::{mem, thread};

/// A task, the session that it uses with its engine, and what its checkpoints and copies were
/// answered.
#[derive(Drop)]
pub(crate) struct Seat<'a, T, S: PageStore, D: LogDevice, G: Life, R: Wait> {
    task: T,
    client: Client<'a, S, D, G, R>,
    works: Vec<Work>,
}

/// So many sessions of a shared engine.
pub(crate) fn sessions_of<S: PageStore, D: LogDevice, G: Life>(
    alloc: Global,
    shared: &mut Shared<S, D, G>,
    count: usize,
) -> Result<Vec<Session<G>>, AllocError>
    requires few { shared.old.sessions + count ≤ 64 }
    ensures count { IfOk result (λ it. vec_len it ≡ count) }
    ensures empty { IfOk result (λ it. All (λ session. session ≡ []) it.items) }
    ensures made { OnOk result (shared.new.sessions ≡ shared.old.sessions + count) }
    ensures began { shared.new.began ≡ shared.old.began }
{
    let mut sessions = Vec::new(alloc);
    for _ in 0..count {
        sessions.push(shared.session(alloc))?;
    }
    Ok(sessions)
}

/// A seat for each task, with a session that made no call yet. The tasks are taken out of their
/// list, which has room to have them back.
pub(crate) fn seats_of<'a, T: Drop, S: PageStore, D: LogDevice, G: Life, R: Wait>(
    rt: &'a R,
    alloc: Global,
    shared: &'a Shared<S, D, G>,
    mut sessions: Vec<Session<G>>,
    tasks: &mut Vec<T>,
) -> Result<Vec<Seat<'a, T, S, D, G, R>>, AllocError>
    requires enough { vec_len sessions ≡ vec_len tasks.old }
    requires empty { All (λ session. session ≡ []) sessions.items }
    ensures tasks { IfOk result (λ it. map (λ seat. seat.task) it.items ≡ tasks.old.items) }
    ensures sessions { IfOk result (λ it. All (λ seat. seat.client.session ≡ []) it.items) }
    ensures works { IfOk result (λ it. All (λ seat. seat.works.items ≡ []) it.items) }
    ensures count { IfOk result (λ it. vec_len it ≡ vec_len tasks.old) }
    ensures taken { OnOk result (tasks.new.items ≡ []) }
    ensures room { OnOk result (vec_len tasks.old ≤ vec_capacity tasks.new) }
    ensures same { OnErr result (tasks.new.items ≡ tasks.old.items) }
{
    let room = Vec::with_capacity(alloc, tasks.len())?;
    let mut seats = Vec::with_capacity(alloc, tasks.len())?;
    let given = mem::replace(tasks, room);
    for task in given {
        let client = Client {
            session: next_session(&mut sessions),
            shared,
            rt,
        };
        let works = Vec::new(alloc);
        seats.push_reserved(Seat {
            task,
            client,
            works,
        });
    }
    Ok(seats)
}

/// Takes a session out of a list of such as made no call yet.
fn next_session<G: Life>(sessions: &mut Vec<Session<G>>) -> Session<G>
    requires some { 0 < vec_len sessions.old }
    requires empty { All (λ session. session ≡ []) sessions.old.items }
    ensures session { result ≡ [] }
    ensures empty { All (λ session. session ≡ []) sessions.new.items }
    ensures one_less { vec_len sessions.new + 1 ≡ vec_len sessions.old }
{
    let Some(session) = sessions.pop() else {
        unreachable!();
    };
    session
}

/// Has each task work at its seat, in a thread of its own.
pub(crate) fn work_all<T, S, D, G, R>(rt: &R, seats: &mut [Seat<'_, T, S, D, G, R>])
where
    T: Task<R> + Send,
    S: PageStore + Send,
    D: LogDevice + Send,
    G: Life + Send + Sync,
    R: Threads + Wait + Sync,
    requires sessions { All (λ seat. seat.client.session ≡ []) seats.old }
    requires works { All (λ seat. seat.works.items ≡ []) seats.old }
    ensures { HaveWorked T.worked (map (λ seat. seat.task) seats.old)
        (map (λ seat. seat.task) seats.new) (map (λ seat. seat.client.session) seats.new)
        (map (λ seat. seat.works.items) seats.new) }
{
    let count = seats.len();
    if count == 0 {
        return;
    }
    thread::for_each_mut(
        rt,
        seats,
        count,
        &|_, seat: &mut Seat<'_, T, S, D, G, R>|
            requires { (seat.now.client.session ≡ []) × (seat.now.works.items ≡ []) }
            ensures { T.worked seat.entry.now.task seat.exit.now.task seat.exit.now.client.session
                seat.exit.now.works.items }
        {
            let Seat {
                task,
                client,
                works,
            } = seat;
            task.work(client, works);
        },
    );
}

/// What all tasks' checkpoints and copies were answered.
pub(crate) fn works_of<T, S: PageStore, D: LogDevice, G: Life, R: Wait>(
    alloc: Global,
    seats: &[Seat<'_, T, S, D, G, R>],
) -> Result<Vec<Work>, AllocError>
    ensures { IfOk result (λ it.
        it.items ≡ all_works (map (λ seat. seat.works.items) seats.now)) }
{
    let mut works = Vec::new(alloc);
    for seat in seats {
        works.extend_from_slice(&seat.works)?;
    }
    Ok(works)
}

/// Gives the tasks back, their sessions, and what the checkpoints and copies of each were answered,
/// all in the order of the tasks.
pub(crate) fn give_back<T: Drop, S: PageStore, D: LogDevice, G: Life, R: Wait>(
    seats: Vec<Seat<'_, T, S, D, G, R>>,
    sessions: &mut Vec<Session<G>>,
    works: &mut Vec<Vec<Work>>,
    tasks: &mut Vec<T>,
)
    requires tasks { (tasks.old.items ≡ []) × (vec_len seats ≤ vec_capacity tasks.old) }
    requires sessions { (sessions.old.items ≡ []) × (vec_len seats ≤ vec_capacity sessions.old) }
    requires works { (works.old.items ≡ []) × (vec_len seats ≤ vec_capacity works.old) }
    ensures tasks { tasks.new.items ≡ map (λ seat. seat.task) seats.entry.items }
    ensures sessions { sessions.new.items ≡ map (λ seat. seat.client.session) seats.entry.items }
    ensures works { lists_of works.new.items ≡ map (λ seat. seat.works.items) seats.entry.items }
{
    for seat in seats {
        let Seat {
            task,
            client,
            works: own,
        } = seat;
        let Client {
            session,
            shared: _,
            rt: _,
        } = client;
        tasks.push_reserved(task);
        sessions.push_reserved(session);
        works.push_reserved(own);
    }
}
