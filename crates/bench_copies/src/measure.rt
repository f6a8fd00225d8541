//! The run that is measured.

ghost use Rattle.std.specs.Prelude.{[], ◌≡◌, ◌≤◌, length};

use crate::case::Case;
use crate::user::{User, Volume};
use imgcopy_engine::{CopyKind, Life, LogDevice, MAX_SESSIONS, MemStore, OpenGate, PageNo, Setup};
use std::alloc::Global;
use std::rt::Clock;
use std::sync::Wait;
use std::sync::atomic::{AtomicU64, Ordering};
use std::sync::ledger::Blank;
use std::thread;
use std::thread::{Threads, join};
use std::time::{Duration, Instant};

/// How long the copy took, and how many calls the sessions made meanwhile.
#[derive(Clone, Copy)]
pub struct Measured {
    pub nanoseconds: u128,
    pub calls: u64,
}

fn volume<D: LogDevice + Drop, G: Life>(
    alloc: Global,
    blank: Blank,
    pages: u32,
    device: D,
) -> Option<Volume<D, G>>
    requires name { blank.name ≡ G.name }
    requires parts { blank.parts ≡ G.parts }
    requires before { G.before ≡ [] }
    requires sessions { blank.parts ≡ 65 }
    requires some { 1 ≤ pages }
    requires few { pages ≤ 65536 }
{
    let setup = Setup {
        pages,
        frames: pages,
    };
    let store = MemStore::new(alloc, pages).ok()?;
    Volume::<D, G>::new(alloc, blank, setup, store, device).ok()
}

fn users_of<D: LogDevice, G: Life>(
    alloc: Global,
    shared: &mut Volume<D, G>,
    case: &Case,
) -> Option<Vec<User<G>>> {
    let mut users = Vec::with_capacity(alloc, case.sessions as usize).ok()?;
    for number in 0..case.sessions {
        if shared.sessions() >= MAX_SESSIONS {
            return None;
        }
        let user = User {
            session: shared.session(alloc),
            page: PageNo(number.min(case.pages.saturating_sub(1))),
            shape: case.shape,
            calls: 0,
            ended: Ok(()),
        };
        users.push(user).ok()?;
    }
    Some(users)
}

/// Makes the copy, or waits where there is none, and gives the time in nanoseconds.
fn copy<D, G, R>(rt: &R, alloc: Global, shared: &Volume<D, G>, case: &Case) -> Option<u128>
where
    D: LogDevice + Send,
    G: Life + Send + Sync,
    R: Threads + Wait + Clock + Sync,
    requires { case.now.workers ≤ 64 }
{
    let begin = Instant::now(rt).ok()?;
    if case.workers == 0 {
        thread::sleep(rt, Duration::from_millis(case.alone));
    } else {
        let copied = shared.copy_with(rt, alloc, CopyKind::Full, case.workers, &OpenGate);
        copied.ok()?;
    }
    Some(begin.elapsed(rt).ok()?.as_nanos())
}

/// Has the copy be made, and the users make transactions meanwhile. None where the copy is refused.
fn beside<D, G, R>(
    rt: &R,
    alloc: Global,
    shared: &Volume<D, G>,
    users: &mut [User<G>],
    case: &Case,
) -> Option<u128>
where
    D: LogDevice + Send,
    G: Life + Send + Sync,
    R: Threads + Wait + Clock + Sync,
    requires workers { case.now.workers ≤ 64 }
    requires users { 1 ≤ length users.old }
{
    let stop = AtomicU64::new(0);
    let threads = users.len();
    let (nanoseconds, _) = join(
        rt,
        || -> Option<u128>
            requires { case.now.workers ≤ 64 }
        {
            let nanoseconds = copy(rt, alloc, shared, case);
            stop.store(1, Ordering::SeqCst);
            nanoseconds
        },
        ||
            requires { 1 ≤ threads }
        {
            thread::for_each_mut(
                rt,
                users,
                threads,
                &|_, user: &mut User<G>| user.work(rt, shared, &stop),
            )
        },
    );
    nanoseconds
}

/// How many calls all users were answered; None where one was refused a call.
fn calls_of<G: Life>(users: &[User<G>]) -> Option<u64> {
    let mut calls = 0u64;
    for user in users {
        user.ended.ok()?;
        calls = calls.wrapping_add(user.calls);
    }
    Some(calls)
}

/// The case on a volume that nobody uses yet.
fn measured_on<D, G, R>(
    rt: &R,
    alloc: Global,
    shared: &mut Volume<D, G>,
    case: &Case,
) -> Option<Measured>
where
    D: LogDevice + Send,
    G: Life + Send + Sync,
    R: Threads + Wait + Clock + Sync,
    requires { case.now.workers ≤ 64 }
{
    shared.checkpoint(rt, &OpenGate).ok()?;
    let mut users = users_of(alloc, shared, case)?;
    if users.is_empty() {
        return None;
    }
    let nanoseconds = beside(rt, alloc, shared, &mut users, case)?;
    let calls = calls_of(&users)?;
    Some(Measured { nanoseconds, calls })
}

/// A copy of a volume in memory beside the sessions, with the log on this device; None where a call
/// is refused.
pub fn measure<D, G, R>(
    rt: &R,
    alloc: Global,
    blank: Blank,
    device: D,
    case: &Case,
) -> Option<Measured>
where
    D: LogDevice + Send + Drop,
    G: Life + Send + Sync,
    R: Threads + Wait + Clock + Sync,
    requires name { blank.name ≡ G.name }
    requires parts { blank.parts ≡ G.parts }
    requires before { G.before ≡ [] }
    requires sessions { blank.parts ≡ 65 }
    requires some { 1 ≤ case.now.pages }
    requires few { case.now.pages ≤ 65536 }
    requires workers { case.now.workers ≤ 64 }
{
    let mut shared = volume::<D, G>(alloc, blank, case.pages, device)?;
    measured_on(rt, alloc, &mut shared, case)
}
