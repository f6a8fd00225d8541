//! Takes of a copy by two workers that are at a gate at the same time.

ghost use Rattle.std.specs.Prelude.{[], ◌≡◌};

use crate::gates::{CountingGate, LOOKS};
use crate::volume::{
    Volume, checkpoint, copied, first_point, full_copy, new_session, only, pointed, settled, volume,
};
use copy_vault::CopyKind;
use engine_run::{HoldGate, Life, OpenGate, Session};
use page_core::{Lsn, PageNo};
use std::marker::Brand;
use std::process::Abort;
use std::sync::Wait;
use std::sync::atomic::{AtomicU64, Ordering};
use std::sync::ledger::Blank;
use std::thread;
use std::thread::{Threads, join};

/// A gate that holds the first take of a copy until a second one is at the gate, and a session was
/// answered.
#[derive(Drop)]
struct TakesAtOnce {
    came: AtomicU64,
    /// 1 once a session was answered.
    answered: AtomicU64,
    /// 1 where the first take waited in vain.
    late: AtomicU64,
    /// How often all threads together have looked whether they may go on.
    looks: AtomicU64,
    told: CountingGate,
}

impl TakesAtOnce {
    /// A gate for two workers and eight pages.
    fn new(rt: &(impl Abort + AllocGlobal)) -> TakesAtOnce {
        TakesAtOnce {
            came: AtomicU64::new(0),
            answered: AtomicU64::new(0),
            late: AtomicU64::new(0),
            looks: AtomicU64::new(0),
            told: CountingGate::new(rt, 2, 8),
        }
    }

    /// Waits until so many takes are at the gate and so many calls were answered, and says whether
    /// it came to that. All that wait here have `LOOKS` looks together.
    fn wait_for(&self, takes: u64, calls: u64) -> bool {
        for _ in 0..LOOKS {
            if self.looks.fetch_add(1, Ordering::SeqCst) >= LOOKS {
                return false;
            }
            let came = self.came.load(Ordering::SeqCst);
            if came >= takes && self.answered.load(Ordering::SeqCst) >= calls {
                return true;
            }
            thread::yield_now();
        }
        false
    }
}

impl HoldGate for TakesAtOnce {
    fn before(&self, worker: u32, page: PageNo) {
        self.told.before(worker, page);
        let came = self.came.fetch_add(1, Ordering::SeqCst);
        if came == 0 && !self.wait_for(2, 1) {
            self.late.store(1, Ordering::SeqCst);
        }
    }
}

/// A call of a session, while a take is held.
fn begin_at_gate<G: Life>(
    rt: &(impl Wait + Abort),
    shared: &Volume<G>,
    session: &mut Session<G>,
    gate: &TakesAtOnce,
) {
    assert!(rt; gate.wait_for(1, 0), "no take came to the gate");
    session.begin(rt, shared).expect(rt, "begin");
    gate.answered.store(1, Ordering::SeqCst);
}

/// Two workers of a copy are at work at the same time, and not under the lock. The gate is told the
/// number of each, and each page once.
fn copy_by_two<G: Life + Send + Sync, R: Threads + Wait + Abort + AllocGlobal + Sync>(
    rt: &R,
    blank: Blank,
)
    requires name { blank.name ≡ G.name }
    requires parts { blank.parts ≡ G.parts }
    requires before { G.before ≡ [] }
    requires sessions { blank.parts ≡ 65 }
{
    let alloc = rt.alloc();
    let mut shared = volume::<G, R>(rt, blank, 8);
    let mut session = new_session(rt, &mut shared);
    checkpoint(rt, &shared, 8);
    let gate = TakesAtOnce::new(rt);
    let (copied, _) = join(
        rt,
        || shared.copy_with(rt, alloc, CopyKind::Full, 2, &gate),
        || begin_at_gate(rt, &shared, &mut session, &gate),
    );
    assert_eq!(rt; copied, Ok(full_copy(1)));
    assert_eq!(rt; gate.late.load(Ordering::SeqCst), 0);
    gate.told.assert_pages(rt, &[1; 8]);
    gate.told.assert_each_worker(rt);
    let works = [first_point(8), full_copy(1)];
    let _ = settled(rt, only(rt, session), &works, shared);
}

/// The volume grows behind a checkpoint: a copy is of the pages that there were before, and the
/// workers of the next one, whose checkpoint came later, take all.
fn copy_a_grown_volume<G: Life + Send + Sync, R: Threads + Wait + Abort + AllocGlobal + Sync>(
    rt: &R,
    blank: Blank,
)
    requires name { blank.name ≡ G.name }
    requires parts { blank.parts ≡ G.parts }
    requires before { G.before ≡ [] }
    requires sessions { blank.parts ≡ 65 }
{
    let alloc = rt.alloc();
    let shared = volume::<G, R>(rt, blank, 8);
    checkpoint(rt, &shared, 8);
    assert_eq!(rt; shared.extend(rt, 12), Ok(Lsn(192)));
    let gate = CountingGate::new(rt, 2, 12);
    let first = shared.copy_with(rt, alloc, CopyKind::Full, 2, &gate);
    assert_eq!(rt; first, Ok(full_copy(1)));
    gate.assert_pages(rt, &[1, 1, 1, 1, 1, 1, 1, 1, 0, 0, 0, 0]);
    let point = shared.checkpoint(rt, &OpenGate);
    assert_eq!(rt; point, Ok(pointed(256, 320, 256, 12)));
    let second = shared.copy_with(rt, alloc, CopyKind::Full, 2, &gate);
    assert_eq!(rt; second, Ok(copied(2, 12)));
    gate.assert_pages(rt, &[2, 2, 2, 2, 2, 2, 2, 2, 1, 1, 1, 1]);
    let works = [
        first_point(8),
        full_copy(1),
        pointed(256, 320, 256, 12),
        copied(2, 12),
    ];
    let _ = settled(rt, Vec::new(alloc), &works, shared);
}

#[test]
fn a_copy_takes_no_page_that_was_added_behind_it(rt: HostRuntime) {
    copy_a_grown_volume::<Brand, HostRuntime>(&rt, Blank::new(65));
}

#[test]
fn gate_two_workers(rt: HostRuntime) {
    copy_by_two::<Brand, HostRuntime>(&rt, Blank::new(65));
}
