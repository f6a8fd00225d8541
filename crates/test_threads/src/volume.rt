//! What the tests share: a shared engine over a small volume. Each of these stops its test itself
//! where memory is refused, so that the tests are cheap to prove.

ghost use Rattle.std.specs.Prelude.{[], ◌≡◌, ◌≤◌};

use aries_core::{Refusal, Setup};
use copy_coverage::Retired;
use copy_vault::{CopyId, CopyKind};
use engine_run::{Life, MAX_SESSIONS, OpenGate, Session, Shared, Work, settle};
use fuzzy_ckpt::Point;
use log_store::MemDevice;
use page_core::{Lsn, PageNo, SlotNo};
use page_store::{MemStore, PageStore};
use std::process::Abort;
use std::sync::Wait;
use std::sync::ledger::Blank;
use std::thread::Threads;

pub(crate) type Volume<G> = Shared<MemStore, MemDevice, G>;

/// An engine over so many formatted pages, in memory.
pub(crate) fn volume<G: Life, R: Abort + AllocGlobal>(rt: &R, blank: Blank, pages: u32) -> Volume<G>
    requires name { blank.name ≡ G.name }
    requires parts { blank.parts ≡ G.parts }
    requires before { G.before ≡ [] }
    requires sessions { blank.parts ≡ 65 }
    requires pages { (1 ≤ pages) × (pages ≤ 65536) }
{
    let alloc = rt.alloc();
    let setup = Setup {
        pages,
        frames: pages,
    };
    let store = MemStore::new(alloc, pages).expect(rt, "a store");
    let device = MemDevice::new(alloc, 4096).expect(rt, "a device");
    Volume::<G>::new(alloc, blank, setup, store, device).expect(rt, "an engine")
}

/// A session of an engine that is not shared yet.
pub(crate) fn new_session<S: PageStore, G: Life>(
    rt: &(impl Abort + AllocGlobal),
    shared: &mut Shared<S, MemDevice, G>,
) -> Session<G> {
    assert!(rt; shared.sessions() < MAX_SESSIONS);
    shared.session(rt.alloc())
}

/// A list of this session alone.
pub(crate) fn only<G: Life>(
    rt: &(impl Abort + AllocGlobal),
    session: Session<G>,
) -> Vec<Session<G>> {
    vec![in rt.alloc(); session].expect(rt, "memory for a list")
}

/// Makes a copy by so many workers, and asserts what is answered.
pub(crate) fn assert_copy<
    S: PageStore + Send,
    G: Life + Send + Sync,
    R: Threads + Wait + Abort + AllocGlobal + Sync,
>(
    rt: &R,
    shared: &Shared<S, MemDevice, G>,
    kind: CopyKind,
    workers: u32,
    wanted: Result<Work, Refusal>,
)
    requires { (1 ≤ workers) × (workers ≤ 64) }
{
    let copied = shared.copy_with(rt, rt.alloc(), kind, workers, &OpenGate);
    assert_eq!(rt; copied, wanted);
}

/// What the engine of a run leaves, which is settled.
pub(crate) fn settled<S: PageStore + Drop, G: Life>(
    rt: &(impl Abort + AllocGlobal),
    sessions: Vec<Session<G>>,
    works: &[Work],
    shared: Shared<S, MemDevice, G>,
) -> Retired {
    match settle(rt.alloc(), sessions, works, shared) {
        Ok(left) => left,
        Err(_) => panic!(rt; "the run is not settled"),
    }
}

/// Adds 1 to a slot, and commits.
pub(crate) fn add_one<G: Life>(
    rt: &(impl Wait + Abort),
    shared: &Volume<G>,
    session: &mut Session<G>,
    page: PageNo,
) {
    let txn = session.begin(rt, shared).expect(rt, "begin").txn;
    session
        .add(rt, shared, txn, page, SlotNo(0), 1)
        .expect(rt, "add");
    session.commit(rt, shared, txn).expect(rt, "commit");
}

/// Takes the first checkpoint of an engine without records, over so many pages.
pub(crate) fn checkpoint<G: Life>(rt: &(impl Wait + Abort), shared: &Volume<G>, pages: u32) {
    let work = shared.checkpoint(rt, &OpenGate);
    assert_eq!(rt; work, Ok(first_point(pages)));
}

/// What that checkpoint answers.
pub(crate) fn first_point(pages: u32) -> Work {
    pointed(64, 128, 64, pages)
}

pub(crate) fn pointed(begin: u64, end: u64, redo: u64, pages: u32) -> Work {
    Work::Pointed(Point {
        begin: Lsn(begin),
        end: Lsn(end),
        redo: Lsn(redo),
        pages,
    })
}

/// What a full copy of this id answers, which took all of eight pages.
pub(crate) fn full_copy(id: u32) -> Work {
    copied(id, 8)
}

/// What a full copy of this id answers, which took so many pages.
pub(crate) fn copied(id: u32, taken: u32) -> Work {
    Work::Copied {
        id: CopyId(id),
        kind: CopyKind::Full,
        taken,
    }
}
