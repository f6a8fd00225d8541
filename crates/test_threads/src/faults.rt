//! Copies by many workers, and repairs, over a store whose calls fail.

ghost use Rattle.std.specs.Prelude.{[], ◌≡◌, ◌≤◌};
ghost use Rattle.page_core.specs.Volume.{formatted_pages};

use crate::volume::{assert_copy, copied, first_point, full_copy, new_session, only, settled};
use aries_core::{Refusal, Setup};
use copy_vault::{CopyId, CopyKind};
use engine_run::{Life, OpenGate, Session, Shared};
use log_store::MemDevice;
use page_core::{Lsn, PageNo, SlotNo, TxnNo};
use page_store::{FaultyStore, MemStore};
use std::marker::Brand;
use std::process::Abort;
use std::sync::Wait;
use std::sync::ledger::Blank;
use std::thread::Threads;

type Volume<G> = Shared<FaultyStore, MemDevice, G>;

/// A store of so many pages whose call of this number fails; 0 is none.
fn store(rt: &(impl Abort + AllocGlobal), pages: u32, call: u64) -> FaultyStore
    requires { (1 ≤ pages) × (pages ≤ 65536) }
    ensures { result.pages ≡ formatted_pages pages }
{
    let store = MemStore::new(rt.alloc(), pages).expect(rt, "a store");
    FaultyStore::new(rt.alloc(), store, call).expect(rt, "a store that fails")
}

/// An engine over this store, with a checkpoint.
fn engine_over<G: Life, R: Wait + Abort + AllocGlobal>(
    rt: &R,
    blank: Blank,
    pages: u32,
    store: FaultyStore,
) -> Volume<G>
    requires name { blank.name ≡ G.name }
    requires parts { blank.parts ≡ G.parts }
    requires before { G.before ≡ [] }
    requires sessions { blank.parts ≡ 65 }
    requires pages { (1 ≤ pages) × (pages ≤ 65536) }
    requires formatted { store.pages ≡ formatted_pages pages }
{
    let setup = Setup {
        pages,
        frames: pages,
    };
    let device = MemDevice::new(rt.alloc(), 64).expect(rt, "a device");
    let shared = Volume::<G>::new(rt.alloc(), blank, setup, store, device).expect(rt, "an engine");
    assert_eq!(rt; shared.checkpoint(rt, &OpenGate), Ok(first_point(pages)));
    shared
}

/// One read of a copy fails: the copy is dropped, so that none can stand on it, and the next one is
/// complete.
fn copy_again<G: Life + Send + Sync, R: Threads + Wait + Abort + AllocGlobal + Sync>(
    rt: &R,
    blank: Blank,
    call: u64,
)
    requires name { blank.name ≡ G.name }
    requires parts { blank.parts ≡ G.parts }
    requires before { G.before ≡ [] }
    requires sessions { blank.parts ≡ 65 }
{
    let shared = engine_over::<G, R>(rt, blank, 8, store(rt, 8, call));
    assert_copy(rt, &shared, CopyKind::Full, 3, Err(Refusal::StoreFault));
    assert_copy(
        rt,
        &shared,
        CopyKind::Inc(CopyId(1)),
        3,
        Err(Refusal::NoCopy),
    );
    assert_copy(rt, &shared, CopyKind::Full, 3, Ok(full_copy(2)));
    let _ = settled(
        rt,
        Vec::new(rt.alloc()),
        &[first_point(8), full_copy(2)],
        shared,
    );
}

/// A transaction sets a slot of page 0, and the page is stored.
fn change_and_store<G: Life>(
    rt: &(impl Wait + Abort),
    shared: &Volume<G>,
    session: &mut Session<G>,
) {
    session.begin(rt, shared).expect(rt, "begin");
    let changed = session.set(rt, shared, TxnNo(1), PageNo(0), SlotNo(0), 5);
    assert_eq!(rt; changed.map(|it| it.lsn), Ok(Lsn(256)));
    assert_eq!(rt; shared.flush_pass(rt, &OpenGate), Ok(()));
}

/// A stored page can no more be read: a copy is refused, until the page is repaired from an earlier
/// copy and the log.
fn repair_page<G: Life + Send + Sync, R: Threads + Wait + Abort + AllocGlobal + Sync>(
    rt: &R,
    blank: Blank,
)
    requires name { blank.name ≡ G.name }
    requires parts { blank.parts ≡ G.parts }
    requires before { G.before ≡ [] }
    requires sessions { blank.parts ≡ 65 }
{
    let mut store = store(rt, 2, 0);
    // Copy 1 reads two pages, the change reads page 0, and the flush pass writes it.
    store.damage_from(PageNo(0), 4);
    let mut shared = engine_over::<G, R>(rt, blank, 2, store);
    let mut session = new_session(rt, &mut shared);
    assert_copy(rt, &shared, CopyKind::Full, 1, Ok(copied(1, 2)));
    change_and_store(rt, &shared, &mut session);
    assert_copy(rt, &shared, CopyKind::Full, 1, Err(Refusal::StoreFault));
    assert_eq!(rt; shared.repair(rt, CopyId(1), PageNo(0)), Ok(Lsn(256)));
    assert_copy(rt, &shared, CopyKind::Full, 1, Ok(copied(3, 2)));
    let works = [first_point(2), copied(1, 2), copied(3, 2)];
    let _ = settled(rt, only(rt, session), &works, shared);
}

#[test]
fn a_page_that_cannot_be_read_is_repaired(rt: HostRuntime) {
    repair_page::<Brand, HostRuntime>(&rt, Blank::new(65));
}

#[test]
fn a_copy_is_dropped_where_a_read_fails(rt: HostRuntime) {
    for call in 1..=8 {
        copy_again::<Brand, HostRuntime>(&rt, Blank::new(65), call);
    }
}
