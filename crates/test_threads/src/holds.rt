//! Holds of a checkpoint and of a flush pass that wait at a gate while others make calls.

ghost use Rattle.std.specs.Prelude.{[], ◌≡◌};

use crate::gates::{ClosedGate, CountingGate};
use crate::volume::{
    Volume, checkpoint, copied, first_point, new_session, only, pointed, settled, volume,
};
use aries_core::Refusal;
use copy_vault::{CopyId, CopyKind};
use engine_run::{Life, OpenGate, Session, Work};
use page_core::{Lsn, PageNo, SlotNo, TxnNo};
use std::marker::Brand;
use std::process::Abort;
use std::sync::Wait;
use std::sync::ledger::Blank;
use std::thread::{Threads, join};

const PAGE: PageNo = PageNo(0);

/// A volume of one page, and a session with a transaction.
fn volume_of_one<G: Life, R: Wait + Abort + AllocGlobal>(
    rt: &R,
    blank: Blank,
) -> (Volume<G>, Session<G>)
    requires name { blank.name ≡ G.name }
    requires parts { blank.parts ≡ G.parts }
    requires before { G.before ≡ [] }
    requires sessions { blank.parts ≡ 65 }
{
    let mut shared = volume::<G, R>(rt, blank, 1);
    let mut session = new_session(rt, &mut shared);
    let begun = session.begin(rt, &shared);
    assert_eq!(rt; begun.map(|it| (it.txn, it.lsn)), Ok((TxnNo(1), Lsn(64))));
    (shared, session)
}

/// What a checkpoint of this volume answers.
fn point_of_one(begin: u64, end: u64, redo: u64) -> Work {
    pointed(begin, end, redo, 1)
}

/// Settles a run of one session.
fn settle_one<G: Life>(
    rt: &(impl Abort + AllocGlobal),
    session: Session<G>,
    works: &[Work],
    shared: Volume<G>,
) {
    let _ = settled(rt, only(rt, session), works, shared);
}

/// Sets the first slot of the page.
fn set<G: Life>(
    rt: &impl Wait,
    shared: &Volume<G>,
    session: &mut Session<G>,
    number: u64,
) -> Result<Lsn, Refusal> {
    let changed = session.set(rt, shared, TxnNo(1), PAGE, SlotNo(0), number)?;
    Ok(changed.lsn)
}

/// Sets the first slot of the page while a hold waits at the gate.
fn set_at_gate<G: Life>(
    rt: &(impl Wait + Abort),
    shared: &Volume<G>,
    session: &mut Session<G>,
    gate: &ClosedGate,
    number: u64,
) -> Result<Lsn, Refusal> {
    gate.wait_for_hold(rt);
    let lsn = set(rt, shared, session, number);
    gate.open();
    lsn
}

/// A change behind the cursor of a checkpoint: its third hold waits until page 0 was changed.
fn change_behind_the_cursor<G: Life + Send + Sync, R: Threads + Wait + Abort + AllocGlobal + Sync>(
    rt: &R,
    blank: Blank,
)
    requires name { blank.name ≡ G.name }
    requires parts { blank.parts ≡ G.parts }
    requires before { G.before ≡ [] }
    requires sessions { blank.parts ≡ 65 }
{
    let (shared, mut session) = volume_of_one::<G, R>(rt, blank);
    let gate = ClosedGate::new(3);
    let (work, lsn) = join(
        rt,
        || shared.checkpoint(rt, &gate),
        || set_at_gate(rt, &shared, &mut session, &gate, 5),
    );
    gate.assert_opened(rt);
    assert_eq!(rt; lsn, Ok(Lsn(192)));
    assert_eq!(rt; work, Ok(point_of_one(128, 320, 128)));
    settle_one(rt, session, &[point_of_one(128, 320, 128)], shared);
}

/// A change while its page is written: the second hold of a flush pass waits until page 0 was
/// changed again, and a checkpoint finds it dirty from that change on.
fn change_during_a_write<G: Life + Send + Sync, R: Threads + Wait + Abort + AllocGlobal + Sync>(
    rt: &R,
    blank: Blank,
)
    requires name { blank.name ≡ G.name }
    requires parts { blank.parts ≡ G.parts }
    requires before { G.before ≡ [] }
    requires sessions { blank.parts ≡ 65 }
{
    let (shared, mut session) = volume_of_one::<G, R>(rt, blank);
    assert_eq!(rt; set(rt, &shared, &mut session, 5), Ok(Lsn(128)));
    let gate = ClosedGate::new(2);
    let (pass, lsn) = join(
        rt,
        || shared.flush_pass(rt, &gate),
        || set_at_gate(rt, &shared, &mut session, &gate, 6),
    );
    gate.assert_opened(rt);
    assert_eq!(rt; lsn, Ok(Lsn(192)));
    assert_eq!(rt; pass, Ok(()));
    let work = shared.checkpoint(rt, &OpenGate);
    assert_eq!(rt; work, Ok(point_of_one(256, 448, 192)));
    settle_one(rt, session, &[point_of_one(256, 448, 192)], shared);
}

/// What a repair of the page answers while a hold waits at the gate.
fn repair_at_gate<G: Life>(
    rt: &(impl Wait + Abort),
    shared: &Volume<G>,
    gate: &ClosedGate,
) -> Result<Lsn, Refusal> {
    gate.wait_for_hold(rt);
    let repaired = shared.repair(rt, CopyId(1), PAGE);
    gate.open();
    repaired
}

/// A repair of a page while it is written: at the second hold of a flush pass the write has begun,
/// and has not ended.
fn repair_during_a_write<G: Life + Send + Sync, R: Threads + Wait + Abort + AllocGlobal + Sync>(
    rt: &R,
    blank: Blank,
)
    requires name { blank.name ≡ G.name }
    requires parts { blank.parts ≡ G.parts }
    requires before { G.before ≡ [] }
    requires sessions { blank.parts ≡ 65 }
{
    let alloc = rt.alloc();
    let (shared, mut session) = volume_of_one::<G, R>(rt, blank);
    let point = point_of_one(128, 256, 128);
    assert_eq!(rt;
        shared.checkpoint(rt, &OpenGate),
        Ok(point_of_one(128, 256, 128))
    );
    let copy = shared.copy_with(rt, alloc, CopyKind::Full, 1, &OpenGate);
    assert_eq!(rt; copy, Ok(copied(1, 1)));
    assert_eq!(rt; set(rt, &shared, &mut session, 5), Ok(Lsn(320)));
    let gate = ClosedGate::new(2);
    let (pass, repaired) = join(
        rt,
        || shared.flush_pass(rt, &gate),
        || repair_at_gate(rt, &shared, &gate),
    );
    gate.assert_opened(rt);
    assert_eq!(rt; repaired, Err(Refusal::WriteBegun));
    assert_eq!(rt; pass, Ok(()));
    assert_eq!(rt; shared.repair(rt, CopyId(1), PAGE), Ok(Lsn(320)));
    settle_one(rt, session, &[point, copied(1, 1)], shared);
}

/// What a flush pass answers while a hold of another one waits at the gate.
fn flush_at_gate<G: Life>(
    rt: &(impl Wait + Abort),
    shared: &Volume<G>,
    gate: &ClosedGate,
) -> Result<(), Refusal> {
    gate.wait_for_hold(rt);
    let pass = shared.flush_pass(rt, &OpenGate);
    gate.open();
    pass
}

/// The volume grows by a page while a hold waits at the gate, and that page is changed.
fn grow_at_gate<G: Life>(
    rt: &(impl Wait + Abort),
    shared: &Volume<G>,
    session: &mut Session<G>,
    gate: &ClosedGate,
) {
    gate.wait_for_hold(rt);
    let (grown, page) = (shared.extend(rt, 2), PageNo(1));
    let changed = session.set(rt, shared, TxnNo(1), page, SlotNo(0), 5);
    gate.open();
    assert_eq!(rt; grown, Ok(Lsn(128)));
    assert_eq!(rt; changed.map(|it| it.lsn), Ok(Lsn(192)));
}

/// A page that is added during a flush pass has its turn in it: a checkpoint finds none dirty.
fn flush_an_added_page<G: Life + Send + Sync, R: Threads + Wait + Abort + AllocGlobal + Sync>(
    rt: &R,
    blank: Blank,
)
    requires name { blank.name ≡ G.name }
    requires parts { blank.parts ≡ G.parts }
    requires before { G.before ≡ [] }
    requires sessions { blank.parts ≡ 65 }
{
    let (shared, mut session) = volume_of_one::<G, R>(rt, blank);
    let gate = ClosedGate::new(1);
    let (pass, _) = join(
        rt,
        || shared.flush_pass(rt, &gate),
        || grow_at_gate(rt, &shared, &mut session, &gate),
    );
    gate.assert_opened(rt);
    assert_eq!(rt; pass, Ok(()));
    let work = shared.checkpoint(rt, &OpenGate);
    assert_eq!(rt; work, Ok(pointed(256, 384, 256, 2)));
    settle_one(rt, session, &[pointed(256, 384, 256, 2)], shared);
}

/// Two flush passes of one page: the second one ends the write that the first one has begun, and
/// the first one finds no write. Neither is refused, and the page is clean then.
fn flush_by_two<G: Life + Send + Sync, R: Threads + Wait + Abort + AllocGlobal + Sync>(
    rt: &R,
    blank: Blank,
)
    requires name { blank.name ≡ G.name }
    requires parts { blank.parts ≡ G.parts }
    requires before { G.before ≡ [] }
    requires sessions { blank.parts ≡ 65 }
{
    let (shared, mut session) = volume_of_one::<G, R>(rt, blank);
    assert_eq!(rt; set(rt, &shared, &mut session, 5), Ok(Lsn(128)));
    let gate = ClosedGate::new(2);
    let (first, second) = join(
        rt,
        || shared.flush_pass(rt, &gate),
        || flush_at_gate(rt, &shared, &gate),
    );
    gate.assert_opened(rt);
    assert_eq!(rt; second, Ok(()));
    assert_eq!(rt; first, Ok(()));
    let work = shared.checkpoint(rt, &OpenGate);
    assert_eq!(rt; work, Ok(point_of_one(192, 320, 192)));
    settle_one(rt, session, &[point_of_one(192, 320, 192)], shared);
}

/// What a checkpoint answers while a hold of another one waits at the gate.
fn checkpoint_at_gate<G: Life>(
    rt: &(impl Wait + Abort),
    shared: &Volume<G>,
    gate: &ClosedGate,
) -> Result<Work, Refusal> {
    gate.wait_for_hold(rt);
    let work = shared.checkpoint(rt, &OpenGate);
    gate.open();
    work
}

/// Two checkpointers: the second one goes on with the checkpoint that the first one has begun, and
/// the first one finds none open.
fn checkpoint_by_two<G: Life + Send + Sync, R: Threads + Wait + Abort + AllocGlobal + Sync>(
    rt: &R,
    blank: Blank,
)
    requires name { blank.name ≡ G.name }
    requires parts { blank.parts ≡ G.parts }
    requires before { G.before ≡ [] }
    requires sessions { blank.parts ≡ 65 }
{
    let (shared, session) = volume_of_one::<G, R>(rt, blank);
    let gate = ClosedGate::new(2);
    let (first, second) = join(
        rt,
        || shared.checkpoint(rt, &gate),
        || checkpoint_at_gate(rt, &shared, &gate),
    );
    gate.assert_opened(rt);
    assert_eq!(rt; second, Ok(point_of_one(128, 256, 128)));
    assert_eq!(rt; first, Err(Refusal::NoCkpt));
    settle_one(rt, session, &[point_of_one(128, 256, 128)], shared);
}

/// A gate is told the page of each hold of a flush pass, and page 0 at each of a checkpoint.
fn tell_gates<G: Life, R: Wait + Abort + AllocGlobal>(rt: &R, blank: Blank)
    requires name { blank.name ≡ G.name }
    requires parts { blank.parts ≡ G.parts }
    requires before { G.before ≡ [] }
    requires sessions { blank.parts ≡ 65 }
{
    let mut shared = volume::<G, R>(rt, blank, 4);
    let mut session = new_session(rt, &mut shared);
    checkpoint(rt, &shared, 4);
    session.begin(rt, &shared).expect(rt, "begin");
    session
        .set(rt, &shared, TxnNo(1), PageNo(2), SlotNo(0), 5)
        .expect(rt, "set");
    let flushing = CountingGate::new(rt, 1, 4);
    assert_eq!(rt; shared.flush_pass(rt, &flushing), Ok(()));
    flushing.assert_pages(rt, &[1, 1, 2, 1]);
    flushing.assert_workers(rt, &[5]);
    let checking = CountingGate::new(rt, 1, 4);
    // It begins, finds no dirty page, records a transaction, finds no other one, and ends.
    let work = shared.checkpoint(rt, &checking);
    assert_eq!(rt; work, Ok(pointed(320, 448, 320, 4)));
    checking.assert_pages(rt, &[5, 0, 0, 0]);
    checking.assert_workers(rt, &[5]);
    let works = [first_point(4), pointed(320, 448, 320, 4)];
    settle_one(rt, session, &works, shared);
}

#[test]
fn gate_rows(rt: HostRuntime) {
    change_behind_the_cursor::<Brand, HostRuntime>(&rt, Blank::new(65));
    change_during_a_write::<Brand, HostRuntime>(&rt, Blank::new(65));
    repair_during_a_write::<Brand, HostRuntime>(&rt, Blank::new(65));
}

#[test]
fn a_page_that_is_added_has_its_turn(rt: HostRuntime) {
    flush_an_added_page::<Brand, HostRuntime>(&rt, Blank::new(65));
}

#[test]
fn two_flushers_share_a_write(rt: HostRuntime) {
    flush_by_two::<Brand, HostRuntime>(&rt, Blank::new(65));
}

#[test]
fn two_checkpointers_share_a_checkpoint(rt: HostRuntime) {
    checkpoint_by_two::<Brand, HostRuntime>(&rt, Blank::new(65));
}

#[test]
fn gates_are_told_the_page_of_a_hold(rt: HostRuntime) {
    tell_gates::<Brand, HostRuntime>(&rt, Blank::new(65));
}
