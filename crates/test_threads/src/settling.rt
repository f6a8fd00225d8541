//! The end of a run: what is refused, and what is given back then.

ghost use Rattle.std.specs.Prelude.{[], ◌≡◌};

use crate::volume::{
    Volume, add_one, assert_copy, checkpoint, first_point, full_copy, new_session, only, pointed,
    settled, volume,
};
use aries_core::Refusal;
use copy_vault::{CopyId, CopyKind};
use engine_run::{Life, OpenGate, Session, SettleFault, Unsettled, Work, settle};
use page_core::{Lsn, PageNo, SlotNo};
use std::marker::Brand;
use std::process::Abort;
use std::sync::Wait;
use std::sync::ledger::Blank;
use std::thread::Threads;

/// The sessions and the engine of a run.
pub(crate) type Run<G> = (Vec<Session<G>>, Volume<G>);

/// Settles a run that is not, and hands back what is given back.
pub(crate) fn assert_refused<G: Life>(
    rt: &(impl Wait + Abort + AllocGlobal),
    run: Run<G>,
    works: &[Work],
    line: &str,
) -> Run<G> {
    let (sessions, shared) = run;
    let (count, made) = (sessions.len(), shared.sessions());
    let Err(back) = settle(rt.alloc(), sessions, works, shared) else {
        panic!(rt; "the run is settled");
    };
    let Unsettled {
        sessions,
        shared,
        fault,
    } = back;
    assert_line(rt, fault, line);
    assert_eq!(rt; sessions.len(), count);
    let shared = shared.into_shared();
    assert_eq!(rt; shared.sessions(), made);
    (sessions, shared)
}

/// Asserts that a refusal has this line.
fn assert_line(rt: &(impl Abort + AllocGlobal), fault: SettleFault, line: &str) {
    let text = format!(in rt.alloc(); "{fault}").expect(rt, "memory for a line");
    assert_eq!(rt; text.as_str(), line);
}

/// An engine with a checkpoint, and two sessions that each made a change.
fn engine_for_two<G: Life, R: Wait + Abort + AllocGlobal>(
    rt: &R,
    blank: Blank,
) -> (Volume<G>, Session<G>, Session<G>)
    requires name { blank.name ≡ G.name }
    requires parts { blank.parts ≡ G.parts }
    requires before { G.before ≡ [] }
    requires sessions { blank.parts ≡ 65 }
{
    let mut shared = volume::<G, R>(rt, blank, 8);
    let mut first = new_session(rt, &mut shared);
    let mut second = new_session(rt, &mut shared);
    checkpoint(rt, &shared, 8);
    add_one(rt, &shared, &mut first, PageNo(0));
    add_one(rt, &shared, &mut second, PageNo(0));
    (shared, first, second)
}

/// One of two sessions is left out. The engine goes on, and the run is settled once none is.
fn leave_one_out<G: Life, R: Wait + Abort + AllocGlobal>(rt: &R, blank: Blank)
    requires name { blank.name ≡ G.name }
    requires parts { blank.parts ≡ G.parts }
    requires before { G.before ≡ [] }
    requires sessions { blank.parts ≡ 65 }
{
    let (shared, first, mut second) = engine_for_two::<G, R>(rt, blank);
    let run = (only(rt, first), shared);
    let (mut sessions, shared) = assert_refused(rt, run, &[first_point(8)], "E28 Unsettled 0");
    let read = second.read(rt, &shared, PageNo(0), SlotNo(0));
    assert_eq!(rt; read.map(|it| it.number), Ok(2));
    sessions.push(second).expect(rt, "memory for a list");
    let _ = settled(rt, sessions, &[first_point(8)], shared);
}

/// Points and copies that do not stand, and those that come twice, are refused; then the run is
/// settled. The order in which sessions are given does not matter.
fn refuse_works<G: Life, R: Wait + Abort + AllocGlobal>(rt: &R, blank: Blank)
    requires name { blank.name ≡ G.name }
    requires parts { blank.parts ≡ G.parts }
    requires before { G.before ≡ [] }
    requires sessions { blank.parts ≡ 65 }
{
    let (shared, first, second) = engine_for_two::<G, R>(rt, blank);
    let sessions = vec![in rt.alloc(); second, first].expect(rt, "memory for a list");
    let run = (sessions, shared);
    let run = assert_refused(rt, run, &[first_point(8), full_copy(9)], "E28 Unsettled 0");
    let run = assert_refused(rt, run, &[pointed(64, 128, 128, 8)], "E28 Unsettled 64");
    let run = assert_refused(
        rt,
        run,
        &[first_point(8), pointed(128, 128, 64, 8)],
        "E28 Unsettled 128",
    );
    let (sessions, shared) = assert_refused(
        rt,
        run,
        &[first_point(8), first_point(8)],
        "E28 Unsettled 64",
    );
    let _ = settled(rt, sessions, &[first_point(8)], shared);
}

/// Points whose page counts are not those of the log where they began are refused, that before a
/// growth of the volume and that behind it; then the run is settled.
fn refuse_page_counts<G: Life, R: Wait + Abort + AllocGlobal>(rt: &R, blank: Blank)
    requires name { blank.name ≡ G.name }
    requires parts { blank.parts ≡ G.parts }
    requires before { G.before ≡ [] }
    requires sessions { blank.parts ≡ 65 }
{
    let shared = volume::<G, R>(rt, blank, 8);
    checkpoint(rt, &shared, 8);
    assert_eq!(rt; shared.extend(rt, 8), Err(Refusal::NotLarger(8)));
    assert_eq!(rt; shared.extend(rt, 12), Ok(Lsn(192)));
    let last = shared.checkpoint(rt, &OpenGate);
    assert_eq!(rt; last, Ok(pointed(256, 320, 256, 12)));
    let run = (Vec::new(rt.alloc()), shared);
    let works = [pointed(64, 128, 64, 12), pointed(256, 320, 256, 12)];
    let run = assert_refused(rt, run, &works, "E28 Unsettled 64");
    let works = [first_point(8), pointed(256, 320, 256, 8)];
    let run = assert_refused(rt, run, &works, "E28 Unsettled 256");
    let works = [pointed(256, 320, 256, 12), first_point(8)];
    let _ = settled(rt, run.0, &works, run.1);
}

/// What an incremental copy on copy 1 answers. No page was written since, so the stored LSNs are
/// below the parent's redo point.
fn second_copy() -> Work {
    Work::Copied {
        id: CopyId(2),
        kind: CopyKind::Inc(CopyId(1)),
        taken: 0,
    }
}

/// A copy is not begun without a checkpoint or a complete parent, and one that is given twice is
/// refused.
fn refuse_copies<G: Life + Send + Sync, R: Threads + Wait + Abort + AllocGlobal + Sync>(
    rt: &R,
    blank: Blank,
)
    requires name { blank.name ≡ G.name }
    requires parts { blank.parts ≡ G.parts }
    requires before { G.before ≡ [] }
    requires sessions { blank.parts ≡ 65 }
{
    let shared = volume::<G, R>(rt, blank, 8);
    assert_copy(rt, &shared, CopyKind::Full, 3, Err(Refusal::NoMaster));
    checkpoint(rt, &shared, 8);
    assert_copy(
        rt,
        &shared,
        CopyKind::Inc(CopyId(1)),
        3,
        Err(Refusal::NoCopy),
    );
    assert_copy(rt, &shared, CopyKind::Full, 64, Ok(full_copy(1)));
    assert_copy(rt, &shared, CopyKind::Inc(CopyId(1)), 1, Ok(second_copy()));
    let run = (Vec::new(rt.alloc()), shared);
    let works = [full_copy(1), second_copy(), full_copy(1)];
    let (sessions, shared) = assert_refused(rt, run, &works, "E28 Unsettled 0");
    let works = [first_point(8), full_copy(1), second_copy()];
    let _ = settled(rt, sessions, &works, shared);
}

#[test]
fn a_run_without_one_of_its_sessions_is_not_settled(rt: HostRuntime) {
    leave_one_out::<Brand, HostRuntime>(&rt, Blank::new(65));
}

#[test]
fn works_that_do_not_stand_are_refused(rt: HostRuntime) {
    refuse_works::<Brand, HostRuntime>(&rt, Blank::new(65));
}

#[test]
fn points_of_another_page_count_are_refused(rt: HostRuntime) {
    refuse_page_counts::<Brand, HostRuntime>(&rt, Blank::new(65));
}

#[test]
fn refusals_print_their_lines(rt: HostRuntime) {
    assert_line(&rt, SettleFault::OutOfMemory, "E1 OutOfMemory");
}

#[test]
fn copies_that_come_twice_are_refused(rt: HostRuntime) {
    refuse_copies::<Brand, HostRuntime>(&rt, Blank::new(65));
}
