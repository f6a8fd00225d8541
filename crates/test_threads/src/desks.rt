//! Sessions that are given back and taken anew.

ghost use Rattle.std.specs.Prelude.{[], ◌≡◌};

use crate::volume::{Volume, add_one, new_session, settled, volume};
use engine_run::{Life, MAX_SESSIONS, Session, SessionDesk};
use page_core::{PageNo, SlotNo};
use std::marker::Brand;
use std::process::Abort;
use std::sync::Wait;
use std::sync::ledger::Blank;
use std::thread;
use std::thread::{Threads, join};

/// A desk at which no session waits.
fn new_desk<G: Life>(rt: &(impl Wait + Abort + AllocGlobal)) -> SessionDesk<G> {
    let desk = SessionDesk::new(rt.alloc()).expect(rt, "memory for a desk");
    assert!(rt; desk.take(rt).is_none());
    desk
}

/// The next session that waits.
fn next_session<G: Life>(rt: &impl Wait, desk: &SessionDesk<G>) -> Session<G> {
    for _ in rt.forever() {
        if let Some(session) = desk.take(rt) {
            return session;
        }
        thread::yield_now();
    }
    unreachable!()
}

/// A hundred users, one after another: each takes a session, adds 1 to a slot, and gives it back.
fn come_and_go<G: Life>(
    rt: &(impl Wait + Abort),
    shared: &Volume<G>,
    desk: &SessionDesk<G>,
    page: PageNo,
) {
    for _ in 0..100 {
        let mut session = next_session(rt, desk);
        add_one(rt, shared, &mut session, page);
        desk.give_back(rt, session);
    }
}

/// Two threads use one session by turns. It has the receipts of both, and the run is settled.
fn share_a_session<G: Life + Send + Sync, R: Threads + Wait + Abort + AllocGlobal + Sync>(
    rt: &R,
    blank: Blank,
)
    requires name { blank.name ≡ G.name }
    requires parts { blank.parts ≡ G.parts }
    requires before { G.before ≡ [] }
    requires sessions { blank.parts ≡ 65 }
{
    let mut shared = volume::<G, R>(rt, blank, 8);
    let session = new_session(rt, &mut shared);
    let desk = new_desk::<G>(rt);
    desk.give_back(rt, session);
    let (engine, waiting) = (&shared, &desk);
    join(
        rt,
        || come_and_go(rt, engine, waiting, PageNo(0)),
        || come_and_go(rt, engine, waiting, PageNo(1)),
    );
    let sessions = desk.into_idle().into_sessions();
    assert_eq!(rt; sessions.len(), 1);
    for session in &sessions {
        assert_eq!(rt; session.written(), 600);
        assert_eq!(rt; session.receipts().len(), 600);
        assert_eq!(rt; session.peek(rt, &shared, PageNo(1), SlotNo(0)), Ok(100));
    }
    let _ = settled(rt, sessions, &[], shared);
}

/// All sessions of an engine wait at once, and each has a turn.
fn wait_at_once<G: Life, R: Wait + Abort + AllocGlobal>(rt: &R, blank: Blank)
    requires name { blank.name ≡ G.name }
    requires parts { blank.parts ≡ G.parts }
    requires before { G.before ≡ [] }
    requires sessions { blank.parts ≡ 65 }
{
    let mut shared = volume::<G, R>(rt, blank, 8);
    let desk = new_desk::<G>(rt);
    for _ in 0..MAX_SESSIONS {
        desk.give_back(rt, new_session(rt, &mut shared));
    }
    let mut used = Vec::new(rt.alloc());
    for _ in 0..MAX_SESSIONS {
        let mut session = desk.take(rt).expect(rt, "a session that waits");
        add_one(rt, &shared, &mut session, PageNo(0));
        used.push(session).expect(rt, "memory for a list");
    }
    for session in used {
        desk.give_back(rt, session);
    }
    let idle = desk.into_idle();
    assert_eq!(rt; idle.len(), 64);
    let _ = settled(rt, idle.into_sessions(), &[], shared);
}

#[test]
fn a_session_is_given_back_and_taken_anew(rt: HostRuntime) {
    share_a_session::<Brand, HostRuntime>(&rt, Blank::new(65));
}

#[test]
fn all_sessions_wait_at_once(rt: HostRuntime) {
    wait_at_once::<Brand, HostRuntime>(&rt, Blank::new(65));
}
