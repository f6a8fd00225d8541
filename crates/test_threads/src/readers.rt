//! Reads that leave no receipt.

ghost use Rattle.std.specs.Prelude.{[], ◌≡◌};

use crate::volume::{Volume, add_one, new_session, settled, volume};
use aries_core::Refusal;
use engine_run::{Life, Session};
use page_core::{PageNo, SlotNo};
use std::marker::Brand;
use std::process::Abort;
use std::sync::Wait;
use std::sync::ledger::Blank;
use std::thread;
use std::thread::{Threads, join};

/// What the writer adds up to.
const SUM: u64 = 200;

/// Adds 1 to the first slot of page 0 in so many transactions.
fn write<G: Life>(
    rt: &(impl Wait + Abort),
    shared: &Volume<G>,
    mut writer: Session<G>,
) -> Session<G> {
    for _ in 0..SUM {
        add_one(rt, shared, &mut writer, PageNo(0));
    }
    writer
}

/// Looks at that slot until the writer is done: its number never falls.
fn watch<G: Life>(rt: &(impl Wait + Abort), shared: &Volume<G>, reader: Session<G>) -> Session<G> {
    let mut last = 0;
    for _ in rt.forever() {
        let number = reader
            .peek(rt, shared, PageNo(0), SlotNo(0))
            .expect(rt, "peek");
        assert!(rt; last <= number && number <= SUM);
        if number == SUM {
            break;
        }
        last = number;
        thread::yield_now();
    }
    reader
}

/// Peeks at other slots, and at such as are not there. No call left a receipt.
fn look_round<G: Life>(rt: &(impl Wait + Abort), shared: &Volume<G>, reader: &Session<G>) {
    let peek = |page, slot| reader.peek(rt, shared, PageNo(page), SlotNo(slot));
    assert_eq!(rt; peek(0, 1), Ok(0));
    assert_eq!(rt; peek(1, 0), Ok(0));
    assert_eq!(rt; peek(8, 0), Err(Refusal::PageOut));
    assert_eq!(rt; peek(0, 62), Err(Refusal::SlotOut));
    assert_eq!(rt; reader.receipts().len(), 0);
}

/// A session peeks while another one commits, and the run is settled.
fn peek_beside<G: Life + Send + Sync, R: Threads + Wait + Abort + AllocGlobal + Sync>(
    rt: &R,
    blank: Blank,
)
    requires name { blank.name ≡ G.name }
    requires parts { blank.parts ≡ G.parts }
    requires before { G.before ≡ [] }
    requires sessions { blank.parts ≡ 65 }
{
    let mut shared = volume::<G, R>(rt, blank, 8);
    let reader = new_session(rt, &mut shared);
    let writer = new_session(rt, &mut shared);
    let engine = &shared;
    let (reader, writer) = join(
        rt,
        || watch(rt, engine, reader),
        || write(rt, engine, writer),
    );
    look_round(rt, &shared, &reader);
    let sessions = vec![in rt.alloc(); reader, writer].expect(rt, "memory for a list");
    let _ = settled(rt, sessions, &[], shared);
}

#[test]
fn a_session_peeks_while_another_one_commits(rt: HostRuntime) {
    peek_beside::<Brand, HostRuntime>(&rt, Blank::new(65));
}
