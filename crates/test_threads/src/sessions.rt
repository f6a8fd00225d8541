//! Sessions, a flusher and a checkpointer of one engine, in threads.

ghost use Rattle.std.specs.Prelude.{[], ◌≡◌, ◌≤◌};

use crate::volume::{Volume, add_one, full_copy, new_session, settled, volume};
use aries_core::{Refusal, SteppedBack};
use copy_coverage::Retired;
use copy_vault::{CopyId, CopyKind};
use engine_run::{Life, OpenGate, Session, TxnStep, Work};
use fuzzy_ckpt::Point;
use log_records::Record;
use loser_undo::{Redone, undo_all};
use media_restore::load;
use page_core::{Page, PageNo, SlotNo, TxnNo, formatted_pages};
use std::marker::Brand;
use std::process::Abort;
use std::sync::Wait;
use std::sync::ledger::Blank;
use std::thread;
use std::thread::{Threads, join};

/// A transaction sets a slot, and takes that back: it goes on as if it had not.
fn set_and_go_back<G: Life>(
    rt: &(impl Wait + Abort),
    shared: &Volume<G>,
    session: &mut Session<G>,
    txn: TxnNo,
    page: PageNo,
) {
    let savepoint = session.savepoint(rt, shared, txn).expect(rt, "savepoint");
    session
        .set(rt, shared, txn, page, SlotNo(1), u64::MAX)
        .expect(rt, "set");
    let first = session.undo_to(rt, shared, txn, savepoint);
    assert!(rt; matches!(first, Ok(SteppedBack::Undid(_))));
    let last = session.undo_to(rt, shared, txn, savepoint);
    assert_eq!(rt; last, Ok(SteppedBack::Reached));
}

/// Fifty transactions of a session: each adds 1 to a slot that all sessions share, and sets a slot
/// of its own, at the second try if it goes back.
fn work<G: Life>(
    rt: &(impl Wait + Abort),
    shared: &Volume<G>,
    session: &mut Session<G>,
    own: PageNo,
    goes_back: bool,
) {
    for round in 1..=50u64 {
        let txn = session.begin(rt, shared).expect(rt, "begin").txn;
        session
            .add(rt, shared, txn, PageNo(7), SlotNo(0), 1)
            .expect(rt, "add");
        if goes_back {
            set_and_go_back(rt, shared, session, txn, own);
        }
        session
            .set(rt, shared, txn, own, SlotNo(1), round)
            .expect(rt, "set");
        let read = session.read(rt, shared, own, SlotNo(1)).expect(rt, "read");
        assert_eq!(rt; read.number, round);
        session.commit(rt, shared, txn).expect(rt, "commit");
    }
}

/// A full copy by three workers.
fn copy<G: Life + Send + Sync, R: Threads + Wait + Abort + AllocGlobal + Sync>(
    rt: &R,
    shared: &Volume<G>,
) -> Work {
    shared
        .copy_with(rt, rt.alloc(), CopyKind::Full, 3, &OpenGate)
        .expect(rt, "copy")
}

/// Twenty flush passes.
fn flush<G: Life>(rt: &(impl Wait + Abort), shared: &Volume<G>) {
    for _ in 0..20 {
        shared.flush_pass(rt, &OpenGate).expect(rt, "flush");
    }
}

/// Repairs page 7 twenty times from copy 1. A flusher may have begun to write it.
fn repair<G: Life>(rt: &(impl Wait + Abort), shared: &Volume<G>) {
    for _ in 0..20 {
        let done = shared.repair(rt, CopyId(1), PageNo(7));
        assert!(rt; matches!(done, Ok(_) | Err(Refusal::WriteBegun)));
    }
}

/// Grows the volume from eight pages to twelve.
fn grow<G: Life>(rt: &(impl Wait + Abort), shared: &Volume<G>) {
    shared.extend(rt, 12).expect(rt, "extend");
    assert_eq!(rt; shared.extend(rt, 12), Err(Refusal::NotLarger(12)));
}

/// A transaction that is taken back.
fn roll_back<G: Life>(
    rt: &(impl Wait + Abort),
    shared: &Volume<G>,
    session: &mut Session<G>,
) -> TxnNo {
    let txn = session.begin(rt, shared).expect(rt, "begin").txn;
    session
        .set(rt, shared, txn, PageNo(6), SlotNo(0), 9)
        .expect(rt, "set");
    session.abort(rt, shared, txn).expect(rt, "abort");
    let first = session.undo_step(rt, shared, txn);
    assert_eq!(rt; first.map(|it| it.step), Ok(TxnStep::Comp));
    let last = session.undo_step(rt, shared, txn);
    assert_eq!(rt; last.map(|it| it.step), Ok(TxnStep::End));
    let read = session.read(rt, shared, PageNo(6), SlotNo(0));
    assert_eq!(rt; read.map(|it| it.number), Ok(0));
    txn
}

/// Takes a checkpoint of so many pages, before which every page was written.
fn clean_checkpoint<G: Life>(rt: &(impl Wait + Abort), shared: &Volume<G>, count: u32) -> Work {
    match shared.checkpoint(rt, &OpenGate) {
        Ok(
            Work::Pointed(
                Point {
                    begin,
                    end,
                    redo,
                    pages,
                },
            ),
        ) => {
            assert_eq!(rt; redo, begin);
            assert_eq!(rt; pages, count);
            Work::Pointed(Point {
                begin,
                end,
                redo,
                pages,
            })
        }
        _ => panic!(rt; "no checkpoint"),
    }
}

/// A day: what its transactions do, and what is done beside them.
#[derive(Clone, Copy)]
struct Day {
    /// Whether each transaction goes back to a savepoint once, and then goes on.
    goes_back: bool,
    beside: Beside,
}

impl Day {
    /// A day on which no transaction goes back.
    fn with(beside: Beside) -> Day {
        Day {
            goes_back: false,
            beside,
        }
    }
}

/// What is done beside the sessions of a day, its flusher and its copy.
#[derive(Clone, Copy)]
enum Beside {
    Nothing,
    /// A page is repaired, from an earlier copy.
    Repairs,
    /// The volume grows.
    Growth,
}

impl Beside {
    /// How many copies there are before all begin.
    fn copies(self) -> u32
        ensures { result ≤ 1 }
    {
        match self {
            Beside::Repairs => 1,
            Beside::Nothing | Beside::Growth => 0,
        }
    }

    /// How many pages the volume has in the end.
    fn pages(self) -> u32 {
        match self {
            Beside::Growth => 12,
            Beside::Nothing | Beside::Repairs => 8,
        }
    }
}

/// Four sessions work at the same time, beside a flusher and a copy by three workers, and beside
/// what else is done that day.
fn work_together<G: Life + Send + Sync, R: Threads + Wait + Abort + AllocGlobal + Sync>(
    rt: &R,
    shared: &Volume<G>,
    workers: &mut [Session<G>],
    day: Day,
) -> Work {
    let (_, copied) = join(
        rt,
        || {
            thread::for_each_mut(
                rt,
                workers,
                5,
                &|i, worker| {
                    if i < 4 {
                        work(rt, shared, worker, PageNo(i as u32), day.goes_back);
                    } else {
                        flush(rt, shared);
                    }
                },
            )
        },
        || {
            let (copied, _) = join(
                rt,
                || copy(rt, shared),
                || match day.beside {
                    Beside::Nothing => {}
                    Beside::Repairs => repair(rt, shared),
                    Beside::Growth => grow(rt, shared),
                },
            );
            copied
        },
    );
    copied
}

/// What the fifth session does once the others have ended, and one flush pass more.
fn end_the_day<G: Life>(rt: &(impl Wait + Abort), shared: &Volume<G>, workers: &mut [Session<G>]) {
    let Some(fifth) = workers.last_mut() else {
        panic!(rt; "five sessions");
    };
    let read = fifth.read(rt, shared, PageNo(7), SlotNo(0));
    assert_eq!(rt; read.map(|it| it.number), Ok(200));
    let _ = roll_back(rt, shared, fifth);
    shared.flush_pass(rt, &OpenGate).expect(rt, "flush");
}

/// Asserts that there is this page, with this number in its first slot.
fn assert_slot(rt: &impl Abort, page: Option<&Page>, number: u64) {
    let Some(page) = page else {
        panic!(rt; "a page of the volume");
    };
    assert_eq!(rt; page.slots[0], number);
}

/// The pages that these records make of so many formatted ones.
fn plain_pages(rt: &(impl Abort + AllocGlobal), count: u32, records: &[Record]) -> Vec<Page> {
    let mut plain = formatted_pages(rt.alloc(), count).expect(rt, "memory for pages");
    for record in records {
        for page in plain.iter_mut() {
            record.redo_on(page);
        }
    }
    plain
}

/// This copy with the whole log, redone.
fn redone_of(rt: &(impl Abort + AllocGlobal + Threads + Sync), left: Retired, copy: u32) -> Redone {
    let Ok(loaded) = load(rt.alloc(), left, CopyId(copy), usize::MAX) else {
        panic!(rt; "the copy is not loaded");
    };
    let Ok(redone) = loaded.redo(rt, rt.alloc()) else {
        panic!(rt; "the log is not redone");
    };
    redone
}

/// Asserts that pages are these, and have the sums of a day.
fn assert_pages(rt: &impl Abort, pages: &[Page], plain: &[Page]) {
    assert_eq!(rt; pages.len(), plain.len());
    for (page, expected) in pages.iter().zip(plain) {
        assert!(rt; page == expected);
    }
    for page in pages.iter().take(4) {
        assert_eq!(rt; page.slots[1], 50);
    }
    assert_slot(rt, pages.get(6), 0);
    assert_slot(rt, pages.get(7), 200);
}

/// Restores the volume of so many pages from this copy, which has eight, and the whole log: its
/// pages are as plain redo of the log makes them, and nothing is left to undo.
fn assert_restored(
    rt: &(impl Abort + AllocGlobal + Threads + Sync),
    left: Retired,
    copy: u32,
    count: u32,
) {
    assert_eq!(rt; left.log().page_count(), count);
    let records = left.log().records().len();
    let plain = plain_pages(rt, count, left.log().records());
    let redone = redone_of(rt, left, copy);
    assert_pages(rt, redone.pages(), &plain);
    let Ok(undone) = undo_all(redone) else {
        panic!(rt; "the log is not undone");
    };
    assert_eq!(rt; undone.records().len(), records);
    assert_pages(rt, undone.pages(), &plain);
}

/// An engine over eight pages, and five sessions of it.
fn engine_for_five<G: Life, R: Abort + AllocGlobal>(
    rt: &R,
    blank: Blank,
) -> (Volume<G>, Vec<Session<G>>)
    requires name { blank.name ≡ G.name }
    requires parts { blank.parts ≡ G.parts }
    requires before { G.before ≡ [] }
    requires sessions { blank.parts ≡ 65 }
{
    let mut shared = volume::<G, R>(rt, blank, 8);
    let mut workers = Vec::new(rt.alloc());
    for _ in 0..5 {
        let worker = new_session(rt, &mut shared);
        workers.push(worker).expect(rt, "memory for sessions");
    }
    assert_eq!(rt; shared.sessions(), 5);
    (shared, workers)
}

/// Asserts how many receipts the sessions have. Each of 50 transactions left five, and two more
/// where it went back: none is of a savepoint. The fifth session read, and was answered six times
/// when it took its transaction back.
fn assert_receipts<G: Life>(rt: &impl Abort, workers: &[Session<G>], goes_back: bool) {
    assert_eq!(rt; workers.len(), 5);
    let each: usize = if goes_back { 350 } else { 250 };
    for (worker, count) in workers.iter().zip([each, each, each, each, 7]) {
        assert_eq!(rt; worker.receipts().len(), count);
    }
}

/// What a day is settled with: its two Points, and so many full copies.
fn works_of(rt: &(impl Abort + AllocGlobal), points: [Work; 2], copies: u32) -> Vec<Work> {
    let mut works = Vec::new(rt.alloc());
    for point in points {
        works.push(point).expect(rt, "memory for works");
    }
    for number in 1..=copies {
        works.push(full_copy(number)).expect(rt, "memory for works");
    }
    works
}

/// A run of five sessions, a flusher, two checkpoints and a copy, which is settled, and restored
/// from this copy; an earlier copy repairs a page meanwhile, or the volume grows, if so told.
fn play<G: Life + Send + Sync, R: Threads + Wait + Abort + AllocGlobal + Sync>(
    rt: &R,
    blank: Blank,
    day: Day,
)
    requires name { blank.name ≡ G.name }
    requires parts { blank.parts ≡ G.parts }
    requires before { G.before ≡ [] }
    requires sessions { blank.parts ≡ 65 }
{
    let (shared, mut workers) = engine_for_five::<G, R>(rt, blank);
    let first = clean_checkpoint(rt, &shared, 8);
    for number in 1..=day.beside.copies() {
        assert_eq!(rt; copy(rt, &shared), full_copy(number));
    }
    let copied = work_together(rt, &shared, workers.as_mut_slice(), day);
    let copies = day.beside.copies() + 1;
    assert_eq!(rt; copied, full_copy(copies));
    end_the_day(rt, &shared, workers.as_mut_slice());
    let last = clean_checkpoint(rt, &shared, day.beside.pages());
    assert_receipts(rt, workers.as_slice(), day.goes_back);
    let works = works_of(rt, [first, last], copies);
    let left = settled(rt, workers, &works, shared);
    assert_restored(rt, left, copies, day.beside.pages());
}

/// A session reads a slot again each time another one has changed it and committed. A transaction
/// that was taken back is there no more.
fn read_again<G: Life, R: Wait + Abort + AllocGlobal>(rt: &R, blank: Blank)
    requires name { blank.name ≡ G.name }
    requires parts { blank.parts ≡ G.parts }
    requires before { G.before ≡ [] }
    requires sessions { blank.parts ≡ 65 }
{
    let mut shared = volume::<G, R>(rt, blank, 8);
    let mut reader = new_session(rt, &mut shared);
    let mut writer = new_session(rt, &mut shared);
    for sum in 0..3u64 {
        let read = reader.read(rt, &shared, PageNo(0), SlotNo(0));
        assert_eq!(rt; read.map(|it| it.number), Ok(sum));
        add_one(rt, &shared, &mut writer, PageNo(0));
    }
    let txn = roll_back(rt, &shared, &mut writer);
    let after = writer.undo_step(rt, &shared, txn);
    assert!(rt; matches!(after, Err(Refusal::NoTxn)));
    let sessions = vec![in rt.alloc(); reader, writer].expect(rt, "memory for a list");
    let _ = settled(rt, sessions, &[], shared);
}

#[test]
fn a_session_reads_what_another_one_has_committed(rt: HostRuntime) {
    read_again::<Brand, HostRuntime>(&rt, Blank::new(65));
}

#[test]
fn four_sessions_and_a_flusher_share_an_engine(rt: HostRuntime) {
    for _ in 0..8 {
        play::<Brand, HostRuntime>(&rt, Blank::new(65), Day::with(Beside::Nothing));
    }
}

#[test]
fn a_page_is_repaired_beside_sessions(rt: HostRuntime) {
    for _ in 0..40 {
        play::<Brand, HostRuntime>(&rt, Blank::new(65), Day::with(Beside::Repairs));
    }
}

#[test]
fn a_volume_grows_beside_sessions(rt: HostRuntime) {
    for _ in 0..40 {
        play::<Brand, HostRuntime>(&rt, Blank::new(65), Day::with(Beside::Growth));
    }
}

#[test]
fn sessions_go_back_to_savepoints(rt: HostRuntime) {
    for _ in 0..20 {
        for beside in [Beside::Nothing, Beside::Repairs, Beside::Growth] {
            let day = Day {
                goes_back: true,
                beside,
            };
            play::<Brand, HostRuntime>(&rt, Blank::new(65), day);
        }
    }
}
