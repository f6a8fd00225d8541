//! Series of calls with their replies, what a device and a store then hold, and texts.

ghost use Rattle.std.specs.Prelude.{◌≡◌};
ghost use Rattle.log_records.specs.Log.{IsPageCount};
ghost use Rattle.page_core.specs.Volume.{formatted_pages};

mod checkpoints;
mod copies;
mod devices;
mod frames;
mod growth;
mod repairs;
mod rows;
mod stores;

use crate::asserts::assert_texts;
use crate::calls::{Calls, assert_replies, call, calls_of};
use aries_core::{Engine, PlayFault, Refusal, Setup, play};
use log_store::{FaultyDevice, LogDevice, MemDevice};
use page_core::{Lsn, PageNo, TxnNo};
use page_store::{FaultyStore, MemStore, PageStore};
use std::process::Abort;

/// A volume of so many pages, each with a frame of its own.
pub(crate) fn setup_of(pages: u32) -> Setup
    ensures { result ≡ record { pages = pages; frames = pages } }
{
    Setup {
        pages,
        frames: pages,
    }
}

/// A formatted store in memory.
fn store_of(rt: &(impl Abort + AllocGlobal), pages: u32) -> MemStore
    requires { IsPageCount pages }
    ensures { result ≡ formatted_pages pages }
{
    MemStore::new(rt.alloc(), pages).expect(rt, "memory for a store")
}

/// A formatted store whose `k`-th call fails. 0 is none.
pub(crate) fn failing_store(rt: &(impl Abort + AllocGlobal), pages: u32, k: u64) -> FaultyStore
    requires { IsPageCount pages }
    ensures { result.pages ≡ formatted_pages pages }
{
    FaultyStore::new(rt.alloc(), store_of(rt, pages), k).expect(rt, "memory for a store")
}

/// A formatted store whose `k`-th call fails once it did what it was asked for: it stores the page, or
/// adds pages.
pub(crate) fn late_store(rt: &(impl Abort + AllocGlobal), pages: u32, k: u64) -> FaultyStore
    requires { IsPageCount pages }
    ensures { result.pages ≡ formatted_pages pages }
{
    FaultyStore::late(rt.alloc(), store_of(rt, pages), k).expect(rt, "memory for a store")
}

/// Such a store, of which no call fails. This page is damaged once so many calls were made.
pub(crate) fn damaged_store(
    rt: &(impl Abort + AllocGlobal),
    pages: u32,
    page: PageNo,
    calls: u64,
) -> FaultyStore
    requires { IsPageCount pages }
    ensures { result.pages ≡ formatted_pages pages }
{
    let mut store = failing_store(rt, pages, 0);
    assert!(rt; (page.0 as usize) < store.stored().len());
    store.damage_from(page, calls);
    store
}

/// A device in memory with room for so many records.
fn device_of(rt: &(impl Abort + AllocGlobal), records: usize) -> MemDevice {
    MemDevice::new(rt.alloc(), records).expect(rt, "memory for a device")
}

/// Such a device, whose `k`-th call fails. 0 is none.
pub(crate) fn failing_device(
    rt: &(impl Abort + AllocGlobal),
    records: usize,
    k: u64,
) -> FaultyDevice {
    FaultyDevice::new(device_of(rt, records), k)
}

/// A new engine over a formatted store, that made these calls one by one. Their replies are
/// asserted.
pub(crate) fn called_on<S: PageStore + Drop, D: LogDevice + Drop>(
    rt: &(impl Abort + AllocGlobal),
    pages: u32,
    store: S,
    device: D,
    calls: &Calls,
) -> Engine<S, D>
    requires pages { IsPageCount pages }
    requires formatted { S.stored store ≡ formatted_pages pages }
{
    let mut engine = Engine::new(rt.alloc(), setup_of(pages), store, device)
        .ok()
        .expect(rt, "an engine");
    call(rt, &mut engine, calls);
    engine
}

/// A new engine that made these calls as one list. Their replies are asserted.
fn played_on<S: PageStore + Drop, D: LogDevice + Drop>(
    rt: &(impl Abort + AllocGlobal),
    pages: u32,
    store: S,
    device: D,
    calls: &Calls,
) -> Engine<S, D>
    requires pages { IsPageCount pages }
    requires formatted { S.stored store ≡ formatted_pages pages }
{
    let played = play(rt.alloc(), setup_of(pages), store, device, &calls.events)
        .ok()
        .expect(rt, "an engine");
    assert_replies(rt, &played.replies, calls);
    played.engine
}

/// An engine that made the calls of these parts over a store in memory, on a device that has room
/// for a record for each event.
fn called(
    rt: &(impl Abort + AllocGlobal),
    pages: u32,
    parts: &[&str],
) -> Engine<MemStore, MemDevice>
    requires { IsPageCount pages }
{
    let calls = calls_of(rt, parts);
    let store = store_of(rt, pages);
    let device = device_of(rt, calls.events.len());
    called_on(rt, pages, store, device, &calls)
}

/// An engine that made the calls of these parts over a store of one page whose `k`-th call fails.
fn called_over(
    rt: &(impl Abort + AllocGlobal),
    k: u64,
    parts: &[&str],
) -> Engine<FaultyStore, MemDevice> {
    let calls = calls_of(rt, parts);
    let store = failing_store(rt, 1, k);
    let device = device_of(rt, calls.events.len());
    called_on(rt, 1, store, device, &calls)
}

/// Plays the calls of these parts as a list over such a store, and asserts their replies.
fn play_over(rt: &(impl Abort + AllocGlobal), k: u64, parts: &[&str]) {
    let calls = calls_of(rt, parts);
    let store = failing_store(rt, 1, k);
    let device = device_of(rt, calls.events.len());
    drop(played_on(rt, 1, store, device, &calls));
}

const REFUSALS: [(Refusal, &str); 28] = [
    (Refusal::OutOfMemory, "E1 OutOfMemory"),
    (Refusal::NoTxn, "E2 NoTxn"),
    (Refusal::PageOut, "E3 PageOut"),
    (Refusal::SlotOut, "E4 SlotOut"),
    (Refusal::SlotBusy(TxnNo(7)), "E5 SlotBusy 7"),
    (Refusal::TxnRolling, "E6 TxnRolling"),
    (Refusal::NotRolling, "E7 NotRolling"),
    (Refusal::LogFull, "E8 LogFull"),
    (Refusal::TooManyTxns, "E9 TooManyTxns"),
    (Refusal::NotDirty, "E10 NotDirty"),
    (Refusal::WriteBegun, "E11 WriteBegun"),
    (Refusal::NoWrite, "E12 NoWrite"),
    (Refusal::CkptOpen, "E13 CkptOpen"),
    (Refusal::NoCkpt, "E14 NoCkpt"),
    (Refusal::GatherLeft, "E15 GatherLeft"),
    (Refusal::NoMaster, "E16 NoMaster"),
    (Refusal::NoCopy, "E17 NoCopy"),
    (Refusal::CopyNotOpen, "E18 CopyNotOpen"),
    (Refusal::CopyNotComplete, "E19 CopyNotComplete"),
    (Refusal::PageDecided, "E20 PageDecided"),
    (Refusal::PagesLeft(PageNo(7)), "E21 PagesLeft 7"),
    (Refusal::StoreFault, "E22 StoreFault"),
    (Refusal::LogFault, "E23 LogFault"),
    (Refusal::PoolFull, "E24 PoolFull"),
    (Refusal::TooManyCopies, "E25 TooManyCopies"),
    (Refusal::CommitUnsure(Lsn(192)), "E26 CommitUnsure 192"),
    (Refusal::NoSavepoint, "E42 NoSavepoint"),
    (Refusal::NotLarger(7), "E43 NotLarger 7"),
];

static FAULTS: [(PlayFault, &str); 2] = [
    (PlayFault::OutOfMemory, "E1 OutOfMemory"),
    (PlayFault::LogFault, "E23 LogFault"),
];

#[test]
fn refusals_have_texts(rt: HostRuntime) {
    assert_texts(&rt, &REFUSALS);
}

#[test]
fn faults_have_texts(rt: HostRuntime) {
    assert_texts(&rt, &FAULTS);
}
