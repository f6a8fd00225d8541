//! A script whose calls are made one by one and as a list, and its last restore. A call that is
//! refused for lack of memory is made again.

ghost use Rattle.buffer_pool.specs.Pool.{IsFrameCount};
ghost use Rattle.log_records.specs.Log.{IsPageCount};

use crate::lines::put_page;
use aries_core::{Engine, Event, Played, Refusal, Reply, Setup, play};
use copy_coverage::Retired;
use event_script::{LastRestore, ReplyLine, Script, read_script};
use log_store::MemDevice;
use loser_undo::{Redone, UndoFault, Undone, undo_all};
use media_restore::{LoadFault, Loaded, RedoFault, Refused, load};
use page_store::MemStore;
use std::alloc::Global;
use std::io::Read;
use std::thread::Threads;

/// What comes of a script: the lines of its replies and of its last restore, and whether a call was
/// made again.
#[derive(Drop)]
pub struct Told {
    pub text: String,
    pub again: bool,
}

/// Plays a script, and does its last restore; None where the input is no script, or where memory
/// for it or for the lines is refused.
pub fn told_of_calls(
    rt: &(impl Threads + Sync),
    alloc: Global,
    setup: Setup,
    input: &mut impl Read,
) -> Option<Told>
    requires pages { IsPageCount setup.pages }
    requires frames { IsFrameCount setup.frames }
{
    let script = read_script(alloc, input).ok()?;
    let mut told = Told {
        text: String::new(alloc),
        again: false,
    };
    let replies = put_calls(rt, alloc, setup, &script, &mut told)?;
    put_list(alloc, setup, &script.events, &replies, &mut told)?;
    Some(told)
}

/// Makes the calls one by one, and does the restore. The replies.
fn put_calls(
    rt: &(impl Threads + Sync),
    alloc: Global,
    setup: Setup,
    script: &Script,
    told: &mut Told,
) -> Option<Vec<Reply>>
    requires pages { IsPageCount setup.pages }
    requires frames { IsFrameCount setup.frames }
{
    let mut replies = Vec::with_capacity(alloc, script.events.len()).ok()?;
    let mut engine = engine_in_two(alloc, setup, script.events.len(), told)?;
    let called = call_each(&mut engine, &script.events, &mut replies, told);
    let restored = put_restore(rt, alloc, engine.retire(), script.restore, told);
    called?;
    restored?;
    Some(replies)
}

/// An engine over formatted pages, whose log has room for so many records.
fn new_engine(alloc: Global, setup: Setup, records: usize) -> Option<Engine<MemStore, MemDevice>>
    requires pages { IsPageCount setup.pages }
    requires frames { IsFrameCount setup.frames }
{
    let store = MemStore::new(alloc, setup.pages).ok()?;
    let device = MemDevice::new(alloc, records).ok()?;
    Engine::new(alloc, setup, store, device).ok()
}

/// An engine, at the first try or at the second one.
fn engine_in_two(
    alloc: Global,
    setup: Setup,
    records: usize,
    told: &mut Told,
) -> Option<Engine<MemStore, MemDevice>>
    requires pages { IsPageCount setup.pages }
    requires frames { IsFrameCount setup.frames }
{
    match new_engine(alloc, setup, records) {
        Some(engine) => Some(engine),
        None => {
            told.again = true;
            new_engine(alloc, setup, records)
        }
    }
}

/// Makes the calls, one by one, and puts a line for each reply.
fn call_each(
    engine: &mut Engine<MemStore, MemDevice>,
    events: &[Event],
    replies: &mut Vec<Reply>,
    told: &mut Told,
) -> Option<()> {
    for event in events {
        let mut reply = engine.apply(*event);
        if reply == Err(Refusal::OutOfMemory) {
            told.again = true;
            reply = engine.apply(*event);
        }
        replies.push(reply).ok()?;
        let line = ReplyLine(reply);
        writeln!(told.text, "{line}").ok()?;
    }
    Some(())
}

/// Does a restore, and puts a line for each page, or that of its refusal.
fn put_restore(
    rt: &(impl Threads + Sync),
    alloc: Global,
    retired: Retired,
    restore: Option<LastRestore>,
    told: &mut Told,
) -> Option<()> {
    let Some(last) = restore else {
        return Some(());
    };
    match restored(rt, alloc, retired, last, told) {
        Ok(undone) => {
            for page in undone.pages() {
                put_page(&mut told.text, page).ok()?;
            }
            Some(())
        }
        Err(why) => writeln!(told.text, "{why}").ok(),
    }
}

fn restored(
    rt: &(impl Threads + Sync),
    alloc: Global,
    retired: Retired,
    last: LastRestore,
    told: &mut Told,
) -> Result<Undone, Refused> {
    let loaded = load_in_two(alloc, retired, last, told).map_err(|fault| Refused::Load(fault))?;
    let redone = redo_in_two(rt, alloc, loaded, told).map_err(|fault| Refused::Redo(fault))?;
    undo_in_two(redone, told).map_err(|fault| Refused::Undo(fault))
}

/// Loads a copy, at the first try or at the second one.
fn load_in_two(
    alloc: Global,
    retired: Retired,
    LastRestore { copy, cut }: LastRestore,
    told: &mut Told,
) -> Result<Loaded, LoadFault> {
    let cut = match cut {
        Some(cut) => cut as usize,
        None => usize::MAX,
    };
    match load(alloc, retired, copy, cut) {
        Ok(loaded) => Ok(loaded),
        Err((retired, LoadFault::OutOfMemory)) => {
            told.again = true;
            load(alloc, retired, copy, cut).map_err(|(_, fault)| fault)
        }
        Err((_, fault)) => Err(fault),
    }
}

/// Redoes the log, at the first try or at the second one.
fn redo_in_two(
    rt: &(impl Threads + Sync),
    alloc: Global,
    loaded: Loaded,
    told: &mut Told,
) -> Result<Redone, RedoFault> {
    match loaded.redo(rt, alloc) {
        Ok(redone) => Ok(redone),
        Err((loaded, RedoFault::OutOfMemory)) => {
            told.again = true;
            loaded.redo(rt, alloc).map_err(|(_, fault)| fault)
        }
    }
}

/// Undoes the log, at the first try or at the second one.
fn undo_in_two(redone: Redone, told: &mut Told) -> Result<Undone, UndoFault> {
    match undo_all(redone) {
        Ok(undone) => Ok(undone),
        Err((redone, UndoFault::OutOfMemory)) => {
            told.again = true;
            undo_all(redone).map_err(|(_, fault)| fault)
        }
        Err((_, fault)) => Err(fault),
    }
}

/// Plays the events as one list, at the first try or at the second one, and puts a line where the
/// replies are others.
fn put_list(
    alloc: Global,
    setup: Setup,
    events: &[Event],
    replies: &[Reply],
    told: &mut Told,
) -> Option<()>
    requires pages { IsPageCount setup.pages }
    requires frames { IsFrameCount setup.frames }
{
    let mut given = replies_to(alloc, setup, events);
    if given.is_none() {
        told.again = true;
        given = replies_to(alloc, setup, events);
    }
    match given {
        Some(given) if given.as_slice() == replies => Some(()),
        _ => told.text.push_str("the list is answered otherwise\n").ok(),
    }
}

/// The replies to the events as one list; None where memory was refused.
fn replies_to(alloc: Global, setup: Setup, events: &[Event]) -> Option<Vec<Reply>>
    requires pages { IsPageCount setup.pages }
    requires frames { IsFrameCount setup.frames }
{
    let store = MemStore::new(alloc, setup.pages).ok()?;
    let device = MemDevice::new(alloc, events.len()).ok()?;
    let Played { replies, engine } = play(alloc, setup, store, device, events).ok()?;
    drop(engine);
    if replies
        .iter()
        .any(|reply| *reply == Err(Refusal::OutOfMemory))
    {
        return None;
    }
    Some(replies)
}
