//! The open transactions of a log, from its last checkpoint on, and its pages by lists, in threads.

ghost use Rattle.std.specs.Prelude.{IfSome};
ghost use Rattle.log_rules.specs.Checkpoint.{IsCompleteCheckpoint};
ghost use Rattle.log_rules.specs.Linked.{IsLinked};

use crate::lines::put_page;
use aries_core::{Played, Setup, play};
use copy_coverage::Retired;
use event_script::{Script, read_script};
use log_store::{LogImage, Master, MemDevice};
use loser_undo::losers;
use page_core::{Lsn, formatted_pages};
use page_redo::{by_page, redo_by_page};
use page_store::MemStore;
use std::alloc::{AllocError, Global};
use std::io::Read;
use std::thread::Threads;
use txn_table::Losers;

/// How many pages the volume of a script has.
const SETUP: Setup = Setup {
    pages: 64,
    frames: 64,
};

/// Plays the script, and gives a line for each transaction that is open at the end of its log, and
/// a line for each page.
pub fn put_recovery(
    rt: &(impl Threads + Sync),
    alloc: Global,
    input: &mut impl Read,
) -> Option<String> {
    let script = read_script(alloc, input).ok()?;
    let retired = retired_of(alloc, &script)?;
    let mut text = String::new(alloc);
    put_losers(&mut text, alloc, &retired).ok()?;
    put_pages(rt, &mut text, alloc, retired.log()).ok()?;
    Some(text)
}

fn retired_of(alloc: Global, script: &Script) -> Option<Retired> {
    let store = MemStore::new(alloc, SETUP.pages).ok()?;
    let device = MemDevice::new(alloc, script.events.len()).ok()?;
    let Played { replies: _, engine } = play(alloc, SETUP, store, device, &script.events).ok()?;
    Some(engine.retire())
}

/// The last complete checkpoint of the log, if there is one.
fn master_of(retired: &Retired) -> Option<Master>
    ensures linked { IsLinked retired.now.log.records }
    ensures complete { IfSome result (λ master.
        IsCompleteCheckpoint retired.now.log.records master.begin master.end) }
{
    retired.master()
}

/// A line for each open transaction: its last LSN, and those of its pending changes.
fn put_losers(text: &mut String, alloc: Global, retired: &Retired) -> Result<(), AllocError> {
    let Some(master) = master_of(retired) else {
        return text.push_str("no checkpoint\n");
    };
    let found = losers(alloc, retired.log(), &master)?;
    for place in 0..found.count() {
        put_loser(text, &found, place)?;
    }
    Ok(())
}

fn put_loser(text: &mut String, found: &Losers, place: usize) -> Result<(), AllocError> {
    let Some(state) = found.state_at(place) else {
        return Ok(());
    };
    write!(text, "open {} last {}", state.txn.0, state.last.0)?;
    for index in 0..state.pending {
        if let Some(change) = found.pending_at(place, index) {
            write!(text, " {}", change.lsn.0)?;
        }
    }
    text.push_str("\n")
}

/// A line for each page that was changed: its number, its LSN, and its slots that are not 0.
fn put_pages(
    rt: &(impl Threads + Sync),
    text: &mut String,
    alloc: Global,
    log: &LogImage,
) -> Result<(), AllocError> {
    let mut pages = formatted_pages(alloc, log.page_count())?;
    let lists = by_page(alloc, log.records(), Lsn(64), log.page_count())?;
    if lists.pages() == pages.len() {
        redo_by_page(rt, &mut pages, log.records(), &lists);
    }
    for page in &pages {
        if page.lsn != Lsn(0) {
            put_page(text, page)?;
        }
    }
    Ok(())
}
