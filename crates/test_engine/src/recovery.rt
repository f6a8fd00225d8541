//! Series of calls with their replies, and what a restore of their copies gives.

ghost use Rattle.log_records.specs.Log.{IsPageCount};

mod archives;
mod chains;
mod losers;
mod restores;
mod shown;
mod sweeps;

use crate::calls::{Calls, Row, calls_of};
use crate::engine::{called_on, failing_device, failing_store};
use copy_coverage::Retired;
use copy_vault::CopyId;
use loser_undo::{Redone, Undone, undo_all};
use media_restore::load;
use std::process::Abort;
use std::thread::Threads;

/// What an engine leaves that made the calls on a device whose `k`-th call fails. 0 is none. Their
/// replies are asserted.
fn retired_of(rt: &(impl Abort + AllocGlobal), pages: u32, k: u64, calls: &Calls) -> Retired
    requires { IsPageCount pages }
{
    let store = failing_store(rt, pages, 0);
    let device = failing_device(rt, calls.events.len(), k);
    called_on(rt, pages, store, device, calls).retire()
}

/// What an engine leaves that made the calls of a row.
fn retired(rt: &(impl Abort + AllocGlobal), row: Row, k: u64) -> Retired {
    let calls = calls_of(rt, row.parts);
    retired_of(rt, row.pages(rt), k, &calls)
}

/// A copy that is loaded, over the first `cut` records, and redone.
fn redone_of(
    rt: &(impl Abort + AllocGlobal + Threads + Sync),
    retired: Retired,
    copy: u32,
    cut: usize,
) -> Redone {
    let alloc = rt.alloc();
    let loaded = load(alloc, retired, CopyId(copy), cut)
        .ok()
        .expect(rt, "a copy that is loaded");
    loaded
        .redo(rt, alloc)
        .ok()
        .expect(rt, "a log that is redone")
}

fn undone_of(rt: &impl Abort, redone: Redone) -> Undone {
    undo_all(redone).ok().expect(rt, "a log that is undone")
}
