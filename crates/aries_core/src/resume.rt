//! An engine that goes on where an older one was lost.

ghost use Rattle.std.specs.Prelude.{◌≡◌, ◌≤◌, length, IfErr, IfOk};
ghost use Rattle.std.specs.Option.{option_map};
ghost use Rattle.buffer_pool.specs.Pool.{IsFrameCount};
ghost use Rattle.fuzzy_ckpt.specs.Ckpt.{gathered_ckpt};
ghost use Rattle.fuzzy_ckpt.specs.LogCheckpoints.{AreCheckpointsOf, IsLastPoint};
ghost use Rattle.log_records.specs.Image.{redo_all};
ghost use Rattle.log_records.specs.Log.{lsn_of, page_count};
ghost use Rattle.log_rules.specs.Transactions.{begun};
ghost use Rattle.log_store.specs.WrittenLog.{HoldsLog};
ghost use Rattle.aries_core.specs.OpenCkpt.{view_of};
ghost use Rattle.engine_rules.specs.Resumed.{MayResume, resumed_state};

use crate::engine::Engine;
use crate::open_ckpt::OpenCkpt;
use buffer_pool::Pool;
use copy_vault::Vault;
use fuzzy_ckpt::{Ckpt, Gathered, LogCheckpoints};
use log_store::{Log, LogDevice, LogImage};
use page_core::Page;
use page_store::PageStore;
use std::alloc::Global;
use txn_table::{Returns, TxnTable};

/// What an older engine left: a log in which no transaction is open any more, what its reader knew
/// of it, and the image copies that are at hand.
#[derive(Drop)]
pub struct ResumedParts {
    pub log: LogImage,
    /// Those of the log.
    pub checkpoints: LogCheckpoints,
    /// How many transactions began in it.
    pub begun: u32,
    /// The copies. Each is complete or dropped.
    pub vault: Vault,
}

/// Where memory was refused, and so no engine goes on: the store and the device that were given, as they
/// were.
#[derive(Drop)]
pub struct NotResumed<S: PageStore, D: LogDevice> {
    pub store: S,
    pub device: D,
}

impl<S: PageStore + Drop, D: LogDevice + Drop> Engine<S, D> {
    /// An engine that goes on where an older one was lost, over a store that has these pages, in
    /// order of their numbers, as the log makes them, and a device that has the log. No page is in
    /// memory, and none is dirty. The master is the log's last complete checkpoint. If a checkpoint
    /// is open, its gather has ended, and it may be ended: each page is stored, and no transaction
    /// is open. Of the store only its count is asked, and the device is not called.
    ///
    /// No record is looked at again: what the reader of the log knew is taken over. An `Err` comes where
    /// memory is refused. Store and device are handed back then, and what was left is dropped.
    pub fn resume(
        alloc: Global,
        parts: ResumedParts,
        pages: &[Page],
        frames: u32,
        store: S,
        device: D,
    ) -> Result<Engine<S, D>, NotResumed<S, D>>
        requires frames { IsFrameCount frames }
        requires may { MayResume parts.log parts.vault.copies }
        requires checkpoints { AreCheckpointsOf parts.log parts.checkpoints }
        requires begun { parts.begun ≡ length (begun parts.log.records) }
        requires pages { pages.now ≡ redo_all parts.log.records (page_count parts.log) }
        requires stored { S.stored store ≡ pages.now }
        requires holds { HoldsLog D.bytes parts.log device }
        requires lasts { lsn_of (length parts.log.records) ≤ D.lasting device }

        ensures state { IfOk result (λ it. it.state
            ≡ resumed_state parts.log frames it.state.master parts.vault.copies) }
        ensures master { IfOk result (λ it.
            IsLastPoint parts.log parts.log.records it.state.master) }
        ensures store { IfOk result (λ it. it.store ≡ store) }
        ensures device { IfOk result (λ it. it.device ≡ device) }
        ensures untouched { IfErr result (λ e. (e.store ≡ store) × (e.device ≡ device)) }
    {
        let ResumedParts {
            log,
            checkpoints,
            begun,
            vault,
        } = parts;
        // A log has no more records than it may have, which one of its calls tells.
        let _records = log.records();
        let pool = match Pool::resume(alloc, store, pages, frames) {
            Ok(pool) => pool,
            Err((_, store)) => return Err(NotResumed { store, device }),
        };
        let LogCheckpoints { last, open } = checkpoints;
        Ok(Engine {
            log: Log::resume(log, device),
            txns: TxnTable::ended(alloc, begun),
            returns: Returns::new(alloc),
            pool,
            master: last,
            session: session_of(open),
            vault,
            alloc,
        })
    }
}

/// An open checkpoint whose gather has ended, as an engine has it.
fn session_of(open: Option<Ckpt<Gathered>>) -> Option<OpenCkpt>
    ensures { option_map view_of result ≡ option_map gathered_ckpt «open» }
{
    match open {
        Some(ckpt) => Some(OpenCkpt::Gathered(ckpt)),
        None => None,
    }
}
