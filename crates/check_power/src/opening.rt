//! Opens what a cut of the power has left of a log, as `imgcopy open` does.

ghost use Rattle.std.specs.Prelude.{◌≡◌, IsTrue};
ghost use Rattle.buffer_pool.specs.Pool.{IsFrameCount};
ghost use Rattle.engine_restart.specs.LogFile.{LastsOnFile};
ghost use Rattle.log_records.specs.Log.{IsPageCount};

use crate::chance::Chance;
use crate::drive::{Drive, LogEngine};
use crate::lost::{LostLog, left_of};
use crate::wrong::Wrong;
use aries_core::{Engine, Setup};
use engine_restart::{FoundLog, Restarted, log_on, restart, store_of};
use file_devices::FileLog;
use fuzzy_ckpt::LogCheckpoints;
use log_prefix::Front;
use log_store::Master;
use page_core::{MAX_PAGES, zeros};
use page_store::MemStore;
use sqlite_disk::Disk;
use std::alloc::{AllocError, Global};

/// What an opening comes to: an engine, or what the disk has once the power was cut meanwhile.
#[derive(Drop)]
pub enum Opening {
    Engine(LogEngine),
    Cut(Vec<u8>),
}

/// What a restart comes to.
#[derive(Drop)]
pub enum Restart {
    Done(Ready),
    Cut(Vec<u8>),
}

/// A database that was restarted, and of which no engine is made yet.
#[derive(Drop)]
pub struct Ready {
    pub restarted: Restarted,
    device: FileLog<Drive>,
    /// Its last complete checkpoint.
    pub master: Option<Master>,
    /// How many records were found.
    pub found: usize,
    /// One of them is a record that nobody wrote.
    pub is_strange: bool,
    /// They were read, and not stored again.
    pub is_read: bool,
    ghost lasting: { LastsOnFile restarted.log device },
}

/// Begins a database on a disk that is empty.
pub fn begin(
    alloc: Global,
    setup: Setup,
    drive: Drive,
    chance: &mut Chance,
) -> Result<Opening, Wrong>
    requires pages { IsPageCount setup.pages }
    requires frames { IsFrameCount setup.frames }
    requires usable { IsTrue (⟦<Drive as Disk>⟧.is_usable drive) }
{
    let Ok(device) = FileLog::emptied(alloc, drive) else {
        return Ok(Opening::Cut(Vec::new(alloc)));
    };
    let store = MemStore::new(alloc, setup.pages)?;
    match Engine::new(alloc, setup, store, device) {
        Ok(engine) => Ok(Opening::Engine(engine)),
        Err((_, device)) => Ok(Opening::Cut(left_of(alloc, &device.into_disk(), chance)?)),
    }
}

/// Reads the log that a disk with these bytes has, compares it with the one that was lost, stores it
/// again, unless it was closed, and takes back what is open in it.
pub fn restart_on(
    alloc: Global,
    bytes: &[u8],
    drive: Drive,
    lost: &LostLog,
    is_closed: bool,
    chance: &mut Chance,
) -> Result<Restart, Wrong>
    requires { IsTrue (⟦<Drive as Disk>⟧.is_usable drive) }
{
    let mut read = zeros(alloc, bytes.len())?;
    let Ok(device) = FileLog::found(alloc, drive, &mut read) else {
        return Ok(Restart::Cut(Vec::from_slice(alloc, bytes)?));
    };
    let Ok(mut there) = log_on(alloc, read, device) else {
        return Err(Wrong::NotOpened);
    };
    let records = there.front.log().records();
    lost.check_forced(records)?;
    let (found, is_strange) = (records.len(), lost.is_strange(records));
    let master = master_of(&there.front);
    let is_read = is_closed && there.front.cut().is_none();
    let is_kept = keep(&mut there, is_read);
    let FoundLog { front, device, .. } = there;
    if !is_kept {
        return cut_off(alloc, device, chance);
    }
    match restart(alloc, front, device) {
        Ok((restarted, device)) => Ok(Restart::Done(Ready {
            restarted,
            device,
            master,
            found,
            is_strange,
            is_read,
        })),
        Err((_, device)) => cut_off(alloc, device, chance),
    }
}

/// Stores the log again, and has it alone last on its disk, unless it is to be taken as it was read.
/// Answers whether it lasts.
fn keep(there: &mut FoundLog<FileLog<Drive>>, is_read: bool) -> bool
    requires { LastsOnFile there.old.front.log there.old.device }
    ensures front { there.new.front ≡ there.old.front }
    ensures lasting { IsTrue result → LastsOnFile there.new.front.log there.new.device }
{
    is_read || there.keep_front().is_ok()
}

fn cut_off(alloc: Global, device: FileLog<Drive>, chance: &mut Chance) -> Result<Restart, Wrong> {
    Ok(Restart::Cut(left_of(alloc, &device.into_disk(), chance)?))
}

/// The last complete checkpoint of a log.
fn master_of(front: &Front) -> Option<Master> {
    match LogCheckpoints::of(front.analysis()).last {
        Some(point) => Some(Master {
            begin: point.begin,
            end: point.end,
        }),
        None => None,
    }
}

impl Ready {
    ghost use Rattle.buffer_pool.specs.Pool.{IsFrameCount};

    /// What is known of its log where the power is cut meanwhile.
    pub fn lost(&self, alloc: Global) -> Result<LostLog, AllocError> {
        let undone = self.restarted.records();
        LostLog::of_restart(alloc, self.found, undone, self.is_strange)
    }

    /// An engine that goes on from there.
    #[tactic(auto, using(crate::proofs::Pages::are_numbered))]
    pub fn into_engine(self, alloc: Global, frames: u32) -> Result<LogEngine, Wrong>
        requires { IsFrameCount frames }
    {
        let Ready {
            restarted,
            device,
            ..
        } = self;
        let pages = restarted.pages();
        if pages.is_empty() || pages.len() > MAX_PAGES as usize {
            return Err(Wrong::NotOpened);
        }
        let store = store_of(alloc, pages)?;
        match restarted.into_engine(alloc, frames, store, device) {
            Ok(engine) => Ok(engine),
            Err(_) => Err(Wrong::NotOpened),
        }
    }
}
