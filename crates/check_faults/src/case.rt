//! What is played, and which calls fail.

ghost use Rattle.std.specs.Prelude.{◌≡◌, IfOk, IfSome};
ghost use Rattle.page_core.specs.Volume.{formatted_pages};
ghost use Rattle.buffer_pool.specs.Pool.{IsFrameCount};
ghost use Rattle.log_records.specs.Log.{IsPageCount};

use aries_core::{Event, PlayFault, Played, Reply, Setup, play};
use buffer_pool::MAX_FRAMES;
use copy_coverage::Retired;
use log_store::{FaultyDevice, MemDevice};
use page_core::{MAX_PAGES, PageNo};
use page_store::{FaultyStore, MemStore};
use std::alloc::{AllocError, Global};

/// The call that fails, counted from 1, and whether it fails late. At 0 none fails.
#[derive(Clone, Copy)]
struct Fault {
    call: u64,
    is_late: bool,
}

impl Fault {
    /// The word 3 names the third call, and 3l the same one, which fails late.
    fn of(word: &str) -> Option<Fault> {
        let (number, is_late) = match word.strip_suffix("l") {
            Some(number) => (number, true),
            None => (word, false),
        };
        Some(Fault {
            call: number.parse().ok()?,
            is_late,
        })
    }
}

/// The page that cannot be read once so many calls of the store were made, until it is written.
#[derive(Clone, Copy)]
struct Damage {
    page: u32,
    calls: u64,
}

impl Damage {
    /// The word 2@7 names page 2, which is damaged once 7 calls were made.
    fn of(word: &str) -> Option<Damage> {
        let (page, calls) = word.split_once("@")?;
        Some(Damage {
            page: page.parse().ok()?,
            calls: calls.parse().ok()?,
        })
    }
}

/// How large the engine is, which calls of its store and of its device fail, and which page of the
/// store is damaged.
#[derive(Clone, Copy)]
pub struct Case {
    pub setup: Setup,
    store: Fault,
    device: Fault,
    damage: Option<Damage>,
}

impl Case {
    /// The case that these words tell: the counts of pages and of frames, the two calls, and the
    /// damaged page, or `none`.
    pub fn of(words: &[String]) -> Option<Case>
        ensures { IfSome result (λ case.
            IsPageCount case.setup.pages × IsFrameCount case.setup.frames) }
    {
        let [pages, frames, store, device, damage] = words else {
            return None;
        };
        let (pages, frames) = (pages.as_str().parse().ok()?, frames.as_str().parse().ok()?);
        if pages == 0 || pages > MAX_PAGES || frames == 0 || frames > MAX_FRAMES {
            return None;
        }
        let damage = match damage.as_str() {
            "none" => None,
            word => Some(Damage::of(word)?),
        };
        Some(Case {
            setup: Setup { pages, frames },
            store: Fault::of(store.as_str())?,
            device: Fault::of(device.as_str())?,
            damage,
        })
    }

    /// A store whose call fails that is to fail, and whose page is damaged that is to be, if the
    /// volume has it.
    fn store(&self, alloc: Global) -> Result<FaultyStore, AllocError>
        requires { IsPageCount self.now.setup.pages }
        ensures { IfOk result (λ store. store.pages ≡ formatted_pages self.now.setup.pages) }
    {
        let store = MemStore::new(alloc, self.setup.pages)?;
        let mut store = if self.store.is_late {
            FaultyStore::late(alloc, store, self.store.call)?
        } else {
            FaultyStore::new(alloc, store, self.store.call)?
        };
        if let Some(damage) = self.damage {
            if (damage.page as usize) < store.stored().len() {
                store.damage_from(PageNo(damage.page), damage.calls);
            }
        }
        Ok(store)
    }

    /// A device with room for so many records, whose call fails that is to fail.
    fn device(&self, alloc: Global, records: usize) -> Result<FaultyDevice, AllocError> {
        let device = MemDevice::new(alloc, records)?;
        Ok(if self.device.is_late {
            FaultyDevice::late(device, self.device.call)
        } else {
            FaultyDevice::new(device, self.device.call)
        })
    }

    /// Plays these events, and gives the replies and what the engine leaves.
    pub fn play(&self, alloc: Global, events: &[Event]) -> Result<(Vec<Reply>, Retired), PlayFault>
        requires pages { IsPageCount self.now.setup.pages }
        requires frames { IsFrameCount self.now.setup.frames }
    {
        let store = self.store(alloc).map_err(|_| PlayFault::OutOfMemory)?;
        let device = self
            .device(alloc, events.len())
            .map_err(|_| PlayFault::OutOfMemory)?;
        let Played { replies, engine } = play(alloc, self.setup, store, device, events).map_err(|(
            fault,
            _,
        )| fault)?;
        Ok((replies, engine.retire()))
    }
}
