//! Retiring an engine: what it leaves behind.

ghost use Rattle.std.specs.Prelude.{◌≡◌};
ghost use Rattle.std.specs.Option.{option_map};
ghost use Rattle.engine_rules.specs.EngineState.{log_of, master_record};

use crate::engine::Engine;
use copy_coverage::Retired;
use fuzzy_ckpt::Point;
use log_store::{LogDevice, Master};
use page_store::PageStore;

impl<S: PageStore + Drop, D: LogDevice + Drop> Engine<S, D> {
    /// Ends the engine, and leaves its log, its last complete checkpoint and its image copies. The
    /// store, the device and what is only in memory of the pages go. Neither of the two is called:
    /// `into_parts` hands them out as they are, and what lets go of them knows no call of theirs.
    pub fn retire(self) -> Retired
        ensures log { result.log ≡ log_of self.state }
        ensures forced_end { result.forced_end ≡ self.state.forced_end }
        ensures master { result.master ≡ option_map master_record self.state.master }
        ensures copies { result.copies ≡ self.state.copies }
    {
        left_of(self.into_parts())
    }

    /// As `retire`, but the store and the device are handed back, as they are: neither is called.
    pub fn into_parts(self) -> (Retired, S, D)
        ensures log { result.0.log ≡ log_of self.state }
        ensures forced_end { result.0.forced_end ≡ self.state.forced_end }
        ensures master { result.0.master ≡ option_map master_record self.state.master }
        ensures copies { result.0.copies ≡ self.state.copies }
        ensures store { result.1 ≡ self.store }
        ensures device { result.2 ≡ self.device }
    {
        let Engine {
            log,
            txns: _,
            returns: _,
            pool,
            master,
            session: _,
            vault,
            alloc: _,
        } = self;
        let forced_end = log.forced_end();
        let (log, device) = log.into_parts();
        let retired = Retired::new(log, forced_end, master_of(master), vault);
        (retired, pool.into_store(), device)
    }
}

/// What is left of an engine that was taken apart. Its types say of the store and the device only
/// that they may be let go, so that they cannot be called here.
fn left_of<S: Drop, D: Drop>(parts: (Retired, S, D)) -> Retired
    ensures { result ≡ parts.0 }
{
    let (retired, _, _) = parts;
    retired
}

/// The master record of a complete checkpoint.
fn master_of(point: Option<Point>) -> Option<Master>
    ensures { result ≡ option_map master_record point }
{
    match point {
        Some(point) => Some(Master {
            begin: point.begin,
            end: point.end,
        }),
        None => None,
    }
}
