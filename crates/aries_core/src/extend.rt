//! The engine's call that grows its volume.

ghost use Rattle.std.specs.Prelude.{◌≡◌, Some, None, IfErr, OnOk};
ghost use Rattle.engine_rules.specs.Asked.{asked};
ghost use Rattle.engine_rules.specs.Refusal.{refusal};
ghost use Rattle.engine_rules.specs.Step.{Step, reply_of};
ghost use Rattle.engine_rules.specs.Uses.{AsksStore};
ghost use Rattle.engine_calls.specs.declared.event.Answer.TheVariants as answer;
ghost use Rattle.engine_calls.specs.declared.event.Event.TheVariants as event;

use crate::engine::Engine;
use engine_calls::Refusal;
use log_records::Record;
use log_store::LogDevice;
use page_core::{Lsn, MAX_PAGES};
use page_store::PageStore;

impl<S: PageStore, D: LogDevice> Engine<S, D> {
    /// Grows the volume to `count` pages, and answers the LSN of its Extend. The store grows first,
    /// so no record names a page that is not stored. The pages that are added are formatted, and
    /// none of them is in memory.
    ///
    /// Refusals in order: `NotLarger`, `LogFull`, `OutOfMemory`, `StoreFault`. At `StoreFault` the
    /// volume is as before. The store may have more pages than it, so a later growth may find more
    /// there than it needs.
    pub fn extend(&mut self, count: u32) -> Result<Lsn, Refusal>
        ensures step { Step self.old.state (event.Extend count) (reply_of answer.Logged result)
            self.new.state }
        ensures device { self.new.device ≡ self.old.device }
        ensures store { AsksStore S.gave S.wrote S.grew S.failures
            (asked self.old.state (event.Extend count)) self.old result self.new }
    {
        self.find_larger(count)?;
        if self.log.make_room().is_err() {
            return Err(Refusal::OutOfMemory);
        }
        let lsn = self.log.end();
        if self.pool.grow(count).is_err() {
            return Err(Refusal::StoreFault);
        }
        self.log.append(Record::Extend { lsn, pages: count });
        Ok(lsn)
    }

    /// The volume may grow to so many pages.
    fn find_larger(&self, count: u32) -> Result<(), Refusal>
        ensures refused { IfErr result (λ why.
            refusal self.now.state (event.Extend count) ≡ Some why) }
        ensures larger { OnOk result (refusal self.now.state (event.Extend count) ≡ None) }
    {
        let present = self.log.pages();
        if count <= present || count > MAX_PAGES {
            return Err(Refusal::NotLarger(present));
        }
        if !self.has_room(1) {
            return Err(Refusal::LogFull);
        }
        Ok(())
    }
}
