//! The engine's call that stores a page anew, rebuilt from image copies and the log.

ghost use Rattle.std.specs.Prelude.{◌≡◌, Some, None, IfOk, IfErr, OnOk};
ghost use Rattle.log_records.specs.Coverage.{IsPast};
ghost use Rattle.engine_rules.specs.Asked.{asked};
ghost use Rattle.engine_rules.specs.Refusal.{refusal};
ghost use Rattle.engine_rules.specs.Step.{Step, reply_of};
ghost use Rattle.engine_rules.specs.Uses.{AsksStore, ForcesDevice};
ghost use Rattle.engine_calls.specs.declared.event.Answer.TheVariants as answer;
ghost use Rattle.engine_calls.specs.declared.event.Event.TheVariants as event;

use crate::engine::Engine;
use copy_vault::CopyId;
use engine_calls::Refusal;
use log_store::LogDevice;
use page_core::{Lsn, Page, PageNo};
use page_store::PageStore;

impl<S: PageStore, D: LogDevice> Engine<S, D> {
    /// Stores a page anew, as where its stored page cannot be read, and answers its LSN. A complete
    /// copy, those that it stands on, and the log give the page as it is now (ARIES, section 8).
    /// All repairs together look at each record of the log once, and a page that was repaired
    /// before is repaired from there on.
    /// The log is forced through its LSN, then it is stored, and is not dirty any more. No page is
    /// fetched, and a frame that has this one stays as it is.
    ///
    /// Refusals in order: `NoCopy`, `CopyNotComplete`, `PageOut`, `WriteBegun`, `OutOfMemory`,
    /// `LogFault`, `StoreFault`. At `StoreFault` the log is forced, the old page is stored or the
    /// new one, and the page is as dirty as before.
    pub fn repair(&mut self, copy: CopyId, page: PageNo) -> Result<Lsn, Refusal>
        ensures step { Step self.old.state (event.Repair copy page)
            (reply_of answer.Repaired result) self.new.state }
        ensures device { ForcesDevice D.called D.synced D.failures D.fails_from self.old result
            self.new }
        ensures store { AsksStore S.gave S.wrote S.grew S.failures
            (asked self.old.state (event.Repair copy page)) self.old result self.new }
    {
        self.find_repairable(copy, page)?;
        let mut rebuilt = self.copied(copy, page)?;
        if self.log.roll_forward(&mut rebuilt).is_err() {
            return Err(Refusal::OutOfMemory);
        }
        if self.log.force_to(rebuilt.lsn).is_err() {
            return Err(Refusal::LogFault);
        }
        match self.pool.repair(page, &rebuilt) {
            Ok(()) => Ok(rebuilt.lsn),
            Err(_) => Err(Refusal::StoreFault),
        }
    }

    /// The copy is complete, and the page is one of the volume of which no write is in progress.
    fn find_repairable(&self, copy: CopyId, page: PageNo) -> Result<(), Refusal>
        ensures refused { IfErr result (λ why.
            refusal self.now.state (event.Repair copy page) ≡ Some why) }
        ensures may { OnOk result (refusal self.now.state (event.Repair copy page) ≡ None) }
    {
        self.vault.complete_copy(copy)?;
        if page.0 >= self.log.pages() {
            return Err(Refusal::PageOut);
        }
        if self.pool.is_writing(page) {
            return Err(Refusal::WriteBegun);
        }
        Ok(())
    }

    /// The page as the chain of a complete copy has it.
    fn copied(&self, copy: CopyId, page: PageNo) -> Result<Page, Refusal>
        requires { refusal self.now.state (event.Repair copy page) ≡ None }
        ensures past { IfOk result (IsPast self.now.state.log page) }
        ensures err { IfErr result (λ why. why ≡ Refusal.OutOfMemory) }
    {
        let chain = self.vault.chain(self.alloc, copy)?;
        Ok(chain.content(page))
    }
}
