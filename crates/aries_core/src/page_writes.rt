//! The calls of the engine that write a page to its store in two steps.

ghost use Rattle.std.specs.Prelude.{◌≡◌, Some, None, IfErr, OnOk};
ghost use Rattle.engine_rules.specs.Asked.{asked};
ghost use Rattle.engine_rules.specs.Refusal.{refusal};
ghost use Rattle.engine_rules.specs.Step.{Step, reply_of};
ghost use Rattle.engine_rules.specs.Uses.{AsksStore, ForcesDevice};
ghost use Rattle.engine_calls.specs.declared.event.Answer.TheVariants as answer;
ghost use Rattle.engine_calls.specs.declared.event.Event.TheVariants as event;

use crate::engine::Engine;
use engine_calls::Refusal;
use log_store::LogDevice;
use page_core::{Lsn, PageNo};
use page_store::PageStore;

impl<S: PageStore, D: LogDevice> Engine<S, D> {
    /// Begins to write a page: takes an image of it as it is now, forces the log through the
    /// image's LSN, and answers that LSN. So a page is never stored before the records of its
    /// changes (write-ahead logging; ARIES, section 1.1). Other calls may go on meanwhile.
    ///
    /// Refusals in order: `PageOut`, `WriteBegun`, `NotDirty`, `OutOfMemory`, `LogFault`. At
    /// `LogFault` no image is kept.
    pub fn write_begin(&mut self, page: PageNo) -> Result<Lsn, Refusal>
        ensures step { Step self.old.state (event.WriteBegin page) (reply_of answer.Writing result)
            self.new.state }
        ensures store { self.new.store ≡ self.old.store }
        ensures device { ForcesDevice D.called D.synced D.failures D.fails_from self.old result
            self.new }
    {
        self.find_dirty(page)?;
        let Ok(image) = self.pool.image_of(page) else {
            return Err(Refusal::OutOfMemory);
        };
        if self.log.force_to(image.page().lsn).is_err() {
            return Err(Refusal::LogFault);
        }
        Ok(self.pool.write_begin(image))
    }

    /// Ends a write of a page: stores the image, and answers its LSN. It takes no memory. A page
    /// that was changed since the image stays dirty, from the first such change on.
    ///
    /// Refusals in order: `PageOut`, `NoWrite`, `StoreFault`. At `StoreFault` the write has not
    /// ended: it still has its image, and the call may be made again. What is stored is either
    /// page, the older one or the image.
    pub fn write_end(&mut self, page: PageNo) -> Result<Lsn, Refusal>
        ensures step { Step self.old.state (event.WriteEnd page) (reply_of answer.Written result)
            self.new.state }
        ensures device { self.new.device ≡ self.old.device }
        ensures store { AsksStore S.gave S.wrote S.grew S.failures
            (asked self.old.state (event.WriteEnd page)) self.old result self.new }
    {
        self.find_writing(page)?;
        match self.pool.write_end(page) {
            Ok(lsn) => Ok(lsn),
            Err(_) => Err(Refusal::StoreFault),
        }
    }

    /// A page of which a write may begin.
    fn find_dirty(&self, page: PageNo) -> Result<(), Refusal>
        ensures refused { IfErr result (λ why.
            refusal self.now.state (event.WriteBegin page) ≡ Some why) }
        ensures dirty { OnOk result (refusal self.now.state (event.WriteBegin page) ≡ None) }
    {
        if page.0 >= self.log.pages() {
            return Err(Refusal::PageOut);
        }
        if self.pool.is_writing(page) {
            return Err(Refusal::WriteBegun);
        }
        if self.pool.rec_lsn(page).is_none() {
            return Err(Refusal::NotDirty);
        }
        Ok(())
    }

    /// A page of which a write is in progress.
    fn find_writing(&self, page: PageNo) -> Result<(), Refusal>
        ensures refused { IfErr result (λ why.
            refusal self.now.state (event.WriteEnd page) ≡ Some why) }
        ensures writing { OnOk result (refusal self.now.state (event.WriteEnd page) ≡ None) }
    {
        if page.0 >= self.log.pages() {
            return Err(Refusal::PageOut);
        }
        if !self.pool.is_writing(page) {
            return Err(Refusal::NoWrite);
        }
        Ok(())
    }
}
