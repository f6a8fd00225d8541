//! The engine's calls that make image copies while other calls change and write the pages.

ghost use Rattle.std.specs.Prelude.{◌≡◌, Some, None, IfErr, IfOk, OnOk};
ghost use Rattle.std.specs.Option.{option_map_or};
ghost use Rattle.copy_vault.specs.CopyWrite.{LeavesCopy, WritesCopy};
ghost use Rattle.copy_vault.specs.Vault.{IsOfId, OpenRefuses, complete, complete_refusal, state_of};
ghost use Rattle.engine_rules.specs.Asked.{asked};
ghost use Rattle.engine_rules.specs.Refusal.{refusal};
ghost use Rattle.engine_rules.specs.Step.{Step, reply_of, took_answer};
ghost use Rattle.engine_rules.specs.Uses.{AsksStore};
ghost use Rattle.engine_calls.specs.declared.event.Answer.TheVariants as answer;
ghost use Rattle.engine_calls.specs.declared.event.Event.TheVariants as event;

use crate::engine::Engine;
use copy_vault::{CopyFault, CopyId, CopyWriteFault, Decision, LentCopy};
use engine_calls::{Refusal, Took};
use log_store::LogDevice;
use page_core::{Lsn, PageNo};
use page_store::PageStore;
use std::io::Write;

impl<S: PageStore, D: LogDevice> Engine<S, D> {
    /// Begins a full image copy (ARIES, section 8), and answers its id. The copy notes the begin
    /// LSN and the redo point of the last complete checkpoint, whatever checkpoint is open. It is
    /// of the pages that the volume had where that checkpoint began.
    /// Refusals in order: `NoMaster`, `TooManyCopies`, `OutOfMemory`.
    pub fn copy_full(&mut self) -> Result<CopyId, Refusal>
        ensures step { Step self.old.state event.CopyFull (reply_of answer.Copied result)
            self.new.state }
        ensures store { self.new.store ≡ self.old.store }
        ensures device { self.new.device ≡ self.old.device }
    {
        let Some(master) = self.master else {
            return Err(Refusal::NoMaster);
        };
        Ok(
            self.vault
                .open_full(self.alloc, master.pages, master.begin, master.redo)?,
        )
    }

    /// Begins an incremental image copy, whose parent is the complete copy of this id, and answers
    /// its own id. It notes the last complete checkpoint as a full one does. Refusals in order:
    /// `NoCopy`, `CopyNotComplete`, `TooManyCopies`, `OutOfMemory`.
    pub fn copy_inc(&mut self, parent: CopyId) -> Result<CopyId, Refusal>
        ensures step { Step self.old.state (event.CopyInc parent) (reply_of answer.Copied result)
            self.new.state }
        ensures store { self.new.store ≡ self.old.store }
        ensures device { self.new.device ≡ self.old.device }
    {
        let begin = self.noted_begin();
        let redo = self.noted_redo();
        let pages = self.noted_pages();
        Ok(self.vault.open_inc(self.alloc, parent, pages, begin, redo)?)
    }

    /// Has an open copy decide on a stored page. A full copy takes it. An incremental copy takes it
    /// if its LSN is at least the redo point of the parent, and otherwise keeps the parent's page.
    /// Refusals in order: `NoCopy`, `CopyNotOpen`, `PageOut`, `PageDecided`, `OutOfMemory`,
    /// `StoreFault`.
    pub fn take(&mut self, copy: CopyId, page: PageNo) -> Result<Took, Refusal>
        ensures step { Step self.old.state (event.Take copy page) (reply_of took_answer result)
            self.new.state }
        ensures device { self.new.device ≡ self.old.device }
        ensures store { AsksStore S.gave S.wrote S.grew S.failures
            (asked self.old.state (event.Take copy page)) self.old result self.new }
    {
        self.find_takeable(copy, page)?;
        if self.vault.make_room(self.alloc, copy).is_err() {
            return Err(Refusal::OutOfMemory);
        }
        let Ok(stored) = self.pool.stored(page) else {
            return Err(Refusal::StoreFault);
        };
        match self.vault.decide(copy, page, &stored) {
            Decision::Taken => Ok(Took::Taken(stored.lsn)),
            Decision::Kept => Ok(Took::Kept),
        }
    }

    /// Seals an open copy, and answers how many pages it took. Refusals in order: `NoCopy`,
    /// `CopyNotOpen`, `PagesLeft`. This takes no memory.
    pub fn seal(&mut self, copy: CopyId) -> Result<u32, Refusal>
        ensures step { Step self.old.state (event.Seal copy) (reply_of answer.Sealed result)
            self.new.state }
        ensures store { self.new.store ≡ self.old.store }
        ensures device { self.new.device ≡ self.old.device }
    {
        Ok(self.vault.seal(copy)?)
    }

    /// Drops an open copy. Its id is not given again. Refusals in order: `NoCopy`, `CopyNotOpen`.
    /// This takes no memory.
    pub fn drop_copy(&mut self, copy: CopyId) -> Result<(), Refusal>
        ensures step { Step self.old.state (event.DropCopy copy)
            (reply_of (λ none. answer.Dropped) result) self.new.state }
        ensures store { self.new.store ≡ self.old.store }
        ensures device { self.new.device ≡ self.old.device }
    {
        Ok(self.vault.drop_open(copy)?)
    }

    /// Lends a complete copy, which can then be read and written while the engine goes on. It is no
    /// event, and changes nothing. Refusals in order: `NoCopy`, `CopyNotComplete`, `OutOfMemory`.
    pub fn lend_copy(&mut self, copy: CopyId) -> Result<LentCopy, CopyFault>
        ensures ok { IfOk result (λ lent.
            state_of self.old.state.copies copy ≡ complete lent) }
        ensures kept { IfOk result (λ lent. IsOfId self.old.state.copies copy lent) }
        ensures err { IfErr result
            (OpenRefuses (complete_refusal (state_of self.old.state.copies copy))) }
        ensures same { self.new ≡ self.old }
    {
        self.vault.lend(self.alloc, copy)
    }

    /// Writes the archive of a complete copy, as `write_archive` of copy_vault does. It is no event,
    /// and changes nothing. Refusals in order: `NoCopy`, `CopyNotComplete`; then the faults of
    /// `write_archive`. The writer is not flushed.
    pub fn write_copy<W: Write>(&self, copy: CopyId, writer: &mut W) -> Result<(), CopyWriteFault>
        ensures ok { OnOk result (WritesCopy self.now.state.copies copy (W.contents writer.old)
            (W.contents writer.new)) }
        ensures err { IfErr result (LeavesCopy self.now.state.copies copy (W.contents writer.old)
            (W.contents writer.new)) }
    {
        self.vault.write_copy(self.alloc, copy, writer)
    }

    /// The begin LSN of the last complete checkpoint.
    fn noted_begin(&self) -> Lsn
        ensures { result ≡ option_map_or (λ p. p.begin) self.now.state.master 0 }
    {
        match self.master {
            Some(master) => master.begin,
            None => Lsn(0),
        }
    }

    /// The page count of the volume where the last complete checkpoint began.
    fn noted_pages(&self) -> u32
        ensures { result ≡ option_map_or (λ p. p.pages) self.now.state.master 0 }
    {
        match self.master {
            Some(master) => master.pages,
            None => 0,
        }
    }

    /// The redo point of the last complete checkpoint.
    fn noted_redo(&self) -> Lsn
        ensures { result ≡ option_map_or (λ p. p.redo) self.now.state.master 0 }
    {
        match self.master {
            Some(master) => master.redo,
            None => Lsn(0),
        }
    }

    /// The copy is being read, and has not decided of this page, which is one of its own.
    fn find_takeable(&self, copy: CopyId, page: PageNo) -> Result<(), Refusal>
        ensures refused { IfErr result (λ why.
            refusal self.now.state (event.Take copy page) ≡ Some why) }
        ensures free { OnOk result (refusal self.now.state (event.Take copy page) ≡ None) }
    {
        let reading = self.vault.reading_copy(copy)?;
        if page.0 >= reading.pages() {
            return Err(Refusal::PageOut);
        }
        if !reading.is_undecided(page) {
            return Err(Refusal::PageDecided);
        }
        Ok(())
    }
}
