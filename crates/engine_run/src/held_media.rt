//! The calls of a shared engine that write pages, take checkpoints and make copies, and that grow
//! its volume.

ghost use Rattle.std.specs.Prelude.{◌≡◌, length, Err, IfErr, IfOk};
ghost use Rattle.copy_vault.specs.Vault.{IsOfId, OpenRefuses, complete, complete_refusal};
ghost use Rattle.copy_vault.specs.Vault.{pages_read, state_of};
ghost use Rattle.engine_rules.specs.Asked.{asked};
ghost use Rattle.engine_rules.specs.Step.{Step, gather_answer, reply_of, took_answer};
ghost use Rattle.engine_rules.specs.Uses.{AsksStore, ForcesDevice};
ghost use Rattle.engine_calls.specs.declared.event.Answer.TheVariants as answer;
ghost use Rattle.engine_calls.specs.declared.event.Event.TheVariants as event;
ghost use Rattle.engine_run.specs.Flushed.{RepliesOf};
ghost use Rattle.engine_run.specs.Replies.{MadeOn, RepliesBy};
ghost use Rattle.engine_run.specs.CopyWrite.{RefusesCopy};
ghost use Rattle.engine_run.specs.Work.{OpensCopy, copy_event};

use crate::held::Held;
use crate::life::Life;
use aries_core::{Gathered, Refusal, Took};
use copy_vault::{CopyFault, CopyId, CopyKind, LentCopy};
use fuzzy_ckpt::Point;
use log_store::LogDevice;
use page_core::{Lsn, PageNo};
use page_store::PageStore;

impl<S: PageStore, D: LogDevice, G: Life> Held<S, D, G> {
    /// Forces the whole log, as `Engine::force` does.
    pub fn force(&mut self) -> Result<Lsn, Refusal>
        ensures step { Step self.old.engine.state event.Force (reply_of answer.Forced result)
            self.new.engine.state }
        ensures store { self.new.engine.store ≡ self.old.engine.store }
        ensures device { ForcesDevice D.called D.synced D.failures D.fails_from self.old.engine
            result self.new.engine }
    {
        self.engine.force()
    }

    /// Begins to write a page, as `Engine::write_begin` does.
    pub fn write_begin(&mut self, page: PageNo) -> Result<Lsn, Refusal>
        ensures step { Step self.old.engine.state (event.WriteBegin page)
            (reply_of answer.Writing result) self.new.engine.state }
        ensures store { self.new.engine.store ≡ self.old.engine.store }
        ensures device { ForcesDevice D.called D.synced D.failures D.fails_from self.old.engine
            result self.new.engine }
    {
        self.engine.write_begin(page)
    }

    /// Ends a write of a page, as `Engine::write_end` does.
    pub fn write_end(&mut self, page: PageNo) -> Result<Lsn, Refusal>
        ensures step { Step self.old.engine.state (event.WriteEnd page)
            (reply_of answer.Written result) self.new.engine.state }
        ensures device { self.new.engine.device ≡ self.old.engine.device }
        ensures store { AsksStore S.gave S.wrote S.grew S.failures
            (asked self.old.engine.state (event.WriteEnd page)) self.old.engine result
            self.new.engine }
    {
        self.engine.write_end(page)
    }

    /// Begins to write a page, as `write_begin` does, and tells how many pages the volume has then.
    pub(crate) fn begin_write(&mut self, page: PageNo) -> (Result<Lsn, Refusal>, u32)
        ensures { RepliesOf (MadeOn S.PageStore D.LogDevice) (event.WriteBegin page)
            (reply_of answer.Writing result.0) result.1 }
    {
        let _ = self.engine.log_end();
        let begun = self.engine.write_begin(page);
        let log = self.engine.log();
        (begun, log.pages())
    }

    /// Ends a write of a page, as `write_end` does, and tells how many pages the volume has then.
    pub(crate) fn end_write(&mut self, page: PageNo) -> (Result<Lsn, Refusal>, u32)
        ensures { RepliesOf (MadeOn S.PageStore D.LogDevice) (event.WriteEnd page)
            (reply_of answer.Written result.0) result.1 }
    {
        let _ = self.engine.log_end();
        let ended = self.engine.write_end(page);
        let log = self.engine.log();
        (ended, log.pages())
    }

    /// Begins a checkpoint, as `Engine::ckpt_begin` does.
    pub fn ckpt_begin(&mut self) -> Result<Lsn, Refusal>
        ensures step { Step self.old.engine.state event.CkptBegin (reply_of answer.Logged result)
            self.new.engine.state }
        ensures store { self.new.engine.store ≡ self.old.engine.store }
        ensures device { self.new.engine.device ≡ self.old.engine.device }
    {
        self.engine.ckpt_begin()
    }

    /// Does one step of the gather of the open checkpoint, as `Engine::ckpt_gather` does.
    pub fn ckpt_gather(&mut self) -> Result<Gathered, Refusal>
        ensures step { Step self.old.engine.state event.CkptGather (reply_of gather_answer result)
            self.new.engine.state }
        ensures store { self.new.engine.store ≡ self.old.engine.store }
        ensures device { self.new.engine.device ≡ self.old.engine.device }
    {
        self.engine.ckpt_gather()
    }

    /// Ends the open checkpoint, as `Engine::ckpt_end` does.
    pub fn ckpt_end(&mut self) -> Result<Point, Refusal>
        ensures step { Step self.old.engine.state event.CkptEnd
            (reply_of (λ p. answer.Point p.begin p.end p.redo) result) self.new.engine.state }
        ensures noted { IfOk result (λ p. self.new.engine.state.master ≡ Some p) }
        ensures store { self.new.engine.store ≡ self.old.engine.store }
        ensures device { ForcesDevice D.called D.synced D.failures D.fails_from self.old.engine
            result self.new.engine }
        ensures replies { RepliesBy (MadeOn S.PageStore D.LogDevice) event.CkptEnd
            (reply_of (λ p. answer.Point p.begin p.end p.redo) result) }
    {
        let _ = self.engine.log_end();
        let result = self.engine.ckpt_end();
        let _ = self.engine.log();
        result
    }

    /// Begins a full image copy, as `Engine::copy_full` does.
    pub fn copy_full(&mut self) -> Result<CopyId, Refusal>
        ensures step { Step self.old.engine.state event.CopyFull (reply_of answer.Copied result)
            self.new.engine.state }
        ensures store { self.new.engine.store ≡ self.old.engine.store }
        ensures device { self.new.engine.device ≡ self.old.engine.device }
    {
        self.engine.copy_full()
    }

    /// Begins an incremental image copy, as `Engine::copy_inc` does.
    pub fn copy_inc(&mut self, parent: CopyId) -> Result<CopyId, Refusal>
        ensures step { Step self.old.engine.state (event.CopyInc parent)
            (reply_of answer.Copied result) self.new.engine.state }
        ensures store { self.new.engine.store ≡ self.old.engine.store }
        ensures device { self.new.engine.device ≡ self.old.engine.device }
    {
        self.engine.copy_inc(parent)
    }

    /// Begins an image copy of a kind, as `copy_full` or `copy_inc` does.
    fn begin_copy(&mut self, kind: &CopyKind) -> Result<CopyId, Refusal>
        ensures step { Step self.old.engine.state (copy_event kind.now)
            (reply_of answer.Copied result) self.new.engine.state }
        ensures store { self.new.engine.store ≡ self.old.engine.store }
        ensures device { self.new.engine.device ≡ self.old.engine.device }
    {
        match *kind {
            CopyKind::Full => self.copy_full(),
            CopyKind::Inc(parent) => self.copy_inc(parent),
        }
    }

    /// Begins an image copy of a kind, and answers its id and how many pages it is of. The volume
    /// may have more.
    pub(crate) fn open_copy(&mut self, kind: &CopyKind) -> Result<(CopyId, u32), Refusal>
        ensures opened { IfOk result (λ a.
            OpensCopy (MadeOn S.PageStore D.LogDevice) kind.now a.0 a.1) }
        ensures refused { IfErr result (λ why.
            RepliesBy (MadeOn S.PageStore D.LogDevice) (copy_event kind.now) (Err why)) }
    {
        let _ = self.engine.log_end();
        let begun = self.begin_copy(kind);
        let _ = self.engine.log();
        let id = match begun {
            Ok(id) => id,
            Err(why) => return Err(why),
        };
        Ok((id, self.copy_pages(id)))
    }

    /// How many pages a copy is of that is being read, and 0 where there is none of this id.
    fn copy_pages(&self, copy: CopyId) -> u32
        ensures { result ≡ length (pages_read (state_of self.now.engine.state.copies copy)) }
    {
        match self.engine.copies().reading(copy) {
            Some(reading) => reading.pages(),
            None => 0,
        }
    }

    /// Has a copy decide of a page as it is stored, as `Engine::take` does.
    pub fn take(&mut self, copy: CopyId, page: PageNo) -> Result<Took, Refusal>
        ensures step { Step self.old.engine.state (event.Take copy page)
            (reply_of took_answer result) self.new.engine.state }
        ensures device { self.new.engine.device ≡ self.old.engine.device }
        ensures store { AsksStore S.gave S.wrote S.grew S.failures
            (asked self.old.engine.state (event.Take copy page)) self.old.engine result
            self.new.engine }
        ensures replies { RepliesBy (MadeOn S.PageStore D.LogDevice) (event.Take copy page)
            (reply_of took_answer result) }
    {
        let _ = self.engine.log_end();
        let result = self.engine.take(copy, page);
        let _ = self.engine.log();
        result
    }

    /// Makes a copy complete, as `Engine::seal` does.
    pub fn seal(&mut self, copy: CopyId) -> Result<u32, Refusal>
        ensures step { Step self.old.engine.state (event.Seal copy) (reply_of answer.Sealed result)
            self.new.engine.state }
        ensures store { self.new.engine.store ≡ self.old.engine.store }
        ensures device { self.new.engine.device ≡ self.old.engine.device }
        ensures replies { RepliesBy (MadeOn S.PageStore D.LogDevice) (event.Seal copy)
            (reply_of answer.Sealed result) }
    {
        let _ = self.engine.log_end();
        let result = self.engine.seal(copy);
        let _ = self.engine.log();
        result
    }

    /// Drops a copy that is being read, as `Engine::drop_copy` does.
    pub fn drop_copy(&mut self, copy: CopyId) -> Result<(), Refusal>
        ensures step { Step self.old.engine.state (event.DropCopy copy)
            (reply_of (λ none. answer.Dropped) result) self.new.engine.state }
        ensures store { self.new.engine.store ≡ self.old.engine.store }
        ensures device { self.new.engine.device ≡ self.old.engine.device }
    {
        self.engine.drop_copy(copy)
    }

    /// Lends a complete copy, as `Engine::lend_copy` does. It is no event, and changes nothing.
    pub fn lend_copy(&mut self, copy: CopyId) -> Result<LentCopy, CopyFault>
        ensures ok { IfOk result (λ lent.
            state_of self.old.engine.state.copies copy ≡ complete lent) }
        ensures kept { IfOk result (λ lent. IsOfId self.old.engine.state.copies copy lent) }
        ensures err { IfErr result
            (OpenRefuses (complete_refusal (state_of self.old.engine.state.copies copy))) }
        ensures refused { IfErr result (RefusesCopy copy) }
        ensures same { self.new ≡ self.old }
    {
        let _ = self.engine.log_end();
        self.engine.lend_copy(copy)
    }

    /// Stores a page anew, from a complete copy and the log, as `Engine::repair` does.
    pub fn repair(&mut self, copy: CopyId, page: PageNo) -> Result<Lsn, Refusal>
        ensures step { Step self.old.engine.state (event.Repair copy page)
            (reply_of answer.Repaired result) self.new.engine.state }
        ensures device { ForcesDevice D.called D.synced D.failures D.fails_from self.old.engine
            result self.new.engine }
        ensures store { AsksStore S.gave S.wrote S.grew S.failures
            (asked self.old.engine.state (event.Repair copy page)) self.old.engine result
            self.new.engine }
        ensures replies { RepliesBy (MadeOn S.PageStore D.LogDevice) (event.Repair copy page)
            (reply_of answer.Repaired result) }
    {
        let _ = self.engine.log_end();
        let result = self.engine.repair(copy, page);
        let _ = self.engine.log();
        result
    }

    /// Grows the volume to so many pages, as `Engine::extend` does. An Extend is of no transaction,
    /// so no share counts it.
    pub fn extend(&mut self, count: u32) -> Result<Lsn, Refusal>
        ensures step { Step self.old.engine.state (event.Extend count)
            (reply_of answer.Logged result) self.new.engine.state }
        ensures device { self.new.engine.device ≡ self.old.engine.device }
        ensures store { AsksStore S.gave S.wrote S.grew S.failures
            (asked self.old.engine.state (event.Extend count)) self.old.engine result
            self.new.engine }
        ensures replies { RepliesBy (MadeOn S.PageStore D.LogDevice) (event.Extend count)
            (reply_of answer.Logged result) }
    {
        let _ = self.engine.log_end();
        let result = self.engine.extend(count);
        let _ = self.engine.log();
        result
    }
}
