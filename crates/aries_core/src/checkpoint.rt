//! The calls of the engine that take a fuzzy checkpoint in steps.

ghost use Rattle.std.specs.Prelude.{◌≡◌, Some, None, IfErr, IfOk, OnOk};
ghost use Rattle.engine_rules.specs.Refusal.{refusal};
ghost use Rattle.engine_rules.specs.Step.{Step, gather_answer, reply_of};
ghost use Rattle.engine_rules.specs.Uses.{ForcesDevice};
ghost use Rattle.engine_calls.specs.declared.event.Answer.TheVariants as answer;
ghost use Rattle.engine_calls.specs.declared.event.Event.TheVariants as event;

use crate::engine::Engine;
use crate::open_ckpt::OpenCkpt;
use engine_calls::{Gathered, Refusal};
use fuzzy_ckpt::{Ckpt, FinishFault, Point};
use log_store::LogDevice;
use page_core::Lsn;
use page_store::PageStore;

impl<S: PageStore, D: LogDevice> Engine<S, D> {
    /// Begins a checkpoint (ARIES, section 5.4), and answers the LSN of its BeginChkpt. Other calls
    /// go on while it is gathered. Refusals in order: `CkptOpen`, `LogFull`, `OutOfMemory`.
    pub fn ckpt_begin(&mut self) -> Result<Lsn, Refusal>
        ensures step { Step self.old.state event.CkptBegin (reply_of answer.Logged result)
            self.new.state }
        ensures store { self.new.store ≡ self.old.store }
        ensures device { self.new.device ≡ self.old.device }
    {
        self.find_no_ckpt()?;
        let lsn = self.log.end();
        let Ok(ckpt) = Ckpt::begin(&mut self.log) else {
            return Err(Refusal::OutOfMemory);
        };
        self.session = Some(OpenCkpt::Pages(ckpt));
        Ok(lsn)
    }

    /// Does one step of the gather of the open checkpoint: the next dirty pages, at most three, go
    /// into one record; where none is left, it goes on to the open transactions, each of which has
    /// a record of its own; where none is left of these either, it answers `Done`, then and ever
    /// after. Refusals in order: `NoCkpt`, `LogFull`, `OutOfMemory`. A step that appends nothing
    /// takes no memory, and answers neither of the last two.
    pub fn ckpt_gather(&mut self) -> Result<Gathered, Refusal>
        ensures step { Step self.old.state event.CkptGather (reply_of gather_answer result)
            self.new.state }
        ensures store { self.new.store ≡ self.old.store }
        ensures device { self.new.device ≡ self.old.device }
    {
        self.find_gather()?;
        let Some(session) = self.session.take() else {
            unreachable!();
        };
        match session.gather(&mut self.log, &self.pool, &self.txns) {
            Ok(session) => {
                let done = session.is_gathered();
                self.session = Some(session);
                Ok(if done { Gathered::Done } else { Gathered::More })
            }
            Err(session) => {
                self.session = Some(session);
                Err(Refusal::OutOfMemory)
            }
        }
    }

    /// Ends the open checkpoint: appends its EndChkpt with the redo point, forces the log through
    /// it, and makes it the one that the master names. The redo point is the least of the LSN of
    /// its BeginChkpt and of the RecLSNs that it gathered; every change below it is stored.
    ///
    /// Refusals in order: `NoCkpt`, `GatherLeft`, `LogFull`, `OutOfMemory`, `LogFault`. At
    /// `LogFault` the EndChkpt stands in the log, not known to be forced; the checkpoint is closed,
    /// and the master names the one before it.
    pub fn ckpt_end(&mut self) -> Result<Point, Refusal>
        ensures step { Step self.old.state event.CkptEnd
            (reply_of (λ p. answer.Point p.begin p.end p.redo) result) self.new.state }
        ensures noted { IfOk result (λ p. self.new.state.master ≡ Some p) }
        ensures store { self.new.store ≡ self.old.store }
        ensures device { ForcesDevice D.called D.synced D.failures D.fails_from self.old result
            self.new }
    {
        self.find_gathered()?;
        let Some(session) = self.session.take() else {
            unreachable!();
        };
        let Some(ckpt) = session.into_gathered() else {
            unreachable!();
        };
        let point = match ckpt.finish(&mut self.log, &self.pool) {
            Ok(point) => point,
            Err(FinishFault::OutOfMemory(ckpt)) => {
                self.session = Some(OpenCkpt::Gathered(ckpt));
                return Err(Refusal::OutOfMemory);
            }
            Err(FinishFault::LogFault) => return Err(Refusal::LogFault),
        };
        let Point {
            begin,
            end,
            redo,
            pages,
        } = point;
        self.master = Some(Point {
            begin,
            end,
            redo,
            pages,
        });
        Ok(Point {
            begin,
            end,
            redo,
            pages,
        })
    }

    /// The last complete checkpoint whose end is forced.
    pub fn master(&self) -> Option<Point>
        ensures { result ≡ self.now.state.master }
    {
        self.master
    }

    /// No checkpoint is open, and one may begin.
    fn find_no_ckpt(&self) -> Result<(), Refusal>
        ensures refused { IfErr result (λ why.
            refusal self.now.state event.CkptBegin ≡ Some why) }
        ensures free { OnOk result (refusal self.now.state event.CkptBegin ≡ None) }
    {
        if self.session.is_some() {
            return Err(Refusal::CkptOpen);
        }
        if !self.has_room(1) {
            return Err(Refusal::LogFull);
        }
        Ok(())
    }

    /// A checkpoint is open, and its gather may go on.
    fn find_gather(&self) -> Result<(), Refusal>
        ensures refused { IfErr result (λ why.
            refusal self.now.state event.CkptGather ≡ Some why) }
        ensures open { OnOk result (refusal self.now.state event.CkptGather ≡ None) }
    {
        let Some(session) = &self.session else {
            return Err(Refusal::NoCkpt);
        };
        if session.would_append(&self.pool, &self.txns) && !self.has_room(1) {
            return Err(Refusal::LogFull);
        }
        Ok(())
    }

    /// A checkpoint is open, and may end.
    fn find_gathered(&self) -> Result<(), Refusal>
        ensures refused { IfErr result (λ why.
            refusal self.now.state event.CkptEnd ≡ Some why) }
        ensures gathered { OnOk result (refusal self.now.state event.CkptEnd ≡ None) }
    {
        let Some(session) = &self.session else {
            return Err(Refusal::NoCkpt);
        };
        if !session.is_gathered() {
            return Err(Refusal::GatherLeft);
        }
        if !self.has_room(1) {
            return Err(Refusal::LogFull);
        }
        Ok(())
    }
}
