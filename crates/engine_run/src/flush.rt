//! The flusher and the checkpointer of a shared engine.

ghost use Rattle.std.specs.Prelude.{IfErr, IfOk, OnOk};
ghost use Rattle.engine_run.specs.Flushed.{IsFlushed, PassesOver, RefusesFlush};
ghost use Rattle.engine_run.specs.Replies.{MadeOn};
ghost use Rattle.engine_run.specs.Work.{IsPointedBy};

use crate::gate::HoldGate;
use crate::life::Life;
use crate::shared::Shared;
use crate::work::Work;
use aries_core::{Gathered, Refusal};
use log_store::LogDevice;
use page_core::{MAX_PAGES, PageNo};
use page_store::PageStore;
use std::sync::Wait;

impl<S: PageStore, D: LogDevice, G: Life> Shared<S, D, G> {
    /// Goes over the pages from the lowest number up, and writes those that it finds dirty. It
    /// holds the lock twice for a page: to begin the write, and to end it. A page that is clean is
    /// passed over, and so is one whose write another flusher ended; a write that another one has
    /// begun is ended. Pages that the volume grows by meanwhile have their turn, too: how many there
    /// are it learns in each hold. Any other refusal ends the pass and is answered.
    pub fn flush_pass(&self, rt: &impl Wait, gate: &impl HoldGate) -> Result<(), Refusal>
        ensures passes { OnOk result (PassesOver (MadeOn S.PageStore D.LogDevice)) }
        ensures refused { IfErr result (RefusesFlush (MadeOn S.PageStore D.LogDevice)) }
    {
        for number in 0..MAX_PAGES {
            let pages = self.flush(rt, gate, PageNo(number))?;
            if number + 1 >= pages {
                return Ok(());
            }
        }
        Ok(())
    }

    /// Writes one page, if it is dirty, and answers how many pages there are then.
    fn flush(&self, rt: &impl Wait, gate: &impl HoldGate, page: PageNo) -> Result<u32, Refusal>
        ensures flushed { IfOk result (IsFlushed (MadeOn S.PageStore D.LogDevice) page) }
        ensures refused { IfErr result (RefusesFlush (MadeOn S.PageStore D.LogDevice)) }
    {
        gate.before(0, page);
        let (begun, pages) = self.held.lock(rt).begin_write(page);
        match begun {
            Ok(_) | Err(Refusal::WriteBegun) => {}
            Err(Refusal::NotDirty) => return Ok(pages),
            Err(why) => return Err(why),
        }
        gate.before(0, page);
        let (ended, pages) = self.held.lock(rt).end_write(page);
        match ended {
            Ok(_) | Err(Refusal::NoWrite) => Ok(pages),
            Err(why) => Err(why),
        }
    }

    /// Takes one whole checkpoint, by one hold a step, and answers its Point. Where a checkpoint is
    /// open, it goes on with that one. Any other refusal of a hold ends it and is answered.
    pub fn checkpoint(&self, rt: &impl Wait, gate: &impl HoldGate) -> Result<Work, Refusal>
        ensures { IfOk result (IsPointedBy (MadeOn S.PageStore D.LogDevice)) }
    {
        gate.before(0, PageNo(0));
        let begun = self.held.lock(rt).ckpt_begin();
        match begun {
            Ok(_) | Err(Refusal::CkptOpen) => {}
            Err(why) => return Err(why),
        }
        for _ in rt.forever() {
            gate.before(0, PageNo(0));
            let gathered = self.held.lock(rt).ckpt_gather()?;
            if gathered == Gathered::Done {
                break;
            }
        }
        gate.before(0, PageNo(0));
        let point = self.held.lock(rt).ckpt_end()?;
        Ok(Work::Pointed(point))
    }
}
