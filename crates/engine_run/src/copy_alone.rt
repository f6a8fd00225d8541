//! Image copies of a shared engine, each made by the thread that asks for it.

ghost use Rattle.std.specs.Prelude.{◌≡◌, ◌⊎◌, Err, IfErr, IfOk, OnOk};
ghost use Rattle.engine_calls.specs.declared.event.Event.TheVariants as event;
ghost use Rattle.engine_run.specs.Replies.{MadeOn, RepliesBy};
ghost use Rattle.engine_run.specs.Work.{AreTaken, IsCopiedAlone, IsSealedBy, RefusesCopying};
ghost use Rattle.engine_run.specs.Work.{RefusesTake};

use crate::gate::HoldGate;
use crate::life::Life;
use crate::shared::Shared;
use crate::work::Work;
use aries_core::Refusal;
use copy_vault::{CopyId, CopyKind};
use log_store::LogDevice;
use page_core::PageNo;
use page_store::PageStore;
use std::sync::Wait;

impl<S: PageStore, D: LogDevice, G: Life> Shared<S, D, G> {
    /// Makes an image copy as `copy_with` does by one worker, but in the thread that calls: it
    /// starts none. Each page is one hold, in the order of their numbers. Refusals are those of
    /// `copy_with`, and the copy is dropped as there.
    pub fn copy_alone(
        &self,
        rt: &impl Wait,
        kind: CopyKind,
        gate: &impl HoldGate,
    ) -> Result<Work, Refusal>
        ensures copied { IfOk result (IsCopiedAlone (MadeOn S.PageStore D.LogDevice) kind) }
        ensures refused { IfErr result (RefusesCopying (MadeOn S.PageStore D.LogDevice) kind) }
    {
        let opened = self.held.lock(rt).open_copy(&kind);
        let (id, pages) = opened?;
        let taken = self.take_in_order(rt, id, pages, gate);
        self.end_copy(rt, id, kind, taken)
    }

    /// Takes each page of the copy, until a take is refused.
    fn take_in_order(
        &self,
        rt: &impl Wait,
        copy: CopyId,
        pages: u32,
        gate: &impl HoldGate,
    ) -> Result<(), Refusal>
        ensures taken { OnOk result (AreTaken (MadeOn S.PageStore D.LogDevice) copy pages) }
        ensures refused { IfErr result (RefusesTake (MadeOn S.PageStore D.LogDevice) copy pages) }
    {
        for number in 0..pages {
            let _took = self.take_one(rt, copy, 0, PageNo(number), gate)?;
        }
        Ok(())
    }

    /// Seals a copy whose pages are taken. Where a take was refused, or the end is, it is dropped.
    pub(crate) fn end_copy(
        &self,
        rt: &impl Wait,
        id: CopyId,
        kind: CopyKind,
        taken: Result<(), Refusal>,
    ) -> Result<Work, Refusal>
        ensures sealed { IfOk result (IsSealedBy (MadeOn S.PageStore D.LogDevice) id kind) }
        ensures untaken { IfErr taken (λ why. result ≡ Err why) }
        ensures refused { IfErr result (λ why. (taken ≡ Err why)
            ⊎ RepliesBy (MadeOn S.PageStore D.LogDevice) (event.Seal id) (Err why)) }
    {
        let why = match taken {
            Ok(()) => {
                let sealed = self.held.lock(rt).seal(id);
                match sealed {
                    Ok(taken) => return Ok(Work::Copied { id, kind, taken }),
                    Err(why) => why,
                }
            }
            Err(why) => why,
        };
        // Where the copy is dropped already, there is nothing left to do.
        let _ = self.held.lock(rt).drop_copy(id);
        Err(why)
    }
}
