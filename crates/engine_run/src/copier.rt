//! Image copies of a shared engine, each made by many threads.

ghost use Rattle.std.specs.Prelude.{◌≡◌, ◌≤◌, IfOk};
ghost use Rattle.engine_rules.specs.Step.{reply_of, took_answer};
ghost use Rattle.engine_calls.specs.declared.event.Event.TheVariants as event;
ghost use Rattle.engine_run.specs.Replies.{MadeOn, RepliesBy};
ghost use Rattle.engine_run.specs.Work.{IsCopiedBy};

use crate::gate::HoldGate;
use crate::life::Life;
use crate::refused::FirstRefusal;
use crate::shared::Shared;
use crate::work::Work;
use crate::worker::{Worker, workers_of};
use aries_core::{Refusal, Took};
use copy_vault::{CopyId, CopyKind};
use log_store::LogDevice;
use page_claim::PageClaims;
use page_core::PageNo;
use page_store::PageStore;
use std::alloc::Global;
use std::sync::{Mutex, Wait};
use std::thread;
use std::thread::{Scope, Threads};

impl<S: PageStore, D: LogDevice, G: Life> Shared<S, D, G> {
    /// Takes one page of a copy, by one hold, behind its gate.
    pub(crate) fn take_one(
        &self,
        rt: &impl Wait,
        copy: CopyId,
        worker: u32,
        page: PageNo,
        gate: &impl HoldGate,
    ) -> Result<Took, Refusal>
        ensures { RepliesBy (MadeOn S.PageStore D.LogDevice) (event.Take copy page)
            (reply_of took_answer result) }
    {
        gate.before(worker, page);
        self.held.lock(rt).take(copy, page)
    }

    /// What one worker does: it takes the pages that it claims, one hold a page, until none is left
    /// or a take is refused.
    fn take_claimed(
        &self,
        rt: &impl Wait,
        copy: CopyId,
        mut worker: Worker<'_>,
        gate: &impl HoldGate,
    ) -> Result<(), Refusal> {
        for _ in 0..=worker.pages() {
            let Some(page) = worker.claim() else {
                break;
            };
            self.take_one(rt, copy, worker.number, page, gate)?;
        }
        Ok(())
    }

    /// The same in a thread: a refusal goes to the place that the workers share.
    fn work(
        &self,
        rt: &impl Wait,
        copy: CopyId,
        worker: Worker<'_>,
        gate: &impl HoldGate,
        refused: &Mutex<FirstRefusal>,
    ) {
        let number = worker.number;
        if let Err(why) = self.take_claimed(rt, copy, worker, gate) {
            refused.lock(rt).note(number, why);
        }
    }
}

impl<S: PageStore + Send, D: LogDevice + Send, G: Life + Send + Sync> Shared<S, D, G> {
    /// Makes an image copy by so many workers, in threads of their own. The first hold opens the
    /// copy, which is of the pages that the volume had where its checkpoint began; each of these is
    /// one hold, and so is the end. Pages that the volume grows by meanwhile are not taken.
    ///
    /// Refusals are those of `Engine::copy_full` or `Engine::copy_inc`; then `OutOfMemory`, also
    /// where a worker cannot be started; then the refusal of the least-numbered worker that met
    /// one, or that of the end. After each of these but the first the copy is dropped. All threads
    /// have ended then.
    pub fn copy_with<R: Threads + Wait + Sync, H: HoldGate + Sync>(
        &self,
        rt: &R,
        alloc: Global,
        kind: CopyKind,
        workers: u32,
        gate: &H,
    ) -> Result<Work, Refusal>
        requires { (1 ≤ workers) × (workers ≤ 64) }
        ensures { IfOk result (IsCopiedBy (MadeOn S.PageStore D.LogDevice) kind) }
    {
        let opened = self.held.lock(rt).open_copy(&kind);
        let (id, pages) = opened?;
        let taken = self.take_all(rt, alloc, (id, pages), workers, gate);
        self.end_copy(rt, id, kind, taken)
    }

    /// Starts a worker in a thread of its own, and says whether there is one.
    fn start<'s, E, R: Wait + Sync, H: HoldGate + Sync>(
        &'s self,
        scope: &Scope<'s, E>,
        rt: &'s R,
        copy: CopyId,
        worker: Worker<'s>,
        gate: &'s H,
        refused: &'s Mutex<FirstRefusal>,
    ) -> bool {
        scope
            .spawn(move || self.work(rt, copy, worker, gate, refused))
            .is_ok()
    }

    /// Starts each worker, and says whether all were started.
    fn start_all<'s, E, R: Wait + Sync, H: HoldGate + Sync>(
        &'s self,
        scope: &Scope<'s, E>,
        rt: &'s R,
        copy: CopyId,
        workers: Vec<Worker<'s>>,
        gate: &'s H,
        refused: &'s Mutex<FirstRefusal>,
    ) -> bool {
        for worker in workers {
            if !self.start(scope, rt, copy, worker, gate, refused) {
                return false;
            }
        }
        true
    }

    /// Has the workers take each page of the copy.
    fn take_all<R: Threads + Wait + Sync, H: HoldGate + Sync>(
        &self,
        rt: &R,
        alloc: Global,
        opened: (CopyId, u32),
        workers: u32,
        gate: &H,
    ) -> Result<(), Refusal>
        requires { workers ≤ 64 }
    {
        let (copy, pages) = opened;
        let Ok((claims, seats)) = PageClaims::new(alloc, pages, workers) else {
            return Err(Refusal::OutOfMemory);
        };
        let Ok(workers) = workers_of(alloc, &claims, seats) else {
            return Err(Refusal::OutOfMemory);
        };
        let refused = Mutex::new(FirstRefusal::new());
        let shared_refusal = &refused;
        let started = thread::scope(thread::scope_env(), rt, |scope| {
            self.start_all(scope, rt, copy, workers, gate, shared_refusal)
        });
        match refused.into_inner().why() {
            _ if !started => Err(Refusal::OutOfMemory),
            Some(why) => Err(why),
            None => Ok(()),
        }
    }
}
