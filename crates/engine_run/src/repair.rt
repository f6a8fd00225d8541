//! The repair of a page of a shared engine.

ghost use Rattle.engine_rules.specs.Step.{reply_of};
ghost use Rattle.engine_calls.specs.declared.event.Answer.TheVariants as answer;
ghost use Rattle.engine_calls.specs.declared.event.Event.TheVariants as event;
ghost use Rattle.engine_run.specs.Replies.{MadeOn, RepliesBy};

use crate::life::Life;
use crate::shared::Shared;
use aries_core::Refusal;
use copy_vault::CopyId;
use log_store::LogDevice;
use page_core::{Lsn, PageNo};
use page_store::PageStore;
use std::sync::Wait;

impl<S: PageStore, D: LogDevice, G: Life> Shared<S, D, G> {
    /// Stores a page anew, from a complete copy and the log, by one hold, and answers its LSN: what
    /// `Engine::repair` does, while sessions, flushers and copies go on. A flusher that has begun
    /// to write the page ends that first: until then the refusal is `WriteBegun`.
    pub fn repair(&self, rt: &impl Wait, copy: CopyId, page: PageNo) -> Result<Lsn, Refusal>
        ensures { RepliesBy (MadeOn S.PageStore D.LogDevice) (event.Repair copy page)
            (reply_of answer.Repaired result) }
    {
        self.held.lock(rt).repair(copy, page)
    }
}
