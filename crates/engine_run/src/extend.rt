//! The growth of the volume of a shared engine.

ghost use Rattle.engine_rules.specs.Step.{reply_of};
ghost use Rattle.engine_calls.specs.declared.event.Answer.TheVariants as answer;
ghost use Rattle.engine_calls.specs.declared.event.Event.TheVariants as event;
ghost use Rattle.engine_run.specs.Replies.{MadeOn, RepliesBy};

use crate::life::Life;
use crate::shared::Shared;
use aries_core::Refusal;
use log_store::LogDevice;
use page_core::Lsn;
use page_store::PageStore;
use std::sync::Wait;

impl<S: PageStore, D: LogDevice, G: Life> Shared<S, D, G> {
    /// Grows the volume to so many pages, by one hold, and answers the LSN of its Extend: what
    /// `Engine::extend` does, while sessions, flushers and copies go on. Sessions may change the
    /// added pages from then on. A copy has them where its checkpoint began after the growth.
    pub fn extend(&self, rt: &impl Wait, count: u32) -> Result<Lsn, Refusal>
        ensures { RepliesBy (MadeOn S.PageStore D.LogDevice) (event.Extend count)
            (reply_of answer.Logged result) }
    {
        self.held.lock(rt).extend(count)
    }
}
