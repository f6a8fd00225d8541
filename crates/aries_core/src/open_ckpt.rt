//! The session of an open checkpoint, in whichever phase it is.

ghost use Rattle.std.specs.Prelude.{ℕ, ◌≡◌, false, IfOk, IfErr, IsSome, IsTrue, ◌↔◌, OnOk, OnErr};
ghost use Rattle.std.specs.Prelude.{MatchOption};
ghost use Rattle.log_records.specs.Log.{Log as LogValue};
ghost use Rattle.buffer_pool.specs.Pool.{IsPoolOf, written_of};
ghost use Rattle.txn_table.specs.TxnTable.{IsTableOf};
ghost use Rattle.fuzzy_ckpt.specs.Ckpt.{AreCovered, IsCkptOf, gathered_ckpt};
ghost use Rattle.fuzzy_ckpt.specs.Steps.{HasRoomForStep, gather_step, with_step};
ghost use Rattle.engine_rules.specs.Gather.{is_done, left_of};
ghost use Rattle.aries_core.specs.OpenCkpt.{view_of};

use buffer_pool::Pool;
use fuzzy_ckpt::{Ckpt, PagesStep, TxnsStep};
use log_store::{Log, LogDevice};
use page_store::PageStore;
use txn_table::TxnTable;

/// A checkpoint that is open, by what it gathers.
#[derive(Drop)]
pub enum OpenCkpt {
    Pages(Ckpt<fuzzy_ckpt::Pages>),
    Txns(Ckpt<fuzzy_ckpt::Txns>),
    Gathered(Ckpt<fuzzy_ckpt::Gathered>),
}

impl OpenCkpt {
    /// Whether the next step of the gather appends a record.
    pub(crate) fn would_append<S: PageStore>(&self, pool: &Pool<S>, txns: &TxnTable) -> bool
        ensures { (log : LogValue) → IsPoolOf S.stored log pool.now
            → IsTableOf log.records txns.now.table
            → IsTrue result ↔ IsSome (gather_step log.records (written_of pool.now.states)
            (view_of self.now)).next }
    {
        match self {
            OpenCkpt::Pages(ckpt) => ckpt.would_append(pool),
            OpenCkpt::Txns(ckpt) => ckpt.would_append(txns),
            OpenCkpt::Gathered(_) => false,
        }
    }

    /// Whether the gather has ended.
    pub(crate) fn is_gathered(&self) -> bool
        ensures { result ≡ is_done (left_of (view_of self.now).phase) }
    {
        matches!(self, OpenCkpt::Gathered(_))
    }

    /// The checkpoint to be ended, if its gather has ended.
    pub(crate) fn into_gathered(self) -> Option<Ckpt<fuzzy_ckpt::Gathered>>
        ensures { MatchOption result (is_done (left_of (view_of self).phase) ≡ false)
            (λ c. gathered_ckpt c ≡ view_of self) }
    {
        match self {
            OpenCkpt::Gathered(ckpt) => Some(ckpt),
            _ => None,
        }
    }

    /// Does one step of the gather. `Err` comes where memory is refused, with the checkpoint as it
    /// was.
    pub(crate) fn gather<S: PageStore, D: LogDevice>(
        self,
        log: &mut Log<D>,
        pool: &Pool<S>,
        txns: &TxnTable,
    ) -> Result<OpenCkpt, OpenCkpt>
        requires ckpt { IsCkptOf log.old.log (view_of self) }
        requires pool { IsPoolOf S.stored log.old.log pool.now }
        requires table { IsTableOf log.old.log.records txns.now.table }
        requires covered { AreCovered log.old.log.records (S.stored pool.now.store) (view_of self) }
        requires room { HasRoomForStep log.old.log.records (gather_step log.old.log.records
            (written_of pool.now.states) (view_of self)).next }

        ensures gathered { IfOk result (λ c. view_of c ≡ (gather_step log.old.log.records
            (written_of pool.now.states) (view_of self)).ckpt) }
        ensures logged { OnOk result (log.new.log ≡ with_step log.old.log
            (gather_step log.old.log.records (written_of pool.now.states) (view_of self)).next) }
        ensures refused { IfErr result (λ c. view_of c ≡ view_of self) }
        ensures appends { OnErr result (IsSome (gather_step log.old.log.records
            (written_of pool.now.states) (view_of self)).next) }
        ensures same { OnErr result (log.new.log ≡ log.old.log) }
        ensures forced_end { log.new.forced_end ≡ log.old.forced_end }
        ensures device { log.new.device ≡ log.old.device }
    {
        match self {
            OpenCkpt::Pages(ckpt) => match ckpt.pages(log, pool) {
                Ok(PagesStep::More(ckpt)) => Ok(OpenCkpt::Pages(ckpt)),
                Ok(PagesStep::Passed(ckpt)) => Ok(OpenCkpt::Txns(ckpt)),
                Err(ckpt) => Err(OpenCkpt::Pages(ckpt)),
            },
            OpenCkpt::Txns(ckpt) => match ckpt.txns(log, txns) {
                Ok(TxnsStep::More(ckpt)) => Ok(OpenCkpt::Txns(ckpt)),
                Ok(TxnsStep::Passed(ckpt)) => Ok(OpenCkpt::Gathered(ckpt)),
                Err(ckpt) => Err(OpenCkpt::Txns(ckpt)),
            },
            OpenCkpt::Gathered(ckpt) => Ok(OpenCkpt::Gathered(ckpt)),
        }
    }
}
