//! What is said of a commit that was answered.

ghost use Rattle.std.specs.Prelude.{◌≡◌, [], ◌∷◌, ◌++◌, IfErr, IfOk};
ghost use Rattle.imgcopy_engine.specs.engine_run.Undoing.{unsure_receipts};
ghost use Rattle.imgcopy_engine.specs.settlement.Receipt.{step_receipt};
ghost use Rattle.imgcopy_engine.specs.settlement.declared.receipt.Receipt.TheVariants.{Stepped};
ghost use Rattle.imgcopy_engine.specs.settlement.declared.receipt.TxnStep.TheVariants as step;

use crate::clerk::Bank;
use imgcopy_engine::{Life, LogDevice, Lsn, PageStore, Refusal, Session, TxnNo};
use std::fmt;
use std::marker::Model;
use std::sync::Wait;

/// The acknowledgement of a commit. There is none without a commit that was answered, since only
/// `commit` makes one. Its text is the LSN of the Commit.
#[derive(Drop)]
pub struct Acknowledged {
    lsn: Lsn,
}

impl Model for Acknowledged {
    ghost use Rattle.std.specs.Prelude.{ℕ};

    ghost Value = { ℕ };

    ghost view = { λ it. it.lsn };
}

impl Acknowledged {
    /// Commits a transaction, and acknowledges it. The session has the receipt of just this commit
    /// then. A commit that is refused is not acknowledged, and leaves no receipt but an unsure one.
    pub fn commit<S: PageStore, D: LogDevice, G: Life>(
        session: &mut Session<G>,
        rt: &impl Wait,
        bank: &Bank<S, D, G>,
        txn: TxnNo,
    ) -> Result<Acknowledged, Refusal>
        ensures receipt { IfOk result (λ it.
            session.new ≡ session.old ++ Stepped (step_receipt it txn step.Commit) ∷ []) }
        ensures refused { IfErr result (λ why.
            session.new ≡ session.old ++ unsure_receipts txn why) }
    {
        let lsn = session.commit(rt, bank, txn)?.lsn;
        Ok(Acknowledged { lsn })
    }
}

impl fmt::Display for Acknowledged {
    fn fmt<W: fmt::Write>(&self, f: &mut fmt::Formatter<W>) -> fmt::Result {
        let lsn = self.lsn.0;
        write!(f, "{lsn}")
    }
}
