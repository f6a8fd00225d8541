//! The front of an input as a value.

ghost use Rattle.std.specs.Prelude.{ℕ, ◌≡◌, List, Err, IfOk, IfSome, MatchResult, OnOk, Some};
ghost use Rattle.page_core.specs.Input.{StaysKnown};
ghost use Rattle.log_prefix.specs.Front.{FoundFront, HasNoFront, IsFrontOf, IsOutside, IsReadUp};
ghost use Rattle.log_prefix.specs.declared.fault.FrontFault.TheVariants.{BadHeader};

use crate::cut::Cut;
use crate::fault::FrontFault;
use crate::scan::{FrontScan, scan_front};
use log_store::{Analysis, LogImage};
use page_core::Page;
use std::alloc::Global;
use std::io::Read;
use std::marker::Model;
use txn_table::Losers;

/// The longest front of an input that is a linked log, and where and why the input was cut.
#[derive(Drop)]
pub struct Front {
    log: LogImage,
    cut: Option<Cut>,
    /// What reading its records answered: this decides which record may follow.
    analysis: Analysis,
}

impl Model for Front {
    ghost use Rattle.log_prefix.specs.Front.{FoundFront, IsRead};

    ghost Value = { FoundFront };

    ghost view = { λ front. record { log = front.log; cut = front.cut } };

    ghost invariant = { λ front. IsRead front.log front.analysis };
}

impl Front {
    ghost use Rattle.std.specs.Prelude.{◌≡◌};
    ghost use Rattle.log_rules.specs.Linked.{IsLinked};
    ghost use Rattle.log_store.specs.Analysis.{IsAnalysisOf};
    ghost use Rattle.log_prefix.specs.Front.{LeadsTo};

    /// The front: a linked log.
    pub fn log(&self) -> &LogImage
        ensures log { result.now ≡ self.now.log }
        ensures linked { IsLinked self.now.log.records }
    {
        &self.log
    }

    /// Where and why the input was cut, or `None` where all of it is the front.
    pub fn cut(&self) -> Option<Cut>
        ensures { result ≡ self.now.cut }
    {
        self.cut
    }

    /// What reading it answered. So who asks for its checkpoints or its transactions need not go
    /// over its records again.
    pub fn analysis(&self) -> &Analysis
        ensures { IsAnalysisOf self.now.log result.now }
    {
        &self.analysis
    }

    /// The front, and the cut.
    pub fn into_parts(self) -> (LogImage, Option<Cut>)
        ensures parts { (result.0 ≡ self.log) × (result.1 ≡ self.cut) }
        ensures linked { IsLinked self.log.records }
    {
        (self.log, self.cut)
    }

    /// The front, the pages that it makes, and the transactions that are open at its end. So who
    /// goes on from it need not go over its records again.
    pub fn into_replayed(self) -> (LogImage, Vec<Page>, Losers)
        ensures log { result.0 ≡ self.log }
        ensures leads { LeadsTo self.log result.1.items result.2 }
    {
        let Front { log, analysis, .. } = self;
        let Analysis { pages, txns, .. } = analysis;
        (log, pages, txns.into_losers())
    }
}

/// Reads the longest front of an input that is a linked log.
///
/// The faults, and how far it reads, are those of `scan_front`.
pub fn read_front<R: Read>(alloc: Global, reader: &mut R) -> Result<Front, FrontFault>
    ensures known { StaysKnown (R.remaining reader.old) (R.remaining reader.new) }
    ensures found { IfOk result (λ front. IfSome (R.remaining reader.old)
        (λ bytes. IsFrontOf bytes front)) }
    // What has a front is read, unless memory runs out or the reader fails.
    ensures only { (it : FoundFront) (input : List ℕ) → R.remaining reader.old ≡ Some input
        → IsFrontOf input it → MatchResult result (λ front. front ≡ it) IsOutside }
    ensures read { OnOk result (IsReadUp (R.remaining reader.old) (R.remaining reader.new)) }
    ensures none { result ≡ Err BadHeader → IfSome (R.remaining reader.old) HasNoFront }
{
    let FrontScan { scan, cut } = scan_front::<R, LogImage>(alloc, reader)?;
    Ok(Front {
        log: scan.sink,
        cut,
        analysis: scan.history.into_analysis(),
    })
}
