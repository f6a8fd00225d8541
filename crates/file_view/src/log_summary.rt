//! What a log comes to.

ghost use Rattle.log_records.specs.Log.{Log};
ghost use Rattle.log_store.specs.Analysis.{IsAnalysisOf};
ghost use Rattle.file_view.specs.Summary.{IsSummaryOf};

use log_store::{Analysis, CkptPoint};

/// How many records a log has, and its last complete checkpoint.
#[derive(Clone, Copy, Debug, PartialEq, Eq)]
pub struct LogSummary {
    pub records: usize,
    pub point: Option<CkptPoint>,
}

impl LogSummary {
    /// What the analysis of a log comes to.
    pub fn of(found: &Analysis) -> LogSummary
        ensures { (log : Log) → IsAnalysisOf log found.now → IsSummaryOf result log.records }
    {
        LogSummary {
            records: found.records,
            point: found.complete.last().copied(),
        }
    }
}
