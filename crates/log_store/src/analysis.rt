//! What reading a log answers.

use crate::checkpoints::OpenCkpt;
use log_rules::CkptPoint;
use page_core::{Page, PageCounts};
use txn_table::OpenTransactions;

/// What reading a log answers: the analysis of ARIES (section 6.1), of all records from the first
/// one on.
#[derive(Drop)]
pub struct Analysis {
    /// How many records the log has.
    pub records: usize,
    /// The open transactions, with their pending changes.
    pub txns: OpenTransactions,
    /// The complete checkpoints, in their order.
    pub complete: Vec<CkptPoint>,
    /// The open checkpoint, if one is.
    pub begun: Option<OpenCkpt>,
    /// The page counts of the volume, as the log goes on: also those at the checkpoints.
    pub counts: PageCounts,
    /// The pages that the log makes.
    pub pages: Vec<Page>,
}
