//! Compares what the sessions of a shared engine were answered with its log.
#![tactic(auto)]

mod age;
mod checkpoints;
mod counted_log;
mod marks;
mod order;
mod reads;
mod receipt;
mod session_check;

pub use age::check_age;
pub use checkpoints::mark_checkpoint;
pub use counted_log::CountedLog;
pub use marks::mark_records;
pub use order::check_order;
pub use reads::check_reads;
pub use receipt::{ChangeReceipt, ReadReceipt, Receipt, StepReceipt, TxnStep};
pub use session_check::check_session;
