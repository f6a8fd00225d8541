//! Fuzzy checkpoints, taken step by step while transactions and page writes go on.
#![tactic(auto)]

mod ckpt;
mod laws;
mod log_checkpoints;
mod phase;
mod point;
#[cfg(test)]
mod tests;

pub use ckpt::{Ckpt, PagesStep, TxnsStep};
pub use laws::{
    an_ended_checkpoint_is_not_open, checkpoint_records_leave_the_pool,
    checkpoint_records_leave_the_table, checkpoints_stay_open_as_the_volume_grows,
    checkpoints_stay_open_as_transactions_go_on, covered_pages_stay_covered_as_pages_are_written,
    covered_pages_stay_covered_as_the_log_grows, covered_pages_stay_covered_as_the_store_grows,
};
pub use log_checkpoints::LogCheckpoints;
pub use phase::{Gathered, Pages, Txns};
pub use point::{FinishFault, Point};
