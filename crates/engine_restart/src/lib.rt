//! Restart: takes back what was open when an engine was lost, and goes on with its log.
#![tactic(auto)]

mod add;
mod add_fault;
mod committed;
mod copy_check;
mod fault;
mod found;
mod found_fault;
mod from_log;
mod laws;
mod log_file;
mod log_file_fault;
mod restarted;
mod store;
mod undo_on_log;

pub use add_fault::AddCopyFault;
pub use committed::committed_pages;
pub use fault::RestartFault;
pub use found::log_in;
pub use found_fault::FoundFault;
pub use from_log::restart;
pub use laws::{
    analysis_goes_record_by_record, crashes_leave_what_lasts, failed_restarts_leave_a_part_of_undo,
    files_of_so_many_bytes_are_read, lives_follow_one_another, undo_may_be_interrupted,
};
pub use log_file::{FoundLog, MAX_FILE_BYTES, found_log, log_on};
pub use log_file_fault::FoundLogFault;
pub use restarted::Restarted;
pub use store::store_of;
pub use undo_on_log::take_back;
