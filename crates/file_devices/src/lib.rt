//! A log's device and a page store on files of the system.
#![tactic(auto)]

mod calls;
mod failed_file;
mod file_disk;
mod file_log;
mod file_store;
#[cfg(test)]
mod tests;
mod tracked_disk;
mod tracked_file;

pub use failed_file::FailedFile;
pub use file_disk::{FileCalls, FileDisk, a_file_may_be_read_rightly};
pub use file_log::FileLog;
pub use file_store::FileStore;
pub use sqlite_disk::{Start, Wary};
