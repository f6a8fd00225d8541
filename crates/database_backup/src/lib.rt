//! A backup of a closed database, and a new database of its numbers.
#![tactic(auto)]

mod backup;
mod checkpoint_and_copy;
mod closed_volume;
mod fill;
mod renew;
mod second_folder;

pub use backup::{BackupCall, backup_folder};
pub use renew::{RenewCall, renew_folder};
