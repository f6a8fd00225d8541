//! Reports on the folder of a database: whether its files are sound, and which copies it has.
#![tactic(auto)]

mod by_name;
mod closing;
mod copies;
mod copy_chain;
mod folder_files;
mod folder_manifest;
mod list;
mod listed_sums;
mod log_end;
mod named_files;
mod other_file;
mod report;
mod summed_files;
mod system_reader;
mod trouble;
mod unread;
mod verify;

pub use by_name::ByName;
pub use copies::{copy_header, copy_ids};
pub use folder_files::DatabaseFiles;
pub use list::list_folder;
pub use log_end::{Reach, noted_reach, read_log};
pub use report::FolderReport;
pub use system_reader::SystemReader;
pub use trouble::{Trouble, TroubleLine};
pub use unread::Unread;
pub use verify::verify_folder;
