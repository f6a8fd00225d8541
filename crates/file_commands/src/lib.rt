//! The commands `redo`, `restore`, `audit`, `show`, `list` and `verify`, over files that are named and
//! standard streams.
#![tactic(auto)]

mod answers;
mod audit;
mod folder_copies;
mod folder_restore;
mod redo;
mod reports;
mod restore;
mod show;
mod untils;

pub use answers::{answered, told};
pub use audit::audit_named;
pub use folder_restore::{FolderRestore, restore_folder};
pub use redo::redo_log;
pub use reports::{list_named, verify_named};
pub use restore::{Ended, Outputs, restore_named};
pub use show::show_named;
