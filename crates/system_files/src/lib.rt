//! The files and folders of the system, for `saved_files`. No contract says what they hold.
#![tactic(auto)]

mod claim;
mod escaped;
mod files;
mod folder;
mod identity;
mod kept;
mod notes;
mod retry_would_block;

pub use claim::ClaimFault;
pub use escaped::{Escaped, EscapedText};
pub use files::SystemFiles;
pub use folder::{SystemFolder, WrittenFile, is_in_use};
pub use identity::FileIdentity;
pub use kept::{Kept, copy_id, kept_at};
pub use notes::{Noted, Notes};
pub use retry_would_block::RetryWouldBlock;
