//! What a command reads: files that are named, once each, standard input, the copies of a folder, the
//! manifests beside them, and what is wrong with a file that was refused.
#![tactic(auto)]

mod beside;
mod chain_reason;
mod copy_chain;
mod early_master;
mod fault_lines;
mod headers;
mod input_names;
mod manifests;
mod other_file;
mod paths;
mod read_once;
mod reason;
mod reasons;
mod standing;
mod streams;

pub use beside::{MANIFEST, manifest_for};
pub use copy_chain::{chain_of, newest_chain};
pub use early_master::{EarlyMaster, MasterFirst, checks_and_master};
pub use fault_lines::{tell_input, tell_input_until, tell_until};
pub use input_names::{FIRST_ARCHIVE, InputNames, STANDARD_INPUT, what_stands};
pub use manifests::Checks;
pub use other_file::{OtherFile, tell_unnamed};
pub use paths::parts_of;
pub use read_once::{OnceFile, ReadOnce};
pub use reason::Reason;
pub use reasons::{tell_redo, tell_view};
pub use standing::{bytes_of, is_absent, is_irregular, length_at, may_be_read, tell_irregular};
pub use streams::{noted, patient, tell_unread, tell_unwritten};
