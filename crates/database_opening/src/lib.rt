//! An opening: from what stands in a folder to an engine that goes on.
#![tactic(auto)]

mod copies;
mod first_line;
mod left_out;
mod made_ready;
mod new_database;
mod old_volume;
mod open_call;
mod opening;
mod restarted;
mod volume_file;

pub use first_line::FirstLine;
pub use made_ready::is_vouched;
pub use new_database::begin;
pub use open_call::OpenCall;
pub use opening::opened;
pub use restarted::{Others, ResumedDatabase, evidence_of, find_others};
