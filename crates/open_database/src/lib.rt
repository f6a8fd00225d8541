//! A database in a folder: its log, its volume, its master record and its image copies are files.
//! It is opened, killed at any moment, and opened again.
#![tactic(auto)]

mod open;
mod opened_session;
mod power_laws;
mod prompt;

pub use database_opening::OpenCall;
pub use open::{OpenEnd, open_folder, open_in, put_point, reserve_standard_streams};
pub use opened_session::{OpenedSession, session_in, session_on};
pub use power_laws::{
    cut_lives_follow_one_another, power_cuts_lose_no_commit, power_cuts_lose_no_told_file,
};
