//! The folder of a database that is one of the system.
#![tactic(auto)]

mod file_limit;
mod system_database;
mod system_log;
mod system_volume;
mod told_store;

pub use system_database::{SystemDatabase, output};
