//! An open database: it takes lines, answers each, puts in place the files that it tells of, and
//! closes.
#![tactic(auto)]

mod call_kind;
mod commands;
mod ending;
mod engine_files;
mod keeping;
mod made_files;
mod page_takes;
mod page_writes;
mod placed;
mod session;
mod status;
mod streams;
mod unplaced_copies;
mod unplaced_point;
mod whole_checkpoint;
mod whole_copy;

pub use engine_files::{place, sum_of};
pub use placed::Placed;
pub use session::{OpenDatabase, TellsWhy};
pub use streams::{StreamNotes, Streams, tell_ended};
pub use unplaced_copies::UnplacedCopies;
pub use whole_copy::newest;
