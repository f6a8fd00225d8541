//! Calls over bytes and plain numbers, for programs in other languages: no file, no pointer, no
//! thread, and no type but one of numbers.
#![tactic(auto)]

mod archives;
mod audit;
mod check;
mod laws;
mod outcome;
mod prefix;
mod recover;
mod redo;

pub use audit::audit_archives;
pub use check::check_log;
pub use laws::{
    a_recovered_log_goes_on, calls_have_these_numbers, right_logs_are_refused_for_memory_alone,
};
pub use outcome::{ABI, LENGTHS_DIFFER, Outcome, TOO_SHORT};
pub use prefix::log_prefix;
pub use recover::recover_log;
pub use redo::redo_log;
