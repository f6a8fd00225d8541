//! Plays a script: writes its replies as lines, and the pages of its last restore as lines.
#![tactic(auto)]

mod counting_device;
mod finish;
mod finish_fault;
mod memory_play;
mod page_lines;
mod reply_lines;
mod run;
mod run_fault;
mod status;

pub use finish::finish_script;
pub use finish_fault::FinishFault;
pub use run::{Ran, run_script};
pub use run_fault::ScriptRunFault;
pub use status::{FAULT_STATUS, REFUSED_STATUS, audit_status, refused_status, restore_status};
