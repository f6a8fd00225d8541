//! Reads a whole log, appends to a log on a device, and spells the master record.
#![tactic(auto)]

mod analysis;
mod broken_rule;
mod checkpoints;
mod device;
mod fault;
mod faulty_device;
mod history;
mod laws;
mod log;
mod log_image;
mod master;
mod mem_device;
mod page_history;
mod page_index;
mod read;
mod redo;
mod rule_at;
mod scan;
mod sink;
mod stored_log;

pub use analysis::Analysis;
pub use broken_rule::BrokenRule;
pub use checkpoints::{Checkpoints, OpenCkpt};
pub use device::{DeviceFault, LogDevice};
pub use fault::LogReadFault;
pub use faulty_device::FaultyDevice;
pub use history::History;
pub use laws::{
    bytes_have_one_first_fault, masters_have_this_length, records_that_break_a_rule_may_not_come,
    spelled_logs_have_no_fault,
};
pub use log::Log;
pub use log_image::LogImage;
pub use log_records::{Record, decode, encode};
pub use log_rules::CkptPoint;
pub use master::{MASTER_BYTES, Master, decode_master, encode_master, masters_are_spelled_apart};
pub use mem_device::MemDevice;
pub use read::read_log;
pub use redo::{redo_change, redo_numbered, redo_record};
pub use rule_at::broken_rule_at;
pub use scan::{Reached, Scan, scan_log, scan_to_fault};
pub use sink::RecordSink;
