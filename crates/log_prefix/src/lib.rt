//! The longest front of some bytes that is a linked log: what a crash has left of a log's file.
#![tactic(auto)]

mod bytes;
mod cut;
mod fault;
mod front;
mod laws;
mod remains;
mod scan;

pub use cut::{Cut, CutReason};
pub use fault::FrontFault;
pub use front::{Front, read_front};
pub use laws::{
    bytes_have_one_front, cuts_are_first_faults, cuts_end_the_longest_front,
    forced_records_are_in_the_front, fronts_are_fronts_of_themselves,
    fronts_have_what_a_device_keeps,
};
pub use remains::forced_behind;
pub use scan::{FrontScan, scan_front};
