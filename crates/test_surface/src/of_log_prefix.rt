//! The front of a log's bytes.

pub use log_prefix::{
    Cut, CutReason, Front, FrontFault, FrontScan, bytes_have_one_front, cuts_are_first_faults,
    cuts_end_the_longest_front, forced_behind, forced_records_are_in_the_front,
    fronts_are_fronts_of_themselves, fronts_have_what_a_device_keeps, read_front, scan_front,
};
