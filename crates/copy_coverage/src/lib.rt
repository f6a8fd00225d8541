//! How much of a log the image copies of its volume contain while the log grows, and what a retired
//! engine leaves.
#![tactic(auto)]

mod laws;
mod retired;

pub use laws::{
    a_chain_restores, a_complete_copy_restores, a_copy_begins, a_copy_decides, a_copy_ends,
    copies_may_be_restored, copies_outlast_growth, copies_outlast_new_records,
    copies_outlast_page_writes,
};
pub use retired::Retired;
