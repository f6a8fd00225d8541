//! Public items by the crate that offers them, whichever crate below has made them. A crate that no
//! longer passes on an item of its surface fails the check here.
#![tactic(auto)]

pub mod of_aries_core;
pub mod of_buffer_pool;
pub mod of_copy_vault;
pub mod of_engine_run;
pub mod of_file_devices;
pub mod of_fuzzy_ckpt;
pub mod of_imgcopy_engine;
pub mod of_log_prefix;
pub mod of_log_store;
pub mod of_loser_undo;
pub mod of_media_restore;
pub mod of_page_claim;
pub mod of_page_core;
pub mod of_page_redo;
pub mod of_page_store;
pub mod of_program;
pub mod of_txn_table;
