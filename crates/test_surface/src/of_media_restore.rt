//! Restores and audits.

pub use media_restore::{
    LoadFault, Loaded, Rebuilt, RedoFault, Sound, Unsound, WithLogFault, audit, load, rebuild,
    restore_files, restore_with_log, write_log, written_logs_are_read_again,
};
