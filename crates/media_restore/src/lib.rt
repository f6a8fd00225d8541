//! Media recovery: rebuilds a volume from image copies and the log (ARIES, section 8).
#![tactic(auto)]

mod audit_laws;
mod copy_load;
mod fault;
mod files;
mod files_fault;
mod files_log;
mod files_master;
mod loaded;
mod log_output;
mod master_check;
mod master_laws;
mod rebuilt;
mod saved_laws;
mod until;
mod until_fault;
mod until_laws;
mod with_log_fault;

pub use audit_laws::an_audited_chain_restores_the_log;
pub use copy_audit::{Sound, Unsound, audit};
pub use copy_load::load;
pub use fault::{LoadFault, RedoFault, Refused};
pub use files::restore_files;
pub use files_fault::RestoreFault;
pub use files_log::restore_with_log;
pub use loaded::Loaded;
pub use log_output::{write_log, written_logs_are_read_again};
pub use master_check::check_master;
pub use master_laws::masters_have_one_fault;
pub use page_redo::write_volume;
pub use rebuilt::{Rebuilt, rebuild, recover};
pub use saved_laws::{
    saved_files_are_right, saved_files_restore_what_was_committed, what_is_left_can_be_saved,
};
pub use until::{checkpoint_until, redo_until};
pub use until_fault::UntilFault;
pub use until_laws::one_log_ends_there;
pub use with_log_fault::WithLogFault;
