//! What is true of a log's records: their transactions, checkpoints and committed changes, and which record may follow.
#![tactic(auto)]

mod checkpoint_laws;
mod ckpt_point;
mod laws;
mod no_page;
mod pending_change;

pub use checkpoint_laws::{
    complete_checkpoints_are_known_by_their_ends, complete_checkpoints_outlast_new_records,
    redo_points_are_not_past_their_begins,
};
pub use ckpt_point::CkptPoint;
pub use laws::{
    checkpoint_tables_are_kept_record_by_record, checkpoint_tables_say_what_goes,
    linked_logs_grow_by_what_may_follow, numbers_are_committed_under_pending_changes,
    prefixes_of_linked_logs_are_linked, tables_are_kept_record_by_record, tables_say_what_logs_say,
    tables_say_what_may_follow, work_grows_call_by_call,
};
pub use no_page::NO_PAGE;
pub use pending_change::PendingChange;
