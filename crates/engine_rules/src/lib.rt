//! What is true of an engine, whatever calls come: its state, when a call is refused, what it makes of the state, and
//! the laws of whole runs.
#![tactic(auto)]

mod checkpoint_laws;
mod copy_laws;
mod laws;

pub use checkpoint_laws::{
    an_answered_point_is_the_master, an_unforced_checkpoint_leaves_the_master,
    gather_left_is_exact, stored_pages_cover_the_redo_point, the_log_says_which_checkpoint_is_open,
    the_master_is_the_last_point_answered, the_master_names_a_complete_checkpoint,
};
pub use copy_laws::{
    a_copy_gets_the_next_id, copies_are_refused_by_the_catalogue, the_copies_are_those_answered,
};
pub use laws::{
    a_new_engine_is_fit, a_refusal_changes_nothing, an_answered_commit_is_forced,
    an_unsure_commit_ends_its_transaction, answered_commits_are_kept, engines_stay_fit,
    later_commits_are_kept, log_full_is_exact, log_shows_the_accepted_calls,
    pages_in_memory_are_few_and_distinct, replies_are_determined, stored_pages_cover_their_rec_lsn,
    the_forced_end_never_falls, the_log_only_grows, the_written_lsns_are_those_answered,
};
