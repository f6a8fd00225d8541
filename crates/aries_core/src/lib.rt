//! The engine, for one thread. Each call is one event, and appends only its own record to the log.
#![tactic(auto)]

mod checkpoint;
mod copies;
mod engine;
mod extend;
mod fetches;
mod open_ckpt;
mod page_writes;
mod played;
mod readers;
mod repair;
mod resume;
mod retire;
mod rollbacks;

pub use copy_coverage::Retired;
pub use engine::Engine;
pub use engine_calls::{
    Answer, Event, Gathered, PlayFault, Refusal, Reply, Setup, SteppedBack, Took, Undone,
};
pub use engine_rules::{
    a_copy_gets_the_next_id, a_new_engine_is_fit, a_refusal_changes_nothing,
    an_answered_commit_is_forced, an_answered_point_is_the_master,
    an_unforced_checkpoint_leaves_the_master, an_unsure_commit_ends_its_transaction,
    answered_commits_are_kept, copies_are_refused_by_the_catalogue, engines_stay_fit,
    gather_left_is_exact, later_commits_are_kept, log_full_is_exact, log_shows_the_accepted_calls,
    pages_in_memory_are_few_and_distinct, replies_are_determined,
    stored_pages_cover_the_redo_point, stored_pages_cover_their_rec_lsn,
    the_copies_are_those_answered, the_forced_end_never_falls, the_log_only_grows,
    the_log_says_which_checkpoint_is_open, the_master_is_the_last_point_answered,
    the_master_names_a_complete_checkpoint, the_written_lsns_are_those_answered,
};
pub use played::{Played, play};
pub use resume::{NotResumed, ResumedParts};
