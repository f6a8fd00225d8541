//! Undo of the losers: the transactions that are open at the end of a log.
#![tactic(auto)]

mod analysis;
mod fault;
mod log_changes;
mod read;
mod redone;
mod tail;
mod trace;
mod undo_laws;
mod undo_records;
mod undo_sink;
mod undone;

pub use analysis::losers;
pub use fault::UndoFault;
pub use log_changes::LogChanges;
pub use read::{ReadLog, read_changes, read_changes_and};
pub use redone::Redone;
pub use tail::{OpenTxn, complete_checkpoints_begin_tails, open_at_end, open_by_tail};
pub use undo_laws::{
    the_way_back_meets_the_stack, undo_commits_nothing, undo_fits_where_records_and_owed_ones_do,
    undo_keeps_logs_linked, undo_leaves_none_open, undo_leaves_the_page_count,
    undo_leaves_what_is_committed, undo_only_appends, undo_takes_back_what_is_pending,
};
pub use undo_records::UndoRecords;
pub use undo_sink::{UndoSink, undo_into};
pub use undone::{Undone, undo_all};
