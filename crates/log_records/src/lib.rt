//! The records of a log: their bytes, how a log is spelled, and how records change pages.
#![tactic(auto)]

mod ckpt_codec;
mod codec;
mod coverage_laws;
mod dirty_page;
mod fields;
mod header;
mod laws;
mod limits;
mod page_change;
mod page_count;
mod page_count_laws;
mod place;
mod put;
mod record;
mod txn_phase;
mod volume;

pub use codec::{decode, encode};
pub use coverage_laws::{
    a_stored_page_covers_its_rec_lsn, an_image_names_its_records, covering_goes_down,
    covering_outlasts_new_records, redo_of_a_covering_page_is_its_image,
    stored_pages_past_the_volume_are_formatted,
};
pub use dirty_page::{DirtyPage, DirtyPages};
pub use header::{LogHeader, encode_header, log_header};
pub use laws::{
    kinds_have_these_numbers, logs_are_spelled_apart, logs_have_these_numbers,
    records_are_spelled_apart,
};
pub use limits::{HEADER_BYTES, MAX_LOG_BYTES, MAX_OPEN, MAX_RECORDS, RECORD_BYTES};
pub use page_change::PageChange;
pub use page_count::{count_behind, note_counts};
pub use page_count_laws::{
    given_counts_say_the_page_count, page_counts_are_those_of_a_header,
    page_counts_below_an_lsn_are_of_the_log_cut_there, records_name_pages_of_the_volume,
    volumes_never_get_smaller,
};
pub use place::{named_slot, record_at, step_at, update_at};
pub use record::Record;
pub use txn_phase::TxnPhase;
pub use volume::redo_on_its_page;
