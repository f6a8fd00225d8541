//! Redo: of pages, of the changes of a log, and of a whole log to the bytes of its volume.
#![tactic(auto)]

mod changes;
mod laws;
mod page_records;
mod placed_change;
mod rebuild;
mod redo;
mod stream;
mod stream_fault;
mod threads;
mod volume;
mod volume_output;

pub use changes::{MANY_CHANGES, redo_changes};
pub use laws::{pages_of_logs_are_valid, redo_completes_a_page};
pub use page_records::{PageRecords, by_page};
pub use placed_change::PlacedChange;
pub use rebuild::rebuild_page;
pub use redo::redo_page;
pub use stream::redo_stream;
pub use stream_fault::StreamFault;
pub use threads::{MANY_RECORDS, redo_by_page, redo_pages};
pub use volume::redo_pages_alone;
pub use volume_output::write_volume;
