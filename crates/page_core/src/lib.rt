//! Pages of a volume: their numbers, how a change alters them, and their bytes.
#![tactic(auto)]

mod buffer;
mod change;
mod failures;
mod fault_name;
pub mod field;
mod format;
mod input;
mod numbers;
mod output;
mod page;
mod page_counts;
mod volume;

pub use buffer::zeros;
pub use change::{Change, ChangeKind, undo_of};
pub use failures::Failures;
pub use fault_name::FaultName;
pub use format::Format;
pub use input::{MAX_TURNS, Turn, keep_from, read_more, readers_are_asked_so_often};
pub use numbers::{LSN_STEP, Lsn, PageNo, SlotNo, TxnNo};
pub use output::write_out;
pub use page::{
    BadPage, MAX_PAGES, PAGE_BYTES, Page, SLOTS, pages_are_spelled_apart, pages_have_these_numbers,
    volumes_are_spelled_apart,
};
pub use page_counts::{GivenCount, PageCounts};
pub use volume::{formatted_pages, grow_reserved, new_volumes_grow_to_new_ones};
