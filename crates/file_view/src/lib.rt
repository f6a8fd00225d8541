//! What a file of a database is, and the lines that show it.
#![tactic(auto)]

mod copy_header;
mod copy_row;
mod fault;
mod head;
mod input;
mod kind;
mod laws;
mod lines;
mod log_summary;
mod page_row;
mod record_line;
mod show;
mod summary;
mod wanted;

pub use copy_header::{CopyHeader, read_copy_header};
pub use copy_row::{CopyFlaw, CopyRow, Rows};
pub use fault::ViewFault;
pub use head::{Head, HeadJson};
pub use input::read_file;
pub use kind::{FileKind, kind_of};
pub use laws::{lines_are_told_apart, listings_are_told_apart};
pub use lines::{Form, Lines};
pub use log_summary::LogSummary;
pub use page_row::put_page;
pub use record_line::put_record;
pub use show::show_file;
pub use summary::{LogFacts, facts_of, put_copies, put_log};
pub use wanted::Wanted;
