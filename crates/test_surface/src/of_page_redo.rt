//! Redo of pages, and of a log's bytes to those of its volume.

pub use page_redo::{
    PlacedChange, by_page, rebuild_page, redo_changes, redo_page, redo_pages, redo_stream,
    write_volume,
};
