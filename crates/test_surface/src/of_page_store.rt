//! Stores of pages.

pub use page_store::{FaultyStore, MemStore, PageStore, StoreFault};
