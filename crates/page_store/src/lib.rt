//! Stores of the pages of a volume.
#![tactic(auto)]

mod faulty_store;
mod mem_store;
mod store;

pub use faulty_store::FaultyStore;
pub use mem_store::MemStore;
pub use store::{PageStore, StoreFault};
