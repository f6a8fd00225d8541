//! The buffer pool: pages of a volume in memory, which of them are dirty, and how they are
//! written to a store.
#![tactic(auto)]

mod bit_row;
mod frame;
mod frames;
mod growth;
mod laws;
mod marks;
mod page_hasher;
mod page_image;
mod page_set;
mod page_states;
mod pool;
mod rec_lsns;
mod slots;

pub use frame::MAX_FRAMES;
pub use laws::{
    dirty_pages_are_resident, next_dirty_pages_pass_over_none, stored_pages_cover_their_rec_lsns,
};
pub use page_image::PageImage;
pub use pool::Pool;
