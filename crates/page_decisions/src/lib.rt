//! What a copy has decided of each page of a volume: to take it, or to keep its parent's.
#![tactic(auto)]

mod mark;
mod pages;
mod places;
mod rising;
mod slots;

pub use pages::CopyPages;
pub use rising::RisingPages;
pub use slots::Slots;
