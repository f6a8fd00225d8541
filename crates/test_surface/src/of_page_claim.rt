//! Pages for the workers of a copy.

pub use page_claim::{ClaimSeat, PageClaims};
