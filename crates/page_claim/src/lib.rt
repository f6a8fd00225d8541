//! Pages handed out to workers, each to one of them, with no lock.
#![tactic(auto)]

mod claims;
mod closing;
mod rule;
mod seats;

pub use seats::{ClaimSeat, PageClaims};
