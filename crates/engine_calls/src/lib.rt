//! The calls of the engine, their answers and refusals, as values.
#![tactic(auto)]

mod event;
mod refusal;
mod setup;

pub use event::{Answer, Event, Gathered, Reply, SteppedBack, Took, Undone};
pub use refusal::Refusal;
pub use setup::{PlayFault, Setup};
