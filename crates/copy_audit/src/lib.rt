//! Audits a chain of image copies against a log: whether it restores what the log says, whoever
//! wrote the copies.
#![tactic(auto)]

mod all_pages;
mod by_lsn;
mod chain_audit;
mod found;
mod laws;
mod members;
mod page_audit;
mod page_places;
mod reach;
mod trace;
mod unsound;

pub use all_pages::{UnsoundPage, UnsoundPages, unsound_pages};
pub use chain_audit::{Sound, audit};
pub use laws::{
    a_part_of_an_audited_chain_is_audited, an_audited_chain_is_called_sound,
    an_unsound_chain_is_not_audited, so_many_unsound_pages_are_told,
};
pub use page_audit::is_sound;
pub use unsound::Unsound;
