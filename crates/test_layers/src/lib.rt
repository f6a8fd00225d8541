//! Tests of the crates below the engine, which try them through their public items.
#![tactic(auto)]

#[cfg(test)]
mod archives;
#[cfg(test)]
mod asserts;
#[cfg(test)]
mod chain_readers;
#[cfg(test)]
mod checkpoints;
#[cfg(test)]
mod devices;
#[cfg(test)]
mod faults;
#[cfg(test)]
mod log_remains;
#[cfg(test)]
mod logs;
#[cfg(test)]
mod manifests;
#[cfg(test)]
mod open_transactions;
#[cfg(test)]
mod page_claims;
#[cfg(test)]
mod pages;
#[cfg(test)]
mod pools;
#[cfg(test)]
mod redo;
#[cfg(test)]
mod stores;
#[cfg(test)]
mod tails;
#[cfg(test)]
mod turns;
#[cfg(test)]
mod vaults;
