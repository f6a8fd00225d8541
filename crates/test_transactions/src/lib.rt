//! Tests of transactions whose work is a closure, of their parts, and of runs of tasks.
#![tactic(auto)]

#[cfg(test)]
mod parts;
#[cfg(test)]
mod runs;
#[cfg(test)]
mod transactions;
#[cfg(test)]
mod volume;
