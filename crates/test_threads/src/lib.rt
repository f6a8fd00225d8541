//! Tests of the engine for many threads, through its public items.
#![tactic(auto)]

#[cfg(test)]
mod archives;
#[cfg(test)]
mod desks;
#[cfg(test)]
mod faults;
#[cfg(test)]
mod gates;
#[cfg(test)]
mod going_on;
#[cfg(test)]
mod holds;
#[cfg(test)]
mod readers;
#[cfg(test)]
mod sessions;
#[cfg(test)]
mod settling;
#[cfg(test)]
mod takes;
#[cfg(test)]
mod volume;
