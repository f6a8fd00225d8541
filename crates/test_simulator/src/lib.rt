//! A machine in memory on which a database lives, whose power is cut, and whose calls fail.
#![tactic(auto)]

#[cfg(test)]
mod closings;
mod cut;
mod disk;
mod draw;
mod folder;
#[cfg(test)]
mod lives;
mod machine;
mod trouble;
mod volume;

pub use cut::Remains;
pub use disk::SimulatedDisk;
pub use draw::Draw;
pub use folder::{SimulatedFile, SimulatedFolder, SimulatedLog, SimulatedOutput, SimulatedReader};
pub use machine::{Entry, Machine, State, Step};
pub use trouble::{Call, Trouble};
pub use volume::SimulatedVolume;
