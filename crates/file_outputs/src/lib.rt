//! What a command writes: a file by its name, the files of a save, their manifest, and a volume.
#![tactic(auto)]

mod leftovers;
mod limits;
mod manifest_output;
mod one_place;
mod output_folder;
mod output_lines;
mod redone_volume;
mod save_folder;
mod save_lines;
mod saving;
mod volume_output;

pub use leftovers::{UNFINISHED_NAME, is_unfinished};
pub use limits::{Inputs, Limits};
pub use one_place::{have_one_folder, is_one_place};
pub use output_folder::OutputFolder;
pub use output_lines::{tell, tell_output};
pub use redone_volume::{RedoneUntil, RedoneVolume};
pub use saving::Saving;
pub use volume_output::VolumeOutput;
