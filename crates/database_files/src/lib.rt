//! What stands in the folder of a database, and what it tells of the log.
#![tactic(auto)]

mod change_fault;
mod closed_note;
mod copy_trouble;
mod database_folder;
mod diagnostics;
mod evidence;
mod fault;
mod found_copies;
mod found_manifest;
mod found_master;
mod inventory;
mod kept_manifest;
mod log_file;
mod manifest_file;
mod moved_aside;
mod names;
mod place;
mod whole_file;

pub use change_fault::ChangeFault;
pub use closed_note::{ClosedNote, note_in, read_note, remove_note};
pub use copy_trouble::CopyTrouble;
pub use database_folder::{DatabaseFolder, LogFault, RANDOM, Standing, VolumeFault};
pub use diagnostics::Diagnostics;
pub use evidence::{ForcedEndEvidence, Witness, is_within};
pub use fault::OpenFault;
pub use found_copies::{CopyFile, FoundCopy, read_copies};
pub use found_manifest::{drawn_name, log_line, name_for, read_manifest};
pub use found_master::{FoundMaster, read_master};
pub use inventory::Inventory;
pub use kept_manifest::{KeptManifest, note_file, without_lost};
pub use log_file::{LogFile, bytes_of, found_in, is_headless, of_log};
pub use manifest_file::put_text;
pub use moved_aside::{FreeName, move_copy_aside, move_manifest_aside, move_master_aside};
pub use names::{CLOSED, LEFT_OUT, LOG, MANIFEST, MASTER, VOLUME, copy_of, is_unfinished_backup};
pub use place::Place;
pub use whole_file::{Bytes, read_whole};
