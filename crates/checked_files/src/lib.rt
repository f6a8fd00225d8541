//! Files that a manifest names, checked while they are read, and the manifest of what an engine
//! leaves.
#![tactic(auto)]

mod checked_files;
mod expected;
mod known;
mod laws;
mod left_manifest;
mod manifest_text;

pub use checked_files::{CheckNotes, CheckedFile, CheckedFiles, Watched};
pub use expected::Expected;
pub use known::{Known, ManifestUse, ReadFile, fits_length, known_file};
pub use laws::{
    audited_files_are_named, left_aside_for_a_reason, named_files_are_one, named_files_fit,
    restored_files_are_named,
};
pub use left_manifest::{is_of_saved_files, manifest_of};
pub use manifest_text::ManifestText;
