//! The manifest of a folder of files: the length and the SHA-256 of each, in a text that
//! `sha256sum -c` checks, and sums of bytes that come piece by piece.
#![tactic(auto)]

mod checked_reader;
mod entry;
mod fault;
mod laws;
mod listing;
mod noted_files;
mod pieces;
mod reading;
mod sum;
mod summing_reader;
mod summing_writer;
mod sums;
mod text;

pub use checked_reader::CheckedReader;
pub use entry::{Entry, Extent, FileSum, is_name};
pub use fault::{LineFault, ManifestFault, NoteFault};
pub use laws::{collisions_are_at_hand, manifests_are_told_apart, what_is_noted_is_known};
pub use noted_files::Manifest;
pub use reading::decode;
pub use sum::{DatabaseName, Sum};
pub use summing_reader::SummingReader;
pub use summing_writer::SummingWriter;
pub use sums::{Sums, sum_rest};
