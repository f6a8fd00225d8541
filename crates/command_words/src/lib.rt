//! The words of the command line, and the command that they give.
#![tactic(auto)]

mod arguments;
mod command;
mod folder_words;
mod manifest_words;
mod open_words;
mod restore_words;
mod view_words;
mod words;

pub use arguments::RESTORE_USAGE;
pub use command::{Command, UsageFault, command_of};
pub use words::{WordsFault, words_of};
