//! The lines of an open database: how they are read, what each orders, and what is said of it.
#![tactic(auto)]

mod bad_call;
mod command_said;
mod help;
mod line_reader;
mod operator_command;
mod order;
mod said;
mod serve_fault;
mod tally;

pub use bad_call::{BadCall, LineTrouble};
pub use command_said::{CommandSaid, write_command, write_text};
pub use help::HELP;
pub use line_reader::{LineReader, NextLine};
pub use operator_command::OperatorCommand;
pub use order::{Order, said_in, said_unended};
pub use said::{Said, write_said};
pub use serve_fault::ServeFault;
pub use tally::Tally;
