//! The script of a run: reads its bytes as events for the engine, and prints replies as lines.
#![tactic(auto)]

mod bad_line;
mod call;
mod fault;
mod input;
mod laws;
mod line;
mod line_fault;
mod number;
mod read;
mod reply;
mod script;
mod short_word;
mod shown;
mod words;

pub use bad_line::BadLine;
pub use fault::ScriptFault;
pub use input::MAX_SCRIPT_BYTES;
pub use laws::inputs_have_one_fault;
pub use line_fault::LineFault;
pub use read::read_script;
pub use reply::ReplyLine;
pub use script::{LastRestore, Script};
pub use shown::Shown;
