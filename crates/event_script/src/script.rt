//! What a script says.

use copy_vault::CopyId;
use engine_calls::Event;

/// The `restore` that may end a script.
#[derive(Clone, Copy, Debug, PartialEq, Eq)]
pub struct LastRestore {
    /// The copy that is to be restored.
    pub copy: CopyId,
    /// How many records of the log are kept at most, and none where all are.
    pub cut: Option<u64>,
}

/// A script that was read: its events in order, and its last `restore`, if it has one.
#[derive(Drop)]
pub struct Script {
    pub events: Vec<Event>,
    pub restore: Option<LastRestore>,
    /// Memory that was touched: that of the script's bytes, for what is made next.
    pub room: String,
}
