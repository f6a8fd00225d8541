//! What a checkpoint or a copy of a shared engine answers.

use copy_vault::{CopyId, CopyKind};
use fuzzy_ckpt::Point;

/// What a checkpoint or a copy has made, to be looked for in what the engine leaves.
#[derive(Clone, Copy, Debug, PartialEq, Eq)]
pub enum Work {
    /// A complete checkpoint.
    Pointed(Point),
    /// A complete image copy of this id and kind, with so many pages.
    Copied {
        id: CopyId,
        kind: CopyKind,
        taken: u32,
    },
}
