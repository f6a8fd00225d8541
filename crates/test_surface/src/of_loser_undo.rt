//! The undo of open transactions.

pub use loser_undo::{Redone, UndoFault, Undone, losers, open_by_tail, undo_all};
