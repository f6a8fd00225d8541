//! A pending change, which its transaction may still undo.

use page_core::{Change, Lsn, PageNo, SlotNo};

/// A change of an Update that no compensation record has undone, with what a rollback needs of it.
#[derive(Clone, Copy, Debug, PartialEq, Eq)]
pub struct PendingChange {
    /// The Update's own LSN.
    pub lsn: Lsn,
    /// Its PrevLSN, which is the UndoNxt of the record that will compensate it.
    pub prev: Lsn,
    pub page: PageNo,
    pub slot: SlotNo,
    pub change: Change,
}
