//! The result of a checkpoint.

use crate::ckpt::Ckpt;
use crate::phase::Gathered;
use page_core::Lsn;

/// A complete checkpoint: the LSNs of its BeginChkpt and of its EndChkpt, its redo point, from
/// which on redo has to read the log, and the page count of the volume at its BeginChkpt. Every
/// change below the redo point is stored.
#[derive(Clone, Copy, Debug, PartialEq, Eq)]
pub struct Point {
    pub begin: Lsn,
    pub end: Lsn,
    pub redo: Lsn,
    pub pages: u32,
}

/// Why a checkpoint did not come to its end.
#[derive(Drop)]
pub enum FinishFault {
    /// Memory ran out. Nothing has changed, and the checkpoint is handed back.
    OutOfMemory(Ckpt<Gathered>),
    /// The log's device failed. The EndChkpt stands in the log, not known to be forced, and the
    /// checkpoint is closed.
    LogFault,
}
