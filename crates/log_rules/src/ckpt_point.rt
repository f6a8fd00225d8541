//! A complete checkpoint.

use page_core::Lsn;

/// A complete checkpoint: the LSNs of its BeginChkpt and of its EndChkpt, and its redo point, from
/// which on redo has to read the log.
#[derive(Clone, Copy, Debug, PartialEq, Eq)]
pub struct CkptPoint {
    pub begin: Lsn,
    pub end: Lsn,
    pub redo: Lsn,
}
