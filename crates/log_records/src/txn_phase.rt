//! What an open transaction is doing.

/// Whether an open transaction is active or rolling back.
#[derive(Clone, Copy, Debug, PartialEq, Eq)]
pub enum TxnPhase {
    Active,
    Rolling,
}
