//! What a settled run leaves.

use crate::life::Life;
use crate::session::Session;
use copy_coverage::Retired;
use log_store::LogDevice;
use page_store::PageStore;

/// What a settled run leaves. Nothing goes on from the sessions: they are given back for their
/// receipts.
#[derive(Drop)]
pub struct Settled<S: PageStore, D: LogDevice, G: Life> {
    /// The log, its last complete checkpoint and the image copies.
    pub retired: Retired,
    /// The sessions that were given, in their order.
    pub sessions: Vec<Session<G>>,
    /// The store of the pages, as the last call left it.
    pub store: S,
    /// The device of the log, as the last call left it.
    pub device: D,
}
