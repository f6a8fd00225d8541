//! What is called before a hold.

use page_core::PageNo;

/// A place to wait, which is passed without the lock: before a worker of a copy takes its next
/// page, and before a flush pass or a checkpoint locks the engine for a step. Tests wait in it, and
/// a program may slow such work down.
pub trait HoldGate {
    /// `worker` is the number of the copy worker, from 0 on, and 0 in a flush pass or checkpoint;
    /// `page` is the page of the hold, and 0 in a checkpoint.
    fn before(&self, worker: u32, page: PageNo);
}

/// A gate that is always open.
#[derive(Clone, Copy, Debug, Drop)]
pub struct OpenGate;

impl HoldGate for OpenGate {
    fn before(&self, _worker: u32, _page: PageNo) {}
}
