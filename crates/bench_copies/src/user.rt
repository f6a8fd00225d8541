//! A session that makes calls until it is told to stop.

use crate::case::Shape;
use imgcopy_engine::{Life, LogDevice, MemStore, PageNo, Refusal, Session, Shared, SlotNo};
use std::sync::Wait;
use std::sync::atomic::{AtomicU64, Ordering};

/// An engine behind a lock, with pages in memory and a log on any device.
pub type Volume<D, G> = Shared<MemStore, D, G>;

/// A session, the page that it changes, what its transactions do, and how many calls it has made.
#[derive(Drop)]
pub struct User<G: Life> {
    pub session: Session<G>,
    pub page: PageNo,
    pub shape: Shape,
    pub calls: u64,
    pub ended: Result<(), Refusal>,
}

impl<G: Life> User<G> {
    /// A transaction of the shape.
    fn transaction<D: LogDevice>(
        &mut self,
        rt: &impl Wait,
        shared: &Volume<D, G>,
    ) -> Result<(), Refusal> {
        let Shape { changes, reads } = self.shape;
        let txn = self.session.begin(rt, shared)?.txn;
        for slot in 0..changes {
            self.session
                .add(rt, shared, txn, self.page, SlotNo(slot), 1)?;
        }
        for _ in 0..reads {
            self.session.read(rt, shared, self.page, SlotNo(0))?;
        }
        self.session.commit(rt, shared, txn)?;
        let calls = changes as u64 + reads as u64 + 2;
        self.calls = self.calls.wrapping_add(calls);
        Ok(())
    }

    fn transactions<D: LogDevice>(
        &mut self,
        rt: &impl Wait,
        shared: &Volume<D, G>,
        stop: &AtomicU64,
    ) -> Result<(), Refusal> {
        for _ in rt.forever() {
            if stop.load(Ordering::SeqCst) != 0 {
                break;
            }
            self.transaction(rt, shared)?;
        }
        Ok(())
    }

    /// Makes transactions until `stop` is not 0, or a call is refused.
    pub fn work<D: LogDevice>(&mut self, rt: &impl Wait, shared: &Volume<D, G>, stop: &AtomicU64) {
        self.ended = self.transactions(rt, shared, stop);
    }
}
