//! Where sessions are given back and taken anew, while their engine is shared.

use crate::idle::IdleSessions;
use crate::life::Life;
use crate::session::Session;
use std::alloc::{AllocError, Global};
use std::sync::{Mutex, Wait};

/// Sessions that wait behind a lock of their own. A user takes one, makes calls and gives it back,
/// in any thread; the next user goes on with it. It keeps its receipts and its share, so `settle`
/// compares what all its users were answered. A session that is dropped takes its changes out of
/// the sum, and then the run cannot be settled: give each one back.
#[derive(Drop)]
pub struct SessionDesk<G: Life> {
    idle: Mutex<IdleSessions<G>>,
}

impl<G: Life> SessionDesk<G> {
    /// A desk at which no session waits, with room for each session of an engine.
    pub fn new(alloc: Global) -> Result<SessionDesk<G>, AllocError> {
        Ok(SessionDesk {
            idle: Mutex::new(IdleSessions::new(alloc)?),
        })
    }

    /// Has a session wait for its next user. It takes no memory.
    pub fn give_back(&self, rt: &impl Wait, session: Session<G>) {
        self.idle.lock(rt).give_back(session);
    }

    /// The session that was given back last, if one waits.
    pub fn take(&self, rt: &impl Wait) -> Option<Session<G>> {
        self.idle.lock(rt).take()
    }

    /// All sessions that wait, out of the lock, where contracts see them.
    pub fn into_idle(self) -> IdleSessions<G> {
        self.idle.into_inner()
    }
}
