//! What a run of tasks leaves.

ghost use Rattle.std.specs.Prelude.{◌≡◌, ◌≤◌, [], vec_capacity, vec_len, IfOk, None};
ghost use Rattle.imgcopy_engine.specs.Run.{lists_of};

use crate::run::RunFault;
use copy_coverage::Retired;
use engine_run::{Life, Receipt, Session, Work};
use std::alloc::{AllocError, Global};

/// What the tasks of a run leave: the log with its copies, what each task was answered, and the
/// store and the device as the last call left them.
#[derive(Drop)]
pub struct RunEnd<S, D> {
    /// The log, its last complete checkpoint and the image copies: what a restore needs.
    pub retired: Retired,
    /// The receipts of each task's session, in the order of the tasks.
    pub receipts: Vec<Vec<Receipt>>,
    /// What each task's checkpoints and copies were answered, in the order of the tasks.
    pub works: Vec<Vec<Work>>,
    pub store: S,
    pub device: D,
}

/// Why a run has no settled end, and what it left where its tasks have worked and what they were
/// answered was compared.
#[derive(Drop)]
pub struct RunRefused<S, D> {
    pub fault: RunFault,
    /// There is none where no task has worked, or where there was no memory to compare.
    pub end: Option<RunEnd<S, D>>,
}

impl<S: Drop, D: Drop> RunRefused<S, D> {
    /// A run that has left nothing to look at.
    pub(crate) fn of(fault: RunFault) -> RunRefused<S, D>
        ensures fault { result.fault ≡ fault }
        ensures none { result.end ≡ None }
    {
        RunRefused { fault, end: None }
    }
}

/// Room for the sessions of tasks, for their receipts, and for the works of each.
#[derive(Drop)]
pub(crate) struct Room<G: Life> {
    pub(crate) sessions: Vec<Session<G>>,
    pub(crate) receipts: Vec<Vec<Receipt>>,
    pub(crate) works: Vec<Vec<Work>>,
}

impl<G: Life> Room<G> {
    pub(crate) fn new(alloc: Global, count: usize) -> Result<Room<G>, AllocError>
        ensures sessions { IfOk result (λ room.
            (room.sessions.items ≡ []) × (count ≤ vec_capacity room.sessions)) }
        ensures receipts { IfOk result (λ room.
            (room.receipts.items ≡ []) × (count ≤ vec_capacity room.receipts)) }
        ensures works { IfOk result (λ room.
            (room.works.items ≡ []) × (count ≤ vec_capacity room.works)) }
    {
        Ok(Room {
            sessions: Vec::with_capacity(alloc, count)?,
            receipts: Vec::with_capacity(alloc, count)?,
            works: Vec::with_capacity(alloc, count)?,
        })
    }
}

/// Hands the receipts of sessions out, in their order.
pub(crate) fn receipts_of<G: Life>(
    sessions: Vec<Session<G>>,
    mut receipts: Vec<Vec<Receipt>>,
) -> Vec<Vec<Receipt>>
    requires room { (receipts.items ≡ []) × (vec_len sessions ≤ vec_capacity receipts) }
    ensures { lists_of result.items ≡ sessions.items }
{
    for session in sessions {
        receipts.push_reserved(session.into_receipts());
    }
    receipts
}
