//! A worker of an image copy, and what it claims pages with.

ghost use Rattle.std.specs.Prelude.{◌≤◌, length};
ghost use Rattle.std.specs.List.{All};
ghost use Rattle.page_claim.specs.Claims.{IsSeatOf};

use page_claim::{ClaimSeat, PageClaims};
use page_core::PageNo;
use std::alloc::{AllocError, Global};

/// A worker: its number, from 0 on, and its seat.
#[derive(Drop)]
pub(crate) struct Worker<'a> {
    claims: &'a PageClaims,
    seat: ClaimSeat,
    pub(crate) number: u32,
    ghost own: { IsSeatOf claims.now seat },
}

impl<'a> Worker<'a> {
    fn new(claims: &'a PageClaims, seat: ClaimSeat, number: u32) -> Worker<'a>
        requires { IsSeatOf claims.now seat }
    {
        Worker {
            claims,
            seat,
            number,
        }
    }

    /// The next page, if one is left.
    pub(crate) fn claim(&mut self) -> Option<PageNo> {
        self.claims.claim(&mut self.seat)
    }

    /// How many pages there are to claim.
    pub(crate) fn pages(&self) -> u32 {
        self.claims.pages()
    }
}

/// A worker for each seat.
pub(crate) fn workers_of<'a>(
    alloc: Global,
    claims: &'a PageClaims,
    mut seats: Vec<ClaimSeat>,
) -> Result<Vec<Worker<'a>>, AllocError>
    requires seats { All (IsSeatOf claims.now) seats.items }
    requires few { length seats.items ≤ 64 }
{
    let mut workers = Vec::new(alloc);
    while let Some(seat) = seats.pop() {
        let number = seats.len() as u32;
        workers.push(Worker::new(claims, seat, number))?;
    }
    Ok(workers)
}
