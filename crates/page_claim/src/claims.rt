//! Claims: they are made, with a seat for each worker, and pages are claimed, one at a time.

ghost use Rattle.std.specs.Prelude.{◌≡◌, ◌<◌, ◌≤◌, ◌++◌, [], ◌∷◌, false, true, length};
ghost use Rattle.std.specs.Prelude.{IfOk, IfSome, IsNone, IfNone, vec_capacity};
ghost use Rattle.std.specs.List.{All};
ghost use Rattle.page_claim.specs.Claims.{IsNewSeat, IsNewSeatOf, IsSeatOf};
ghost use Rattle.page_claim.specs.Claims.{page_count, pages_of, seats_made, was_told_none};
ghost use Rattle.page_claim.specs.Rule.{new_view};

use crate::rule::{ClaimTerms, ClaimView, Claiming, OneWorker};
use crate::seats::{ClaimSeat, PageClaims};
use atomic_table::{Seat, Table};
use page_core::PageNo;
use std::alloc::{AllocError, Global};

impl PageClaims {
    /// Claims on the pages below a number, and a seat for each worker. `AllocError` comes where
    /// memory is refused.
    pub fn new(
        alloc: Global,
        pages: u32,
        workers: u32,
    ) -> Result<(PageClaims, Vec<ClaimSeat>), AllocError>
        ensures pages { IfOk result (λ made. page_count made.0 ≡ pages) }
        ensures workers { IfOk result (λ made. seats_made made.0 ≡ workers) }
        ensures count { IfOk result (λ made. length made.1.items ≡ workers) }
        ensures seats { IfOk result (λ made. All (IsSeatOf made.0) made.1.items) }
        ensures fresh { IfOk result (λ made. All IsNewSeat made.1.items) }
    {
        let room = Vec::with_capacity(alloc, workers as usize)?;
        let terms = ClaimTerms {
            count: pages,
            workers,
        };
        let (table, first) = Table::of_words(alloc, &[0], &terms)?;
        let claims = PageClaims {
            count: pages,
            alloc,
            table,
        };
        let seats = claims.seats(first, workers, room);
        Ok((claims, seats))
    }

    /// A seat for each worker, out of one that stands for all of them.
    fn seats(
        &self,
        mut first: Seat<(), ClaimView>,
        workers: u32,
        mut seats: Vec<ClaimSeat>,
    ) -> Vec<ClaimSeat>
        requires room { (seats.items ≡ []) × (workers ≤ vec_capacity seats) }
        requires own { first.table_id ≡ self.now.table.shared.table_id }
        requires first { first.me ≡ (new_view self.now.count workers, []) }
        ensures count { length result.items ≡ workers }
        ensures seats { All (IsNewSeatOf self.now) result.items }
    {
        if workers == 0 {
            return seats;
        }
        for _made in 1..workers {
            let next = self.table.shared.split_seat::<OneWorker>(&mut first);
            seats.push_reserved(one_seat(next));
        }
        seats.push_reserved(one_seat(first));
        seats
    }

    /// How many pages there are to claim.
    pub fn pages(&self) -> u32
        ensures { result ≡ page_count self.now }
    {
        self.count
    }

    /// Claims the next page. None is answered once no page is left, and from then on.
    ///
    /// It waits for nobody, and takes no memory.
    pub fn claim(&self, seat: &mut ClaimSeat) -> Option<PageNo>
        requires { IsSeatOf self.now seat.old }

        ensures own { IsSeatOf self.now seat.new }
        ensures page { IfSome result (λ page. (page < page_count self.now)
            × (pages_of seat.new ≡ pages_of seat.old ++ page ∷ [])
            × (was_told_none seat.new ≡ was_told_none seat.old)) }
        ensures none { IfNone result ((pages_of seat.new ≡ pages_of seat.old)
            × (was_told_none seat.new ≡ true)) }
        ensures again { was_told_none seat.old ≡ true → IsNone result }
    {
        if seat.ended {
            return None;
        }
        let found = self
            .table
            .shared
            .fetch_add::<Claiming>(&mut seat.seat, 0, 1);
        if found < u64::from(self.count) {
            Some(PageNo(found as u32))
        } else {
            seat.ended = true;
            None
        }
    }
}

/// The seat of one worker, before its first claim.
fn one_seat(seat: Seat<(), ClaimView>) -> ClaimSeat
    requires { (seat.me.0.weight ≡ 1) × (seat.me.0.ended ≡ false) × (seat.me.1 ≡ []) }
    ensures { (result.seat ≡ seat) × (result.ended ≡ false) }
{
    ClaimSeat { ended: false, seat }
}
