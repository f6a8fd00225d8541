//! Claims are closed: the seats are joined into one, and the word says which pages were claimed.

ghost use Rattle.std.specs.Prelude.{◌≡◌, ◌<◌, ◌≤◌, [], true, length, IfErr, IfOk, vec_capacity};
ghost use Rattle.std.specs.List.{All};
ghost use Rattle.std.specs.Mem.Slots.{slots_items, slots_len, IsFull};
ghost use mathlib.Core.Option.{some};
ghost use lib.ListN.{get_elem?};
ghost use Rattle.page_claim.specs.Claims.{AreAmong, HasJoined, HaveSamePages, IsLastWord};
ghost use Rattle.page_claim.specs.Claims.{IsSeatOf, drawn_by, is_any_told_none, page_count};
ghost use Rattle.page_claim.specs.Claims.{seats_made};
ghost use Rattle.page_claim.specs.Rule.{pages_below};

use crate::rule::{ClaimView, Together};
use crate::seats::{ClaimSeat, PageClaims};
use atomic_table::{Closed, Seat};
use page_core::PageNo;
use std::alloc::Global;

impl PageClaims {
    /// Ends the claims, and answers the pages that were claimed, in their order. An `Err` comes
    /// where memory for them is refused, which is looked at first, and gives all back.
    pub fn close(self, seats: Vec<ClaimSeat>) -> Result<Vec<PageNo>, (PageClaims, Vec<ClaimSeat>)>
        requires { All (IsSeatOf self) seats.items }

        ensures refused { IfErr result (λ back. (back.0 ≡ self) × (back.1 ≡ seats)) }
        ensures few { IfOk result (λ pages. length pages.items ≤ page_count self) }
        ensures order { IfOk result (λ pages. pages.items ≡ pages_below (length pages.items)) }
        ensures all { IfOk result (λ pages. is_any_told_none seats.items ≡ true
            → length pages.items ≡ page_count self) }
        ensures among { IfOk result (λ pages. AreAmong (drawn_by seats.items) pages.items) }
        ensures whole { IfOk result (λ pages. length seats.items ≡ seats_made self
            → HaveSamePages (drawn_by seats.items) pages.items) }
    {
        let count = self.count;
        let Ok(room) = Vec::with_capacity(self.alloc, count as usize) else {
            return Err((self, seats));
        };
        let word = self.last_word(seats);
        let claimed = if word < u64::from(count) {
            word as u32
        } else {
            count
        };
        Ok(first_pages(room, claimed))
    }

    /// The word, when no claim follows.
    fn last_word(self, mut seats: Vec<ClaimSeat>) -> u64
        requires { All (IsSeatOf self) seats.items }
        ensures { IsLastWord self seats.items result }
    {
        let Some(first) = seats.pop() else {
            let PageClaims { table, .. } = self;
            return word_of(table.close());
        };
        let ClaimSeat { seat: mut one, .. } = first;
        self.join_all(&mut one, seats);
        let PageClaims { table, .. } = self;
        word_of(table.close_with(one))
    }

    /// The seat takes in all others.
    fn join_all(&self, one: &mut Seat<(), ClaimView>, mut seats: Vec<ClaimSeat>)
        requires own { one.old.table_id ≡ self.now.table.shared.table_id }
        requires seats { All (IsSeatOf self.now) seats.items }
        requires works { 0 < one.old.me.0.weight }
        ensures same { (one.new.table_id ≡ one.old.table_id) × (one.new.id ≡ one.old.id) }
        ensures joined { (all : _) → HasJoined one.old.me.0 seats.items all
            → HasJoined one.new.me.0 [] all }
    {
        while let Some(next) = seats.pop() {
            let ClaimSeat { seat, .. } = next;
            self.table.shared.join_seat::<Together>(one, seat);
        }
    }
}

/// The one word of a table that no thread shares any more.
fn word_of(closed: Closed<(), Global>) -> u64
    requires word { (slots_len closed.words ≡ 1) × IsFull closed.words }
    requires no_slot { slots_len closed.slots ≡ 0 }
    ensures { get_elem? (slots_items closed.words) 0 ≡ some result }
{
    let word = closed.word(0);
    closed.free();
    word
}

/// The pages below a number, in room that was made before.
fn first_pages(mut pages: Vec<PageNo>, count: u32) -> Vec<PageNo>
    requires room { (pages.items ≡ []) × (count ≤ vec_capacity pages) }
    ensures { result.items ≡ pages_below count }
{
    for number in 0..count {
        pages.push_reserved(PageNo(number));
    }
    pages
}
