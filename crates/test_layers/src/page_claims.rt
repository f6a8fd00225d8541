//! Pages that workers claim, in turns and in threads, and what is left when the claims are closed.

ghost use Rattle.std.specs.Prelude.{◌≡◌, ◌<◌, length};
ghost use Rattle.std.specs.List.{All};
ghost use Rattle.page_claim.specs.Claims.{IsSeatOf, page_count};

use crate::asserts::{same, same_at};
use page_claim::{ClaimSeat, PageClaims};
use page_core::PageNo;
use std::alloc::AllocError;
use std::process::Abort;
use std::sync::atomic::{AtomicU64, Ordering};
use std::test::Fail;
use std::thread;
use std::thread::Threads;

/// The next claim of one of the seats.
fn claimed(claims: &PageClaims, seats: &mut [ClaimSeat], at: usize) -> Option<PageNo>
    requires there { at < length seats.old }
    requires seats { All (IsSeatOf claims.now) seats.old }
    ensures { All (IsSeatOf claims.now) seats.new }
{
    claims.claim(&mut seats[at])
}

/// Closes the claims, and asserts that these are the pages below a number.
fn assert_closed(rt: &impl Abort, claims: PageClaims, seats: Vec<ClaimSeat>, wanted: u32)
    requires { All (IsSeatOf claims) seats.items }
{
    let pages = match claims.close(seats) {
        Ok(pages) => pages,
        // The memory that was refused is asked for once more.
        Err((claims, seats)) => claims.close(seats).ok().expect(rt, "memory"),
    };
    same(rt, &pages.len(), &(wanted as usize));
    for (number, page) in (0..wanted).zip(&pages) {
        same_at(rt, page, &PageNo(number), &wanted);
    }
}

/// Drops the last seat.
fn lose_one(claims: &PageClaims, seats: &mut Vec<ClaimSeat>)
    requires { All (IsSeatOf claims.now) seats.old.items }
    ensures { All (IsSeatOf claims.now) seats.new.items }
{
    drop(seats.pop());
}

/// Three pages and two workers: each claim answers the next page, whose ever it is.
#[test]
fn two_seats_claim_in_turns(rt: HostRuntime) -> Result<(), Fail> {
    let (claims, mut seats) = PageClaims::new(rt.alloc(), 3, 2)?;
    same(&rt, &claims.pages(), &3);
    same(&rt, &seats.len(), &2);
    same(&rt, &claimed(&claims, &mut seats, 0), &Some(PageNo(0)));
    same(&rt, &claimed(&claims, &mut seats, 1), &Some(PageNo(1)));
    same(&rt, &claimed(&claims, &mut seats, 0), &Some(PageNo(2)));
    same(&rt, &claimed(&claims, &mut seats, 1), &None);
    same(&rt, &claimed(&claims, &mut seats, 0), &None);
    same(&rt, &claimed(&claims, &mut seats, 1), &None);
    assert_closed(&rt, claims, seats, 3);
    Ok(())
}

/// Of 5 pages the first 2 were claimed, and one of the two seats is lost.
#[test]
fn claims_are_closed_before_their_end(rt: HostRuntime) -> Result<(), Fail> {
    let (claims, mut seats) = PageClaims::new(rt.alloc(), 5, 2)?;
    same(&rt, &seats.len(), &2);
    same(&rt, &claimed(&claims, &mut seats, 0), &Some(PageNo(0)));
    same(&rt, &claimed(&claims, &mut seats, 1), &Some(PageNo(1)));
    lose_one(&claims, &mut seats);
    assert_closed(&rt, claims, seats, 2);
    Ok(())
}

/// No page, or no worker.
#[test]
fn there_is_nothing_to_claim(rt: HostRuntime) -> Result<(), Fail> {
    let (claims, mut seats) = PageClaims::new(rt.alloc(), 0, 1)?;
    same(&rt, &seats.len(), &1);
    same(&rt, &claimed(&claims, &mut seats, 0), &None);
    assert_closed(&rt, claims, seats, 0);
    let (claims, seats) = PageClaims::new(rt.alloc(), 7, 0)?;
    same(&rt, &seats.len(), &0);
    assert_closed(&rt, claims, seats, 0);
    Ok(())
}

/// Claims until it is told None, and marks each page that it is given.
fn draw(claims: &PageClaims, seat: &mut ClaimSeat, marks: &[AtomicU64])
    requires seat { IsSeatOf claims.now seat.old }
    requires marks { length marks.now ≡ page_count claims.now }
    ensures { IsSeatOf claims.now seat.new }
{
    for _ in 0..=claims.pages() {
        let Some(page) = claims.claim(seat) else {
            return;
        };
        marks[page.0 as usize].fetch_add(1, Ordering::SeqCst);
    }
}

/// Each seat claims in a thread of its own, if one can be made.
fn draw_all<R: Threads + Sync>(
    rt: &R,
    claims: &PageClaims,
    seats: &mut [ClaimSeat],
    marks: &[AtomicU64],
)
    requires some { 0 < length seats.old }
    requires seats { All (IsSeatOf claims.now) seats.old }
    requires marks { length marks.now ≡ page_count claims.now }
    ensures { All (IsSeatOf claims.now) seats.new }
{
    let threads = seats.len();
    thread::for_each_mut(rt, seats, threads, &|_, seat| draw(claims, seat, marks));
}

/// A thousand pages are claimed in threads: each is given once.
fn assert_drawn<R: Threads + Abort + AllocGlobal + Sync>(
    rt: &R,
    workers: u32,
) -> Result<(), AllocError> {
    let (claims, mut seats) = PageClaims::new(rt.alloc(), 1_000, workers)?;
    let mut marks = Vec::with_capacity(rt.alloc(), 1_000)?;
    for _ in 0..1_000 {
        marks.push(AtomicU64::new(0))?;
    }
    assert!(rt; marks.len() == 1_000 && !seats.is_empty());
    draw_all(rt, &claims, &mut seats, &marks);
    for mark in &marks {
        same_at(rt, &mark.load(Ordering::SeqCst), &1, &workers);
    }
    assert_closed(rt, claims, seats, 1_000);
    Ok(())
}

#[test]
fn threads_draw_each_page_once(rt: HostRuntime) -> Result<(), Fail> {
    for workers in [1, 4, 64] {
        assert_drawn(&rt, workers)?;
    }
    Ok(())
}
