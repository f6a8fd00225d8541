//! The longest chain of copies.

use super::shown::assert_pages;
use super::{redone_of, retired_of};
use crate::calls::calls_of;
use crate::rows;
use std::process::Abort;

/// The transaction's change is never stored, so that each increment keeps the page.
const CHANGED: &str = "
    begin -> began 1 at 192
    set 1 0 0 5 -> lsn 256
";

/// The increments, each on the one before it.
fn increments(rt: &(impl Abort + AllocGlobal)) -> String {
    let mut part = String::new(rt.alloc());
    for copy in 2..1_025u32 {
        let parent = copy - 1;
        writeln!(
            part,
            "inc {parent} -> copy {copy}\ntake {copy} 0 -> kept\nseal {copy} -> sealed 0"
        )
        .expect(rt, "memory for a row");
    }
    part
}

const NO_MORE: &str = "
    inc 1024 -> E25 TooManyCopies
    commit 1 -> lsn 320
";

#[test]
fn the_longest_chain_is_restored(rt: HostRuntime) {
    let increments = increments(&rt);
    let parts = [rows::IDLE, rows::FULL, CHANGED, &increments, NO_MORE];
    let calls = calls_of(&rt, &parts);
    let retired = retired_of(&rt, 1, 0, &calls);
    let redone = redone_of(&rt, retired, 1_024, usize::MAX);
    assert_pages(&rt, redone.pages(), &[(0, 256, [5, 0, 0])]);
    drop(redone);
}
