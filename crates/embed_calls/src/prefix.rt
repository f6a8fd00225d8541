//! Finds where a log ends that a crash has left.

ghost use Rattle.std.specs.Prelude.{◌≡◌, ◌≢◌};
ghost use Rattle.embed_calls.specs.Calls.{HasNoPrefix, IsForcedBehind, IsPrefix};
ghost use Rattle.embed_calls.specs.Outcome.{of_cut};

use crate::check::end_behind;
use crate::outcome::Outcome;
use log_prefix::{Cut, CutReason, FrontScan, forced_behind, scan_front};
use page_core::Lsn;
use std::alloc::Global;

/// Finds the longest front of the bytes that is a log: what a crash has left of a log is to be cut
/// where it ends. With code 0 `first` is the offset at which it ends. `second` is 0 where all bytes
/// are the front; else it is the number of the fault that `check_log` finds there: 31, 32, 34 or 35.
/// `third` is the LSN of the first record behind the front that was forced, or 0. If it is not 0,
/// records are lost that a crash does not take: do not cut such a log.
///
/// The faults are 30 where no log begins so, and 1 where memory is refused.
pub fn log_prefix(alloc: Global, log: &[u8]) -> Outcome
    ensures found { result.code ≡ 0 → IsPrefix log.now result }
    ensures none { result.code ≢ 0 → HasNoPrefix log.now result }
{
    let mut reader = log;
    match scan_front::<&[u8], ()>(alloc, &mut reader) {
        Ok(FrontScan { scan, cut }) => {
            let end = end_behind(scan.history.into_analysis().records);
            Outcome::answers(end, number_of(cut), forced_from(log, end))
        }
        Err(why) => Outcome::from(why),
    }
}

/// The number of the fault at a cut; 0 where nothing was cut.
fn number_of(cut: Option<Cut>) -> u64
    ensures { result ≡ of_cut cut }
{
    match cut {
        None => 0,
        Some(cut) => match cut.why {
            CutReason::BadRecord => 31,
            CutReason::Torn => 32,
            CutReason::TooLong => 34,
            CutReason::BadChain => 35,
        },
    }
}

/// The LSN of the first record from this end on that was forced; 0 where there is none.
fn forced_from(log: &[u8], end: u64) -> u64
    requires { end ≢ 0 }
    ensures { IsForcedBehind log.now end result }
{
    match forced_behind(log, Lsn(end)) {
        Some(at) => at.0,
        None => 0,
    }
}
