//! Says why the record at the first fault of a log may not stand there.

ghost use Rattle.std.specs.Prelude.{◌≡◌, ◌+◌, length, slice_range, IfOk, IfSome, None, Some};
ghost use Rattle.page_core.specs.Input.{StaysKnown};
ghost use Rattle.log_records.specs.declared.record.Record.{Record};
ghost use Rattle.log_records.specs.Log.{IsLog, Log, StandsAt};
ghost use Rattle.log_records.specs.Record.{record_bytes};
ghost use Rattle.log_rules.specs.History.{IsMadeOf, MayComeNext};
ghost use Rattle.log_store.specs.declared.fault.LogReadFault.TheVariants.{BadChain};
ghost use Rattle.log_store.specs.BrokenRule.{IsBroken, IsRuleAt};

use crate::broken_rule::BrokenRule;
use crate::fault::LogReadFault;
use crate::history::History;
use crate::scan::{Reached, scan_to_fault};
use log_records::{RECORD_BYTES, record_at};
use page_core::{Format, Lsn};
use std::alloc::Global;
use std::io::Read;

/// The rule that the record at this offset breaks, whose bytes these are; None where the first fault
/// of the log is another one than `BadChain` there. It reads the log to its first fault.
///
/// An `Err` comes where `scan_to_fault` answers one.
pub fn broken_rule_at<R: Read>(
    alloc: Global,
    log: &mut R,
    at: Lsn,
    bytes: &[u8],
) -> Result<Option<BrokenRule>, LogReadFault>
    requires { length bytes.now ≡ RECORD_BYTES }
    ensures known { StaysKnown (R.remaining log.old) (R.remaining log.new) }
    ensures rule { IfOk result (λ it. IfSome (R.remaining log.old) (λ input.
        bytes.now ≡ slice_range input at (at + RECORD_BYTES) → IsRuleAt input at it)) }
{
    let Reached { scan, fault } = scan_to_fault::<R, ()>(alloc, log)?;
    Ok(rule_behind(&scan.history, fault, at, bytes))
}

/// The rule that is broken behind a log that made this history, and is followed by this fault.
fn rule_behind(
    history: &History,
    fault: Option<LogReadFault>,
    at: Lsn,
    bytes: &[u8],
) -> Option<BrokenRule>
    requires whole { length bytes.now ≡ RECORD_BYTES }
    requires made { (log : Log) × IsMadeOf log history.now × IsLog log }
    ensures some { IfSome result (λ rule. (fault ≡ Some (BadChain at))
        × ((there : Record) × (bytes.now ≡ record_bytes there)
        × IsBroken history.now there rule)) }
    ensures none { result ≡ None → fault ≡ Some (BadChain at) → (there : Record)
        → StandsAt (length history.now.pages) at there → bytes.now ≡ record_bytes there
        → MayComeNext history.now there }
{
    let Some(fault) = fault else {
        return None;
    };
    if fault != LogReadFault::BadChain(at) {
        return None;
    }
    let pages = history.pages().len() as u32;
    // Each record of the first format is one of the second.
    match record_at(bytes, at, Format::Second, pages) {
        Some(there) => history.broken_rule(&there),
        None => None,
    }
}
