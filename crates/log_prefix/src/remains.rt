//! Looks for a forced record behind the front of a log's file.

ghost use Rattle.std.specs.Prelude.{ℕ, ◌≡◌, ◌/◌, ◌↔◌, ◌<◌, ◌≤◌, length, IfSome, None, Some, IsTrue};
ghost use Rattle.page_core.specs.declared.numbers.TheConstants.{LSN_STEP};
ghost use Rattle.log_records.specs.declared.record.Record.{Record};
ghost use Rattle.log_prefix.specs.Remains.{EndsForce, HasBehind, IsForcedAtOnce, StandsAlone};
ghost use Rattle.log_prefix.specs.Remains.{WasForced};

use log_records::{RECORD_BYTES, Record, decode};
use page_core::{LSN_STEP, Lsn};

/// The LSN of the first record from `end` on that was forced: a Commit or an EndChkpt that has some
/// record behind it. `end` is the byte offset at which the front of a log's file ends; the front
/// itself is not looked at.
///
/// If there is one, the log was forced through it, and records between the front and it are damaged
/// or lost: no crash does that, as long as each force succeeded. A Commit or an EndChkpt with no
/// record behind it tells nothing, since a crash may keep the last record of a force and lose an
/// earlier one.
///
/// It takes no memory, and looks at each 64 bytes at most once.
pub fn forced_behind(bytes: &[u8], end: Lsn) -> Option<Lsn>
    ensures found { IfSome result (λ at. (end ≤ at) × WasForced bytes.now at) }
    // no other is earlier
    ensures first { IfSome result (λ at. (earlier : ℕ) → end ≤ earlier → earlier < at
        → ¬ WasForced bytes.now earlier) }
    ensures none { result ≡ None → (at : ℕ) → end ≤ at → ¬ WasForced bytes.now at }
{
    let at = first_force_end(bytes, end)?;
    if has_behind(bytes, at) {
        Some(at)
    } else {
        None
    }
}

/// The first place from `end` on where a force of the log ends.
fn first_force_end(bytes: &[u8], end: Lsn) -> Option<Lsn>
    ensures found { IfSome result (λ at. (end ≤ at) × EndsForce bytes.now at) }
    ensures first { IfSome result (λ at. (earlier : ℕ) → end ≤ earlier → earlier < at
        → ¬ EndsForce bytes.now earlier) }
    ensures none { result ≡ None → (at : ℕ) → end ≤ at → ¬ EndsForce bytes.now at }
{
    for place in end.0.div_ceil(LSN_STEP)..places_of(bytes) {
        let at = Lsn(place * LSN_STEP);
        if let Some(record) = record_alone(bytes, at) {
            if is_forced_at_once(&record) {
                return Some(at);
            }
        }
    }
    None
}

/// Whether any record stands behind this place.
fn has_behind(bytes: &[u8], at: Lsn) -> bool
    ensures { IsTrue result ↔ HasBehind bytes.now at }
{
    for place in at.0 / LSN_STEP + 1..places_of(bytes) {
        if record_alone(bytes, Lsn(place * LSN_STEP)).is_some() {
            return true;
        }
    }
    false
}

/// The record that stands alone at this place, if one does.
fn record_alone(bytes: &[u8], at: Lsn) -> Option<Record>
    ensures found { IfSome result (λ r. StandsAlone bytes.now at r) }
    ensures only { (r : Record) → StandsAlone bytes.now at r → result ≡ Some r }
{
    let start = at.0 as usize;
    let end = start.checked_add(RECORD_BYTES)?;
    let here = bytes.get(start..end)?;
    decode(here.as_array().unwrap(), at)
}

/// Whether the log is forced through the record before the next one is appended.
fn is_forced_at_once(record: &Record) -> bool
    ensures { IsTrue result ↔ IsForcedAtOnce «record».now }
{
    matches!(*record, Record::Commit { .. } | Record::EndChkpt { .. })
}

/// How many places of 64 bytes there are, with that of the header.
fn places_of(bytes: &[u8]) -> u64
    ensures { result ≡ length bytes.now / LSN_STEP }
{
    bytes.len() as u64 / LSN_STEP
}
