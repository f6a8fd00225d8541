//! The checkpoints of a log, by what was answered of them.

ghost use Rattle.std.specs.Prelude.{ℕ, ◌≡◌, ◌<◌, ◌≤◌, ◌⊎◌, ◌++◌, [], ◌∷◌, List, true, false};
ghost use Rattle.std.specs.Prelude.{length};
ghost use Rattle.settlement.specs.Checkpoint.{HasCheckpoint, HasForced, IsBegin, IsEndOf};
ghost use Rattle.settlement.specs.Marks.{AreMarked};
ghost use Rattle.log_records.specs.Log.{lsn_of};
ghost use Rattle.settlement.specs.Receipt.{times};
ghost use Rattle.std.specs.Prelude.{IfSome, IfNone};

use crate::counted_log::CountedLog;
use crate::marks::index_of;
use log_records::Record;
use page_core::Lsn;

/// Says whether the log has the BeginChkpt and the EndChkpt of a checkpoint, with this redo point
/// and forced, whether the volume had so many pages at the BeginChkpt, and whether that was not
/// marked yet. If so, it is marked now.
pub fn mark_checkpoint(
    log: &CountedLog<'_>,
    forced_end: Lsn,
    begin: Lsn,
    end: Lsn,
    redo: Lsn,
    pages: u32,
    marks: &mut [bool],
) -> bool
    requires lengths { length marks.old ≡ length log.now.records }
    ensures yes { result ≡ true → HasCheckpoint log.now forced_end begin end redo pages }
    ensures marked { result ≡ true → (lsns : List ℕ) → AreMarked marks.old lsns
        → AreMarked marks.new (lsns ++ begin ∷ []) }
    ensures no { result ≡ false → (¬ HasCheckpoint log.now forced_end begin end redo pages)
        ⊎ ((lsns : List ℕ) → AreMarked marks.old lsns → 0 < times begin lsns) }
    ensures same_length { length marks.new ≡ length marks.old }
{
    let records = log.records();
    let Some(index) = begin_index(records, forced_end, begin) else {
        return false;
    };
    if log.count_below(begin) != pages {
        return false;
    }
    if !has_end(records, forced_end, begin, redo, end) {
        return false;
    }
    if marks[index] {
        return false;
    }
    marks[index] = true;
    true
}

/// The index of the forced BeginChkpt at an LSN.
fn begin_index(records: &[Record], forced_end: Lsn, at: Lsn) -> Option<usize>
    ensures some { IfSome result (λ i. (at ≡ lsn_of i) × (i < length records.now)
        × HasForced records.now forced_end at IsBegin) }
    ensures none { IfNone result (¬ HasForced records.now forced_end at IsBegin) }
{
    let Some(index) = index_of(at, records.len()) else {
        return None;
    };
    if at >= forced_end {
        return None;
    }
    if !is_begin(&records[index]) {
        return None;
    }
    Some(index)
}

fn is_begin(record: &Record) -> bool
    ensures yes { result ≡ true → IsBegin «record».now }
    ensures no { result ≡ false → ¬ IsBegin «record».now }
{
    matches!(*record, Record::BeginChkpt { .. })
}

/// Whether the forced record at an LSN is the EndChkpt of this checkpoint.
fn has_end(records: &[Record], forced_end: Lsn, begin: Lsn, redo: Lsn, at: Lsn) -> bool
    ensures yes { result ≡ true → HasForced records.now forced_end at (IsEndOf begin redo) }
    ensures no { result ≡ false → ¬ HasForced records.now forced_end at (IsEndOf begin redo) }
{
    let Some(index) = index_of(at, records.len()) else {
        return false;
    };
    if at >= forced_end {
        return false;
    }
    is_end_of(begin, redo, &records[index])
}

/// Whether a record is the EndChkpt of this checkpoint.
fn is_end_of(begin: Lsn, redo: Lsn, record: &Record) -> bool
    ensures yes { result ≡ true → IsEndOf begin redo «record».now }
    ensures no { result ≡ false → ¬ IsEndOf begin redo «record».now }
{
    match *record {
        Record::EndChkpt {
            begin: b,
            redo: r,
            ..
        } => b == begin && r == redo,
        _ => false,
    }
}
