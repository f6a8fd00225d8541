//! Whether what checkpoints and copies answered stands in what a run left.

ghost use Rattle.std.specs.Prelude.{ℕ, ◌≡◌, ◌⊎◌, ◌<◌, ◌≤◌, ◌++◌, [], ◌∷◌, false, true, length};
ghost use Rattle.std.specs.Prelude.{List, IfErr, OnOk, IsSomeAnd, None, Some};
ghost use Rattle.std.specs.List.{All, filter_map};
ghost use Rattle.copy_vault.specs.Vault.{complete_of, state_of};
ghost use Rattle.settlement.specs.Marks.{AreMarked};
ghost use Rattle.settlement.specs.Receipt.{times};
ghost use Rattle.engine_run.specs.Given.{AreGiven};
ghost use Rattle.settlement.specs.Sessions.{AreApart};
ghost use Rattle.engine_run.specs.Settled.{IsCopyWith, IsWorkBad, IsWorkWrongAt, WorkStands};
ghost use Rattle.engine_run.specs.Settled.{begin_of, copies_of, evidence};

use crate::work::Work;
use copy_vault::{CopyId, CopyKind, Vault};
use page_core::Lsn;
use settlement::{CountedLog, mark_checkpoint};

/// Checks what checkpoints and copies answered. `marks` are those of the records that receipts
/// speak of, and `given` those of ids of copies. An `Err` has the begin LSN of a Point that does
/// not stand or that another one has too, or 0 where a copy does not stand or comes twice.
pub(crate) fn check_works(
    marks: &mut [bool],
    given: &mut [bool],
    log: &CountedLog<'_>,
    forced_end: Lsn,
    vault: &Vault,
    works: &[Work],
) -> Result<(), Lsn>
    requires lengths { length marks.old ≡ length log.now.records }
    requires few { length vault.now.copies < length given.old }
    requires none { AreGiven given.old [] }
    ensures ok { let e = evidence log.now forced_end vault.now.copies in
        OnOk result (All (WorkStands e) works.now) }
    ensures lsns { OnOk result ((lsns : List ℕ) → AreMarked marks.old lsns
        → AreApart (lsns ++ filter_map begin_of works.now)) }
    ensures copies { OnOk result (AreApart (copies_of works.now)) }
    ensures err { let e = evidence log.now forced_end vault.now.copies in
        IfErr result (λ at. (lsns : List ℕ) → AreMarked marks.old lsns
        → IsWorkWrongAt e lsns works.now at) }
{
    for work in works {
        if let Err(at) = check_work(marks, given, log, forced_end, vault, work) {
            return Err(at);
        }
    }
    Ok(())
}

/// Checks what one of them answered.
fn check_work(
    marks: &mut [bool],
    given: &mut [bool],
    log: &CountedLog<'_>,
    forced_end: Lsn,
    vault: &Vault,
    work: &Work,
) -> Result<(), Lsn>
    requires lengths { length marks.old ≡ length log.now.records }
    requires few { length vault.now.copies < length given.old }
    ensures ok { let e = evidence log.now forced_end vault.now.copies in
        OnOk result (WorkStands e work.now) }
    ensures marked { OnOk result ((lsns : List ℕ) → AreMarked marks.old lsns
        → AreMarked marks.new (lsns ++ filter_map begin_of (work.now ∷ []))) }
    ensures given { OnOk result ((ids : List ℕ) → AreGiven given.old ids
        → AreGiven given.new (ids ++ copies_of (work.now ∷ []))) }
    ensures err { let e = evidence log.now forced_end vault.now.copies in
        IfErr result (IsWorkBad e marks.old given.old work.now) }
    ensures marks { length marks.new ≡ length marks.old }
    ensures ids { length given.new ≡ length given.old }
{
    match *work {
        Work::Pointed(point) => {
            if mark_checkpoint(
                log,
                forced_end,
                point.begin,
                point.end,
                point.redo,
                point.pages,
                marks,
            ) {
                Ok(())
            } else {
                Err(point.begin)
            }
        }
        Work::Copied { id, kind, taken } => {
            if mark_copy(given, vault, id, kind, taken) {
                Ok(())
            } else {
                Err(Lsn(0))
            }
        }
    }
}

/// Says whether the vault has this complete copy, and its id was not marked yet. If so, it is
/// marked now.
fn mark_copy(given: &mut [bool], vault: &Vault, id: CopyId, kind: CopyKind, taken: u32) -> bool
    requires few { length vault.now.copies < length given.old }
    ensures yes { result ≡ true
        → IsSomeAnd (complete_of (state_of vault.now.copies id)) (IsCopyWith kind taken) }
    ensures marked { result ≡ true → (ids : List ℕ) → AreGiven given.old ids
        → AreGiven given.new (ids ++ id ∷ []) }
    ensures no { result ≡ false
        → (¬ IsSomeAnd (complete_of (state_of vault.now.copies id)) (IsCopyWith kind taken))
        ⊎ ((ids : List ℕ) → AreGiven given.old ids → 0 < times id ids) }
    ensures ids { length given.new ≡ length given.old }
{
    if !has_copy(vault, id, kind, taken) {
        return false;
    }
    let index = id.0 as usize;
    if given[index] {
        return false;
    }
    given[index] = true;
    true
}

/// Whether the vault has a complete copy of this id and kind that took so many pages.
fn has_copy(vault: &Vault, id: CopyId, kind: CopyKind, taken: u32) -> bool
    ensures yes { result ≡ true
        → IsSomeAnd (complete_of (state_of vault.now.copies id)) (IsCopyWith kind taken) }
    ensures within { result ≡ true → id ≤ length vault.now.copies }
    ensures no { result ≡ false
        → ¬ IsSomeAnd (complete_of (state_of vault.now.copies id)) (IsCopyWith kind taken) }
{
    let Some(copy) = vault.complete(id) else {
        return false;
    };
    copy.kind() == kind && copy.taken() == taken
}
