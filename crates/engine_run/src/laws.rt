//! What a settled run tells, for readers of the contracts.

ghost use Rattle.std.specs.Prelude.{ℕ, ◌≡◌, ◌+◌, ◌<◌, ◌≤◌, ◌⊎◌, true, List, length, take};
ghost use Rattle.std.specs.Prelude.{slice_index_or, Result, Err};
ghost use Rattle.std.specs.List.{All, sum_by};
ghost use Rattle.log_records.specs.declared.record.Record.{Record};
ghost use Rattle.log_records.specs.Log.{Log, lsn_of};
ghost use Rattle.copy_vault.specs.Copy.{CopyView};
ghost use Rattle.copy_vault.specs.Vault.{complete, state_of};
ghost use Rattle.copy_coverage.specs.Copied.{Restores};
ghost use Rattle.copy_coverage.specs.Kept.{IsKeptOf};
ghost use Rattle.copy_coverage.specs.Retired.{IsRetired, RetiredView};
ghost use Rattle.settlement.specs.declared.receipt.Receipt.{Receipt};
ghost use Rattle.settlement.specs.Counts.{changes_in, is_of_txn, is_update, updates_in};
ghost use Rattle.settlement.specs.Receipt.{times, written};
ghost use Rattle.settlement.specs.Sessions.{IsCommitIn, all_receipts, changed};
ghost use Rattle.engine_rules.specs.EngineState.{EngineState, IsFit, log_of};
ghost use Rattle.engine_calls.specs.declared.event.Answer.{Answer};
ghost use Rattle.engine_calls.specs.declared.event.Event.TheVariants as event;
ghost use Rattle.engine_calls.specs.declared.refusal.Refusal.{Refusal};
ghost use Rattle.engine_calls.specs.declared.refusal.Refusal.TheVariants.{PageOut, SlotOut};
ghost use Rattle.engine_run.specs.declared.beginning.Beginning.{Beginning};
ghost use Rattle.engine_run.specs.declared.work.Work.{Work};
ghost use Rattle.engine_run.specs.Beginning.{IsBeginning};
ghost use Rattle.engine_run.specs.Held.{IsCounted};
ghost use Rattle.engine_run.specs.Life.{BeginsBy, IsLifeOf};
ghost use Rattle.engine_run.specs.Laws.{IsNewTo, IsRestoredBy, ReadsItsOwn};
ghost use Rattle.engine_run.specs.Replies.{Replies};
ghost use Rattle.engine_run.specs.Settled.{Evidence, IsSettled, IsWrongAt, evidence_in};

use crate::held::Held;
use crate::life::Life;
use copy_coverage::{a_complete_copy_restores, copies_may_be_restored};
use engine_rules::the_log_only_grows;
use log_store::LogDevice;
use page_store::PageStore;

/// Whenever the lock is free, what lies under it is what the promise on restores speaks of: its
/// engine is fit, and its book has counted each record of a transaction in its log. Calls have led to
/// it from the engine that it was made of, whose log it still begins with. So what laws of an engine
/// for one thread say of a run holds of it, also where it is lost before it settles; and each
/// complete copy restores every log that a crash may leave then, while all others go on.
pub fn a_free_lock_guards_a_fit_engine<S: PageStore, D: LogDevice, G: Life>(held: &Held<S, D, G>)
    ensures fit { IsFit held.now.engine.state }
    ensures counted { IsCounted held.now }
    ensures life { IsLifeOf G.before held.now.engine.state }
    ensures begins { BeginsBy G.before held.now.engine.state.log }
    ensures restores { let s = held.now.engine.state in (kept : Log) (id : ℕ) (copy : CopyView)
        → IsKeptOf (log_of s) s.forced_end kept → state_of s.copies id ≡ complete copy
        → Restores s.copies copy kept.records }
{
    let _end = held.engine.log_end();
    the_log_only_grows();
    copies_may_be_restored();
    a_complete_copy_restores();
}

/// Each record of a transaction that the log has got since the sessions began was answered to one
/// of them, once: one receipt has its LSN. So no transaction was begun, committed or taken back
/// that no session asked for. That a receipt has a record of its own is a part of what *settled*
/// says.
pub fn each_record_was_answered_once()
    ensures { (began : Beginning) (e : Evidence) (sessions : List (List Receipt)) (works : List Work)
        → IsSettled began e sessions works → (i : ℕ) (d : Record) → began.records ≤ i
        → i < length e.log.records
        → is_of_txn (slice_index_or e.log.records i d) ≡ true
        → times (lsn_of i) (written (all_receipts sessions)) ≡ 1 }
{}

/// The receipt that has the LSN of an Update is that of a change.
pub fn each_change_was_answered_once()
    ensures { (began : Beginning) (e : Evidence) (sessions : List (List Receipt)) (works : List Work)
        → IsSettled began e sessions works → (i : ℕ) (d : Record) → began.records ≤ i
        → i < length e.log.records
        → is_update (slice_index_or e.log.records i d) ≡ true
        → times (lsn_of i) (changed (all_receipts sessions)) ≡ 1 }
{}

/// The sessions have as many receipts of changes as the log has got Updates since they began.
pub fn changes_add_up_to_updates()
    ensures { (began : Beginning) (e : Evidence) (sessions : List (List Receipt)) (works : List Work)
        → IsSettled began e sessions works
        → updates_in (take began.records e.log.records) + sum_by changes_in sessions
        ≡ updates_in e.log.records }
{}

/// The Commit of each commit that was answered is in every log that a crash may leave.
pub fn an_acknowledged_commit_is_kept()
    ensures { (began : Beginning) (left : RetiredView) (sessions : List (List Receipt)) (works : List Work)
        (kept : Log) → IsSettled began (evidence_in left) sessions works
        → IsKeptOf left.log left.forced_end kept
        → All (All (IsCommitIn kept.records)) sessions }
{}

/// What a session read is made of its own records, too.
pub fn a_session_reads_its_own_writes()
    ensures { (began : Beginning) (left : RetiredView) (sessions : List (List Receipt)) (works : List Work)
        → IsRetired left → IsSettled began (evidence_in left) sessions works
        → All (ReadsItsOwn left.log.records) sessions }
{}

/// Each copy that was answered restores every log that a crash may leave: redo from its redo point
/// on makes each page what redo of the whole kept log makes.
pub fn an_answered_copy_restores()
    ensures { (began : Beginning) (left : RetiredView) (sessions : List (List Receipt)) (works : List Work)
        (kept : Log) → IsRetired left → IsSettled began (evidence_in left) sessions works
        → IsKeptOf left.log left.forced_end kept
        → All (IsRestoredBy left.copies kept.records) works }
{
    a_complete_copy_restores();
}

/// No copy that was answered was there when the run began.
pub fn an_answered_copy_is_new()
    ensures { (s : EngineState) (began : Beginning) (e : Evidence) (sessions : List (List Receipt))
        (works : List Work) → IsBeginning s began → IsSettled began e sessions works
        → All (IsNewTo s.copies) works }
{}

/// A run of which something is wrong is not settled, so a settled one is refused for memory alone.
pub fn what_is_wrong_is_not_settled()
    ensures { (began : Beginning) (e : Evidence) (sessions : List (List Receipt)) (works : List Work)
        (at : ℕ) → IsWrongAt began e sessions works at → ¬ IsSettled began e sessions works }
{}

/// What answers a peek looks at the slot that is asked for: a page that no volume has is refused as
/// such, and so is a slot that no page has.
pub fn a_peek_is_of_its_slot()
    ensures page { (page slot : ℕ) (reply : Result Answer Refusal) → Replies (event.Read page slot) reply
        → 65536 ≤ page → reply ≡ Err PageOut }
    ensures slot { (page slot : ℕ) (reply : Result Answer Refusal) → Replies (event.Read page slot) reply
        → 62 ≤ slot → (reply ≡ Err PageOut) ⊎ (reply ≡ Err SlotOut) }
{}
