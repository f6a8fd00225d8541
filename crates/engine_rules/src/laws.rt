//! Laws of whole runs, for readers of the contracts.

ghost use Rattle.std.specs.Prelude.{ℕ, ◌≡◌, ◌≢◌, ◌+◌, ◌<◌, ◌≤◌, ◌++◌, List, [], ◌∷◌, length};
ghost use Rattle.std.specs.Prelude.{Option, Some, None, Result, Ok, Err, false, slice_index_or};
ghost use Rattle.std.specs.Prelude.{map, nat_eq};
ghost use Rattle.std.specs.List.{All, IsDistinct};
ghost use Rattle.log_records.specs.declared.limits.TheConstants.{MAX_RECORDS};
ghost use Rattle.log_records.specs.declared.record.Record.{Record};
ghost use Rattle.log_records.specs.declared.record.Record.TheVariants as log;
ghost use Rattle.log_records.specs.Log.{IsPageCount, Log};
ghost use Rattle.log_rules.specs.Transactions.{is_open, last_lsn, owed};
ghost use Rattle.log_rules.specs.Work.{work};
ghost use Rattle.copy_coverage.specs.Kept.{IsKeptOf};
ghost use Rattle.copy_coverage.specs.Retired.{HasRoomForUndo};
ghost use Rattle.engine_rules.specs.Accepted.{accepted};
ghost use Rattle.engine_rules.specs.AnsweredCommits.{AnsweredCommit, StandsIn, answered_commits};
ghost use Rattle.engine_rules.specs.EngineState.{EngineState, IsFit, effect, log_of, new_state};
ghost use Rattle.engine_rules.specs.EngineState.{page_now, rec_lsn_of};
ghost use Rattle.engine_rules.specs.EngineState.{volume_pages};
ghost use Rattle.engine_rules.specs.Written.{written_by};
ghost use Rattle.log_records.specs.Coverage.{Covers};
ghost use Rattle.page_core.specs.declared.page.Page.{Page};
ghost use Rattle.engine_calls.specs.EventFits.{EventFits};
ghost use Rattle.engine_rules.specs.Refusal.{refusal};
ghost use Rattle.engine_rules.specs.Run.{Run};
ghost use Rattle.engine_rules.specs.Step.{Step};
ghost use Rattle.engine_calls.specs.declared.event.Answer.{Answer};
ghost use Rattle.engine_calls.specs.declared.event.Answer.TheVariants as answer;
ghost use Rattle.engine_calls.specs.declared.event.Event.{Event};
ghost use Rattle.engine_calls.specs.declared.event.Event.TheVariants as event;
ghost use Rattle.engine_calls.specs.declared.refusal.Refusal.{Refusal};
ghost use Rattle.engine_calls.specs.declared.refusal.Refusal.TheVariants.{CommitUnsure, LogFault};
ghost use Rattle.engine_calls.specs.declared.refusal.Refusal.TheVariants.{LogFull, StoreFault};

/// A new engine is fit: its log has a spelling, is linked, and has room for what open transactions
/// may still need.
pub fn a_new_engine_is_fit()
    ensures { (pages frames : ℕ) → IsPageCount pages
        → IsFit (new_state pages frames) }
{}

/// An engine stays fit, whatever calls come and whatever its device does.
pub fn engines_stay_fit()
    ensures { (old : EngineState) (events : List Event)
        (replies : List (Result Answer Refusal)) (new : EngineState)
        → IsFit old → All EventFits events → Run old events replies new → IsFit new }
{}

/// There are never more pages in memory than frames, and no page is there twice.
pub fn pages_in_memory_are_few_and_distinct()
    ensures few { (pages frames : ℕ) (events : List Event) (replies : List (Result Answer Refusal))
        (new : EngineState) → IsPageCount pages → All EventFits events
        → Run (new_state pages frames) events replies new → length new.resident ≤ frames }
    ensures distinct { (pages frames : ℕ) (events : List Event)
        (replies : List (Result Answer Refusal)) (new : EngineState) → IsPageCount pages
        → All EventFits events → Run (new_state pages frames) events replies new
        → IsDistinct nat_eq (map (λ page. page.number) new.resident) }
{}

/// There is room to take back what is open wherever a log may be cut: at each place of a new
/// engine's log, whatever calls came; and of one that goes on from an older log, at each place that
/// has all before it which was forced when it began.
pub fn there_is_room_at_each_place()
    ensures new { (pages frames : ℕ) (events : List Event) (replies : List (Result Answer Refusal))
        (new : EngineState) → IsPageCount pages → All EventFits events
        → Run (new_state pages frames) events replies new → HasRoomForUndo new.log 0 }
    ensures later { (old : EngineState) (events : List Event)
        (replies : List (Result Answer Refusal)) (new : EngineState) → IsFit old
        → All EventFits events → Run old events replies new
        → HasRoomForUndo new.log old.forced_end }
{}

/// LogFull is answered exactly where the log's records and those that open transactions may still
/// need would be more than a log may have, after the call.
pub fn log_full_is_exact()
    ensures accepted { (s : EngineState) (event : Event) → IsFit s → refusal s event ≡ None
        → let after = (effect s event).state in length after.log + owed after.log ≤ MAX_RECORDS }
    ensures refused { (s : EngineState) (event : Event) → IsFit s → refusal s event ≡ Some LogFull
        → let after = (effect s event).state in MAX_RECORDS < length after.log + owed after.log }
{}

/// The log shows the run: read back as calls, it shows the accepted calls in their order, after
/// those that it showed before the run.
pub fn log_shows_the_accepted_calls()
    ensures { (old : EngineState) (events : List Event)
        (replies : List (Result Answer Refusal)) (new : EngineState)
        → Run old events replies new → work new.log ≡ work old.log ++ accepted events replies }
{}

/// The log only grows: no record in it changes or moves.
pub fn the_log_only_grows()
    ensures { (old : EngineState) (events : List Event)
        (replies : List (Result Answer Refusal)) (new : EngineState)
        → Run old events replies new → (rest : List Record) × (new.log ≡ old.log ++ rest) }
{}

/// The forced end of the log never falls: what was forced stays so.
pub fn the_forced_end_never_falls()
    ensures { (old : EngineState) (events : List Event)
        (replies : List (Result Answer Refusal)) (new : EngineState)
        → IsFit old → Run old events replies new → old.forced_end ≤ new.forced_end }
{}

/// Once a Commit is answered, its record stands at the end of the log, and lies below the forced
/// end.
pub fn an_answered_commit_is_forced()
    ensures { (old : EngineState) (txn lsn : ℕ) (new : EngineState)
        → Step old (event.Commit txn) (Ok (answer.Logged lsn)) new
        → (new.log ≡ old.log ++ log.Commit lsn txn (last_lsn old.log txn) ∷ [])
        × (lsn < new.forced_end) }
{}

/// The record of each Commit that was answered in a run is at its LSN, and is forced. So it is in
/// each log that a crash may leave.
pub fn answered_commits_are_kept()
    ensures forced { (pages frames : ℕ) (events : List Event)
        (replies : List (Result Answer Refusal))
        (new : EngineState) → Run (new_state pages frames) events replies new
        → All (λ commit. StandsIn new.log commit × (commit.lsn < new.forced_end))
        (answered_commits events replies) }
    ensures kept { (pages frames : ℕ) (events : List Event) (replies : List (Result Answer Refusal))
        (new : EngineState) (kept : Log) → Run (new_state pages frames) events replies new
        → IsKeptOf (log_of new) new.forced_end kept
        → All (StandsIn kept.records) (answered_commits events replies) }
{}

/// So it is of an engine that goes on from an older one; and what stood forced in its log before its
/// first call still does, and is in each log that a crash may leave.
pub fn later_commits_are_kept()
    ensures forced { (old : EngineState) (events : List Event)
        (replies : List (Result Answer Refusal))
        (new : EngineState) → IsFit old → Run old events replies new
        → All (λ commit. StandsIn new.log commit × (commit.lsn < new.forced_end))
        (answered_commits events replies) }
    ensures older { (old : EngineState) (events : List Event)
        (replies : List (Result Answer Refusal))
        (new : EngineState) (commit : AnsweredCommit) → IsFit old → Run old events replies new
        → StandsIn old.log commit × (commit.lsn < old.forced_end)
        → StandsIn new.log commit × (commit.lsn < new.forced_end) }
    ensures kept { (s : EngineState) (kept : Log) (commit : AnsweredCommit)
        → IsKeptOf (log_of s) s.forced_end kept
        → StandsIn s.log commit × (commit.lsn < s.forced_end) → StandsIn kept.records commit }
{}

/// At CommitUnsure the Commit stands at the end of the log, not counted as forced, and its
/// transaction has ended.
pub fn an_unsure_commit_ends_its_transaction()
    ensures { (old : EngineState) (txn lsn : ℕ) (new : EngineState)
        → Step old (event.Commit txn) (Err (CommitUnsure lsn)) new
        → (new.log ≡ old.log ++ log.Commit lsn txn (last_lsn old.log txn) ∷ [])
        × (is_open new.log txn ≡ false)
        × (new.forced_end ≤ lsn) }
{}

/// A refusal changes nothing, except the three that report a fault of the log's device or of the
/// store.
pub fn a_refusal_changes_nothing()
    ensures { (old : EngineState) (event : Event) (why : Refusal) (new : EngineState)
        → why ≢ LogFault → why ≢ StoreFault
        → ((lsn : ℕ) → why ≢ CommitUnsure lsn) → Step old event (Err why) new → new ≡ old }
{}

/// Only memory, the device and the store leave an engine a choice: where a refusal is due it is the
/// reply, and an event has no two answers.
pub fn replies_are_determined()
    ensures refused { (old : EngineState) (event : Event) (reply : Result Answer Refusal)
        (new : EngineState) (why : Refusal) → refusal old event ≡ Some why
        → Step old event reply new → (reply ≡ Err why) × (new ≡ old) }
    ensures answered { (old : EngineState) (event : Event) (a b : Answer) (new other : EngineState)
        → Step old event (Ok a) new → Step old event (Ok b) other → (a ≡ b) × (new ≡ other) }
{}

/// Each stored page of a fit engine lacks nothing below the page's RecLSN; where the page has none,
/// it is not dirty, and it is stored as it is now.
pub fn stored_pages_cover_their_rec_lsn()
    ensures dirty { (s : EngineState) (page rec_lsn : ℕ) (d : Page) → IsFit s
        → page < volume_pages s
        → rec_lsn_of s page ≡ Some rec_lsn
        → Covers s.log page (slice_index_or s.stored page d) rec_lsn }
    ensures clean { (s : EngineState) (page : ℕ) (d : Page) → IsFit s → page < volume_pages s
        → rec_lsn_of s page ≡ None → slice_index_or s.stored page d ≡ page_now s page }
{}

/// The LSN of the last write of each page is the one that its last accepted end of a write
/// answered, so events and replies alone say with the log which pages are dirty.
pub fn the_written_lsns_are_those_answered()
    ensures { (pages frames : ℕ) (events : List Event) (replies : List (Result Answer Refusal))
        (new : EngineState) → Run (new_state pages frames) events replies new
        → new.written ≡ written_by pages events replies }
{}
