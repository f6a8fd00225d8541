//! Laws of checkpoints, for readers of the contracts.

ghost use Rattle.std.specs.Prelude.{ℕ, ◌≡◌, ◌<◌, ◌≤◌, ◌↔◌, ◌++◌, List, [], ◌∷◌, false};
ghost use Rattle.std.specs.Prelude.{Option, Some, None, IsSome, IsSomeAnd, Result, Ok, Err};
ghost use Rattle.std.specs.Prelude.{slice_index_or};
ghost use Rattle.page_core.specs.declared.page.Page.{Page};
ghost use Rattle.log_records.specs.declared.record.Record.TheVariants as log;
ghost use Rattle.log_records.specs.Coverage.{Covers};
ghost use Rattle.log_rules.specs.Checkpoint.{IsCompleteCheckpoint, open_checkpoint, redo_point};
ghost use Rattle.fuzzy_ckpt.specs.declared.point.Point.{Point};
ghost use Rattle.engine_rules.specs.CkptReplies.{gather_ended, last_point};
ghost use Rattle.log_records.specs.Log.{page_count_below};
ghost use Rattle.engine_rules.specs.EngineState.{EngineState, IsFit, log_of, new_state};
ghost use Rattle.engine_rules.specs.EngineState.{volume_pages};
ghost use Rattle.engine_rules.specs.Refusal.{refusal};
ghost use Rattle.engine_rules.specs.Run.{Run};
ghost use Rattle.engine_rules.specs.Step.{Step};
ghost use Rattle.engine_calls.specs.declared.event.Answer.{Answer};
ghost use Rattle.engine_calls.specs.declared.event.Answer.TheVariants as answer;
ghost use Rattle.engine_calls.specs.declared.event.Event.{Event};
ghost use Rattle.engine_calls.specs.declared.event.Event.TheVariants as event;
ghost use Rattle.engine_calls.specs.declared.refusal.Refusal.{Refusal};
ghost use Rattle.engine_calls.specs.declared.refusal.Refusal.TheVariants.{CkptOpen, GatherLeft};
ghost use Rattle.engine_calls.specs.declared.refusal.Refusal.TheVariants.{LogFault, NoCkpt};

/// The master of a fit engine names a complete checkpoint of its log, whose EndChkpt is forced, and
/// the page count of the volume where it began.
pub fn the_master_names_a_complete_checkpoint()
    ensures complete { (s : EngineState) (point : Point) → IsFit s → s.master ≡ Some point
        → IsCompleteCheckpoint s.log point.begin point.end × (point.end < s.forced_end) }
    ensures pages { (s : EngineState) (point : Point) → IsFit s → s.master ≡ Some point
        → point.pages ≡ page_count_below (log_of s) point.begin }
{}

/// Each stored page of a fit engine has each of its changes below the redo point of the master: a
/// copy of the stored pages that begins now lacks nothing that redo from there does not bring.
pub fn stored_pages_cover_the_redo_point()
    ensures { (s : EngineState) (point : Point) (page : ℕ) (d : Page) → IsFit s
        → page < volume_pages s
        → s.master ≡ Some point → Covers s.log page (slice_index_or s.stored page d) point.redo }
{}

/// Once a Point is answered, it is the master; it names the checkpoint that was open, its redo
/// point is the least of the begin and of the RecLSNs gathered, and its EndChkpt is forced.
pub fn an_answered_point_is_the_master()
    ensures { (old : EngineState) (begin end redo : ℕ) (new : EngineState)
        → Step old event.CkptEnd (Ok (answer.Point begin end redo)) new
        → IsSomeAnd (open_checkpoint old.log) (λ c. (begin ≡ c.begin) × (redo ≡ redo_point c))
        × (new.log ≡ old.log ++ log.EndChkpt end begin redo ∷ [])
        × (end < new.forced_end)
        × (new.master ≡ Some (record {
          begin = begin;
          end = end;
          redo = redo;
          pages = page_count_below (log_of old) begin;
        })) }
{}

/// At LogFault the EndChkpt stands at the end of the log, not counted as forced; the checkpoint is
/// closed, and the master is as before.
pub fn an_unforced_checkpoint_leaves_the_master()
    ensures { (old new : EngineState) → Step old event.CkptEnd (Err LogFault) new
        → IsSomeAnd (open_checkpoint old.log) (λ c. (end : ℕ)
        × (new.log ≡ old.log ++ log.EndChkpt end c.begin (redo_point c) ∷ [])
        × (new.forced_end ≤ end))
        × (open_checkpoint new.log ≡ None)
        × (new.master ≡ old.master) }
{}

/// The master is the last Point that was answered, so events and replies alone say which it is.
pub fn the_master_is_the_last_point_answered()
    ensures { (pages frames : ℕ) (events : List Event) (replies : List (Result Answer Refusal))
        (new : EngineState) → Run (new_state pages frames) events replies new
        → new.master ≡ last_point pages events replies }
{}

/// The log says whether a checkpoint is open: a begin is refused for it just where one is, and a
/// gather and an end for want of one just where none is.
pub fn the_log_says_which_checkpoint_is_open()
    ensures begin { (s : EngineState)
        → refusal s event.CkptBegin ≡ Some CkptOpen ↔ IsSome (open_checkpoint s.log) }
    ensures gather { (s : EngineState)
        → refusal s event.CkptGather ≡ Some NoCkpt ↔ open_checkpoint s.log ≡ None }
    ensures end { (s : EngineState)
        → refusal s event.CkptEnd ≡ Some NoCkpt ↔ open_checkpoint s.log ≡ None }
{}

/// The replies say whether the gather of an open checkpoint has ended: its end is refused for what
/// is left just where no gather was answered Done since it began.
pub fn gather_left_is_exact()
    ensures { (pages frames : ℕ) (events : List Event) (replies : List (Result Answer Refusal))
        (s : EngineState) → Run (new_state pages frames) events replies s
        → IsSome (open_checkpoint s.log)
        → refusal s event.CkptEnd ≡ Some GatherLeft ↔ gather_ended events replies ≡ false }
{}
