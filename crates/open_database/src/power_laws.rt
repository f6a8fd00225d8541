//! Laws of databases whose power is cut, for readers of the contracts.

ghost use Rattle.std.specs.Prelude.{ℕ, ◌≡◌, ◌∷◌, List, Result, Some};
ghost use Rattle.std.specs.List.{All};
ghost use Rattle.copy_coverage.specs.Copied.{Restores};
ghost use Rattle.copy_coverage.specs.Kept.{IsKeptOf};
ghost use Rattle.copy_vault.specs.Vault.{complete, state_of};
ghost use Rattle.engine_calls.specs.declared.event.Answer.{Answer};
ghost use Rattle.engine_calls.specs.declared.event.Event.{Event};
ghost use Rattle.engine_calls.specs.declared.refusal.Refusal.{Refusal};
ghost use Rattle.engine_restart.specs.Lives.{Life, commits_of, last_life};
ghost use Rattle.engine_rules.specs.AnsweredCommits.{answered_commits};
ghost use Rattle.engine_rules.specs.EngineState.{EngineState, IsFit, log_of};
ghost use Rattle.engine_rules.specs.Run.{Run};
ghost use Rattle.copy_vault.specs.Copy.{CopyView};
ghost use Rattle.log_records.specs.Log.{IsLog, Log};
ghost use Rattle.open_database.specs.PowerCuts.{AreCutLives, BeginsWith, HasForced, IsCommittedIn};
ghost use Rattle.open_database.specs.PowerCuts.{MayBeRead};
ghost use Rattle.saved_files.specs.Folder.{Entries, MayLeave, stored};

use aries_core::Engine;
use copy_coverage::{a_complete_copy_restores, copies_may_be_restored};
use file_devices::FileLog;
use log_prefix::fronts_have_what_a_device_keeps;
use page_store::PageStore;
use saved_files::Folder;
use sqlite_disk::Disk;

/// A cut of the power loses no commit. Take an engine whose log is on a disk, at any moment between
/// two calls, also once a call failed, and any content that a crash may leave of the disk then. The
/// front that is read of it begins with each forced record. So each Commit that was answered stands
/// there, and its transaction is not open; and each complete copy restores what that front says.
///
/// Nothing is assumed of what stands behind the forced records. If these are records that the
/// engine wrote, and no others, then what is read is what `lives_follow_one_another` says of a
/// loss.
pub fn power_cuts_lose_no_commit<S: PageStore, D: Disk + Drop>(engine: &Engine<S, FileLog<D>>)
    ensures forced { (log : Log) → MayBeRead D.may_leave D.is_clean engine.now.device log
        → HasForced engine.now.state log }
    ensures commits { (began : EngineState) (events : List Event)
        (replies : List (Result Answer Refusal)) (log : Log) → IsFit began
        → Run began events replies engine.now.state
        → MayBeRead D.may_leave D.is_clean engine.now.device log
        → All (IsCommittedIn log.records) (answered_commits events replies) }
    ensures restores { (log : Log) (id : ℕ) (copy : CopyView)
        → MayBeRead D.may_leave D.is_clean engine.now.device log
        → state_of engine.now.state.copies id ≡ complete copy
        → Restores engine.now.state.copies copy log.records }
    ensures written { (log : Log) → MayBeRead D.may_leave D.is_clean engine.now.device log
        → BeginsWith log (log_of engine.now.state)
        → IsKeptOf (log_of engine.now.state) engine.now.state.forced_end log }
{
    let _end = engine.log_end();
    engine.log().device().lasting_bytes_are_left();
    fronts_have_what_a_device_keeps::<FileLog<D>>();
    copies_may_be_restored();
    a_complete_copy_restores();
}

/// So it is through any number of lives, each of which ends with such a cut, and goes on from the
/// front that is read then, or from a longer one that restarts have left which were cut short: each
/// Commit that was answered in any of them stands in the log that is found in the end, and its
/// transaction is not open; and each complete copy restores that log.
pub fn cut_lives_follow_one_another()
    ensures fit { (first : Life) (later : List Life) → AreCutLives first later
        → IsFit (last_life first later).lost }
    ensures commits { (first : Life) (later : List Life) (found : Log) → AreCutLives first later
        → BeginsWith (last_life first later).left found
        → All (IsCommittedIn found.records) (commits_of (first ∷ later)) }
    ensures restores { (first : Life) (later : List Life) (found : Log) (id : ℕ) (copy : CopyView)
        → AreCutLives first later → let last = last_life first later in
        BeginsWith last.left found → IsLog found → state_of last.lost.copies id ≡ complete copy
        → Restores last.lost.copies copy found.records }
{
    copies_may_be_restored();
    a_complete_copy_restores();
}

/// A cut of the power loses no file that was told of. Where the names of a folder are stored, as
/// they are once a copy or a checkpoint is answered (`answered` of `OpenDatabase::answer`), each
/// file that is there is in all that a crash may leave, whole.
pub fn power_cuts_lose_no_told_file<F: Folder>()
    ensures { (folder : F) (entries left : Entries) (name bytes : List ℕ) → F.is_stored folder
        → F.entries folder ≡ Some entries → MayLeave (F.may_leave folder) left
        → entries name ≡ stored bytes → left name ≡ stored bytes }
{}
