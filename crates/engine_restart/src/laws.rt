//! Laws of a database that is lost and goes on, again and again, for readers of the contracts.

ghost use Rattle.std.specs.Prelude.{ℕ, ◌≡◌, ◌+◌, ◌<◌, ◌∷◌, List, length, slice_index_or, take};
ghost use Rattle.std.specs.List.{All};
ghost use Rattle.log_records.specs.Image.{redo_all};
ghost use Rattle.log_records.specs.Log.{IsLog, Log, page_count};
ghost use Rattle.log_records.specs.declared.record.Record.{Record};
ghost use Rattle.log_rules.specs.Linked.{IsLinked};
ghost use Rattle.log_rules.specs.Table.{MayNote, noted, table_of};
ghost use Rattle.loser_undo.specs.Recovery.{HasCommitted};
ghost use Rattle.copy_vault.specs.Copy.{CopyView};
ghost use Rattle.copy_vault.specs.Vault.{complete, state_of};
ghost use Rattle.copy_coverage.specs.Copied.{Restores};
ghost use Rattle.engine_rules.specs.AnsweredCommits.{StandsIn};
ghost use Rattle.engine_rules.specs.EngineState.{IsFit};
ghost use Rattle.engine_restart.specs.Interrupted.{IsFoundBehind, IsFoundFrom, IsPartlyUndone};
ghost use Rattle.engine_restart.specs.Interrupted.{asked_of};
ghost use Rattle.engine_restart.specs.LogFile.{LastsOnFile};
ghost use Rattle.engine_restart.specs.Lives.{AreLives, Life, commits_of, last_life};
ghost use Rattle.engine_restart.specs.Restart.{FailsUndo, undone_log};
ghost use Rattle.file_devices.specs.FileLog.{IsTrusted};
ghost use Rattle.log_store.specs.WrittenLog.{HoldsLog};

use crate::log_file::MAX_FILE_BYTES;
use copy_coverage::{a_complete_copy_restores, copies_may_be_restored};
use file_devices::FileLog;
use log_prefix::forced_records_are_in_the_front;
use log_store::LogDevice;
use loser_undo::undo_takes_back_what_is_pending;
use sqlite_disk::Disk;

/// How many bytes a log's file may have at most to be read: twice those of the longest log.
pub fn files_of_so_many_bytes_are_read()
    ensures { MAX_FILE_BYTES ≡ 134217856 }
{}

/// The analysis of a log (ARIES, section 6.1) goes record by record: each record may come next for
/// the table of those before it, and leaves the table of those up to it. So the reader that told of
/// each record whether it may follow knows what a restart has to take back.
pub fn analysis_goes_record_by_record()
    ensures may { (records : List Record) (i : ℕ) (d : Record) → IsLinked records
        → i < length records → MayNote (table_of (take i records)) (slice_index_or records i d) }
    ensures table { (records : List Record) (i : ℕ) (d : Record) → IsLinked records
        → i < length records → table_of (take (i + 1) records)
        ≡ noted (table_of (take i records)) (slice_index_or records i d) }
{}

/// Undo may be interrupted, and the undo that goes on from there again (ARIES, section 3): what is
/// taken back stays so, and no record of undo is undone. So in the end the log is the same as where
/// nothing was interrupted, and it is no longer, however often undo began.
pub fn undo_may_be_interrupted()
    ensures { (log found : Log) → IsLog (undone_log log) → IsLinked log.records
        → IsFoundFrom log found → undone_log found ≡ undone_log log }
{
    undo_takes_back_what_is_pending();
}

/// A restart that failed counts as one that was interrupted. Where `take_back` answers `LogFault`,
/// all of the log still lasts on the device, and each record that it was asked to store behind that
/// is one of undo's. So if a crash leaves no other record there, the log that is found next is taken
/// back in part, and undo of it goes on.
pub fn failed_restarts_leave_a_part_of_undo<D: LogDevice>()
    ensures { (log found : Log) (old new : D) (fails : FailsUndo D.called D.synced log old new)
        → IsLog (undone_log log) → IsLinked log.records
        → IsFoundBehind log (asked_of log fails) found → IsPartlyUndone log found }
{
    forced_records_are_in_the_front();
}

/// What lasts of a log on a disk is in each content that a crash may leave of it.
pub fn crashes_leave_what_lasts<D: Disk + Drop>(device: &FileLog<D>)
    ensures { (log : Log) (left : List ℕ) → LastsOnFile log device.now
        → IsTrusted D.is_clean device.now → D.may_leave device.now.disk left
        → HoldsLog (λ bytes. bytes) log left }
{
    device.lasting_bytes_are_left();
}

/// A database may be lost any number of times. Its lives follow one another, each with its calls and
/// its loss, whatever the devices did, and whatever the crash left of the log; and each restart may
/// be interrupted, any number of times. After the last loss, each commit that was answered in any of
/// the lives stands in the log that is found; each copy that is complete then, of this life or of one
/// before, restores what that log says; and once what was open is taken back, each slot has the
/// number that the committed transactions of all lives have made.
pub fn lives_follow_one_another()
    ensures fit { (first : Life) (later : List Life) → AreLives first later
        → IsFit (last_life first later).lost }
    ensures commits { (first : Life) (later : List Life) (found : Log) → AreLives first later
        → IsFoundFrom (last_life first later).left found
        → All (StandsIn found.records) (commits_of (first ∷ later)) }
    ensures restores { (first : Life) (later : List Life) (found : Log) (id : ℕ) (copy : CopyView)
        → AreLives first later → let last = last_life first later in
        IsFoundFrom last.left found → state_of last.lost.copies id ≡ complete copy
        → Restores last.lost.copies copy found.records }
    ensures committed { (first : Life) (later : List Life) (found : Log) → AreLives first later
        → let left = (last_life first later).left in
        IsFoundFrom left found → let undone = undone_log found in
        HasCommitted left.records (redo_all undone.records (page_count undone)) }
{
    copies_may_be_restored();
    a_complete_copy_restores();
    undo_takes_back_what_is_pending();
}
