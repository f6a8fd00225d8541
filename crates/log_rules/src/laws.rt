//! Laws of linked logs, for readers of the contracts.

ghost use Rattle.std.specs.Prelude.{ℕ, ◌≡◌, ◌↔◌, ◌<◌, ◌∷◌, ◌++◌, List, [], take, Some, None};
ghost use Rattle.std.specs.Prelude.{option_to_list, if◌then◌else◌};
ghost use Rattle.std.specs.List.{flat_map};
ghost use Rattle.page_core.specs.declared.change.ChangeKind.{ChangeKind};
ghost use Rattle.page_core.specs.declared.page.TheConstants.{SLOTS};
ghost use Rattle.log_records.specs.declared.record.Record.{Record};
ghost use Rattle.log_rules.specs.Committed.{committed, with_changes};
ghost use Rattle.log_rules.specs.Linked.{IsLinked, MayFollow, number_in};
ghost use Rattle.log_records.specs.Log.{IsLog, Log};
ghost use Rattle.log_rules.specs.Table.{MayNote, entry_in, entry_of, holder_in, noted, owed_in};
ghost use Rattle.log_rules.specs.Table.{table_of};
ghost use Rattle.log_rules.specs.Transactions.{holder, is_open, open_in, owed, pending};
ghost use Rattle.log_records.specs.Record.{IsRecord};
ghost use Rattle.log_rules.specs.Checked.{GoesWithCheckpoint, NamesNumber};
ghost use Rattle.log_rules.specs.CheckpointTable.{MayNoteCheckpoint, checkpoint_table_of};
ghost use Rattle.log_rules.specs.CheckpointTable.{noted_checkpoint};
ghost use Rattle.log_rules.specs.Work.{call_of, work};

/// Each prefix of a linked log is linked.
pub fn prefixes_of_linked_logs_are_linked()
    ensures { (rs : List Record) → IsLinked rs → (n : ℕ) → IsLinked (take n rs) }
{}

/// A log of no records is linked, and it stays linked with each record that may follow it.
pub fn linked_logs_grow_by_what_may_follow()
    ensures none { IsLinked [] }
    ensures more { (rs : List Record) (r : Record) → IsLinked rs → MayFollow rs r
        → IsLinked (rs ++ r ∷ []) }
{}

/// The table of a linked log, with a record noted that may follow it, is the table of the log with
/// that record.
pub fn tables_are_kept_record_by_record()
    ensures { (rs : List Record) (r : Record) → IsLinked rs → MayFollow rs r
        → table_of (rs ++ r ∷ []) ≡ noted (table_of rs) r }
{}

/// The table of a log says which record may follow it, but for the number that a Set replaces, and
/// for what the open checkpoint has.
pub fn tables_say_what_may_follow()
    ensures { (rs : List Record) (r : Record) → MayFollow rs r
        ↔ (MayNote (table_of rs) r × NamesNumber rs r × GoesWithCheckpoint rs r) }
{}

/// The table of a log's checkpoints, with a record noted, is that of the log with the record.
pub fn checkpoint_tables_are_kept_record_by_record()
    ensures { (rs : List Record) (r : Record)
        → checkpoint_table_of (rs ++ r ∷ []) ≡ noted_checkpoint (checkpoint_table_of rs) r }
{}

/// The table of a log's checkpoints says which record goes with the open checkpoint.
pub fn checkpoint_tables_say_what_goes()
    ensures { (log : Log) (r : Record) → IsLog log → IsRecord r → GoesWithCheckpoint log.records r
        ↔ MayNoteCheckpoint (table_of log.records) (checkpoint_table_of log.records) r }
{}

/// The table of a log has an entry for each open transaction, and knows who holds a slot and what
/// the open transactions are owed.
pub fn tables_say_what_logs_say()
    ensures entries { (rs : List Record) (t : ℕ)
        → entry_in (table_of rs) t ≡ (if is_open rs t then Some (entry_of rs t) else None) }
    ensures holders { (rs : List Record) (page slot : ℕ) (kind : ChangeKind) (t : ℕ)
        → holder_in (table_of rs) page slot kind t ≡ holder rs page slot kind t }
    ensures rooms { (rs : List Record) → owed_in (table_of rs) ≡ owed rs }
{}

/// A log with one more record shows the calls that it showed, and the one that the record shows
/// behind it.
pub fn work_grows_call_by_call()
    ensures { (rs : List Record) (r : Record)
        → work (rs ++ r ∷ []) ≡ work rs ++ option_to_list (call_of rs r) }
{}

/// In a linked log each slot has the committed number, with the pending changes of the open
/// transactions made on it. So if no transaction is open, it is the committed number.
pub fn numbers_are_committed_under_pending_changes()
    ensures pending { (log : Log) (page slot : ℕ) → IsLog log → IsLinked log.records → slot < SLOTS
        → number_in log.records page slot
        ≡ with_changes (committed log.records)
        (flat_map (pending log.records) (open_in log.records)) page slot }
    ensures closed { (log : Log) (page slot : ℕ) → IsLog log → IsLinked log.records → slot < SLOTS
        → open_in log.records ≡ []
        → number_in log.records page slot ≡ committed log.records page slot }
{}
