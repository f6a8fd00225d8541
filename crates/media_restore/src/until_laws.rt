//! Laws of a log up to one of its records.

ghost use Rattle.std.specs.Prelude.{ℕ, ◌≡◌, ◌<◌, List, Some, length};
ghost use Rattle.page_core.specs.declared.page.Page.{Page};
ghost use Rattle.log_records.specs.Coverage.{up_to};
ghost use Rattle.log_records.specs.Log.{Log, SpellsLog, lsn_of};
ghost use Rattle.log_rules.specs.Linked.{IsLinked};
ghost use Rattle.media_restore.specs.Files.{Files, IsOfLog, IsRestoredFrom};
ghost use Rattle.media_restore.specs.Until.{IsLogUntil, bytes_until};

/// The bytes of a log up to the end of one of its records are those of one log: of that which ends
/// there, with the records of the whole log up to that LSN. So whatever is restored, redone or
/// audited of these bytes is that of this log.
pub fn one_log_ends_there()
    ensures each { (input : List ℕ) (whole : Log) (i : ℕ) → SpellsLog whole input
        → IsLinked whole.records → i < length whole.records → IsLogUntil (Some input) (lsn_of i)
        (record whole { records = up_to whole.records (lsn_of i) }) }
    ensures front { (input : List ℕ) (lsn : ℕ) (whole ended : Log) → SpellsLog whole input
        → IsLogUntil (Some input) lsn ended
        → ended ≡ record whole { records = up_to whole.records lsn } }
    ensures only { (input : List ℕ) (lsn : ℕ) (ended log : Log) → IsLogUntil (Some input) lsn ended
        → IsOfLog (bytes_until lsn (Some input)) log → log ≡ ended }
    ensures restored { (files : Files) (input : List ℕ) (lsn : ℕ) (ended : Log) (pages : List Page)
        → IsLogUntil (Some input) lsn ended → files.log ≡ bytes_until lsn (Some input)
        → (it : IsRestoredFrom files pages) → it.log ≡ ended }
{}
