//! Laws of undo and of the log after it, for readers of the contracts.

ghost use Rattle.std.specs.Prelude.{ℕ, ◌≡◌, ◌+◌, ◌<◌, ◌≤◌, ◌==◌, true, List, [], length, map};
ghost use Rattle.std.specs.Prelude.{Some, filter, reverse, take};
ghost use Rattle.std.specs.List.{All, AllPairs, range_with_len};
ghost use Rattle.page_core.specs.declared.page.TheConstants.{SLOTS};
ghost use Rattle.log_records.specs.declared.limits.TheConstants.{MAX_RECORDS};
ghost use Rattle.log_records.specs.declared.record.Record.{Record};
ghost use Rattle.log_records.specs.Image.{image};
ghost use Rattle.log_records.specs.Log.{IsLog, Log, page_count};
ghost use Rattle.log_rules.specs.Committed.{committed};
ghost use Rattle.log_rules.specs.declared.pending_change.PendingChange.{PendingChange};
ghost use Rattle.log_rules.specs.Linked.{IsLinked, number_in};
ghost use Rattle.log_rules.specs.Savepoints.{stack_at};
ghost use Rattle.log_rules.specs.Transactions.{is_open, open_in, owed, pending};
ghost use Rattle.loser_undo.specs.Losers.{IsStackAt};
ghost use Rattle.loser_undo.specs.Undo.{after_undo, lost_changes};

/// Undo takes back each pending change of each open transaction, and no other change. It goes from
/// the last to the first, by their LSNs.
pub fn undo_takes_back_what_is_pending()
    ensures each { (log : Log) (t : ℕ) → IsLog log → is_open log.records t ≡ true
        → map (λ l. l.change) (filter (λ l. l.txn == t) (lost_changes log.records))
        ≡ reverse (pending log.records t) }
    ensures losers { (rs : List Record) → All (λ l. is_open rs l.txn ≡ true) (lost_changes rs) }
    ensures falling { (log : Log) → IsLog log
        → AllPairs (λ x y. y.change.lsn < x.change.lsn) (lost_changes log.records) }
{}

/// Undo only appends: no record changes.
pub fn undo_only_appends()
    ensures { (rs : List Record) → take (length rs) (after_undo rs) ≡ rs }
{}

/// A linked log is still linked after undo: an engine could have written its records.
pub fn undo_keeps_logs_linked()
    ensures { (log : Log) → IsLog log → IsLinked log.records → IsLinked (after_undo log.records) }
{}

/// After undo no transaction is open.
pub fn undo_leaves_none_open()
    ensures { (log : Log) → IsLog log → IsLinked log.records
        → open_in (after_undo log.records) ≡ [] }
{}

/// Undo leaves the page count of the volume as it is: it appends no Extend.
pub fn undo_leaves_the_page_count()
    ensures { (log : Log) → page_count (record log { records = after_undo log.records })
        ≡ page_count log }
{}

/// What was committed stays, and nothing more is.
pub fn undo_commits_nothing()
    ensures { (rs : List Record) → committed (after_undo rs) ≡ committed rs }
{}

/// After undo each slot of each page has the committed number.
pub fn undo_leaves_what_is_committed()
    ensures numbers { (log : Log) (page slot : ℕ) → IsLog log → IsLinked log.records → slot < SLOTS
        → number_in (after_undo log.records) page slot ≡ committed log.records page slot }
    ensures pages { (log : Log) (page : ℕ) → IsLog log → IsLinked log.records
        → (image (after_undo log.records) page).slots
        ≡ map (committed log.records page) (range_with_len 0 SLOTS) }
{}

/// Undo appends no more records than the open transactions are owed. So where these fit into the
/// log, the log after undo is one that may be written.
pub fn undo_fits_where_records_and_owed_ones_do()
    ensures count { (log : Log) → IsLog log → IsLinked log.records
        → length (after_undo log.records) ≤ length log.records + owed log.records }
    ensures fits { (log : Log) → IsLog log → IsLinked log.records
        → length log.records + owed log.records ≤ MAX_RECORDS
        → IsLog (record log { records = after_undo log.records }) }
{}

/// From each record of an open transaction the way back meets the changes that were pending as of
/// that record, the last one first, and no other change. It ends at the transaction's Begin.
pub fn the_way_back_meets_the_stack()
    ensures { (log : Log) (t at : ℕ) (stack : List PendingChange) → IsLog log
        → IsLinked log.records → is_open log.records t ≡ true
        → stack_at log.records t at ≡ Some stack → IsStackAt log.records t at stack }
{}
