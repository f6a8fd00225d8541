//! Laws of open checkpoints, for callers who change pages beside them.

ghost use Rattle.std.specs.Prelude.{ℕ, ◌≡◌, ◌<◌, ◌≤◌, ◌∷◌, ◌++◌, [], List, length, slice_set, None};
ghost use Rattle.std.specs.Prelude.{slice_index_or};
ghost use Rattle.page_core.specs.Volume.{grown_to};
ghost use Rattle.page_core.specs.declared.page.Page.{Page};
ghost use Rattle.log_records.specs.declared.limits.TheConstants.{MAX_RECORDS};
ghost use Rattle.log_records.specs.declared.record.Record.{Record};
ghost use Rattle.log_records.specs.declared.record.Record.TheVariants.{EndChkpt, Extend};
ghost use Rattle.log_records.specs.Coverage.{IsPast};
ghost use Rattle.log_records.specs.Log.{IsLog, Log, lsn_of, page_count, with_next};
ghost use Rattle.log_records.specs.Record.{IsOfCheckpoint, IsOfTransaction, own_lsn};
ghost use Rattle.log_rules.specs.Checkpoint.{open_checkpoint};
ghost use Rattle.log_rules.specs.Linked.{IsLinked, MayFollow};
ghost use Rattle.log_rules.specs.Table.{Table};
ghost use Rattle.buffer_pool.specs.Pool.{IsPoolOf, PoolView};
ghost use Rattle.txn_table.specs.TxnTable.{IsTableOf};
ghost use Rattle.fuzzy_ckpt.specs.Ckpt.{AllCover, AreCovered, CkptView, IsCkptOf, Phase};

use page_store::PageStore;

/// A record of a transaction leaves an open checkpoint open, as it is: a transaction that begins
/// now began behind it, and one that ends is not asked for.
pub fn checkpoints_stay_open_as_transactions_go_on()
    ensures same { (rs : List Record) (r : Record) → IsOfTransaction r
        → open_checkpoint (rs ++ r ∷ []) ≡ open_checkpoint rs }
    ensures kept { (log : Log) (r : Record) (it : CkptView Phase) → IsLog log → IsLinked log.records
        → IsOfTransaction r → MayFollow log.records r → own_lsn r ≡ lsn_of (length log.records)
        → IsCkptOf log it → IsCkptOf (with_next log (r ∷ [])) it }
{}

/// And so does an Extend, which raises the page count behind it, and none before it.
pub fn checkpoints_stay_open_as_the_volume_grows()
    ensures same { (rs : List Record) (lsn count : ℕ)
        → open_checkpoint (rs ++ Extend lsn count ∷ []) ≡ open_checkpoint rs }
    ensures kept { (log : Log) (lsn count : ℕ) (it : CkptView Phase) → IsLog log
        → IsLinked log.records → lsn ≡ lsn_of (length log.records) → IsCkptOf log it
        → IsCkptOf (with_next log (Extend lsn count ∷ [])) it }
{}

/// The end of a checkpoint leaves none open.
pub fn an_ended_checkpoint_is_not_open()
    ensures { (rs : List Record) (lsn begin redo : ℕ)
        → open_checkpoint (rs ++ EndChkpt lsn begin redo ∷ []) ≡ None }
{}

/// A record more leaves what the stored pages cover, since its change is not below the redo point.
pub fn covered_pages_stay_covered_as_the_log_grows()
    ensures behind { (log : Log) (r : Record) (stored : List Page) (it : CkptView Phase) → IsLog log
        → own_lsn r ≡ lsn_of (length log.records) → IsCkptOf log it
        → AreCovered log.records stored it → AreCovered (log.records ++ r ∷ []) stored it }
    ensures all { (rs : List Record) (r : Record) (stored : List Page) (bound : ℕ)
        → bound ≤ own_lsn r → AllCover rs stored bound → AllCover (rs ++ r ∷ []) stored bound }
{}

/// And so does a page that is stored anew as the log made it later: whatever it lacks, the page
/// before it lacked too.
pub fn covered_pages_stay_covered_as_pages_are_written()
    ensures behind { (rs : List Record) (stored : List Page) (it : CkptView Phase) (n : ℕ)
        (image d : Page) → IsPast rs n image → (slice_index_or stored n d).lsn ≤ image.lsn
        → n < length stored → AreCovered rs stored it
        → AreCovered rs (slice_set stored n image) it }
    ensures all { (rs : List Record) (stored : List Page) (bound n : ℕ) (image d : Page)
        → IsPast rs n image → (slice_index_or stored n d).lsn ≤ image.lsn
        → n < length stored → AllCover rs stored bound
        → AllCover rs (slice_set stored n image) bound }
{}

/// And so do formatted pages that are added behind those of the volume: the log changes none of
/// them.
pub fn covered_pages_stay_covered_as_the_store_grows()
    ensures behind { (log : Log) (stored : List Page) (it : CkptView Phase) (count : ℕ) → IsLog log
        → page_count log ≤ length stored → AreCovered log.records stored it
        → AreCovered log.records (grown_to count stored) it }
    ensures all { (log : Log) (stored : List Page) (bound count : ℕ) → IsLog log
        → page_count log ≤ length stored → AllCover log.records stored bound
        → AllCover log.records (grown_to count stored) bound }
{}

/// A record of a checkpoint changes no page: the pool of the log is that of the log with it.
pub fn checkpoint_records_leave_the_pool<S: PageStore>()
    ensures { (log : Log) (r : Record) (pool : PoolView S) → IsOfCheckpoint r
        → IsLog (with_next log (r ∷ [])) → IsPoolOf S.stored log pool
        → IsPoolOf S.stored (with_next log (r ∷ [])) pool }
{}

/// And so is the table of the open transactions.
pub fn checkpoint_records_leave_the_table()
    ensures { (rs : List Record) (r : Record) (table : Table) → IsOfCheckpoint r → MayFollow rs r
        → length rs < MAX_RECORDS → IsTableOf rs table → IsTableOf (rs ++ r ∷ []) table }
{}
