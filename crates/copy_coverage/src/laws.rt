//! Laws of copies, for readers of the contracts.

ghost use Rattle.std.specs.Prelude.{ℕ, ◌≡◌, ◌+◌, ◌≤◌, ◌<◌, ◌∷◌, [], List, length, slice_set};
ghost use Rattle.std.specs.Prelude.{None};
ghost use Rattle.std.specs.Prelude.{slice_index_or};
ghost use Rattle.page_core.specs.Volume.{grown_to};
ghost use Rattle.page_core.specs.declared.page.Page.{Page};
ghost use Rattle.log_records.specs.declared.record.Record.{Record};
ghost use Rattle.log_records.specs.Coverage.{Covers, IsPast};
ghost use Rattle.log_records.specs.Record.{own_lsn};
ghost use Rattle.copy_vault.specs.declared.copy_id.CopyKind.{CopyKind};
ghost use Rattle.copy_vault.specs.declared.copy_id.TheConstants.{MAX_COPIES};
ghost use Rattle.page_decisions.specs.Decisions.{least_undecided};
ghost use Rattle.copy_vault.specs.Copy.{CopyView, IsComplete};
ghost use Rattle.copy_vault.specs.Vault.{CopyState, HasParent, complete, decided, opened, reading};
ghost use Rattle.copy_vault.specs.Vault.{sealed, state_of, without};
ghost use Rattle.log_records.specs.Coverage.{resume};
ghost use Rattle.log_records.specs.Image.{image};
ghost use Rattle.log_records.specs.Log.{IsLog, Log, lsn_of, page_count, page_count_below};
ghost use Rattle.log_records.specs.Log.{with_next};
ghost use Rattle.copy_vault.specs.Chain.{IsChain, content, last_redo};
ghost use Rattle.copy_vault.specs.ChainOf.{IsChainOf};
ghost use Rattle.copy_coverage.specs.Copied.{AreCopied, AreRestorable, IsPoint, Restores};
ghost use Rattle.copy_coverage.specs.Kept.{IsKeptOf};

/// Copies lack nothing below their redo points while the log grows, and more of it is forced.
pub fn copies_outlast_new_records()
    ensures logged { (log : Log) (next : Record) (forced_end : ℕ) (stored : List Page)
        (copies : List CopyState) → own_lsn next ≡ lsn_of (length log.records)
        → forced_end ≤ own_lsn next → AreCopied log forced_end stored copies
        → AreCopied (with_next log (next ∷ [])) forced_end stored copies }
    ensures forced { (log : Log) (low high : ℕ) (stored : List Page) (copies : List CopyState)
        → low ≤ high → AreCopied log low stored copies → AreCopied log high stored copies }
{}

/// Nor do they while a stored page is replaced by a newer one of the log's past.
pub fn copies_outlast_page_writes()
    ensures { (log : Log) (forced_end : ℕ) (stored : List Page) (copies : List CopyState)
        (p : ℕ) (image : Page) → AreCopied log forced_end stored copies → p < length stored
        → IsPast log.records p image
        → ((d : Page) → (slice_index_or stored p d).lsn ≤ image.lsn)
        → AreCopied log forced_end (slice_set stored p image) copies }
{}

/// Nor do they while formatted pages are added to the stored ones, behind those of the volume.
pub fn copies_outlast_growth()
    ensures { (log : Log) (forced_end count : ℕ) (stored : List Page) (copies : List CopyState)
        → IsLog log → page_count log ≤ length stored → AreCopied log forced_end stored copies
        → AreCopied log forced_end (grown_to count stored) copies }
{}

/// A copy may begin while there are ids, with a checkpoint below whose redo point every stored page
/// lacks nothing. It is of the pages that the volume had where the checkpoint began.
pub fn a_copy_begins()
    ensures { (log : Log) (forced_end : ℕ) (stored : List Page) (copies : List CopyState)
        (kind : CopyKind) (begin redo : ℕ) → IsLog log → AreCopied log forced_end stored copies
        → length copies < MAX_COPIES → IsPoint begin redo → begin < forced_end
        → HasParent copies (length copies + 1) kind
        → ((p : ℕ) (d : Page) → p < length stored
        → Covers log.records p (slice_index_or stored p d) redo)
        → AreCopied log forced_end stored
        (opened copies kind (page_count_below log begin) begin redo) }
{}

/// It takes a stored page, or keeps what its parent has where the stored LSN is below the parent's
/// redo point. Either way it lacks nothing of that page below its own redo point.
pub fn a_copy_decides()
    ensures { (log : Log) (forced_end : ℕ) (stored : List Page) (copies : List CopyState)
        (id p : ℕ) (copy : CopyView) (page : Page) → AreCopied log forced_end stored copies
        → state_of copies id ≡ reading copy → p < length copy.pages → p < length stored
        → page ≡ slice_index_or stored p page → page.lsn < forced_end
        → AreCopied log forced_end stored (decided copies id p page) }
{}

/// A copy may be sealed once it has decided of each page, and dropped while it is read. Each other
/// one stays as it is.
pub fn a_copy_ends()
    ensures sealed { (log : Log) (forced_end : ℕ) (stored : List Page) (copies : List CopyState)
        (id : ℕ) (copy : CopyView) → AreCopied log forced_end stored copies
        → state_of copies id ≡ reading copy → least_undecided copy.pages ≡ None
        → AreCopied log forced_end stored (sealed copies id) }
    ensures dropped { (log : Log) (forced_end : ℕ) (stored : List Page) (copies : List CopyState)
        (id : ℕ) (copy : CopyView) → AreCopied log forced_end stored copies
        → state_of copies id ≡ reading copy
        → AreCopied log forced_end stored (without copies id) }
{}

/// While an engine goes on, what it has of copies is what may be restored of them.
pub fn copies_may_be_restored()
    ensures { (log : Log) (forced_end : ℕ) (stored : List Page) (copies : List CopyState)
        → AreCopied log forced_end stored copies → AreRestorable log forced_end copies }
{}

/// Redo of any log that a crash may leave, from the last copy's redo point on, makes each page of a
/// chain what redo of that whole log over formatted pages makes of it: also a page that the volume
/// did not have yet when the copies began.
pub fn a_chain_restores()
    ensures { (log kept : Log) (forced_end : ℕ) (copies : List CopyState) (id : ℕ)
        (members : List CopyView) (p : ℕ) → IsLog log → AreRestorable log forced_end copies
        → IsKeptOf log forced_end kept → IsChain members → IsChainOf copies id members
        → resume (content members p) kept.records (last_redo members) ≡ image kept.records p }
{}

/// What holds of copies is enough to restore each complete one: every page of it is decided, those
/// that it stands on are there, and redo of any log that a crash may leave, from its redo point on,
/// makes each page what redo of that whole log makes of it.
pub fn a_complete_copy_restores()
    ensures complete { (log : Log) (forced_end : ℕ) (copies : List CopyState) (id : ℕ)
        (copy : CopyView) → AreRestorable log forced_end copies
        → state_of copies id ≡ complete copy → IsComplete copy.kind copy.pages }
    ensures restores { (log kept : Log) (forced_end : ℕ) (copies : List CopyState) (id : ℕ)
        (copy : CopyView) → IsLog log → AreRestorable log forced_end copies
        → IsKeptOf log forced_end kept → state_of copies id ≡ complete copy
        → Restores copies copy kept.records }
{}
