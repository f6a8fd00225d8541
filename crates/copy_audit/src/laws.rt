//! Laws of audited chains.

ghost use Rattle.std.specs.Prelude.{ℕ, ◌≡◌, ◌<◌, List, Some, length};
ghost use Rattle.log_records.specs.Log.{IsLog, Log, counts_of, log_bytes};
ghost use Rattle.log_rules.specs.Linked.{IsLinked};
ghost use Rattle.copy_vault.specs.ChainReading.{IsRightChain, archives_of};
ghost use Rattle.copy_vault.specs.Copy.{CopyView};
ghost use Rattle.copy_audit.specs.declared.unsound.Unsound as fault;
ghost use Rattle.copy_audit.specs.Audit.{IsAudited, IsFirstUnsound, chain_to, end_of};
ghost use Rattle.copy_audit.specs.AuditFault.{IsOutside};
ghost use Rattle.copy_audit.specs.Audited.{AreRefused};

use crate::all_pages::MOST_PAGES;

/// How many unsound pages of a chain are told at most.
pub fn so_many_unsound_pages_are_told()
    ensures { MOST_PAGES ≡ 1000 }
{}

/// A log and a chain of copies for it that is audited are refused only for lack of memory or a
/// failing reader, and never for what is in them.
pub fn an_audited_chain_is_called_sound()
    ensures { (log : Log) (copies : List CopyView) (why : fault.Unsound) → IsLog log
        → IsLinked log.records → IsRightChain (counts_of log) (end_of log) copies
        → IsAudited log copies → AreRefused (Some (log_bytes log)) (archives_of copies) why
        → IsOutside why }
{}

/// The chain up to any member of an audited chain is audited.
pub fn a_part_of_an_audited_chain_is_audited()
    ensures { (log : Log) (copies : List CopyView) (k : ℕ) → k < length copies
        → IsAudited log copies → IsAudited log (chain_to copies k) }
{}

/// A chain with an unsound page is not audited.
pub fn an_unsound_chain_is_not_audited()
    ensures { (log : Log) (copies : List CopyView) (id page : ℕ)
        → IsFirstUnsound log copies id page → ¬ IsAudited log copies }
{}
