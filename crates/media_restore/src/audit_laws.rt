//! A law of audited chains.

ghost use Rattle.std.specs.Prelude.{List};
ghost use Rattle.page_core.specs.declared.page.Page.{Page};
ghost use Rattle.log_records.specs.Log.{Log};
ghost use Rattle.copy_vault.specs.Chain.{IsChain};
ghost use Rattle.copy_vault.specs.Copy.{CopyView};
ghost use Rattle.copy_audit.specs.Audit.{IsAudited};
ghost use Rattle.media_restore.specs.Files.{AreCovering, AreSound, Files, IsRestoredFrom};

/// An audited chain restores what the log says, whoever wrote the copies: it lacks nothing below
/// the redo point of its last copy, so a volume that is restored of it has the pages that the log
/// makes once its open transactions are undone, with what was committed.
pub fn an_audited_chain_restores_the_log()
    ensures covering { (log : Log) (copies : List CopyView) → IsChain copies
        → IsAudited log copies → AreCovering log copies }
    ensures restores { (files : Files) (pages : List Page) → (it : IsRestoredFrom files pages)
        → IsAudited it.log it.copies → AreSound it.log pages }
{}
