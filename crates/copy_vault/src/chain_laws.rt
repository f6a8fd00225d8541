//! A law of the archives of a chain.

ghost use Rattle.std.specs.Prelude.{ℕ, List, Option};
ghost use Rattle.page_core.specs.PageCounts.{PageCounts};
ghost use Rattle.copy_vault.specs.Copy.{CopyView};
ghost use Rattle.copy_vault.specs.ChainReading.{IsFromOutside, IsNotMade, IsRightChain, IsStopped};
ghost use Rattle.copy_vault.specs.ChainReading.{archives_of};
ghost use Rattle.copy_vault.specs.declared.chain_read_fault.ChainReadFault.{ChainReadFault};

/// The archives of a chain of which no redo point and no page is past the log's end are refused
/// only for lack of memory or a failing reader, and never for what is in them.
pub fn a_chain_is_not_refused()
    ensures made { (counts : PageCounts) (end : ℕ) (lefts : List (Option (List ℕ)))
        (copies : List CopyView) (fault : ChainReadFault) → IsRightChain counts end copies
        → IsNotMade counts end (archives_of copies) lefts fault → IsFromOutside fault }
    ensures given { (counts : PageCounts) (end : ℕ) (lefts : List (Option (List ℕ)))
        (copies : List CopyView) (fault : ChainReadFault) → IsRightChain counts end copies
        → IsStopped counts end (archives_of copies) lefts fault → IsFromOutside fault }
{}
