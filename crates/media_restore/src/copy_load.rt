//! Loads a copy.

ghost use Rattle.std.specs.Prelude.{◌≡◌, ◌+◌, ◌≤◌, List, length, map, IfOk, IfErr, OnOk, OnErr, None, Some};
ghost use Rattle.log_records.specs.declared.limits.TheConstants.{MAX_RECORDS};
ghost use Rattle.log_records.specs.Coverage.{resume};
ghost use Rattle.log_records.specs.Image.{redo_all};
ghost use Rattle.log_records.specs.Log.{page_count};
ghost use Rattle.copy_vault.specs.Chain.{IsChain, contents, last_redo};
ghost use Rattle.copy_vault.specs.ChainOf.{IsChainOf};
ghost use Rattle.copy_vault.specs.Copy.{CopyView};
ghost use Rattle.copy_coverage.specs.Kept.{IsKeptOf};
ghost use Rattle.copy_coverage.specs.Retired.{IsRetired};
ghost use Rattle.log_rules.specs.Transactions.{owed};
ghost use Rattle.media_restore.specs.Load.{LoadRefuses, copy_refusal, kept_log, load_refusal};
ghost use Rattle.copy_vault.specs.Vault.{state_of};
ghost use Rattle.media_restore.specs.declared.fault.LoadFault.TheVariants.{OutOfMemory};

use crate::fault::LoadFault;
use crate::loaded::Loaded;
use copy_coverage::Retired;
use copy_vault::{CopyId, Vault};
use log_store::Master;
use page_core::{LSN_STEP, Lsn, Page};
use std::alloc::Global;

/// Loads a complete copy with its parents, and keeps the first `cut` records of the log, or all if
/// there are fewer. Refusals in order: `NoCopy`, `CopyNotComplete`, `CutTooShort`, `OutOfMemory`;
/// what was retired is given back then.
pub fn load(
    alloc: Global,
    retired: Retired,
    copy: CopyId,
    cut: usize,
) -> Result<Loaded, (Retired, LoadFault)>
    ensures log { IfOk result (λ it. it.log ≡ kept_log retired.log cut) }
    // The kept log is one that a crash may leave, with room to take back what is open in it.
    ensures kept { IfOk result (λ it. IsKeptOf retired.log retired.forced_end it.log) }
    ensures room { IfOk result (λ it.
        length it.log.records + owed it.log.records ≤ MAX_RECORDS) }
    ensures master { IfOk result (λ it. retired.master ≡ Some it.master) }
    ensures chain { IfOk result (λ it. (members : List CopyView) × IsChain members
        × IsChainOf retired.copies copy members × (it.pages ≡ contents members (page_count it.log))
        × (it.redo ≡ last_redo members)) }
    // Redo from the redo point on makes what redo of the whole kept log makes.
    ensures restores { IfOk result (λ it.
        map (λ page. resume page it.log.records it.redo) it.pages
        ≡ redo_all it.log.records (page_count it.log)) }
    ensures ok { OnOk result (load_refusal retired copy cut ≡ None) }
    ensures err { IfErr result (λ e. LoadRefuses (load_refusal retired copy cut) e.1) }
    ensures same { IfErr result (λ e. e.0 ≡ retired) }
{
    if let Some(fault) = refusal_of(&retired, copy, cut) {
        return Err((retired, fault));
    }
    let count = retired.log().page_count();
    let (mut pages, redo) = match loaded_pages(alloc, retired.vault(), copy, count) {
        Ok(loaded) => loaded,
        Err(_) => return Err((retired, LoadFault::OutOfMemory)),
    };
    let master = noted_master(&retired, copy);
    let mut log = retired.into_log();
    log.keep_first(cut);
    // The volume had no more pages where the log is cut.
    pages.truncate(log.page_count() as usize);
    Ok(Loaded::new(log, master, pages, redo))
}

/// The master record, which is there since a copy is complete.
fn noted_master(retired: &Retired, copy: CopyId) -> Master
    requires { copy_refusal (state_of retired.now.copies copy) ≡ None }
    ensures { retired.now.master ≡ Some result }
{
    let Some(master) = retired.master() else {
        unreachable!()
    };
    master
}

/// The refusal that needs no memory, if there is one.
fn refusal_of(retired: &Retired, copy: CopyId, cut: usize) -> Option<LoadFault>
    ensures refusal { result ≡ load_refusal retired.now copy cut }
    ensures kept { IsRetired retired.now }
{
    let log = retired.log();
    if let Some(fault) = copy_refusal(retired.vault(), copy) {
        return Some(fault);
    }
    let forced = (retired.forced_end().0 / LSN_STEP).saturating_sub(1);
    let kept = cut.min(log.records().len());
    if (kept as u64) < forced {
        Some(LoadFault::CutTooShort(forced))
    } else {
        None
    }
}

/// What is refused of the copy itself.
fn copy_refusal(vault: &Vault, copy: CopyId) -> Option<LoadFault>
    ensures { result ≡ copy_refusal (state_of vault.now.copies copy) }
{
    if vault.complete(copy).is_some() {
        None
    } else if vault.reading(copy).is_some() {
        Some(LoadFault::CopyNotComplete)
    } else {
        Some(LoadFault::NoCopy)
    }
}

/// So many pages of the chain that ends with a complete copy, and the LSN from which on the log is
/// to be redone over them.
fn loaded_pages(
    alloc: Global,
    vault: &Vault,
    copy: CopyId,
    count: u32,
) -> Result<(Vec<Page>, Lsn), LoadFault>
    requires { copy_refusal (state_of vault.now.copies copy) ≡ None }
    ensures chain { IfOk result (λ it. (members : List CopyView) × IsChain members
        × IsChainOf vault.now.copies copy members × (it.0.items ≡ contents members count)
        × (it.1 ≡ last_redo members)) }
    ensures err { IfErr result (λ fault. fault ≡ OutOfMemory) }
{
    let chain = vault
        .chain(alloc, copy)
        .map_err(|_| LoadFault::OutOfMemory)?;
    Ok((chain.contents(alloc, count)?, chain.redo()))
}
