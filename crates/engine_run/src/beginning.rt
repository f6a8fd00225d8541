//! What an engine had before the first session of a run.

ghost use Rattle.std.specs.Prelude.{ℕ, ◌≡◌, ◌<◌, ◌≤◌, false, true, length};
ghost use Rattle.copy_vault.specs.Vault.{CopyState, dropped, state_of};
ghost use Rattle.engine_run.specs.Beginning.{IsBeginning, IsLastOf};

use aries_core::Engine;
use copy_vault::{CopyId, MAX_COPIES, Vault};
use log_store::LogDevice;
use page_store::PageStore;

/// What was there before the first session of a run. Nothing of it was answered in the run.
#[derive(Clone, Copy, Debug, PartialEq, Eq)]
pub struct Beginning {
    /// How many records the log had.
    pub records: u32,
    /// The greatest id of an image copy that was there, and 0 where there was none.
    pub last_copy: u32,
}

impl Beginning {
    /// What an engine has now.
    pub(crate) fn of<S: PageStore, D: LogDevice>(engine: &Engine<S, D>) -> Beginning
        ensures { IsBeginning engine.now.state result }
    {
        // A fit engine has no more records than a log may have, and no more copies than there are
        // ids.
        let _ = engine.log_end();
        Beginning {
            records: engine.log().records().len() as u32,
            last_copy: last_copy(engine.copies()),
        }
    }
}

/// The greatest id of a copy that is being read or is complete, and 0 where there is none.
fn last_copy(vault: &Vault) -> u32
    requires few { length vault.now.copies ≤ MAX_COPIES }
    ensures { IsLastOf vault.now.copies result }
{
    let mut last = 0;
    for before in 0..MAX_COPIES {
        if has_copy(vault, CopyId(before + 1)) {
            last = before + 1;
        }
    }
    last
}

/// Whether a copy of this id is being read or is complete.
fn has_copy(vault: &Vault, id: CopyId) -> bool
    ensures no { result ≡ false → state_of vault.now.copies id ≡ dropped }
    ensures yes { result ≡ true → id ≤ length vault.now.copies }
{
    vault.reading(id).is_some() || vault.complete(id).is_some()
}
