//! What a retired engine leaves.

ghost use Rattle.std.specs.Prelude.{◌≡◌};
ghost use Rattle.copy_coverage.specs.Retired.{IsRetired};

use copy_vault::Vault;
use log_store::{LogImage, Master};
use page_core::Lsn;
use std::marker::Model;

/// What an engine leaves that makes no more calls: its log, its image copies and its last complete
/// checkpoint. A volume can be restored of it (ARIES, section 8).
#[derive(Drop)]
pub struct Retired {
    log: LogImage,
    forced_end: Lsn,
    master: Option<Master>,
    vault: Vault,
}

impl Model for Retired {
    ghost use Rattle.copy_coverage.specs.Retired.{IsRetired, RetiredView};

    ghost Value = { RetiredView };

    ghost view = { λ it. record {
      log = it.log;
      forced_end = it.forced_end;
      master = it.master;
      copies = it.vault.copies;
    } };

    ghost invariant = { λ it. IsRetired (record {
      log = it.log;
      forced_end = it.forced_end;
      master = it.master;
      copies = it.vault.copies;
    }) };
}

impl Retired {
    /// What an engine leaves, of its parts.
    pub fn new(log: LogImage, forced_end: Lsn, master: Option<Master>, vault: Vault) -> Retired
        requires { IsRetired (record {
          log = log;
          forced_end = forced_end;
          master = master;
          copies = vault.copies;
        }) }
        ensures { result ≡ record {
          log = log;
          forced_end = forced_end;
          master = master;
          copies = vault.copies;
        } }
    {
        Retired {
            log,
            forced_end,
            master,
            vault,
        }
    }

    /// The log, with all of its records.
    pub fn log(&self) -> &LogImage
        ensures log { result.now ≡ self.now.log }
        ensures kept { IsRetired self.now }
    {
        &self.log
    }

    /// The LSN below which each record was forced: those can be lost by no crash.
    pub fn forced_end(&self) -> Lsn
        ensures { result ≡ self.now.forced_end }
    {
        self.forced_end
    }

    /// The last complete checkpoint, if there was one.
    pub fn master(&self) -> Option<Master>
        ensures master { result ≡ self.now.master }
        ensures kept { IsRetired self.now }
    {
        self.master
    }

    /// The image copies.
    pub fn vault(&self) -> &Vault
        ensures { result.now.copies ≡ self.now.copies }
    {
        &self.vault
    }

    /// Its log alone.
    pub fn into_log(self) -> LogImage
        ensures { result ≡ self.log }
    {
        self.log
    }
}
