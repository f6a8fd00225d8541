//! Read access to an engine's log and pages.

ghost use Rattle.std.specs.Prelude.{◌≡◌, ◌<◌, ◌≤◌, [], IfErr, IfOk, MatchOption, OnOk};
ghost use Rattle.log_records.specs.Coverage.{dirty, entries_of, next_dirty};
ghost use Rattle.log_store.specs.WrittenLog.{IsWritten};
ghost use Rattle.page_store.specs.Store.{IsGrown};
ghost use Rattle.engine_rules.specs.Asked.{Asks, FailsAsking, a_page};
ghost use Rattle.engine_rules.specs.EngineState.{log_of, stored_page};
ghost use Rattle.engine_rules.specs.EngineState.{volume_pages};
ghost use Rattle.engine_rules.specs.Step.{IsByStore, written_log_of};

use crate::engine::Engine;
use copy_vault::Vault;
use engine_calls::Refusal;
use log_records::DirtyPages;
use log_store::{Log, LogDevice};
use page_core::{Page, PageNo};
use page_store::PageStore;

impl<S: PageStore, D: LogDevice> Engine<S, D> {
    /// Its log: all records so far, up to where they are forced, and the device.
    pub fn log(&self) -> &Log<D>
        ensures log { result.now.log ≡ log_of self.now.state }
        ensures forced_end { result.now.forced_end ≡ self.now.state.forced_end }
        ensures device { result.now.device ≡ self.now.device }
        // What is forced is on the device, and what is stored is in the store.
        ensures records { IsWritten D.bytes (written_log_of self.now) }
        // Behind the volume's pages the store has none but formatted ones.
        ensures pages { IsGrown self.now.state.stored (S.stored self.now.store) }
    {
        let _ = self.log.device();
        &self.log
    }

    /// Its image copies.
    pub fn copies(&self) -> &Vault
        ensures { result.now.copies ≡ self.now.state.copies }
    {
        &self.vault
    }

    /// The dirty page table from a page on: up to three dirty pages in order of their numbers, each
    /// with its RecLSN, or `None` where no page from there on is dirty (ARIES, section 4.4).
    pub fn dirty_from(&self, cursor: PageNo) -> Option<DirtyPages>
        ensures { let next = next_dirty (dirty self.now.state.log self.now.state.written) cursor in
            MatchOption result (next ≡ []) (λ some. entries_of some ≡ next) }
    {
        self.pool.dirty_from(cursor)
    }

    /// A page as the store has it, which may lack the last changes. Refusals in order: `PageOut`,
    /// `StoreFault`. Either way the engine stays as it is.
    pub fn stored(&mut self, page: PageNo) -> Result<Page, Refusal>
        ensures found { IfOk result (λ it. it ≡ stored_page self.old.state page) }
        ensures within { OnOk result (page < volume_pages self.old.state) }
        ensures refused { IfErr result (λ why. ¬ IsByStore why
            → (why ≡ Refusal.PageOut) × (volume_pages self.old.state ≤ page)
            × (self.new.store ≡ self.old.store)) }
        ensures state { self.new.state ≡ self.old.state }
        ensures device { self.new.device ≡ self.old.device }
        ensures asked { OnOk result (Asks S.gave S.wrote S.grew (a_page page) self.old self.new) }
        ensures failed { IfErr result (λ why. IsByStore why
            → FailsAsking S.gave S.wrote S.grew (a_page page) self.old self.new) }
        ensures no_failure { OnOk result (S.failures self.new.store ≡ S.failures self.old.store) }
        ensures failure { IfErr result (λ why. IsByStore why
            → S.failures self.old.store < S.failures self.new.store) }
    {
        if page.0 >= self.log.pages() {
            return Err(Refusal::PageOut);
        }
        match self.pool.stored(page) {
            Ok(stored) => Ok(stored),
            Err(_) => Err(Refusal::StoreFault),
        }
    }
}
