//! A complete image copy.

ghost use Rattle.std.specs.Prelude.{◌≡◌, length, map, IfSome};
ghost use Rattle.page_decisions.specs.Decisions.{decision_at, page_of, taken_count};
ghost use Rattle.copy_vault.specs.Copy.{IsComplete};
ghost use Rattle.page_decisions.specs.Slots.{AreLaidOver, page_list};

use crate::copy_id::{CopyId, CopyKind};
use page_core::{Lsn, Page, PageNo};
use page_decisions::CopyPages;
use std::marker::Model;

/// An image copy that is complete: of each page it is decided whether the copy has it.
#[derive(Drop)]
pub struct CompleteCopy {
    id: CopyId,
    kind: CopyKind,
    begin: Lsn,
    redo: Lsn,
    slots: CopyPages,
}

impl Model for CompleteCopy {
    ghost use Rattle.copy_vault.specs.Copy.{CopyView, IsComplete};

    ghost Value = { CopyView };

    ghost view = { λ it. record {
      id = it.id;
      kind = it.kind;
      begin = it.begin;
      redo = it.redo;
      pages = it.slots;
    } };

    ghost invariant = { λ it. IsComplete it.kind it.slots };
}

impl CompleteCopy {
    /// A copy of which each page is decided.
    pub(crate) fn new(
        id: CopyId,
        kind: CopyKind,
        begin: Lsn,
        redo: Lsn,
        slots: CopyPages,
    ) -> CompleteCopy
        requires { IsComplete kind slots }
        ensures { result ≡ record {
          id = id;
          kind = kind;
          begin = begin;
          redo = redo;
          pages = slots;
        } }
    {
        CompleteCopy {
            id,
            kind,
            begin,
            redo,
            slots,
        }
    }

    /// Its id.
    pub fn id(&self) -> CopyId
        ensures { result ≡ self.now.id }
    {
        self.id
    }

    /// What it is of.
    pub fn kind(&self) -> CopyKind
        ensures kind { result ≡ self.now.kind }
        ensures complete { IsComplete self.now.kind self.now.pages }
    {
        self.kind
    }

    /// The begin LSN of the checkpoint that was noted when the copy began.
    pub fn begin(&self) -> Lsn
        ensures { result ≡ self.now.begin }
    {
        self.begin
    }

    /// The LSN from which on the log is redone over the copy.
    pub fn redo(&self) -> Lsn
        ensures { result ≡ self.now.redo }
    {
        self.redo
    }

    /// How many pages the volume had when the copy began. Of each of them it is decided whether the
    /// copy has it.
    pub fn pages(&self) -> u32
        ensures count { result ≡ length self.now.pages }
        ensures complete { IsComplete self.now.kind self.now.pages }
    {
        self.slots.count()
    }

    /// How many pages the copy has.
    pub fn taken(&self) -> u32
        ensures { result ≡ taken_count self.now.pages }
    {
        self.slots.taken()
    }

    /// The page of this number, if the copy has it.
    pub fn page(&self, number: PageNo) -> Option<&Page>
        ensures found { page_list result ≡ page_of (decision_at self.now.pages number) }
        ensures numbered { IfSome result (λ page. page.now.number ≡ number) }
    {
        self.slots.page(number)
    }

    /// What is decided of each page.
    pub fn slots(&self) -> &CopyPages
        ensures { result.now ≡ self.now.pages }
    {
        &self.slots
    }

    /// Puts each page that the copy has in the place of its number, if there is one.
    pub(crate) fn lay_over<'a>(&'a self, pages: &mut [Option<&'a Page>])
        ensures { AreLaidOver self.now.pages (map page_list pages.old) (map page_list pages.new) }
    {
        self.slots.lay_over(pages);
    }
}
