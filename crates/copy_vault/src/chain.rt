//! A chain of image copies.

ghost use Rattle.std.specs.Prelude.{◌≡◌, ◌↔◌, [], map, IfOk, IfErr, IfSome, IsTrue, OnOk, None};
ghost use Rattle.std.specs.List.{AllByRecursion, range_with_len};
ghost use Rattle.page_core.specs.Page.{formatted};
ghost use Rattle.page_core.specs.Volume.{AreNumbered};
ghost use Rattle.copy_vault.specs.Copy.{IsComplete};
ghost use Rattle.copy_vault.specs.Chain.{FitFrom, Fits, IsBrokenAt, IsChain, IsRefused, content};
ghost use Rattle.copy_vault.specs.Chain.{contents, last_of, last_redo, lent, newest};
ghost use Rattle.page_decisions.specs.Slots.{page_list};
ghost use Rattle.copy_vault.specs.declared.copy_id.CopyKind.TheVariants.{Full};

use crate::chain_fault::ChainFault;
use crate::complete::CompleteCopy;
use crate::copy_id::{CopyId, CopyKind};
use page_core::{Lsn, Page, PageCounts, PageNo};
use std::alloc::{AllocError, Global};
use std::marker::Model;

/// A full copy and incremental ones, each the parent of the next, all of them complete. A chain has
/// each page of its volume, from the newest copy that took it.
#[derive(Drop)]
pub struct Chain<'a> {
    /// The full one first.
    members: Vec<&'a CompleteCopy>,
}

impl<'a> Model for Chain<'a> {
    ghost use Rattle.std.specs.Prelude.{List};
    ghost use Rattle.copy_vault.specs.Copy.{CopyView};
    ghost use Rattle.copy_vault.specs.Chain.{IsChain, lent};

    ghost Value = { List CopyView };

    ghost view = { λ it. lent it.members.items };

    ghost invariant = { λ it. IsChain (lent it.members.items) };
}

impl<'a> Chain<'a> {
    /// The chain of these copies.
    pub(crate) fn new(members: Vec<&'a CompleteCopy>) -> Chain<'a>
        requires { IsChain (lent members.items) }
        ensures { result ≡ lent members.entry.items }
    {
        Chain { members }
    }

    /// The chain of copies that are given in order, as those of archives are, of a volume of these
    /// page counts. Refusals in order: `ChainBroken`, `OutOfMemory`.
    pub fn link(
        alloc: Global,
        copies: &'a [CompleteCopy],
        counts: &PageCounts,
    ) -> Result<Chain<'a>, ChainFault>
        ensures ok { IfOk result (λ chain. chain ≡ copies.now) }
        ensures fit { OnOk result (FitFrom counts.now Full copies.now) }
        ensures err { IfErr result (IsRefused counts.now copies.now) }
    {
        if copies.is_empty() {
            return Err(ChainFault::ChainBroken(CopyId(0)));
        }
        if let Some(id) = first_misfit(copies, counts) {
            return Err(ChainFault::ChainBroken(id));
        }
        let mut members = Vec::with_capacity(alloc, copies.len())?;
        for i in 0..copies.len() {
            members.push(&copies[i])?;
        }
        Ok(Chain::new(members))
    }

    /// The LSN from which on the log is redone over the pages: that of the last copy.
    pub fn redo(&self) -> Lsn
        ensures redo { result ≡ last_redo self.now }
        ensures chain { IsChain self.now }
    {
        self.members[self.members.len() - 1].redo()
    }

    /// A page, from the newest copy that took it, and formatted where none did.
    pub fn content(&self, number: PageNo) -> Page
        ensures content { result ≡ content self.now number }
        ensures numbered { result.number ≡ number }
    {
        page_or_formatted(&self.newest(number), number)
    }

    /// Pages 0 to `count` - 1, in order of their numbers. It looks once at each page that a copy
    /// has.
    pub fn contents(&self, alloc: Global, count: u32) -> Result<Vec<Page>, AllocError>
        ensures contents { IfOk result (λ pages. pages.items ≡ contents self.now count) }
        ensures numbered { OnOk result (AreNumbered (contents self.now count)) }
    {
        let newest = self.newest_each(alloc, count)?;
        let mut pages = Vec::with_capacity(alloc, count as usize)?;
        for number in 0..count {
            pages.push(page_or_formatted(&newest[number as usize], PageNo(number)))?;
        }
        Ok(pages)
    }

    /// A page, from the newest copy that took it, if one did.
    fn newest(&self, number: PageNo) -> Option<&Page>
        ensures newest { page_list result ≡ newest self.now number }
        ensures chain { IsChain self.now }
    {
        let mut later = self.members.len();
        while later > 0 {
            if let Some(page) = self.members[later - 1].page(number) {
                return Some(page);
            }
            later -= 1;
        }
        None
    }

    /// Each of the pages 0 to `count` - 1, from the newest copy that took it, if one did.
    fn newest_each(&self, alloc: Global, count: u32) -> Result<Vec<Option<&Page>>, AllocError>
        ensures newest { IfOk result (λ pages.
            map page_list pages.items ≡ map (newest self.now) (range_with_len 0 count)) }
        ensures chain { OnOk result (IsChain self.now) }
    {
        let mut pages = no_pages(alloc, count)?;
        for i in 0..self.members.len() {
            self.members[i].lay_over(&mut pages);
        }
        Ok(pages)
    }
}

/// So many places without a page.
fn no_pages<'a>(alloc: Global, count: u32) -> Result<Vec<Option<&'a Page>>, AllocError>
    ensures { IfOk result (λ pages. map page_list pages.items
        ≡ map (newest []) (range_with_len 0 count)) }
{
    let mut pages = Vec::with_capacity(alloc, count as usize)?;
    for _ in 0..count {
        pages.push(None)?;
    }
    Ok(pages)
}

/// A copy of the page, and the formatted one of this number where there is none.
fn page_or_formatted(page: &Option<&Page>, number: PageNo) -> Page
    ensures { result ≡ last_of (formatted number) (page_list page.now) }
{
    match page {
        Some(page) => page.copy(),
        None => Page::formatted(number),
    }
}

/// The first copy that does not fit behind those before it.
fn first_misfit(copies: &[CompleteCopy], counts: &PageCounts) -> Option<CopyId>
    ensures found { IfSome result (IsBrokenAt counts.now copies.now) }
    ensures none { result ≡ None → FitFrom counts.now Full copies.now }
    ensures complete { result ≡ None
        → AllByRecursion (λ copy. IsComplete copy.kind copy.pages) copies.now }
{
    let mut kind = CopyKind::Full;
    for i in 0..copies.len() {
        let copy = &copies[i];
        if !fits(copy, counts, kind) {
            return Some(copy.id());
        }
        kind = CopyKind::Inc(copy.id());
    }
    None
}

/// Whether a copy is of this kind, and of each page that the volume had when it began.
fn fits(copy: &CompleteCopy, counts: &PageCounts, kind: CopyKind) -> bool
    ensures fits { IsTrue result ↔ Fits counts.now kind copy.now }
    ensures complete { IsComplete copy.now.kind copy.now.pages }
{
    copy.kind() == kind && copy.pages() == counts.below(copy.begin())
}
