//! All pages that an audit finds unsound.

ghost use Rattle.std.specs.Prelude.{ℕ, ◌≡◌, ◌+◌, ◌++◌, [], ◌∷◌, List, IfErr, IfOk, OnOk, length};
ghost use Rattle.std.specs.Prelude.{map};
ghost use Rattle.page_core.specs.declared.page.Page.{Page};
ghost use Rattle.log_records.specs.declared.record.Record.{Record};
ghost use Rattle.log_records.specs.Log.{Log, counts_of};
ghost use Rattle.copy_vault.specs.ChainEach.{ids_of, place_list, points_of};
ghost use Rattle.copy_vault.specs.ChainReading.{AreNoChain};
ghost use Rattle.copy_audit.specs.declared.all_pages.UnsoundPage.{UnsoundPage};
ghost use Rattle.copy_audit.specs.Audit.{end_of};
ghost use Rattle.copy_audit.specs.AuditFault.{NamesNoPage};
ghost use Rattle.copy_audit.specs.Audited.{AreRefused};
ghost use Rattle.copy_audit.specs.Changes.{AreChangesOf, IsKeptOf};
ghost use Rattle.copy_audit.specs.Told.{AreFirstOf, AreToldOf, HasTold, IsTold};

use crate::chain_audit::{places, points_of};
use crate::members::first_unsound;
use crate::page_places::PagePlaces;
use crate::unsound::Unsound;
use copy_vault::{ChainReadFault, ChainReader, CopyId};
use loser_undo::{LogChanges, read_changes};
use page_core::{Lsn, Page, PageNo};
use page_redo::PlacedChange;
use std::alloc::{AllocError, Global};
use std::io::Read;

/// How many unsound pages are told.
pub const MOST_PAGES: usize = 1_000;

/// An unsound page, and the first copy up to which the chain has it so.
#[derive(Clone, Copy, Debug, PartialEq, Eq)]
pub struct UnsoundPage {
    pub copy: CopyId,
    pub page: PageNo,
}

/// The unsound pages of a chain of copies, in page order: the first 1,000 of them, and whether
/// there are more.
#[derive(Drop)]
pub struct UnsoundPages {
    pub pages: Vec<UnsoundPage>,
    pub has_more: bool,
}

impl UnsoundPages {
    /// Notes one page more.
    fn note(&mut self, it: UnsoundPage) -> Result<(), AllocError>
        ensures { OnOk result ((all : List UnsoundPage) → AreFirstOf all self.old
            → AreFirstOf (all ++ it ∷ []) self.new) }
    {
        if self.pages.len() < MOST_PAGES {
            self.pages.push(it)?;
        } else {
            self.has_more = true;
        }
        Ok(())
    }
}

/// Audits as `audit` does, and goes on behind the first unsound page. The faults of the log and of
/// the archives are those of `audit`; that a page is unsound is none here.
pub fn unsound_pages<L: Read, A: Read>(
    alloc: Global,
    log: &mut L,
    archives: &mut [A],
) -> Result<UnsoundPages, Unsound>
    ensures told { IfOk result
        (AreToldOf (L.remaining log.old) (map (λ a. A.remaining a) archives.old)) }
    ensures err { IfErr result
        (AreRefused (L.remaining log.old) (map (λ a. A.remaining a) archives.old)) }
    ensures no_page { IfErr result NamesNoPage }
{
    let kept = read_changes(alloc, log)?.0;
    let told = pages_in(alloc, &kept, archives)?;
    Ok(told)
}

/// The unsound pages of the chain that the archives spell. This was kept of the log.
fn pages_in<A: Read>(
    alloc: Global,
    log: &LogChanges,
    archives: &mut [A],
) -> Result<UnsoundPages, ChainReadFault>
    requires { (whole : Log) × IsKeptOf whole log.now }
    ensures ok { IfOk result (λ told. (whole : Log) → IsKeptOf whole log.now
        → IsTold whole (map (λ a. A.remaining a) archives.old) told) }
    ensures err { IfErr result (λ why. (whole : Log) → IsKeptOf whole log.now
        → AreNoChain (counts_of whole) (end_of whole)
        (map (λ a. A.remaining a) archives.old) (map (λ a. A.remaining a) archives.new) why) }
{
    let mut chain = ChainReader::new(alloc, archives, log.counts(), log.end())?;
    let changes = PagePlaces::new(alloc, log.changes(), log.counts().last())?;
    let points = points_of(alloc, &chain, archives.len())?;
    let mut row = places(alloc, archives.len())?;
    let mut on_page = Vec::new(alloc);
    let mut found = UnsoundPages {
        pages: Vec::new(alloc),
        has_more: false,
    };
    let mut number = 0;
    'rows: loop {
        if !chain.next_each(archives, &mut row)? {
            return Ok(found);
        }
        let page = PageNo(number);
        changes.list(log.changes(), page, &mut on_page)?;
        note_row(
            alloc,
            &chain,
            &points,
            &on_page,
            page,
            log.count(),
            &row,
            &mut found,
        )?;
        number += 1;
    }
}

/// Notes the page of a row, where it is unsound.
fn note_row(
    alloc: Global,
    chain: &ChainReader,
    points: &[Lsn],
    changes: &[PlacedChange],
    page: PageNo,
    count: usize,
    row: &[Option<Page>],
    found: &mut UnsoundPages,
) -> Result<(), AllocError>
    requires points { points.now ≡ points_of chain.now }
    requires members { length row.now ≡ length points.now }
    requires ids { length row.now ≡ length (ids_of chain.now) }
    ensures { OnOk result ((rs : List Record) → AreChangesOf rs page count changes.now
        → (given : List (List (List Page))) → length given ≡ page
        → HasTold rs (points_of chain.now) (ids_of chain.now) (length row.now)
        given page found.old
        → HasTold rs (points_of chain.now) (ids_of chain.now) (length row.now)
        (given ++ map place_list row.now ∷ []) (page + 1) found.new) }
{
    let first = first_unsound(alloc, points, changes, page, count, row, row.len())?;
    if let Some(member) = first {
        let copy = chain.id_at(member);
        found.note(UnsoundPage { copy, page })?;
    }
    Ok(())
}
