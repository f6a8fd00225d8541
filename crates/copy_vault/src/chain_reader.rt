//! Gives the pages of a chain from the readers of its archives.

ghost use Rattle.std.specs.Prelude.{ℕ, ◌≡◌, ◌<◌, ◌≤◌, ◌↔◌, [], IsTrue, List, length, map};
ghost use Rattle.std.specs.Prelude.{slice_index_or};
ghost use Rattle.std.specs.Prelude.{Option, Ok, Err, Some, None, IfOk, IfErr, slice_index, true};
ghost use Rattle.std.specs.Prelude.{false};
ghost use Rattle.page_core.specs.PageCounts.{PageCounts, last_count};
ghost use Rattle.page_core.specs.declared.page.Page.{Page};
ghost use Rattle.copy_vault.specs.declared.archive_cursor.ArchiveCursor.{ArchiveCursor};
ghost use Rattle.copy_vault.specs.declared.chain_read_fault.ChainReadFault.{ChainReadFault};
ghost use Rattle.copy_vault.specs.ChainEach.{GoesOnEach, IsReadingEach, ids_of, place_list};
ghost use Rattle.copy_vault.specs.ChainEach.{points_of};
ghost use Rattle.copy_vault.specs.ChainRead.{IsHeadFit, IsNew, last_point};
ghost use Rattle.copy_vault.specs.ChainReading.{AreOpened, GoesOn, HasEnded, IsHeadRefused};
ghost use Rattle.copy_vault.specs.ChainReading.{IsNotMade, IsNotOpened, IsReading, IsStopped};
ghost use Rattle.copy_vault.specs.ChainReading.{heads_of};

use crate::archive_cursor::ArchiveCursor;
use crate::chain_read_fault::ChainReadFault;
use crate::copy_id::{CopyId, CopyKind};
use crate::cursors::{give_each, give_page};
use crate::header::ArchiveHeader;
use page_core::{Lsn, Page, PageCounts};
use std::alloc::Global;
use std::io::Read;

/// Gives the pages of a chain of archives, in order of their numbers. The archives are read side by
/// side, and of each one just the page that was read last is kept. Its readers are lent to each
/// call, always the same ones in the same order.
#[derive(Drop)]
pub struct ChainReader {
    /// How many pages the volume has in the end.
    pages: u32,
    /// The log's end.
    end: Lsn,
    /// The redo point of the last archive.
    redo: Lsn,
    cursors: Vec<ArchiveCursor>,
    /// How many pages were given.
    given: u32,
    /// Why no more are given.
    failed: Option<ChainReadFault>,
}

impl ChainReader {
    /// Reads the headers of the archives of a chain, the full one first, for a volume of these page
    /// counts and a log that ends there. All memory is taken here.
    ///
    /// Refusals in order: `ChainBroken` with 0 where no archive is given; `OutOfMemory`; archive by
    /// archive `ReadFault`, `BadArchive` with 0, and `ChainBroken` where it does not fit behind
    /// those before it; then `RedoBeyondLog`.
    pub fn new<R: Read>(
        alloc: Global,
        readers: &mut [R],
        counts: &PageCounts,
        end: Lsn,
    ) -> Result<ChainReader, ChainReadFault>
        ensures ok { IfOk result (λ it. IsReading counts.now (map (λ r. R.remaining r) readers.old)
            (map (λ r. R.remaining r) readers.new) it []) }
        ensures pages { IfOk result (λ it. it.pages ≡ last_count counts.now) }
        ensures end { IfOk result (λ it. it.end ≡ end) }
        ensures err { IfErr result (IsNotMade counts.now end
            (map (λ r. R.remaining r) readers.old) (map (λ r. R.remaining r) readers.new)) }
        ensures each { IfOk result (λ it. IsReadingEach counts.now
            (map (λ r. R.remaining r) readers.old) (map (λ r. R.remaining r) readers.new) it []) }
        ensures count { IfOk result (λ it. length (ids_of it) ≡ length readers.old) }
        ensures points { IfOk result (λ it. length (points_of it) ≡ length readers.old) }
    {
        if readers.is_empty() {
            return Err(ChainReadFault::ChainBroken(CopyId(0)));
        }
        let cursors = open_all(alloc, readers, counts)?;
        if is_past(&cursors, end) {
            return Err(ChainReadFault::RedoBeyondLog);
        }
        Ok(ChainReader {
            pages: counts.last(),
            end,
            redo: redo_of_last(&cursors),
            cursors,
            given: 0,
            failed: None,
        })
    }

    /// The redo point of the last archive.
    pub fn redo(&self) -> Lsn
        ensures { result ≡ self.now.redo }
    {
        self.redo
    }

    /// The id of an archive's copy.
    pub fn id_at(&self, index: usize) -> CopyId
        requires { index < length (ids_of self.now) }
        ensures { result ≡ slice_index (ids_of self.now) index }
    {
        self.cursors[index].header.id
    }

    /// The redo point of an archive's copy.
    pub fn redo_at(&self, index: usize) -> Lsn
        requires { index < length (points_of self.now) }
        ensures { result ≡ slice_index (points_of self.now) index }
    {
        self.cursors[index].header.redo
    }

    /// Gives the next page of the chain, from the last archive that has it and formatted where none
    /// has, and `None` once all were given, from then on. They are as many as the volume has in the
    /// end. The first call reads the first page of each archive, in order.
    /// Each archive that had the page then reads its next one, in order. Nothing may follow its
    /// last page, which is looked at as soon as that was read, or in the first call where it has
    /// none.
    ///
    /// Refusals, as they are met: `ReadFault`; `BadArchive` where a page is misspelt or cut short;
    /// `PageBeyondLog`; `CountDiffers` where pages are missing, or bytes follow the last one. The
    /// refusal is answered from then on. This takes no memory.
    pub fn next<R: Read>(&mut self, readers: &mut [R]) -> Result<Option<Page>, ChainReadFault>
        // The pages are those of the chain that the archives spell.
        ensures ok { IfOk result (λ page.
            (counts : PageCounts) (inputs : List (Option (List ℕ))) (given : List Page)
            → IsReading counts inputs (map (λ r. R.remaining r) readers.old) self.old given
            → GoesOn counts inputs (map (λ r. R.remaining r) readers.new) self.new given page) }
        // Behind the last page there is none, from then on, and nothing is read.
        ensures ended { IfOk result (λ page. page ≡ None → HasEnded self.new) }
        ensures over { HasEnded self.old → result ≡ Ok None }
        ensures idle { HasEnded self.old → readers.new ≡ readers.old }
        // The fault is the first one that is met.
        ensures err { IfErr result (λ fault.
            (counts : PageCounts) (inputs : List (Option (List ℕ))) (given : List Page)
            → IsReading counts inputs (map (λ r. R.remaining r) readers.old) self.old given
            → IsStopped counts self.old.end inputs (map (λ r. R.remaining r) readers.new) fault) }
        ensures failed { IfErr result (λ fault. self.new.failed ≡ Some fault) }
        // It is answered again, and nothing is read.
        ensures again { (fault : ChainReadFault) → self.old.failed ≡ Some fault
            → result ≡ Err fault }
        ensures still { (fault : ChainReadFault) → self.old.failed ≡ Some fault
            → readers.new ≡ readers.old }
        ensures pages { self.new.pages ≡ self.old.pages }
        ensures end { self.new.end ≡ self.old.end }
        ensures redo { self.new.redo ≡ self.old.redo }
    {
        if let Some(fault) = self.failed {
            return Err(fault);
        }
        if self.given >= self.pages {
            return Ok(None);
        }
        let step = give_page(&mut self.cursors, readers, self.given, self.end);
        if let Err(fault) = &step {
            self.failed = Some(*fault);
            return Err(*fault);
        }
        let page = step?;
        self.given += 1;
        Ok(Some(page))
    }

    /// Goes on by one page number, and puts into `row` what the archives have of it: place by
    /// place, in their order, the page that an archive took, or nothing. It answers `false` once
    /// all numbers were given, from then on. The archives are read as `next` reads them, each one
    /// on as soon as its page was given.
    ///
    /// The refusals are those of `next`, in the same order, and the refusal is answered from then
    /// on. After a refusal or `false` the row says nothing. This takes no memory.
    pub fn next_each<R: Read>(
        &mut self,
        readers: &mut [R],
        row: &mut [Option<Page>],
    ) -> Result<bool, ChainReadFault>
        requires { length row.old ≡ length readers.old }
        // The rows are those of the chain that the archives spell.
        ensures ok { IfOk result (λ more. (counts : PageCounts)
            (inputs : List (Option (List ℕ))) (given : List (List (List Page)))
            → IsReadingEach counts inputs (map (λ r. R.remaining r) readers.old) self.old given
            → GoesOnEach counts inputs (map (λ r. R.remaining r) readers.new) self.new given more
            (map place_list row.new)) }
        // Behind the last row there is none, from then on, and nothing is read.
        ensures ended { IfOk result (λ more. more ≡ false → HasEnded self.new) }
        ensures over { HasEnded self.old → result ≡ Ok false }
        ensures idle { HasEnded self.old → readers.new ≡ readers.old }
        // The fault is the first one that is met.
        ensures err { IfErr result (λ fault. (counts : PageCounts)
            (inputs : List (Option (List ℕ))) (given : List (List (List Page)))
            → IsReadingEach counts inputs (map (λ r. R.remaining r) readers.old) self.old given
            → IsStopped counts self.old.end inputs (map (λ r. R.remaining r) readers.new) fault) }
        ensures failed { IfErr result (λ fault. self.new.failed ≡ Some fault) }
        // It is answered again, and nothing is read.
        ensures again { (fault : ChainReadFault) → self.old.failed ≡ Some fault
            → result ≡ Err fault }
        ensures still { (fault : ChainReadFault) → self.old.failed ≡ Some fault
            → readers.new ≡ readers.old }
        ensures pages { self.new.pages ≡ self.old.pages }
        ensures end { self.new.end ≡ self.old.end }
        ensures redo { self.new.redo ≡ self.old.redo }
        ensures length { length row.new ≡ length row.old }
        ensures ids { ids_of self.new ≡ ids_of self.old }
        ensures points { points_of self.new ≡ points_of self.old }
    {
        if let Some(fault) = self.failed {
            return Err(fault);
        }
        if self.given >= self.pages {
            return Ok(false);
        }
        let step = give_each(&mut self.cursors, readers, self.given, self.end, row);
        if let Err(refusal) = &step {
            self.failed = Some(*refusal);
            return Err(*refusal);
        }
        self.given += 1;
        Ok(true)
    }
}

/// Reads the header of an archive, which has to be of a copy of this kind, and of each page that
/// the volume had when it began.
fn open_fitting<R: Read>(
    reader: &mut R,
    counts: &PageCounts,
    kind: CopyKind,
) -> Result<ArchiveCursor, ChainReadFault>
    ensures new { IfOk result (IsNew (R.remaining reader.old) (R.remaining reader.new)) }
    ensures fit { IfOk result (λ it. IsHeadFit counts.now kind it.header) }
    ensures err { IfErr result (IsHeadRefused counts.now kind (R.remaining reader.old)
        (R.remaining reader.new)) }
{
    let cursor = ArchiveCursor::open(reader)?;
    if !is_fit(&cursor.header, counts, kind) {
        return Err(ChainReadFault::ChainBroken(cursor.header.id));
    }
    Ok(cursor)
}

/// Whether a header is that of a copy of this kind, and of each page that the volume had when it
/// began.
fn is_fit(header: &ArchiveHeader, counts: &PageCounts, kind: CopyKind) -> bool
    ensures { IsTrue result ↔ IsHeadFit counts.now kind header.now }
{
    header.kind == kind && header.pages == counts.below(header.begin)
}

/// Reads the headers of a chain's archives, in order.
fn open_all<R: Read>(
    alloc: Global,
    readers: &mut [R],
    counts: &PageCounts,
) -> Result<Vec<ArchiveCursor>, ChainReadFault>
    ensures opened { IfOk result (λ its. AreOpened counts.now
        (map (λ r. R.remaining r) readers.old) (map (λ r. R.remaining r) readers.new) its.items) }
    ensures all { IfOk result (λ its. length its.items ≡ length readers.old) }
    ensures err { IfErr result (IsNotOpened counts.now (map (λ r. R.remaining r) readers.old)
        (map (λ r. R.remaining r) readers.new)) }
{
    let mut cursors = Vec::with_capacity(alloc, readers.len())?;
    let mut kind = CopyKind::Full;
    for i in 0..readers.len() {
        let cursor = open_fitting(&mut readers[i], counts, kind)?;
        kind = cursor.kind_behind();
        cursors.push(cursor)?;
    }
    Ok(cursors)
}

/// Whether a redo point is at or past the log's end.
fn is_past(cursors: &[ArchiveCursor], end: Lsn) -> bool
    ensures past { result ≡ true → (k : ℕ) × (k < length cursors.now)
        × ((it : ArchiveCursor) → end ≤ (slice_index_or cursors.now k it).header.redo) }
    ensures below { result ≡ false → (k : ℕ) (it : ArchiveCursor) → k < length cursors.now
        → (slice_index_or cursors.now k it).header.redo < end }
{
    for i in 0..cursors.len() {
        let redo = cursors[i].header.redo;
        if redo.0 >= end.0 {
            return true;
        }
    }
    false
}

/// The redo point of the last archive.
fn redo_of_last(cursors: &[ArchiveCursor]) -> Lsn
    requires { 0 < length cursors.now }
    ensures { result ≡ last_point (heads_of cursors.now) }
{
    cursors[cursors.len() - 1].header.redo
}
