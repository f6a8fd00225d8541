//! An archive that is read page by page.

ghost use Rattle.std.specs.Prelude.{ℕ, ◌≡◌, ◌+◌, ◌*◌, ◌<◌, ◌≤◌, List, [], length, Option, IfOk};
ghost use Rattle.std.specs.Prelude.{IfErr, OnOk, OnErr};
ghost use Rattle.std.specs.Io.KnownBytes.{Consumes, IsAtEnd};
ghost use Rattle.copy_vault.specs.declared.copy_id.CopyKind.TheVariants.{Inc};
ghost use Rattle.copy_vault.specs.declared.header.ArchiveHeader.{ArchiveHeader};
ghost use Rattle.copy_vault.specs.Copy.{CopyView};
ghost use Rattle.copy_vault.specs.ChainRead.{EndsAfter, FailsAt, FailsInHeader, FindsNoEnd};
ghost use Rattle.copy_vault.specs.ChainRead.{HasRead, HasReadOn, IsNew, IsPageAfter};
ghost use Rattle.copy_vault.specs.ChainRead.{IsWrongPage, hand_at, place_list};
ghost use Rattle.page_decisions.specs.Slots.{page_list};

use crate::chain_read_fault::ChainReadFault;
use crate::copy_id::CopyKind;
use crate::header::{ArchiveHeader, HEADER_BYTES};
use crate::header_codec::decode_header;
use page_core::{Lsn, MAX_TURNS, PAGE_BYTES, Page, Turn, read_more};
use std::io::Read;

/// How far an archive is read, and the page of it that is at hand.
#[derive(Drop)]
pub struct ArchiveCursor {
    pub header: ArchiveHeader,
    /// How many pages were read.
    pub read: u32,
    /// The least number that the next page may have.
    pub from: u32,
    /// The page that was read last.
    pub page: Option<Page>,
    /// How often the reader may still be asked.
    pub turns: u32,
}

/// The reader failed, or may not be asked again.
#[derive(Drop)]
pub struct Unread;

/// Fills a buffer from a reader, and answers how many bytes fill it: fewer than it has room for
/// only at the input's end.
fn fill<R: Read>(reader: &mut R, buffer: &mut [u8], turns: &mut u32) -> Result<usize, Unread>
    ensures within { IfOk result (λ filled. filled ≤ length buffer.new) }
    ensures whole { IfOk result (λ filled. filled ≡ length buffer.new
        → Consumes (R.remaining reader.old) (R.remaining reader.new) buffer.new) }
    ensures part { IfOk result (λ filled. filled < length buffer.new
        → EndsAfter filled (R.remaining reader.old) (R.remaining reader.new)) }
    ensures err { OnErr result ((given : List ℕ) × (Consumes (R.remaining reader.old)
        (R.remaining reader.new) given × (length given < length buffer.new))) }
{
    let mut filled = 0;
    while filled < buffer.len() {
        if *turns == 0 {
            return Err(Unread);
        }
        *turns -= 1;
        match read_more(reader, buffer, filled) {
            Turn::More(count) => filled += count,
            Turn::End => return Ok(filled),
            Turn::Failed => return Err(Unread),
        }
    }
    Ok(filled)
}

/// Sees that nothing follows in an archive.
fn see_end<R: Read>(reader: &mut R, turns: &mut u32) -> Result<(), ChainReadFault>
    ensures end { OnOk result (IsAtEnd (R.remaining reader.new)) }
    ensures none { OnOk result (Consumes (R.remaining reader.old) (R.remaining reader.new) []) }
    ensures err { IfErr result (FindsNoEnd (R.remaining reader.old) (R.remaining reader.new)) }
{
    let mut byte = [0; 1];
    let Ok(more) = fill(reader, &mut byte, turns) else {
        return Err(ChainReadFault::ReadFault);
    };
    if more > 0 {
        return Err(ChainReadFault::CountDiffers);
    }
    Ok(())
}

impl ArchiveCursor {
    /// Reads the header of an archive.
    pub fn open<R: Read>(reader: &mut R) -> Result<ArchiveCursor, ChainReadFault>
        ensures ok { IfOk result (IsNew (R.remaining reader.old) (R.remaining reader.new)) }
        ensures err { IfErr result (FailsInHeader (R.remaining reader.old)
            (R.remaining reader.new)) }
    {
        let mut bytes = [0; HEADER_BYTES];
        let mut turns = MAX_TURNS;
        let Ok(filled) = fill(reader, &mut bytes, &mut turns) else {
            return Err(ChainReadFault::ReadFault);
        };
        if filled < HEADER_BYTES {
            return Err(ChainReadFault::BadArchive(0));
        }
        let Some(header) = decode_header(&bytes) else {
            return Err(ChainReadFault::BadArchive(0));
        };
        Ok(ArchiveCursor {
            header,
            read: 0,
            from: 0,
            page: None,
            turns,
        })
    }

    /// The kind of the copy that may come behind this one.
    pub fn kind_behind(&self) -> CopyKind
        ensures { result ≡ Inc self.now.header.id }
    {
        CopyKind::Inc(self.header.id)
    }

    /// The page that was read last, if it has this number.
    pub fn page_at(&self, number: u32) -> Option<&Page>
        ensures { page_list result ≡ hand_at self.now.page number }
    {
        match &self.page {
            Some(page) if page.number.0 == number => Some(page),
            _ => None,
        }
    }

    /// Puts a copy of the page that was read last into a place, if it has this number, and nothing
    /// if not. A place that has nothing is left alone: of a long chain most archives lack most
    /// pages, and to write such a place takes as long as to write a page.
    pub fn copy_into(&self, number: u32, place: &mut Option<Page>)
        ensures { place_list place.new ≡ hand_at self.now.page number }
    {
        if let Some(page) = self.page_at(number) {
            *place = Some(page.copy());
        } else if place.is_some() {
            *place = None;
        }
    }

    /// The offset of the next page.
    fn offset(&self) -> u64
        ensures { result ≡ HEADER_BYTES + PAGE_BYTES * self.now.read }
    {
        HEADER_BYTES as u64 + PAGE_BYTES as u64 * self.read as u64
    }

    /// The page that may follow, if these bytes are one.
    fn page_in(&self, bytes: &[u8], end: Lsn) -> Result<Page, ChainReadFault>
        ensures after { IfOk result (IsPageAfter self.now.from self.now.header.pages bytes.now) }
        ensures below { IfOk result (λ page. page.lsn < end) }
        ensures err { IfErr result (IsWrongPage end self.now.read self.now.from
            self.now.header.pages bytes.now) }
    {
        let at = self.offset();
        let Ok(page) = Page::from_bytes(bytes) else {
            return Err(ChainReadFault::BadArchive(at));
        };
        let number = page.number.0;
        if number < self.from || number >= self.header.pages {
            return Err(ChainReadFault::BadArchive(at));
        }
        if page.lsn.0 >= end.0 {
            return Err(ChainReadFault::PageBeyondLog(page.number));
        }
        Ok(page)
    }

    /// Reads the next page, of which there is one by the header, and sees that nothing follows the
    /// last one.
    fn read_page<R: Read>(&mut self, reader: &mut R, end: Lsn) -> Result<(), ChainReadFault>
        requires { self.old.read < self.old.header.taken }
        ensures ok { OnOk result ((h : ArchiveHeader) (input : Option (List ℕ)) (copy : CopyView)
            → HasRead end self.old.from h input (R.remaining reader.old) self.old copy
            → HasReadOn end self.old.from h input (R.remaining reader.new) self.new copy) }
        ensures err { IfErr result (λ fault.
            (h : ArchiveHeader) (input : Option (List ℕ)) (copy : CopyView)
            → HasRead end self.old.from h input (R.remaining reader.old) self.old copy
            → FailsAt end self.old.from h input (R.remaining reader.new) fault) }
        ensures header { self.new.header ≡ self.old.header }
    {
        let mut bytes = [0; PAGE_BYTES];
        let Ok(filled) = fill(reader, &mut bytes, &mut self.turns) else {
            return Err(ChainReadFault::ReadFault);
        };
        if filled == 0 {
            return Err(ChainReadFault::CountDiffers);
        }
        if filled < PAGE_BYTES {
            return Err(ChainReadFault::BadArchive(self.offset()));
        }
        let page = self.page_in(&bytes, end)?;
        self.read += 1;
        self.from = page.number.0 + 1;
        self.page = Some(page);
        if self.read == self.header.taken {
            see_end(reader, &mut self.turns)?;
        }
        Ok(())
    }

    /// Reads the next page, if one follows and may have this number.
    pub fn read_due<R: Read>(
        &mut self,
        reader: &mut R,
        next: u32,
        end: Lsn,
    ) -> Result<(), ChainReadFault>
        ensures ok { OnOk result ((h : ArchiveHeader) (input : Option (List ℕ)) (copy : CopyView)
            → HasRead end next h input (R.remaining reader.old) self.old copy
            → HasReadOn end next h input (R.remaining reader.new) self.new copy) }
        ensures err { IfErr result (λ fault.
            (h : ArchiveHeader) (input : Option (List ℕ)) (copy : CopyView)
            → HasRead end next h input (R.remaining reader.old) self.old copy
            → FailsAt end next h input (R.remaining reader.new) fault) }
        ensures header { self.new.header ≡ self.old.header }
    {
        if self.from != next {
            return Ok(());
        }
        if self.read < self.header.taken {
            return self.read_page(reader, end);
        }
        if self.header.taken == 0 {
            see_end(reader, &mut self.turns)?;
        }
        Ok(())
    }
}
