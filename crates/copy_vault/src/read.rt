//! Reads an archive piece by piece.

ghost use Rattle.std.specs.Prelude.{ℕ, ◌≡◌, ◌+◌, ◌*◌, ◌/◌, ◌<◌, ◌≤◌, ◌++◌, [], List, length, take};
ghost use Rattle.std.specs.Prelude.{IfOk, IfErr, IfSome, OnOk, Some, MatchResult};
ghost use Rattle.std.specs.Io.KnownBytes.{Consumes, IsAtEnd};
ghost use Rattle.page_decisions.specs.Decisions.{taken_count, taken_pages};
ghost use Rattle.copy_vault.specs.Copy.{CopyView};
ghost use Rattle.copy_vault.specs.Archive.{SpellsCopy, header_bytes};
ghost use Rattle.copy_vault.specs.ArchiveFault.{Refuses, GaveNoFault, IsNoReadFault, IsOutside};
ghost use Rattle.copy_vault.specs.ArchiveRead.{EndsWrongly, IsPart, IsRead, given_for};

use crate::archive_fault::ArchiveFault;
use crate::complete::CompleteCopy;
use crate::header::{ArchiveHeader, HEADER_BYTES};
use crate::header_codec::decode_header;
use page_core::{MAX_TURNS, PAGE_BYTES, Page, Turn, keep_from, read_more, zeros};
use page_decisions::{CopyPages, RisingPages};
use std::alloc::Global;
use std::io::Read;

/// How many bytes a reader is asked for at once, at most.
const BUFFER_BYTES: usize = 262_144;

/// The offset of the page that follows so many others.
fn page_offset(taken: u32) -> u64
    ensures { result ≡ 64 + 512 * taken }
{
    HEADER_BYTES as u64 + PAGE_BYTES as u64 * taken as u64
}

/// Keeps what the parent has of each page that is not decided yet, up to this number.
fn keep_up_to(slots: &mut RisingPages, header: &ArchiveHeader, end: u32)
    requires so_far { IsPart header.now slots.old }
    requires from { length slots.old ≤ end }
    requires within { end ≤ header.now.pages }
    ensures part { IsPart header.now slots.new }
    ensures taken { taken_pages slots.new ≡ taken_pages slots.old }
    ensures count { length slots.new ≡ end }
{
    slots.keep_to(end);
}

/// Takes the page in these bytes, if it may follow those that were taken.
fn push_page(
    alloc: Global,
    slots: &mut RisingPages,
    header: &ArchiveHeader,
    bytes: &[u8],
) -> Result<(), ArchiveFault>
    requires whole { length bytes.now ≡ PAGE_BYTES }
    requires so_far { IsRead header.now slots.old }
    ensures so_far { OnOk result (IsRead header.now slots.new) }
    ensures given { OnOk result
        (given_for header.now slots.new ≡ given_for header.now slots.old ++ bytes.now) }
    ensures first { IfErr result (λ fault. (rest : List ℕ)
        → Refuses (given_for header.now slots.old ++ (bytes.now ++ rest)) fault) }
    ensures of_bytes { IfErr result IsNoReadFault }
{
    if slots.taken() >= header.taken {
        return Err(ArchiveFault::CountDiffers);
    }
    let at = page_offset(slots.taken());
    let Ok(page) = Page::from_bytes(bytes) else {
        return Err(ArchiveFault::BadArchive(at));
    };
    let number = page.number.0;
    if number < slots.count() || number >= header.pages {
        return Err(ArchiveFault::BadArchive(at));
    }
    keep_up_to(slots, header, number);
    slots.push_taken(Box::new(alloc, page)?)?;
    Ok(())
}

/// Takes the whole pages among these bytes.
fn take_pages(
    alloc: Global,
    slots: &mut RisingPages,
    header: &ArchiveHeader,
    bytes: &[u8],
) -> Result<(), ArchiveFault>
    requires { IsRead header.now slots.old }
    ensures so_far { OnOk result (IsRead header.now slots.new) }
    ensures given { OnOk result (given_for header.now slots.new ≡ given_for header.now slots.old
        ++ take (PAGE_BYTES * (length bytes.now / PAGE_BYTES)) bytes.now) }
    ensures first { IfErr result (λ fault. (rest : List ℕ)
        → Refuses (given_for header.now slots.old ++ (bytes.now ++ rest)) fault) }
    ensures of_bytes { IfErr result IsNoReadFault }
{
    for i in 0..bytes.len() / PAGE_BYTES {
        let page = &bytes[PAGE_BYTES * i..PAGE_BYTES * i + PAGE_BYTES];
        push_page(alloc, slots, header, page)?;
    }
    Ok(())
}

/// Reads the header's bytes, and answers how many turns that took.
fn read_header<R: Read>(reader: &mut R, header: &mut [u8]) -> Result<u32, ArchiveFault>
    requires { length header.old ≡ HEADER_BYTES }
    ensures ok { OnOk result (Consumes (R.remaining reader.old)
        (R.remaining reader.new) header.new) }
    ensures turns { IfOk result (λ turns. turns ≤ MAX_TURNS) }
    ensures first { IfErr result (λ fault. IfSome (R.remaining reader.old)
        (λ input. Refuses input fault)) }
    ensures unread { IfErr result (GaveNoFault [] (R.remaining reader.old)
        (R.remaining reader.new)) }
{
    let mut filled = 0;
    for turn in 0..MAX_TURNS {
        match read_more(reader, header, filled) {
            Turn::More(count) => filled += count,
            Turn::End => return Err(ArchiveFault::BadArchive(0)),
            Turn::Failed => return Err(ArchiveFault::ReadFault),
        }
        if filled >= HEADER_BYTES {
            return Ok(turn + 1);
        }
    }
    Err(ArchiveFault::ReadFault)
}

/// Reads the pages behind the header, to the input's end.
fn read_pages<R: Read>(
    alloc: Global,
    reader: &mut R,
    slots: &mut RisingPages,
    header: &ArchiveHeader,
    turns: u32,
    buffer: &mut [u8],
) -> Result<(), ArchiveFault>
    requires room { 1024 ≤ length buffer.old }
    requires so_far { IsRead header.now slots.old }
    requires none { given_for header.now slots.old ≡ header_bytes header.now }
    ensures end { OnOk result (IsAtEnd (R.remaining reader.new)) }
    ensures so_far { OnOk result (IsRead header.now slots.new) }
    ensures all { OnOk result (taken_count slots.new ≡ header.now.taken) }
    ensures found { OnOk result ((read : List ℕ)
        × (Consumes (R.remaining reader.old) (R.remaining reader.new) read
        × (given_for header.now slots.new ≡ header_bytes header.now ++ read))) }
    ensures first { IfErr result (λ fault. IfSome (R.remaining reader.old)
        (λ rest. Refuses (header_bytes header.now ++ rest) fault)) }
    ensures unread { IfErr result (GaveNoFault (header_bytes header.now)
        (R.remaining reader.old) (R.remaining reader.new)) }
{
    let mut filled = 0;
    for _ in 0..turns {
        match read_more(reader, buffer, filled) {
            Turn::More(more) => filled += more,
            Turn::End => return at_end(slots, header, filled),
            Turn::Failed => return Err(ArchiveFault::ReadFault),
        }
        let bytes = &buffer[..filled];
        take_pages(alloc, slots, header, bytes)?;
        filled = keep_from(buffer, PAGE_BYTES * (filled / PAGE_BYTES), filled);
        if slots.taken() >= header.taken && filled > 0 {
            return Err(ArchiveFault::CountDiffers);
        }
    }
    Err(ArchiveFault::ReadFault)
}

/// Whether an archive may end here, where so many bytes follow the pages that were taken.
fn at_end(slots: &RisingPages, header: &ArchiveHeader, filled: usize) -> Result<(), ArchiveFault>
    requires few { taken_count slots.now ≤ header.now.taken }
    ensures ok { OnOk result (filled ≡ 0) }
    ensures all { OnOk result (taken_count slots.now ≡ header.now.taken) }
    ensures err { IfErr result (EndsWrongly (taken_count slots.now) header.now.taken filled) }
{
    if filled > 0 {
        return Err(ArchiveFault::BadArchive(page_offset(slots.taken())));
    }
    if slots.taken() < header.taken {
        return Err(ArchiveFault::CountDiffers);
    }
    Ok(())
}

/// Reads an archive to the input's end, and makes the copy that it spells.
fn read_copy<R: Read>(alloc: Global, reader: &mut R) -> Result<CompleteCopy, ArchiveFault>
    ensures found { IfOk result (λ copy. IfSome (R.remaining reader.old) (SpellsCopy copy)) }
    ensures end { OnOk result (IsAtEnd (R.remaining reader.new)) }
    ensures first { IfErr result (λ fault. IfSome (R.remaining reader.old)
        (λ input. Refuses input fault)) }
    ensures unread { IfErr result (GaveNoFault [] (R.remaining reader.old)
        (R.remaining reader.new)) }
{
    let mut bytes = [0; HEADER_BYTES];
    let turns = read_header(reader, &mut bytes)?;
    let Some(header) = decode_header(&bytes) else {
        return Err(ArchiveFault::BadArchive(0));
    };
    let mut slots = RisingPages::new(alloc);
    let mut buffer = zeros(alloc, BUFFER_BYTES)?;
    read_pages(
        alloc,
        reader,
        &mut slots,
        &header,
        MAX_TURNS - turns,
        &mut buffer,
    )?;
    keep_up_to(&mut slots, &header, header.pages);
    let pages = CopyPages::rising(slots);
    Ok(CompleteCopy::new(header.id, header.kind, header.begin, header.redo, pages))
}

/// Reads an archive to the input's end.
///
/// It stops at the first fault, since nothing behind it can come before it. Where the reader stands
/// then is not said. An interrupted read is made again. `ReadFault` comes where the reader fails
/// otherwise, and where it was asked 134,217,728 times without coming to its end. `OutOfMemory`
/// comes where room for the copy or for what is read is refused.
pub fn read_archive<R: Read>(alloc: Global, reader: &mut R) -> Result<CompleteCopy, ArchiveFault>
    // What is read is spelled so, and nothing follows it.
    ensures found { IfOk result (λ copy. IfSome (R.remaining reader.old) (SpellsCopy copy)) }
    ensures end { OnOk result (IsAtEnd (R.remaining reader.new)) }
    // What is spelled so is read, unless memory runs out or the reader fails.
    ensures only { (copy : CopyView) (input : List ℕ) → R.remaining reader.old ≡ Some input
        → SpellsCopy copy input → MatchResult result (λ read. read ≡ copy) IsOutside }
    // The fault is the first one.
    ensures first { IfErr result (λ fault. IfSome (R.remaining reader.old)
        (λ input. Refuses input fault)) }
    // Where the reader failed, what it gave until then holds none.
    ensures unread { IfErr result (GaveNoFault [] (R.remaining reader.old)
        (R.remaining reader.new)) }
{
    read_copy(alloc, reader)
}
