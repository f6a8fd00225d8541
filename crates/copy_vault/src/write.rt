//! Writes an archive piece by piece.

ghost use Rattle.std.specs.Prelude.{◌≡◌, ◌+◌, ◌<◌, ◌≤◌, ◌++◌, length, take, IfOk, IfErr, OnOk};
ghost use Rattle.std.specs.Io.KnownBytes.{Appends};
ghost use Rattle.page_core.specs.Page.{volume_bytes};
ghost use Rattle.page_decisions.specs.Decisions.{taken_pages};
ghost use Rattle.page_decisions.specs.Slots.{page_list};
ghost use Rattle.copy_vault.specs.Archive.{archive_bytes, header_bytes};
ghost use Rattle.copy_vault.specs.ArchiveWrite.{Leaves, Sends};

use crate::archive_fault::ArchiveWriteFault;
use crate::complete::CompleteCopy;
use crate::header::{ArchiveHeader, HEADER_BYTES, header_of};
use crate::header_codec::encode_header;
use page_core::{PAGE_BYTES, Page, PageNo, write_out, zeros};
use page_decisions::CopyPages;
use std::alloc::Global;
use std::io::Write;

/// How many bytes are written at once, at most.
const BUFFER_BYTES: usize = 262_144;

/// Writes the archive of a copy: its header, and the pages that it took, in order of their numbers.
/// The writer is not flushed.
pub fn write_archive<W: Write>(
    alloc: Global,
    copy: &CompleteCopy,
    writer: &mut W,
) -> Result<(), ArchiveWriteFault>
    ensures ok { OnOk result (Appends (W.contents writer.old) (W.contents writer.new)
        (archive_bytes copy.now)) }
    ensures err { IfErr result (Leaves (archive_bytes copy.now)
        (W.contents writer.old) (W.contents writer.new)) }
{
    let Ok(mut buffer) = zeros(alloc, BUFFER_BYTES) else {
        return Err(ArchiveWriteFault::OutOfMemory);
    };
    put_header(&mut buffer, &header_of(copy));
    if let Err(done) = write_pages(writer, copy.slots(), &mut buffer) {
        return Err(ArchiveWriteFault::WriteFault(done));
    }
    Ok(())
}

/// Puts the bytes of a header in front of a buffer.
fn put_header(buffer: &mut [u8], header: &ArchiveHeader)
    requires { HEADER_BYTES ≤ length buffer.old }
    ensures { take HEADER_BYTES buffer.new ≡ header_bytes header.now }
{
    buffer[..HEADER_BYTES].copy_from_slice(&encode_header(header));
}

/// Writes the bytes in front of the buffer, as many as a header has, and then those of each page
/// that was taken. At `Err` so many bytes went out.
fn write_pages<W: Write>(writer: &mut W, slots: &CopyPages, buffer: &mut [u8]) -> Result<(), u64>
    requires { 1024 ≤ length buffer.old }
    ensures ok { OnOk result (Appends (W.contents writer.old) (W.contents writer.new)
        (take HEADER_BYTES buffer.old ++ volume_bytes (taken_pages slots.now))) }
    ensures within { IfErr result (λ done. done
        < length (take HEADER_BYTES buffer.old ++ volume_bytes (taken_pages slots.now))) }
    ensures err { IfErr result (λ done. Appends (W.contents writer.old) (W.contents writer.new)
        (take done (take HEADER_BYTES buffer.old ++ volume_bytes (taken_pages slots.now)))) }
{
    let mut filled = HEADER_BYTES;
    let mut done = 0;
    for number in 0..slots.count() {
        let left = match make_room(writer, buffer, filled) {
            Ok(left) => left,
            Err(part) => return Err(done + part),
        };
        done += (filled - left) as u64;
        filled = put_page(buffer, left, slots.page(PageNo(number)));
    }
    if let Err(part) = write_out(writer, &buffer[..filled]) {
        return Err(done + part);
    }
    Ok(())
}

/// Writes out what fills the buffer if there is no room for a page behind it, and answers how many
/// bytes are left in it. At `Err` so many bytes went out.
fn make_room<W: Write>(writer: &mut W, buffer: &[u8], filled: usize) -> Result<usize, u64>
    requires room { 1024 ≤ length buffer.now }
    requires filled { filled ≤ length buffer.now }
    ensures room { IfOk result (λ left. left + PAGE_BYTES ≤ length buffer.now) }
    ensures left { IfOk result (λ left. left ≤ filled) }
    ensures sent { IfOk result (λ left. Sends (W.contents writer.old) (W.contents writer.new)
        (take filled buffer.now) (take left buffer.now)) }
    ensures within { IfErr result (λ part. part < length (take filled buffer.now)) }
    ensures err { IfErr result (λ part. Appends (W.contents writer.old) (W.contents writer.new)
        (take part (take filled buffer.now))) }
{
    if buffer.len() - filled >= PAGE_BYTES {
        return Ok(filled);
    }
    write_out(writer, &buffer[..filled])?;
    Ok(0)
}

/// Puts the bytes of the page, if there is one, behind those that fill the buffer, and answers how
/// many fill it now.
fn put_page(buffer: &mut [u8], filled: usize, page: Option<&Page>) -> usize
    requires { filled + PAGE_BYTES ≤ length buffer.old }
    ensures within { result ≤ filled + PAGE_BYTES }
    ensures bytes { take result buffer.new
        ≡ take filled buffer.old ++ volume_bytes (page_list page.entry) }
    ensures count { result ≡ filled + length (volume_bytes (page_list page.entry)) }
{
    let Some(page) = page else {
        return filled;
    };
    page.write_to(&mut buffer[filled..filled + PAGE_BYTES]);
    filled + PAGE_BYTES
}
