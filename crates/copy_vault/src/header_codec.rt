//! The bytes of an archive's header.

ghost use Rattle.std.specs.Prelude.{◌≡◌, ◌↔◌, IfSome, IsTrue, Some};
ghost use Rattle.copy_vault.specs.Archive.{IsHeader, IsKindOf, header_bytes, kind_number};
ghost use Rattle.copy_vault.specs.Archive.{parent_of};
ghost use Rattle.page_core.specs.declared.format.Format.{Format};
ghost use Rattle.page_core.specs.Format.{digit_of};
ghost use Rattle.copy_vault.specs.declared.copy_id.CopyKind.{CopyKind};
ghost use Rattle.copy_vault.specs.declared.header.ArchiveHeader.{ArchiveHeader};

use crate::copy_id::{CopyId, CopyKind, MAX_COPIES};
use crate::header::{ArchiveHeader, FULL, HEADER_BYTES, INC};
use page_core::field::{u32_at, u64_at};
use page_core::{Format, LSN_STEP, Lsn, MAX_PAGES};

/// The bytes of a header.
pub fn encode_header(header: &ArchiveHeader) -> [u8; HEADER_BYTES]
    ensures { result ≡ header_bytes header.now }
{
    let mut bytes = [0; HEADER_BYTES];
    bytes[..7].copy_from_slice(b"AIMGARC");
    bytes[7] = header.format.digit();
    bytes[8..12].copy_from_slice(&header.pages.to_le_bytes());
    bytes[12..16].copy_from_slice(&header.id.0.to_le_bytes());
    bytes[16..20].copy_from_slice(&kind_number(header.kind).to_le_bytes());
    bytes[20..24].copy_from_slice(&parent_of(header.kind).to_le_bytes());
    bytes[24..32].copy_from_slice(&header.begin.0.to_le_bytes());
    bytes[32..40].copy_from_slice(&header.redo.0.to_le_bytes());
    bytes[40..44].copy_from_slice(&header.taken.to_le_bytes());
    bytes
}

fn kind_number(kind: CopyKind) -> u32
    ensures { result ≡ kind_number kind }
{
    match kind {
        CopyKind::Full => FULL,
        CopyKind::Inc(_) => INC,
    }
}

/// The parent's id, and 0 where there is none.
fn parent_of(kind: CopyKind) -> u32
    ensures { result ≡ parent_of kind }
{
    match kind {
        CopyKind::Full => 0,
        CopyKind::Inc(parent) => parent.0,
    }
}

/// The header that these bytes spell, if they spell one.
pub fn decode_header(bytes: &[u8; HEADER_BYTES]) -> Option<ArchiveHeader>
    ensures found { IfSome result (λ h. IsHeader h × (bytes.now ≡ header_bytes h)) }
    ensures only { (h : ArchiveHeader) → IsHeader h → bytes.now ≡ header_bytes h
        → result ≡ Some h }
{
    let header = fields_of(bytes)?;
    if is_header(&header) && is_same(bytes, &encode_header(&header)) {
        Some(header)
    } else {
        None
    }
}

/// The numbers of a header, if their kind is one.
fn fields_of(bytes: &[u8; HEADER_BYTES]) -> Option<ArchiveHeader>
    ensures only { (h : ArchiveHeader) → IsHeader h → bytes.now ≡ header_bytes h
        → result ≡ Some h }
{
    let kind = kind_of(u32_at(bytes, 16), u32_at(bytes, 20))?;
    let format = format_of(bytes[7])?;
    Some(ArchiveHeader {
        format,
        pages: u32_at(bytes, 8),
        id: CopyId(u32_at(bytes, 12)),
        kind,
        begin: Lsn(u64_at(bytes, 24)),
        redo: Lsn(u64_at(bytes, 32)),
        taken: u32_at(bytes, 40),
    })
}

/// The format that this character names.
fn format_of(digit: u8) -> Option<Format>
    ensures only { (format : Format) → digit ≡ digit_of format → result ≡ Some format }
{
    match digit {
        b'1' => Some(Format::First),
        b'2' => Some(Format::Second),
        _ => None,
    }
}

/// The kind that has this number and parent.
fn kind_of(number: u32, parent: u32) -> Option<CopyKind>
    ensures only { (kind : CopyKind) → number ≡ kind_number kind → parent ≡ parent_of kind
        → result ≡ Some kind }
{
    match number {
        FULL => Some(CopyKind::Full),
        INC => Some(CopyKind::Inc(CopyId(parent))),
        _ => None,
    }
}

/// Whether an archive may have this header.
fn is_header(header: &ArchiveHeader) -> bool
    ensures { IsTrue result ↔ IsHeader header.now }
{
    1 <= header.pages
        && header.pages <= MAX_PAGES
        && 1 <= header.id.0
        && header.id.0 <= MAX_COPIES
        && is_kind_of(header)
        && header.begin.0 % LSN_STEP == 0
        && header.redo.0 % LSN_STEP == 0
        && LSN_STEP <= header.redo.0
        && header.redo.0 <= header.begin.0
}

/// Whether the kind fits the rest of the header.
fn is_kind_of(header: &ArchiveHeader) -> bool
    ensures { IsTrue result ↔ IsKindOf header.now.kind header.now }
{
    match header.kind {
        CopyKind::Full => header.taken == header.pages,
        CopyKind::Inc(parent) => {
            1 <= parent.0 && parent.0 < header.id.0 && header.taken <= header.pages
        }
    }
}

fn is_same(a: &[u8], b: &[u8]) -> bool
    ensures { IsTrue result ↔ (a.now ≡ b.now) }
{
    a == b
}
