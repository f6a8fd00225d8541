//! The header of an archive.

ghost use Rattle.std.specs.Prelude.{◌≡◌, ◌≢◌, ◌+◌, ◌*◌, IfErr, IfOk, OnOk, length};
ghost use Rattle.page_core.specs.declared.format.Format.{Format};
ghost use Rattle.page_core.specs.Format.{digit_of};
ghost use Rattle.copy_vault.specs.declared.archive_fault.ArchiveFault.TheVariants.{CountDiffers};
ghost use Rattle.copy_vault.specs.declared.header.ArchiveHeader.{ArchiveHeader};
ghost use Rattle.copy_vault.specs.Archive.{IsHeader, header_bytes};
ghost use Rattle.copy_vault.specs.ArchiveFault.{SpellsHeader};
ghost use Rattle.file_view.specs.CopyHeader.{IsHeaderOf, RefusesHeader, shown_of};

use copy_vault::{ArchiveFault, read_archive};
use log_records::HEADER_BYTES;
use page_core::field::{u32_at, u64_at};
use page_core::{Format, Lsn, PAGE_BYTES};
use std::alloc::Global;

/// What the header of an archive says. Its ids are plain numbers, since headers are kept in a
/// `Vec`.
#[derive(Clone, Copy)]
pub struct CopyHeader {
    pub format: Format,
    /// How many pages the volume has.
    pub pages: u32,
    pub id: u32,
    /// The copy that it stands on, and 0 for a full copy.
    pub parent: u32,
    /// The LSN of the BeginChkpt of the checkpoint that the copy notes.
    pub begin: Lsn,
    /// The redo point of that checkpoint.
    pub redo: Lsn,
    /// How many pages follow.
    pub taken: u32,
}

impl CopyHeader {
    /// How many bytes the file of an archive with this header has.
    pub fn bytes(&self) -> u64
        ensures { result ≡ 64 + 512 * self.now.taken }
    {
        HEADER_BYTES as u64 + PAGE_BYTES as u64 * self.taken as u64
    }
}

/// The header in front of these bytes. `BadArchive` with 0 comes where no archive has it, as from
/// `read_archive`; the other faults say nothing of the bytes.
pub fn read_copy_header(alloc: Global, bytes: &[u8]) -> Result<CopyHeader, ArchiveFault>
    ensures found { IfOk result (IsHeaderOf bytes.now) }
    ensures refused { IfErr result (RefusesHeader bytes.now) }
{
    if bytes.len() < HEADER_BYTES {
        return Err(ArchiveFault::BadArchive(0));
    }
    let front = &bytes[..HEADER_BYTES];
    see_header(alloc, front)?;
    Ok(numbers_of(front))
}

/// Sees that these bytes are a header.
fn see_header(alloc: Global, front: &[u8]) -> Result<(), ArchiveFault>
    requires { length front.now ≡ 64 }
    ensures found { OnOk result (SpellsHeader front.now) }
    ensures refused { IfErr result (RefusesHeader front.now) }
{
    let mut input = front;
    if let Err(fault) = read_archive(alloc, &mut input) {
        return of_header(fault);
    }
    Ok(())
}

/// What a fault says of a header behind which the pages are missing.
fn of_header(fault: ArchiveFault) -> Result<(), ArchiveFault>
    ensures right { OnOk result (fault ≡ CountDiffers) }
    ensures wrong { IfErr result (λ same. (same ≡ fault) × (fault ≢ CountDiffers)) }
{
    match fault {
        ArchiveFault::CountDiffers => Ok(()),
        ArchiveFault::OutOfMemory | ArchiveFault::BadArchive(_) | ArchiveFault::ReadFault => {
            Err(fault)
        }
    }
}

/// The numbers of a header.
fn numbers_of(front: &[u8]) -> CopyHeader
    requires { length front.now ≡ 64 }
    ensures { (it : ArchiveHeader) → IsHeader it → front.now ≡ header_bytes it
        → result ≡ shown_of it }
{
    CopyHeader {
        format: format_of(front[7]),
        pages: u32_at(front, 8),
        id: u32_at(front, 12),
        parent: u32_at(front, 20),
        begin: Lsn(u64_at(front, 24)),
        redo: Lsn(u64_at(front, 32)),
        taken: u32_at(front, 40),
    }
}

/// The format that this character names, if one does.
fn format_of(digit: u8) -> Format
    ensures { (format : Format) → digit ≡ digit_of format → result ≡ format }
{
    if digit == b'1' {
        Format::First
    } else {
        Format::Second
    }
}
