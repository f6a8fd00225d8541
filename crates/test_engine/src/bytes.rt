//! The bytes of a log and of archives, as the table of formats has them.

use std::alloc::Global;
use std::test::Fail;

/// The bytes of these numbers, 8 each.
pub(crate) fn bytes_of(alloc: Global, words: &[u64]) -> Result<Vec<u8>, Fail> {
    let mut bytes = Vec::new(alloc);
    for word in words {
        bytes.extend_from_slice(&word.to_le_bytes())?;
    }
    Ok(bytes)
}

/// `AIMGLOG2`, and a page count behind it.
pub(crate) const LOG: u64 = 0x32_47_4f_4c_47_4d_49_41;

/// `AIMGARC2`.
pub(crate) const ARCHIVE: u64 = 0x32_43_52_41_47_4d_49_41;

/// Has a log or an archive say that it is of another format, by the character that names it.
pub(crate) fn name_format(file: &mut [u8], character: u8) {
    if let Some(place) = file.get_mut(7) {
        *place = character;
    }
}

/// The characters of the two formats.
pub(crate) const FORMATS: [u8; 2] = [b'1', b'2'];

/// A number at byte 4 of its eight.
pub(crate) const HIGH: u64 = 0x1_0000_0000;

const BEGIN: [u64; 8] = [HIGH + 1, 0, 0, 0, 0, 0, 0, 64];

/// Page 0, slot 0, and a Set of 0 to 5.
const UPDATE: [u64; 8] = [HIGH + 2, 64, 0, 0x1_0000_0000_0000, 0, 5, 0, 128];

const BEGIN_CHKPT: [u64; 8] = [7, 0, 0, 0, 0, 0, 0, 192];

/// Page 0 with RecLSN 128.
const CHKPT_PAGES: [u64; 8] = [8, 192, 1, 128, 0, 0, 0, 256];

/// Transaction 1 is active, and its last record stands at 128.
const CHKPT_TXNS: [u64; 8] = [9, 192, HIGH, 128 * HIGH + 1, 128 * HIGH, 0, 0, 320];

/// The redo point is 128.
const END_CHKPT: [u64; 8] = [10, 192, 0, 128, 0, 0, 0, 384];

const COMMIT: [u64; 8] = [HIGH + 4, 128, 0, 0, 0, 0, 0, 448];

/// The volume grows to two pages.
const EXTEND: [u64; 8] = [11, 0, 0, 2, 0, 0, 0, 512];

/// A transaction changes page 0 at 128, a checkpoint stands at 192 to 384, and the transaction
/// commits. The log ends at 512.
pub(crate) fn log(alloc: Global, pages: u64) -> Result<Vec<u8>, Fail> {
    let mut bytes = bytes_of(alloc, &[LOG, pages, 0, 0, 0, 0, 0, 0])?;
    let before = [BEGIN, UPDATE];
    let checkpoint = [BEGIN_CHKPT, CHKPT_PAGES, CHKPT_TXNS, END_CHKPT];
    for record in before
        .iter()
        .chain(checkpoint.iter())
        .chain([COMMIT].iter())
    {
        for word in record {
            bytes.extend_from_slice(&word.to_le_bytes())?;
        }
    }
    Ok(bytes)
}

/// Such a log of one page, which then grows to two. It ends at 576.
pub(crate) fn grown_log(alloc: Global) -> Result<Vec<u8>, Fail> {
    let mut bytes = log(alloc, 1)?;
    bytes.extend_from_slice(&bytes_of(alloc, &EXTEND)?)?;
    Ok(bytes)
}

/// The header of an archive: the page count, its id, its parent (0 of a full copy), its checkpoint
/// and redo point, and how many pages it took.
#[derive(Clone, Copy)]
pub(crate) struct Head {
    pub(crate) pages: u32,
    pub(crate) id: u32,
    pub(crate) parent: u32,
    pub(crate) begin: u64,
    pub(crate) redo: u64,
    pub(crate) taken: u64,
}

/// An archive with this header, and page 0 with an LSN and what its slot 0 has, if it took the
/// page.
pub(crate) fn archive(alloc: Global, head: Head, lsn: u64, slot: u64) -> Result<Vec<u8>, Fail> {
    let kind = if head.parent == 0 { 1 } else { 2 };
    let mut bytes = bytes_of(
        alloc,
        &[
            ARCHIVE,
            u64::from(head.id) * HIGH + u64::from(head.pages),
            u64::from(head.parent) * HIGH + kind,
            head.begin,
            head.redo,
            head.taken,
            0,
            0,
        ],
    )?;
    if head.taken > 0 {
        for word in [HIGH, lsn, slot] {
            bytes.extend_from_slice(&word.to_le_bytes())?;
        }
        bytes.extend_from_slice(&[0; 61 * 8])?;
    }
    Ok(bytes)
}

/// The header of the full copy of one page.
pub(crate) const FULL: Head = Head {
    pages: 1,
    id: 1,
    parent: 0,
    begin: 192,
    redo: 128,
    taken: 1,
};

/// That of an incremental copy of one page, on the copy before it, which took no page.
pub(crate) fn next(id: u32, redo: u64) -> Head {
    Head {
        pages: 1,
        id,
        parent: id.saturating_sub(1),
        begin: redo.max(192),
        redo,
        taken: 0,
    }
}
