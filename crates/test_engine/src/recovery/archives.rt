//! The archives of copies that engines made.

use super::retired;
use crate::asserts::{same, same_at};
use crate::calls::Row;
use crate::groups::{Groups, assert_bytes};
use crate::rows;
use crate::rows::growth;
use copy_vault::{ArchiveFault, CopyId, read_archive, write_archive};
use std::process::Abort;

/// The archive of a copy of a row.
fn archive_of(rt: &(impl Abort + AllocGlobal), row: Row, copy: u32) -> Vec<u8> {
    let alloc = rt.alloc();
    let retired = retired(rt, row, 0);
    let mut bytes = Vec::new(alloc);
    let copy = retired.vault().complete(CopyId(copy));
    write_archive(alloc, copy.expect(rt, "a complete copy"), &mut bytes).expect(rt, "an archive");
    drop(retired);
    bytes
}

/// Copies of rows, and their bytes.
static ARCHIVES: [(Row, u32, Groups); 4] = [
    // A full copy, of one formatted page.
    (
        rows::COPIED_WHEN_DIRTY,
        1,
        Groups(
            &[
                "41494d4741524332 0100000001000000 0100000000000000 c000000000000000 \
               8000000000000000 0100000000000000 0 0 0000000001000000",
            ],
            576,
        ),
    ),
    // An incremental copy that took page 1 of two, which has 9 in its first slot.
    (
        rows::TWO_COPIES_OF_ONE_PARENT,
        2,
        Groups(
            &[
                "41494d4741524332 0200000002000000 0200000001000000 8001000000000000 \
               8001000000000000 0100000000000000 0 0 \
               0100000001000000 0001000000000000 0900000000000000",
            ],
            576,
        ),
    ),
    // An incremental copy that took no page.
    (
        rows::CHAIN,
        3,
        Groups(
            &[
                "41494d4741524332 0100000003000000 0200000002000000 8001000000000000 \
               8001000000000000",
            ],
            64,
        ),
    ),
    // One that took none of the three pages that there were at its checkpoint.
    (
        growth::COPIED_AFTER_GROWTH,
        3,
        Groups(
            &[
                "41494d4741524332 0300000003000000 0200000001000000 c001000000000000 \
               4001000000000000",
            ],
            64,
        ),
    ),
];

#[test]
fn copies_have_their_bytes(rt: HostRuntime) {
    for (row, copy, wanted) in &ARCHIVES {
        let bytes = archive_of(&rt, *row, *copy);
        assert_bytes(&rt, &bytes, *wanted);
    }
}

/// So many bytes of an archive of 1,088, and what comes of them.
static CUTS: [(usize, Option<ArchiveFault>); 5] = [
    (1_089, Some(ArchiveFault::CountDiffers)),
    (1_088, None),
    (1_000, Some(ArchiveFault::BadArchive(576))),
    (576, Some(ArchiveFault::CountDiffers)),
    (63, Some(ArchiveFault::BadArchive(0))),
];

#[test]
fn a_cut_archive_is_not_read(rt: HostRuntime) {
    let mut bytes = archive_of(&rt, rows::CHANGED_AFTER_A_COPY, 1);
    same(&rt, &bytes.len(), &1_088);
    bytes.push(0).expect(&rt, "memory for bytes");
    for (count, fault) in &CUTS {
        let mut cut = bytes.get(..*count).unwrap_or(&[]);
        let given = read_archive(rt.alloc(), &mut cut).err();
        same_at(&rt, &given, fault, count);
    }
}
