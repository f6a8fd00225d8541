//! Writes numbers of a fixed width into the bytes of a record, lowest byte first.

ghost use Rattle.std.specs.Int.{w16, w32, w64, to_le_bytes};
ghost use Rattle.std.specs.Prelude.{◌++◌, ◌≡◌, ◌+◌, ◌≤◌, drop, take};

use crate::limits::RECORD_BYTES;

/// Writes a number into the two bytes at an offset.
#[inline(always)]
pub fn put_u16(bytes: &mut [u8; RECORD_BYTES], at: usize, number: u16)
    requires { at + 2 ≤ RECORD_BYTES }
    ensures { bytes.new ≡ take at bytes.old ++ to_le_bytes w16 number ++ drop (at + 2) bytes.old }
{
    bytes[at..at + 2].copy_from_slice(&number.to_le_bytes());
}

/// Writes a number into the four bytes at an offset.
#[inline(always)]
pub fn put_u32(bytes: &mut [u8; RECORD_BYTES], at: usize, number: u32)
    requires { at + 4 ≤ RECORD_BYTES }
    ensures { bytes.new ≡ take at bytes.old ++ to_le_bytes w32 number ++ drop (at + 4) bytes.old }
{
    bytes[at..at + 4].copy_from_slice(&number.to_le_bytes());
}

/// Writes a number into the eight bytes at an offset.
#[inline(always)]
pub fn put_u64(bytes: &mut [u8; RECORD_BYTES], at: usize, number: u64)
    requires { at + 8 ≤ RECORD_BYTES }
    ensures { bytes.new ≡ take at bytes.old ++ to_le_bytes w64 number ++ drop (at + 8) bytes.old }
{
    bytes[at..at + 8].copy_from_slice(&number.to_le_bytes());
}
