//! Numbers of a fixed width in a list of bytes, lowest byte first.

ghost use Rattle.std.specs.Prelude.{ℕ, ◌≡◌, ◌+◌, ◌<◌, ◌≤◌, ◌^◌, length, slice_range};
ghost use Rattle.std.specs.Int.{w16, w32, w64, to_le_bytes};

/// The number in the two bytes at an offset.
pub fn u16_at(bytes: &[u8], at: usize) -> u16
    requires { at + 2 ≤ length bytes.now }
    ensures spelled { to_le_bytes w16 result ≡ slice_range bytes.now at (at + 2) }
    ensures only { (number : ℕ) → number < 2 ^ 16
        → to_le_bytes w16 number ≡ slice_range bytes.now at (at + 2) → result ≡ number }
{
    let field = &bytes[at..at + 2];
    u16::from_le_bytes([field[0], field[1]])
}

/// The number in the four bytes at an offset.
pub fn u32_at(bytes: &[u8], at: usize) -> u32
    requires { at + 4 ≤ length bytes.now }
    ensures spelled { to_le_bytes w32 result ≡ slice_range bytes.now at (at + 4) }
    ensures only { (number : ℕ) → number < 2 ^ 32
        → to_le_bytes w32 number ≡ slice_range bytes.now at (at + 4) → result ≡ number }
{
    let field = &bytes[at..at + 4];
    u32::from_le_bytes([field[0], field[1], field[2], field[3]])
}

/// The number in the eight bytes at an offset.
pub fn u64_at(bytes: &[u8], at: usize) -> u64
    requires { at + 8 ≤ length bytes.now }
    ensures spelled { to_le_bytes w64 result ≡ slice_range bytes.now at (at + 8) }
    ensures only { (number : ℕ) → number < 2 ^ 64
        → to_le_bytes w64 number ≡ slice_range bytes.now at (at + 8) → result ≡ number }
{
    let field = &bytes[at..at + 8];
    u64::from_le_bytes([
        field[0], field[1], field[2], field[3], field[4], field[5], field[6], field[7],
    ])
}
