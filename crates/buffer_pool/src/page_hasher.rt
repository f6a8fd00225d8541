//! The hash of a slot's number.

use std::hash::Hasher;

/// Multiplies a number by an odd constant.
///
/// The low bits of the product say in which group of the map's table an entry stands first. Each of
/// their values is that of equally many page numbers, so no choice of pages makes a search long.
#[derive(Clone, Copy, Default)]
pub(crate) struct PageHasher(u32);

impl Hasher for PageHasher {
    ghost use Rattle.buffer_pool.specs.PageHasher.{write_all, hash_of};

    ghost write = { write_all };

    ghost finish = { hash_of };

    fn finish(&self) -> u64 {
        u64::from(self.0.wrapping_mul(0x9E37_79B1))
    }

    /// The bytes of a number come with the lowest first, so that after four of them the number is
    /// in place.
    fn write(&mut self, bytes: &[u8]) {
        for byte in bytes {
            self.0 = (self.0 ^ u32::from(*byte)).rotate_right(8);
        }
    }
}
