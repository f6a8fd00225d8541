//! Bytes as tests write them.

use crate::asserts::same;
use std::process::Abort;

/// Groups of eight bytes in hexadecimal, where `0` is a group too, and how many bytes there are:
/// those behind the groups are 0, and those of the groups that are too many do not count.
#[derive(Clone, Copy)]
pub(crate) struct Groups(pub(crate) &'static [&'static str], pub(crate) usize);

/// The bytes that these are.
pub(crate) fn bytes_of(rt: &(impl Abort + AllocGlobal), groups: Groups) -> Vec<u8> {
    let Groups(parts, count) = groups;
    let mut bytes = Vec::new(rt.alloc());
    for part in parts {
        for group in part.split_whitespace() {
            let number = u64::from_str_radix(group, 16).expect(rt, "eight bytes");
            bytes
                .extend_from_slice(&number.to_be_bytes())
                .expect(rt, "memory for bytes");
        }
    }
    bytes.resize(count, 0).expect(rt, "memory for bytes");
    bytes
}

/// Asserts that these are the bytes.
pub(crate) fn assert_bytes(rt: &(impl Abort + AllocGlobal), bytes: &[u8], wanted: Groups) {
    let wanted = bytes_of(rt, wanted);
    same(rt, &bytes, &wanted.as_slice());
}
