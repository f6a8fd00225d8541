//! Takes archives apart that stand one behind another.

ghost use Rattle.std.specs.Prelude.{◌≡◌, ◌↔◌, Some, length, map, sum, IfOk, IsTrue};
ghost use Rattle.embed_calls.specs.Archives.{inputs_of};

use std::alloc::{AllocError, Global};

/// Whether these lengths add up to so many bytes.
pub fn add_up(lengths: &[usize], bytes: usize) -> bool
    ensures { IsTrue result ↔ sum lengths.now ≡ bytes }
{
    let mut left = bytes;
    for length in lengths {
        if *length > left {
            return false;
        }
        left -= *length;
    }
    left == 0
}

/// The archives that these bytes are, each of which is so long.
pub fn archives_in<'a>(
    alloc: Global,
    bytes: &'a [u8],
    lengths: &[usize],
) -> Result<Vec<&'a [u8]>, AllocError>
    requires { sum lengths.now ≡ length bytes.now }
    ensures { IfOk result (λ archives.
        map (λ archive. Some archive.now) archives.items ≡ inputs_of bytes.now lengths.now) }
{
    let mut archives = Vec::with_capacity(alloc, lengths.len())?;
    let mut rest = bytes;
    for length in lengths {
        let (archive, behind) = rest.split_at(*length);
        archives.push(archive)?;
        rest = behind;
    }
    Ok(archives)
}
