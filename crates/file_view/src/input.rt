//! Reads a file whole.

ghost use Rattle.std.specs.Prelude.{◌<◌, ◌≤◌, IfOk, length};
ghost use Rattle.std.specs.Io.KnownBytes.{Consumes, IsAtEnd};

use crate::fault::ViewFault;
use log_records::MAX_LOG_BYTES;
use page_core::{MAX_TURNS, Turn, read_more, zeros};
use std::alloc::Global;
use std::io::Read;

/// How many bytes the reader is asked for at once, at most.
const PIECE_BYTES: usize = 65_536;

/// The bytes of a file, to its end, or until there are more than the longest log has, which is the
/// longest file of a database. `OutOfMemory` comes where there is no room for them, `ReadFault`
/// where the reader fails.
pub fn read_file<R: Read>(alloc: Global, reader: &mut R) -> Result<Vec<u8>, ViewFault>
    ensures given { IfOk result (λ bytes.
        Consumes (R.remaining reader.old) (R.remaining reader.new) bytes.items) }
    ensures whole { IfOk result (λ bytes. length bytes.items ≤ MAX_LOG_BYTES
        → IsAtEnd (R.remaining reader.new)) }
{
    let mut piece = zeros(alloc, PIECE_BYTES)?;
    read_through(alloc, reader, &mut piece)
}

/// Reads the bytes of a file, a piece after another.
fn read_through<R: Read>(
    alloc: Global,
    reader: &mut R,
    piece: &mut [u8],
) -> Result<Vec<u8>, ViewFault>
    requires { 0 < length piece.old }
    ensures given { IfOk result (λ bytes.
        Consumes (R.remaining reader.old) (R.remaining reader.new) bytes.items) }
    ensures whole { IfOk result (λ bytes. length bytes.items ≤ MAX_LOG_BYTES
        → IsAtEnd (R.remaining reader.new)) }
{
    let mut bytes = Vec::new(alloc);
    for _ in 0..MAX_TURNS {
        match read_more(reader, piece, 0) {
            Turn::More(count) => bytes.extend_from_slice(&piece[..count])?,
            Turn::End => return Ok(bytes),
            Turn::Failed => return Err(ViewFault::ReadFault),
        }
        if bytes.len() > MAX_LOG_BYTES {
            return Ok(bytes);
        }
    }
    Err(ViewFault::ReadFault)
}
