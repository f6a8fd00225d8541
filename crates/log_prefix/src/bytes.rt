//! Reads the bytes behind a log's front.

ghost use Rattle.std.specs.Prelude.{ℕ, ◌≡◌, ◌≤◌, ◌≢◌, Err, List, OnOk, Option, length};
ghost use Rattle.std.specs.Io.KnownBytes.{Consumes};
ghost use Rattle.page_core.specs.Input.{StaysKnown};
ghost use Rattle.log_prefix.specs.Front.{IsReadUp};
ghost use Rattle.log_prefix.specs.declared.fault.FrontFault.TheVariants.{BadHeader};

use crate::fault::FrontFault;
use log_records::MAX_LOG_BYTES;
use page_core::{MAX_TURNS, Turn, read_more, zeros};
use std::alloc::Global;
use std::io::Read;

/// How many bytes the reader is asked for at once, at most.
const PIECE_BYTES: usize = 262_144;

/// Reads on where so many bytes were read, to the input's end, or until they are more than the
/// longest log has. It keeps none.
pub fn read_up<R: Read>(alloc: Global, reader: &mut R, read: u64) -> Result<(), FrontFault>
    ensures known { StaysKnown (R.remaining reader.old) (R.remaining reader.new) }
    ensures up { OnOk result ((start : Option (List ℕ)) (given : List ℕ)
        → Consumes start (R.remaining reader.old) given → read ≤ length given
        → IsReadUp start (R.remaining reader.new)) }
    ensures err { result ≢ Err BadHeader }
{
    let mut piece = zeros(alloc, PIECE_BYTES)?;
    let mut seen = read;
    for _ in 0..MAX_TURNS {
        match read_more(reader, &mut piece, 0) {
            Turn::More(count) => seen = seen.saturating_add(count as u64),
            Turn::End => return Ok(()),
            Turn::Failed => return Err(FrontFault::ReadFault),
        }
        if seen > MAX_LOG_BYTES as u64 {
            return Ok(());
        }
    }
    Err(FrontFault::ReadFault)
}
