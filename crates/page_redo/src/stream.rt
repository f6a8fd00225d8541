//! Turns the bytes of a log into the bytes of its volume.

ghost use Rattle.std.specs.Prelude.{◌≡◌, IfErr, OnOk};
ghost use Rattle.std.specs.Io.KnownBytes.{IsAtEnd};
ghost use Rattle.page_core.specs.Input.{StaysKnown};
ghost use Rattle.page_redo.specs.Stream.{WritesVolume, Leaves, FailedUnread};

use crate::stream_fault::StreamFault;
use crate::volume_output::write_volume;
use log_store::{Scan, scan_log};
use page_core::{PAGE_BYTES, zeros};
use std::alloc::Global;
use std::io::{Read, Write};

/// How many pages are written at once.
const BUFFER_PAGES: usize = 512;

/// Reads a log to its end, and writes the volume that it makes from formatted pages. Nothing is
/// written before the log is read whole and found right.
///
/// The faults of reading are those of `scan_log`. `WriteFault` comes where the writer fails, takes
/// nothing, or is interrupted 17 times in a row. The writer is not flushed.
pub fn redo_stream<R: Read, W: Write>(
    alloc: Global,
    reader: &mut R,
    writer: &mut W,
) -> Result<(), StreamFault>
    ensures known { StaysKnown (R.remaining reader.old) (R.remaining reader.new) }
    ensures ok { OnOk result
        (WritesVolume (R.remaining reader.old) (W.contents writer.old) (W.contents writer.new)) }
    ensures end { OnOk result (IsAtEnd (R.remaining reader.new)) }
    ensures err { IfErr result
        (Leaves (R.remaining reader.old) (W.contents writer.old) (W.contents writer.new)) }
    // Where the reader failed, what it gave until then holds no fault.
    ensures unread { result ≡ Err StreamFault.ReadFault
        → FailedUnread (R.remaining reader.old) (R.remaining reader.new) }
{
    let scan: Scan<()> = scan_log(alloc, reader)?;
    let mut buffer = zeros(alloc, BUFFER_PAGES * PAGE_BYTES)?;
    write_volume(writer, scan.history.pages(), &mut buffer).map_err(StreamFault::WriteFault)
}
