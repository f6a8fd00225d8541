//! The bytes of a script.

ghost use Rattle.std.specs.Prelude.{◌<◌, ◌≤◌, length, IfOk, IfErr, IfSome};
ghost use Rattle.std.specs.Io.KnownBytes.{Consumes, IsAtEnd};
ghost use Rattle.event_script.specs.Read.{GaveNoFault, Refuses};

use crate::fault::ScriptFault;
use page_core::{MAX_TURNS, Turn, read_more, zeros};
use std::alloc::Global;
use std::io::Read;

/// How many bytes a script has at most.
pub const MAX_SCRIPT_BYTES: usize = 16_777_216;

/// How many bytes a reader is asked for at once, at most. They are few, since an open database reads
/// each line as a script of its own, and the buffer's zeros are written each time.
const BUFFER_BYTES: usize = 4_096;

/// Reads the bytes of a script through a buffer.
fn read_through<R: Read>(
    alloc: Global,
    reader: &mut R,
    buffer: &mut [u8],
) -> Result<Vec<u8>, ScriptFault>
    requires { 0 < length buffer.old }
    ensures found { IfOk result (λ input.
        Consumes (R.remaining reader.old) (R.remaining reader.new) input.items
        × IsAtEnd (R.remaining reader.new)) }
    ensures short { IfOk result (λ input. length input.items ≤ MAX_SCRIPT_BYTES) }
    ensures first { IfErr result (λ fault. IfSome (R.remaining reader.old)
        (λ input. Refuses input fault)) }
    ensures unread { IfErr result (GaveNoFault (R.remaining reader.old) (R.remaining reader.new)) }
{
    let mut input = Vec::new(alloc);
    for _ in 0..MAX_TURNS {
        match read_more(reader, buffer, 0) {
            Turn::More(count) => {
                if count > MAX_SCRIPT_BYTES - input.len() {
                    return Err(ScriptFault::Input);
                }
                input.extend_from_slice(&buffer[..count])?;
            }
            Turn::End => return Ok(input),
            Turn::Failed => return Err(ScriptFault::ReadFault),
        }
    }
    Err(ScriptFault::ReadFault)
}

/// Reads a whole script, if it is not too long.
pub(crate) fn read_input<R: Read>(alloc: Global, reader: &mut R) -> Result<Vec<u8>, ScriptFault>
    ensures found { IfOk result (λ input.
        Consumes (R.remaining reader.old) (R.remaining reader.new) input.items
        × IsAtEnd (R.remaining reader.new)) }
    ensures short { IfOk result (λ input. length input.items ≤ MAX_SCRIPT_BYTES) }
    ensures first { IfErr result (λ fault. IfSome (R.remaining reader.old)
        (λ input. Refuses input fault)) }
    ensures unread { IfErr result (GaveNoFault (R.remaining reader.old) (R.remaining reader.new)) }
{
    let mut buffer = zeros(alloc, BUFFER_BYTES)?;
    read_through(alloc, reader, &mut buffer)
}
