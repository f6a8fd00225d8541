//! Writes output as a whole.

ghost use Rattle.std.specs.Prelude.{◌<◌, length, take, IfErr, OnOk};
ghost use Rattle.std.specs.Io.KnownBytes.{Appends};

use std::io::{ErrorKind, Write};

/// How often in a row an interrupted write is tried again.
const MAX_INTERRUPTIONS: u32 = 16;

/// Writes all of the bytes. At `Err` so many of them went out: the writer failed, took nothing, or
/// was interrupted 17 times in a row.
pub fn write_out<W: Write>(writer: &mut W, bytes: &[u8]) -> Result<(), u64>
    ensures ok { OnOk result (Appends (W.contents writer.old) (W.contents writer.new) bytes.now) }
    ensures within { IfErr result (λ done. done < length bytes.now) }
    ensures err { IfErr result (λ done.
        Appends (W.contents writer.old) (W.contents writer.new) (take done bytes.now)) }
{
    let mut done = 0;
    let mut interruptions = 0;
    while done < bytes.len() {
        match writer.write(&bytes[done..]) {
            Ok(0) => return Err(done as u64),
            Ok(count) => {
                done += count;
                interruptions = 0;
            }
            Err(error) => {
                if error.kind() != ErrorKind::Interrupted || interruptions >= MAX_INTERRUPTIONS {
                    return Err(done as u64);
                }
                interruptions += 1;
            }
        }
    }
    Ok(())
}
