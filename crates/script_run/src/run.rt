//! Runs a script, from its bytes to the lines of its replies.

ghost use Rattle.std.specs.Prelude.{◌≡◌, ◌<◌, ◌≤◌, length, take, IfErr, IfOk, OnOk};
ghost use Rattle.std.specs.Io.KnownBytes.{Appends, Keeps};
ghost use Rattle.buffer_pool.specs.Pool.{IsFrameCount};
ghost use Rattle.log_records.specs.Log.{IsPageCount};
ghost use Rattle.script_run.specs.Run.{FailedUnread, LeavesPart, RunLeaves, Runs};

use crate::memory_play::play_in_memory;
use crate::run_fault::ScriptRunFault;
use aries_core::Setup;
use copy_coverage::Retired;
use event_script::{LastRestore, read_script};
use page_core::write_out;
use std::alloc::Global;
use std::io::{Read, Write};

/// What a script leaves after it was played.
#[derive(Drop)]
pub struct Ran {
    /// The log, its last complete checkpoint and the image copies.
    pub retired: Retired,
    /// The restore that the script ends with, if it does.
    pub last: Option<LastRestore>,
}

/// Reads a script to its end, plays it on a new engine whose store and log are in memory, and
/// writes a line for each reply. A refused call is a reply too. The log has room for a record for
/// each event, so no reply tells of a fault of the log's device, and none of one of the store. The
/// last restore of the script is not done here.
///
/// All faults but those of the writer come before the first line is written: those of the script as
/// `read_script` has them, and `OutOfMemory` where memory for the engine or for the lines is
/// refused. The writer is not flushed.
pub fn run_script<R: Read, W: Write>(
    alloc: Global,
    setup: Setup,
    reader: &mut R,
    writer: &mut W,
) -> Result<Ran, ScriptRunFault>
    requires pages { IsPageCount setup.pages }
    requires frames { IsFrameCount setup.frames }
    ensures ran { IfOk result (λ ran. Runs setup.pages setup.frames
        (R.remaining reader.old) (W.contents writer.old) (W.contents writer.new) ran.retired
        ran.last) }
    ensures err { IfErr result (RunLeaves setup.pages setup.frames
        (R.remaining reader.old) (W.contents writer.old) (W.contents writer.new)) }
    // Where the reader failed, what it gave until then is not too long.
    ensures unread { IfErr result (FailedUnread (R.remaining reader.old) (R.remaining reader.new)) }
{
    let script = match read_script(alloc, reader) {
        Ok(script) => script,
        Err(fault) => return Err(ScriptRunFault::Script(fault)),
    };
    let room = script.room;
    let Ok((lines, retired)) = play_in_memory(alloc, setup, &script.events, room) else {
        return Err(ScriptRunFault::OutOfMemory);
    };
    if let Err(fault) = write_lines(&lines, writer) {
        return Err(fault);
    }
    Ok(Ran {
        retired,
        last: script.restore,
    })
}

/// Writes the lines of the replies.
fn write_lines<W: Write>(lines: &str, writer: &mut W) -> Result<(), ScriptRunFault>
    ensures ok { OnOk result (Appends (W.contents writer.old) (W.contents writer.new)
        lines.now) }
    ensures err { IfErr result (LeavesPart lines.now
        (W.contents writer.old) (W.contents writer.new)) }
{
    match write_out(writer, lines.as_bytes()) {
        Ok(()) => Ok(()),
        Err(done) => Err(ScriptRunFault::WriteFault(done)),
    }
}
