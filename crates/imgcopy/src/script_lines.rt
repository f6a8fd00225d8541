//! What is wrong with a script that was not played.

use event_script::{BadLine, MAX_SCRIPT_BYTES, ScriptFault};
use file_inputs::{tell_unread, tell_unwritten};
use script_run::ScriptRunFault;
use system_files::Notes;

/// Tells what is wrong with a script that was not played, or why its replies could not be written.
pub fn tell_script(
    rt: &impl Eprint,
    fault: &ScriptRunFault,
    script: &[u8],
    input: &Notes,
    output: &Notes,
) {
    let _ = match fault {
        ScriptRunFault::Script(ScriptFault::BadLine(number, why)) => {
            let why = BadLine::of(*why, script, *number);
            eprintln!(rt; "imgcopy: line {number}: {why}")
        }
        ScriptRunFault::Script(ScriptFault::Input) => {
            eprintln!(rt; "imgcopy: standard input: not UTF-8, or over {MAX_SCRIPT_BYTES} bytes")
        }
        ScriptRunFault::Script(ScriptFault::ReadFault) => return tell_unread(rt, input),
        ScriptRunFault::WriteFault(_) => return tell_unwritten(rt, output),
        ScriptRunFault::Script(ScriptFault::OutOfMemory) | ScriptRunFault::OutOfMemory => return,
    };
}
