//! Reads a script.

ghost use Rattle.std.specs.Prelude.{ℕ, ◌≡◌, List, [], ◌∷◌, ◌++◌, IfOk, IfErr, OnOk, IfSome};
ghost use Rattle.std.specs.Prelude.{if◌then◌else◌, IsTrue, ◌↔◌};
ghost use Rattle.std.specs.Str.{IsAscii, IsUtf8};
ghost use Rattle.std.specs.Io.KnownBytes.{IsAtEnd};
ghost use Rattle.event_script.specs.Script.{said_in};
ghost use Rattle.event_script.specs.Read.{GaveNoFault, IsText, Refuses};
ghost use Rattle.event_script.specs.Words.{lines_of};

use crate::fault::ScriptFault;
use crate::input::read_input;
use crate::line::{Line, parsed_line};
use crate::line_fault::why_bad;
use crate::script::Script;
use crate::words::next_line;
use std::alloc::{AllocError, Global};
use std::io::Read;

/// Whether each byte is ASCII, so that the bytes are UTF-8. There is no branch for each of them.
fn is_ascii(bytes: &[u8]) -> bool
    ensures { IsTrue result → IsAscii bytes.now }
{
    let mut most = 0;
    for byte in bytes {
        most = most.max(*byte);
    }
    most < 128
}

/// Whether the bytes are UTF-8.
fn is_utf8(bytes: &[u8]) -> bool
    ensures { IsTrue result ↔ IsUtf8 bytes.now }
{
    is_ascii(bytes) || str::from_utf8(bytes).is_ok()
}

/// Takes what a line says into the script so far, and tells whether it may stand there.
fn take_line(script: &mut Script, line: &[u8]) -> Result<bool, AllocError>
    ensures { IfOk result (λ fits. (lines : List (List ℕ))
        → said_in lines ≡ Some (script.old.events.items, script.old.restore)
        → said_in (lines ++ (line.now ∷ []))
        ≡ (if fits then Some (script.new.events.items, script.new.restore) else None)) }
{
    let Some(said) = parsed_line(line) else {
        return Ok(false);
    };
    match said {
        Line::Skipped => Ok(true),
        _ if script.restore.is_some() => Ok(false),
        Line::Call(event) => {
            script.events.push(event)?;
            Ok(true)
        }
        Line::Restore(restore) => {
            script.restore = Some(restore);
            Ok(true)
        }
    }
}

/// Reads the lines of a script.
fn script_in(alloc: Global, input: &[u8]) -> Result<Script, ScriptFault>
    requires { IsText input.now }
    ensures found { IfOk result (λ script.
        said_in (lines_of input.now) ≡ Some (script.events.items, script.restore)) }
    ensures first { IfErr result (Refuses input.now) }
{
    let mut script = Script {
        events: Vec::new(alloc),
        restore: None,
        room: String::new(alloc),
    };
    let mut left = Some(input);
    let mut number = 0;
    while let Some(text) = left {
        let (line, behind) = next_line(text);
        number += 1;
        if !take_line(&mut script, line)? {
            return Err(ScriptFault::BadLine(number, why_bad(line)));
        }
        left = behind;
    }
    Ok(script)
}

/// Reads a script to the input's end: one event a line, and a `restore` at most as the last one.
///
/// A carriage return before a line's end is dropped. A line that is empty then, or begins with `#`,
/// is skipped, and counts as a line. Spaces part words, and those before the first word and behind
/// the last one part nothing. Numbers have 1 to 20 decimal digits. A line that says nothing else is
/// bad, as is a line that follows a `restore` and is not skipped; the first one is answered.
///
/// `Input` comes where the input is longer than 16,777,216 bytes or is no UTF-8, before any line is
/// looked at. `ReadFault` comes where the reader fails, or was asked 134,217,728 times without
/// coming to its end. `OutOfMemory` comes where room for the input or for the events is refused.
pub fn read_script<R: Read>(alloc: Global, reader: &mut R) -> Result<Script, ScriptFault>
    // What is read is what the lines of the input say.
    ensures found { IfOk result (λ script. IfSome (R.remaining reader.old) (λ input.
        said_in (lines_of input) ≡ Some (script.events.items, script.restore))) }
    ensures text { IfOk result (λ _. IfSome (R.remaining reader.old) IsText) }
    ensures end { OnOk result (IsAtEnd (R.remaining reader.new)) }
    // The bad line is the first one, and a text is not refused as an input.
    ensures first { IfErr result (λ fault. IfSome (R.remaining reader.old)
        (λ input. Refuses input fault)) }
    // Where the reader failed, what it gave until then is not too long.
    ensures unread { IfErr result (GaveNoFault (R.remaining reader.old) (R.remaining reader.new)) }
{
    let mut input = read_input(alloc, reader)?;
    if !is_utf8(&input) {
        return Err(ScriptFault::Input);
    }
    let mut script = script_in(alloc, &input)?;
    // After a large block is freed, the C library's heap holds blocks of that size, and copies them
    // to new pages as they grow. So the caller gets the block.
    input.clear();
    if let Ok(room) = String::from_utf8(input) {
        script.room = room;
    }
    Ok(script)
}
