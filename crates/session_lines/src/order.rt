//! What a line of an open database says.

ghost use Rattle.std.specs.Prelude.{IfOk, MatchResult};
ghost use Rattle.session_lines.specs.Lines.{unended, whole};
ghost use Rattle.session_lines.specs.Orders.{IsNoCall, LineSays, SaysCall};

use crate::bad_call::LineTrouble;
use crate::operator_command::{OperatorCommand, command_in};
use aries_core::Event;
use event_script::{ScriptFault, read_script};
use std::alloc::{AllocError, Global};

/// What a line orders.
#[derive(Clone, Copy)]
pub enum Order {
    /// A call of the engine, as a script has it.
    Call(Event),
    /// What a command of an operator says.
    Command(OperatorCommand),
}

/// What a line says: an order, or nothing.
pub fn said_in(alloc: Global, line: &[u8]) -> Result<Result<Option<Order>, LineTrouble>, AllocError>
    ensures { IfOk result (λ it. LineSays (whole line.now) it) }
{
    match command_in(line) {
        Some(Ok(command)) => Ok(Ok(Some(Order::Command(command)))),
        Some(Err(why)) => Ok(Err(why)),
        None => match call_in(alloc, line)? {
            Ok(Some(event)) => Ok(Ok(Some(Order::Call(event)))),
            Ok(None) => Ok(Ok(None)),
            Err(why) => Ok(Err(why)),
        },
    }
}

/// What the last bytes of an input say, behind which no line feed stands: nothing, or something
/// that is not done.
pub fn said_unended(
    alloc: Global,
    line: &[u8],
) -> Result<Result<Option<Order>, LineTrouble>, AllocError>
    ensures { IfOk result (λ it. LineSays (unended line.now) it) }
{
    match said_in(alloc, line)? {
        Ok(None) => Ok(Ok(None)),
        _ => Ok(Err(LineTrouble::Unended)),
    }
}

/// What a line of a script says: a call, or nothing.
fn call_in(alloc: Global, line: &[u8]) -> Result<Result<Option<Event>, LineTrouble>, AllocError>
    ensures { IfOk result (λ it. MatchResult it (SaysCall line.now) (IsNoCall line.now)) }
{
    let mut bytes = line;
    Ok(match read_script(alloc, &mut bytes) {
        Ok(script) if script.restore.is_some() => Err(LineTrouble::Restore),
        Ok(script) => Ok(script.events.first().copied()),
        Err(ScriptFault::BadLine(_, why)) => Err(LineTrouble::Bad(why)),
        Err(ScriptFault::Input) => Err(LineTrouble::NoText),
        // Bytes in memory are read without a fault.
        Err(ScriptFault::OutOfMemory | ScriptFault::ReadFault) => return Err(AllocError),
    })
}
