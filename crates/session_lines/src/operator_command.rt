//! Commands of an operator, which no script has.

ghost use Rattle.std.specs.Prelude.{ℕ, ◌≡◌, ◌≢◌, ◌<◌, ◌↔◌, List, Option, IfSome, IsTrue};
ghost use Rattle.std.specs.Prelude.{MatchResult, None, Some, codes};
ghost use Rattle.std.specs.List.{Contains};
ghost use Rattle.event_script.specs.Words.{number_of};
ghost use Rattle.session_lines.specs.Orders.{IsNoCall, IsNoOrder};
ghost use Rattle.session_lines.specs.Commands.{BeginsAsCommand, HasFirstWord, IsNoCommand, IsSpelled};
ghost use Rattle.session_lines.specs.Commands.{Spells, SpellsText, first_words};
ghost use Rattle.session_lines.specs.declared.operator_command.OperatorCommand.{OperatorCommand};
ghost use Rattle.session_lines.specs.declared.operator_command.OperatorCommand.TheVariants.{Copy};

use crate::bad_call::LineTrouble;

/// How many digits a number of a script has at most.
const MAX_DIGITS: usize = 20;

/// A command of an operator, which is no call of a script.
#[derive(Clone, Copy)]
pub enum OperatorCommand {
    /// Each dirty page is written, and a whole checkpoint is made.
    Checkpoint,
    /// Each dirty page is written.
    Flush,
    /// A whole copy is made, a full one or one on a complete copy, behind a checkpoint that is new.
    Copy(Option<u32>),
    /// What the database has is told.
    Status,
    /// The commands and the calls are told.
    Help,
}

/// The command that a line says, or what is wrong with a line whose first word is one.
pub(crate) fn command_in(line: &[u8]) -> Option<Result<OperatorCommand, LineTrouble>>
    ensures said { IfSome result (λ it. MatchResult it (Spells line.now) (IsNoOrder line.now)) }
    ensures none { result ≡ None → IsNoCommand line.now }
{
    let text = line.trim_ascii();
    match lone_command(text) {
        Some(command) => Some(Ok(command)),
        None => Some(Err(trouble_of(first_word(text))?)),
    }
}

/// Whether a line ends the input.
pub(crate) fn is_quit(line: &[u8]) -> bool
    ensures { IsTrue result ↔ SpellsText line.now (codes "quit") }
{
    line.trim_ascii() == b"quit".as_slice()
}

/// The command that this text spells, if it spells one.
fn lone_command(text: &[u8]) -> Option<OperatorCommand>
    ensures is { IfSome result (IsSpelled text.now) }
    ensures none { result ≡ None → (command : OperatorCommand) → ¬ IsSpelled text.now command }
{
    if text == b"checkpoint".as_slice() {
        Some(OperatorCommand::Checkpoint)
    } else if text == b"flush".as_slice() {
        Some(OperatorCommand::Flush)
    } else if text == b"status".as_slice() {
        Some(OperatorCommand::Status)
    } else if text == b"help".as_slice() {
        Some(OperatorCommand::Help)
    } else {
        copy_command(text)
    }
}

/// The command `copy` that this text spells, if it spells one.
fn copy_command(text: &[u8]) -> Option<OperatorCommand>
    ensures is { IfSome result (IsSpelled text.now) }
    ensures none { result ≡ None → (parent : Option ℕ) → ¬ IsSpelled text.now (Copy parent) }
{
    if text == b"copy".as_slice() {
        return Some(OperatorCommand::Copy(None));
    }
    let digits = text.strip_prefix(b"copy on ".as_slice())?;
    let number = copy_number(digits)?;
    Some(OperatorCommand::Copy(Some(number)))
}

/// The number of a copy that these digits are, as the calls of a script have it.
fn copy_number(digits: &[u8]) -> Option<u32>
    ensures is { IfSome result (λ number. number_of digits.now ≡ Some number) }
    ensures none { result ≡ None
        → (number : ℕ) → number < 4294967296 → number_of digits.now ≢ Some number }
{
    if digits.len() == 0 || digits.len() > MAX_DIGITS {
        return None;
    }
    let mut number: u32 = 0;
    for byte in digits {
        if !byte.is_ascii_digit() {
            return None;
        }
        number = number.checked_mul(10)?.checked_add((*byte - b'0') as u32)?;
    }
    Some(number)
}

/// What stands before the first space.
fn first_word(text: &[u8]) -> &[u8]
    ensures { HasFirstWord text.now result.now }
{
    for (end, byte) in text.iter().enumerate() {
        if *byte == b' ' {
            return &text[..end];
        }
    }
    text
}

/// What is wrong with a line that spells no command, but begins with this word, if a command does.
fn trouble_of(first: &[u8]) -> Option<LineTrouble>
    ensures { IfSome result (λ why. Contains first_words first.now
        × ((line : List ℕ) → BeginsAsCommand line → IsNoCall line why)) }
{
    if first == b"copy".as_slice() {
        return Some(LineTrouble::NoCopyCommand);
    }
    let is_lone = first == b"checkpoint".as_slice()
        || first == b"flush".as_slice()
        || first == b"status".as_slice()
        || first == b"help".as_slice()
        || first == b"quit".as_slice();
    is_lone.then_some(LineTrouble::NotAlone)
}
