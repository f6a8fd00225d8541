//! What a line says.

ghost use Rattle.std.specs.Prelude.{◌≡◌};
ghost use Rattle.event_script.specs.Script.{cut_of, parsed_line, restore_of};
ghost use Rattle.event_script.specs.Words.{words_of};

use crate::call::{args_of, call_of};
use crate::number::number_of;
use crate::script::LastRestore;
use crate::words::{before_return, next_word};
use copy_vault::CopyId;
use engine_calls::Event;

/// What a line says.
#[derive(Clone, Copy)]
pub(crate) enum Line {
    /// Nothing: it is empty, or a comment.
    Skipped,
    Call(Event),
    Restore(LastRestore),
}

/// How many records are kept, or all.
fn cut_of(word: &[u8]) -> Option<Option<u64>>
    ensures { result ≡ cut_of word.now }
{
    if word == b"all".as_slice() {
        return Some(None);
    }
    Some(Some(number_of(word)?))
}

/// The restore that has these words behind its name.
fn restore_of(bytes: &[u8]) -> Option<LastRestore>
    ensures { result ≡ restore_of (words_of bytes.now) }
{
    let (copy, rest) = next_word(bytes)?;
    let (cut, rest) = next_word(rest)?;
    if next_word(rest).is_some() {
        return None;
    }
    Some(LastRestore {
        copy: CopyId(u32::try_from(number_of(copy)?).ok()?),
        cut: cut_of(cut)?,
    })
}

/// What a line says, and nothing where it is bad.
pub(crate) fn parsed_line(line: &[u8]) -> Option<Line>
    ensures { result ≡ parsed_line line.now }
{
    let text = before_return(line);
    if text.is_empty() || text[0] == b'#' {
        return Some(Line::Skipped);
    }
    let (name, rest) = next_word(text)?;
    if name == b"restore".as_slice() {
        return Some(Line::Restore(restore_of(rest)?));
    }
    Some(Line::Call(call_of(name, args_of(rest)?)?))
}
