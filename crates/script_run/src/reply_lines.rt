//! The lines that report replies.

ghost use Rattle.std.specs.Prelude.{◌≡◌, ◌++◌, IfSome, OnOk};
ghost use Rattle.std.specs.Fmt.{decimal};
ghost use Rattle.std.specs.String.{string_bytes};
ghost use Rattle.event_script.specs.Reply.{line_of_reply};
ghost use Rattle.script_run.specs.PageLines.{ended};

use aries_core::{Answer, Reply};
use event_script::ReplyLine;
use itoa::Buffer;
use std::alloc::AllocError;

/// Puts the line of a reply behind a text. Most replies of a long script are a word and a number,
/// and their lines are put together here.
pub(crate) fn put_reply(text: &mut String, reply: Reply) -> Result<(), AllocError>
    ensures { OnOk result
        (string_bytes text.new ≡ string_bytes text.old ++ ended (line_of_reply reply)) }
{
    match word_and_number(&reply) {
        Some((word, number)) => put_number(text, word, number),
        None => {
            let line = ReplyLine(reply);
            writeln!(text, "{line}")
        }
    }
}

/// The word, with a space behind it, and the number that are the line of a frequent reply.
fn word_and_number(reply: &Reply) -> Option<(&'static str, u64)>
    ensures { IfSome result (λ it. line_of_reply reply.now ≡ it.0.now ++ decimal it.1) }
{
    let Ok(answer) = reply else {
        return None;
    };
    match answer {
        Answer::Logged(lsn) => Some(("lsn ", lsn.0)),
        Answer::Number(number) => Some(("value ", *number)),
        Answer::Undid(lsn) => Some(("undid ", lsn.0)),
        Answer::Writing(lsn) => Some(("writing ", lsn.0)),
        Answer::Written(lsn) => Some(("written ", lsn.0)),
        Answer::Taken(lsn) => Some(("taken ", lsn.0)),
        _ => None,
    }
}

/// Puts a line of a word and a number behind a text.
fn put_number(text: &mut String, word: &str, number: u64) -> Result<(), AllocError>
    ensures { OnOk result (string_bytes text.new
        ≡ string_bytes text.old ++ ended (word.now ++ decimal number)) }
{
    let mut digits = Buffer::new();
    text.push_str(word)?;
    text.push_str(digits.format(number))?;
    text.push_str("\n")
}
