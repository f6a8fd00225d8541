//! The line that reports a reply.

use engine_calls::{Answer, Reply};
use std::fmt;

/// A reply as its line is printed, without a line feed: the answer's, or the refusal's own text.
#[derive(Clone, Copy, Debug, PartialEq, Eq)]
pub struct ReplyLine(pub Reply);

/// An answer as its line is printed.
#[derive(Clone, Copy)]
struct AnswerLine(Answer);

impl fmt::Display for ReplyLine {
    ghost use Rattle.std.specs.Prelude.{Some};
    ghost use Rattle.event_script.specs.Reply.{line_of_reply};

    ghost output = { λ line. Some (line_of_reply line.0) };

    fn fmt<W: fmt::Write>(&self, f: &mut fmt::Formatter<W>) -> fmt::Result {
        match self.0 {
            Ok(answer) => {
                let answer = AnswerLine(answer);
                write!(f, "{answer}")
            }
            Err(refusal) => write!(f, "{refusal}"),
        }
    }
}

impl fmt::Display for AnswerLine {
    ghost use Rattle.std.specs.Prelude.{Some};
    ghost use Rattle.event_script.specs.Reply.{line_of_answer};

    ghost output = { λ line. Some (line_of_answer line.0) };

    fn fmt<W: fmt::Write>(&self, f: &mut fmt::Formatter<W>) -> fmt::Result {
        match self.0 {
            Answer::Began { txn, lsn } => {
                let (txn, lsn) = (txn.0, lsn.0);
                write!(f, "began {txn} at {lsn}")
            }
            Answer::Point { begin, end, redo } => {
                let (begin, end, redo) = (begin.0, end.0, redo.0);
                write!(f, "point {begin} {end} {redo}")
            }
            Answer::Logged(lsn) => {
                let lsn = lsn.0;
                write!(f, "lsn {lsn}")
            }
            Answer::Number(number) => write!(f, "value {number}"),
            Answer::Undid(lsn) => {
                let lsn = lsn.0;
                write!(f, "undid {lsn}")
            }
            Answer::Ended(lsn) => {
                let lsn = lsn.0;
                write!(f, "ended {lsn}")
            }
            Answer::Saved(lsn) => {
                let lsn = lsn.0;
                write!(f, "saved {lsn}")
            }
            Answer::Reached => write!(f, "reached"),
            Answer::Forced(lsn) => {
                let lsn = lsn.0;
                write!(f, "forced {lsn}")
            }
            Answer::Writing(lsn) => {
                let lsn = lsn.0;
                write!(f, "writing {lsn}")
            }
            Answer::Written(lsn) => {
                let lsn = lsn.0;
                write!(f, "written {lsn}")
            }
            Answer::Copied(id) => {
                let id = id.0;
                write!(f, "copy {id}")
            }
            Answer::Taken(lsn) => {
                let lsn = lsn.0;
                write!(f, "taken {lsn}")
            }
            Answer::Repaired(lsn) => {
                let lsn = lsn.0;
                write!(f, "repaired {lsn}")
            }
            Answer::Sealed(count) => write!(f, "sealed {count}"),
            Answer::More => write!(f, "more"),
            Answer::Done => write!(f, "done"),
            Answer::Kept => write!(f, "kept"),
            Answer::Dropped => write!(f, "dropped"),
        }
    }
}
