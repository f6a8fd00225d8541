//! What a line is answered.

ghost use Rattle.std.specs.Prelude.{◌≡◌, ◌↔◌, false, Err, IfErr, IsTrue, OnOk};
ghost use Rattle.std.specs.Io.KnownBytes.{Appends};
ghost use Rattle.session_lines.specs.Said.{IsAnswer, IsFault, said_line};
ghost use Rattle.session_lines.specs.Said.{LeavesLine};

use crate::serve_fault::ServeFault;
use aries_core::{Refusal, Reply};
use event_script::ReplyLine;
use page_core::write_out;
use saved_files::FileFault;
use std::alloc::Global;
use std::fmt;
use std::io::Write;

/// What a call is answered. Its text is its line.
#[derive(Clone, Copy, Debug, PartialEq, Eq)]
pub enum Said {
    /// What the engine replied.
    Reply(Reply),
    /// The engine made the call, and the file that it makes is not in place, for this reason. The
    /// call may be made again.
    Unplaced(FileFault),
}

impl Said {
    /// Whether the call was refused, or did not come to its end.
    pub fn is_refused(&self) -> bool
        ensures { result ≡ false ↔ IsAnswer self.now }
    {
        !matches!(self, Said::Reply(Ok(_)))
    }

    /// Whether a file failed.
    pub fn is_fault(&self) -> bool
        ensures { IsTrue result ↔ IsFault self.now }
    {
        match self {
            Said::Unplaced(_) => true,
            Said::Reply(Err(why)) => is_fault(*why),
            Said::Reply(Ok(_)) => false,
        }
    }
}

/// Whether a call was refused since a file failed.
fn is_fault(why: Refusal) -> bool
    ensures { IsTrue result ↔ IsFault (Said.Reply (Err why)) }
{
    match why {
        Refusal::StoreFault | Refusal::LogFault | Refusal::CommitUnsure(_) => true,
        _ => false,
    }
}

impl fmt::Display for Said {
    ghost use Rattle.std.specs.Prelude.{Some};
    ghost use Rattle.session_lines.specs.Said.{line_of_said};

    ghost output = { λ said. Some (line_of_said said) };

    fn fmt<W: fmt::Write>(&self, f: &mut fmt::Formatter<W>) -> fmt::Result {
        match self {
            Said::Reply(reply) => {
                let line = ReplyLine(*reply);
                write!(f, "{line}")
            }
            Said::Unplaced(why) => write!(f, "{why}"),
        }
    }
}

/// Writes the line of what is said, by one write where the writer takes it.
pub fn write_said<W: Write>(alloc: Global, said: &Said, writer: &mut W) -> Result<(), ServeFault>
    ensures ok { OnOk result
        (Appends (W.contents writer.old) (W.contents writer.new) (said_line said.now)) }
    ensures err { IfErr result
        (LeavesLine (W.contents writer.old) (W.contents writer.new) (said_line said.now)) }
{
    let Ok(text) = format!(in alloc; "{said}\n") else {
        return Err(ServeFault::OutOfMemory);
    };
    match write_out(writer, text.as_bytes()) {
        Ok(()) => Ok(()),
        Err(done) => Err(ServeFault::WriteFault(done)),
    }
}
