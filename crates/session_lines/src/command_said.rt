//! What a command of an operator is answered.

ghost use Rattle.std.specs.Prelude.{◌≡◌, ◌↔◌, IfErr, IfSome, None, OnOk};
ghost use Rattle.std.specs.Io.KnownBytes.{Appends};
ghost use Rattle.session_lines.specs.Commands.{IsCopied, IsToldWell};
ghost use Rattle.session_lines.specs.Said.{LeavesLine};
ghost use Rattle.session_lines.specs.Commands.{one_line, text_of};

use crate::said::Said;
use crate::serve_fault::ServeFault;
use page_core::write_out;
use std::alloc::Global;
use std::fmt;
use std::io::Write;

/// What a command is answered. Its text is its line.
#[derive(Clone, Copy)]
pub enum CommandSaid {
    /// What is said of one of its calls.
    Call(Said),
    /// So many writes of pages have ended.
    Flushed(u32),
    /// A copy is complete, and its file is in place.
    Copied {
        id: u32,
        /// How many pages it has.
        pages: u32,
        /// How many of them it took itself.
        taken: u32,
    },
}

impl CommandSaid {
    /// What is said of the call that was refused, or whose file is not in place, if one is.
    pub fn refused(&self) -> Option<Said>
        ensures { result ≡ None ↔ IsToldWell self.now }
    {
        match self {
            CommandSaid::Call(said) if said.is_refused() => Some(*said),
            _ => None,
        }
    }

    /// The id of the copy that was made, if one was.
    pub fn copied(&self) -> Option<u32>
        ensures { IfSome result (λ id. IsCopied id self.now) }
    {
        match self {
            CommandSaid::Copied { id, .. } => Some(*id),
            _ => None,
        }
    }
}

impl fmt::Display for CommandSaid {
    ghost use Rattle.std.specs.Prelude.{Some};
    ghost use Rattle.session_lines.specs.Commands.{line_of_command};

    ghost output = { λ said. Some (line_of_command said) };

    fn fmt<W: fmt::Write>(&self, f: &mut fmt::Formatter<W>) -> fmt::Result {
        match self {
            CommandSaid::Call(said) => write!(f, "{said}"),
            CommandSaid::Flushed(count) => write!(f, "flushed {count}"),
            CommandSaid::Copied { id, pages, taken } => {
                write!(f, "copy {id} pages {pages} taken {taken}")
            }
        }
    }
}

/// Writes the line of what a command is answered.
pub fn write_command<W: Write>(
    alloc: Global,
    said: &CommandSaid,
    writer: &mut W,
) -> Result<(), ServeFault>
    ensures ok { OnOk result (Appends (W.contents writer.old) (W.contents writer.new)
        (text_of (one_line said.now))) }
    ensures err { IfErr result (LeavesLine (W.contents writer.old) (W.contents writer.new)
        (text_of (one_line said.now))) }
{
    let Ok(text) = format!(in alloc; "{said}\n") else {
        return Err(ServeFault::OutOfMemory);
    };
    write_text(text.as_bytes(), writer)
}

/// Writes a text, by one write where the writer takes it.
pub fn write_text<W: Write>(text: &[u8], writer: &mut W) -> Result<(), ServeFault>
    ensures ok { OnOk result (Appends (W.contents writer.old) (W.contents writer.new) text.now) }
    ensures err { IfErr result (LeavesLine (W.contents writer.old) (W.contents writer.new)
        text.now) }
{
    match write_out(writer, text) {
        Ok(()) => Ok(()),
        Err(done) => Err(ServeFault::WriteFault(done)),
    }
}
