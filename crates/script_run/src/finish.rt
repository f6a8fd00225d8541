//! Runs the last restore of a script, and writes its lines.

ghost use Rattle.std.specs.Prelude.{◌≡◌, ◌<◌, length, take, IfErr, IfOk, OnOk, Err, Ok};
ghost use Rattle.std.specs.Io.KnownBytes.{Appends};
ghost use Rattle.std.specs.String.{string_bytes};
ghost use Rattle.media_restore.specs.Fault.{line_of};
ghost use Rattle.script_run.specs.Finish.{Finishes, FinishLeaves, IsOutcome, RestoreLeaves};
ghost use Rattle.script_run.specs.Finish.{cut_of, outcome_lines};
ghost use Rattle.script_run.specs.PageLines.{ended};

use crate::finish_fault::FinishFault;
use crate::page_lines::page_lines;
use crate::run::Ran;
use copy_coverage::Retired;
use event_script::LastRestore;
use loser_undo::Undone;
use media_restore::{Refused, recover};
use page_core::write_out;
use std::alloc::{AllocError, Global};
use std::io::Write;
use std::thread::Threads;

/// Runs the last restore of a script, if it has one, and writes a line for each page: its number,
/// its LSN, and the slots that are not 0. Where the restore is refused, the line of the refusal is
/// written, and it is answered.
///
/// `OutOfMemory` comes where memory for the lines is refused. The writer is not flushed.
pub fn finish_script<W: Write>(
    rt: &(impl Threads + Sync),
    alloc: Global,
    ran: Ran,
    writer: &mut W,
) -> Result<(), FinishFault>
    ensures ok { OnOk result (Finishes ran.retired ran.last
        (W.contents writer.old) (W.contents writer.new)) }
    ensures err { IfErr result (FinishLeaves ran.retired ran.last
        (W.contents writer.old) (W.contents writer.new)) }
{
    let Ran { retired, last } = ran;
    match last {
        Some(last) => restore(rt, alloc, retired, last, writer),
        None => Ok(()),
    }
}

/// Does a restore, and writes its lines.
fn restore<W: Write>(
    rt: &(impl Threads + Sync),
    alloc: Global,
    retired: Retired,
    last: LastRestore,
    writer: &mut W,
) -> Result<(), FinishFault>
    ensures ok { OnOk result (Finishes retired (Some last)
        (W.contents writer.old) (W.contents writer.new)) }
    ensures err { IfErr result (RestoreLeaves retired last
        (W.contents writer.old) (W.contents writer.new)) }
{
    let outcome = recovered(rt, alloc, retired, last);
    let Ok(text) = lines(alloc, &outcome) else {
        return Err(FinishFault::OutOfMemory);
    };
    if let Err(done) = write_out(writer, text.as_bytes()) {
        return Err(FinishFault::WriteFault(done));
    }
    match outcome {
        Ok(_) => Ok(()),
        Err(why) => Err(FinishFault::Refused(why)),
    }
}

/// What comes of a restore.
fn recovered(
    rt: &(impl Threads + Sync),
    alloc: Global,
    retired: Retired,
    last: LastRestore,
) -> Result<Undone, Refused>
    ensures { IsOutcome retired last result }
{
    let cut = cut_of(&retired, last.cut);
    recover(rt, alloc, retired, last.copy, cut)
}

/// How many records are kept at most.
fn cut_of(retired: &Retired, cut: Option<u64>) -> usize
    ensures { result ≡ cut_of retired.now.log.records cut }
{
    match cut {
        Some(cut) => cut as usize,
        None => retired.log().records().len(),
    }
}

/// The lines of the pages, or of the refusal.
fn lines(alloc: Global, outcome: &Result<Undone, Refused>) -> Result<String, AllocError>
    ensures { IfOk result (λ text. string_bytes text ≡ outcome_lines outcome.now) }
{
    match outcome {
        Ok(undone) => page_lines(alloc, undone.pages()),
        Err(why) => refusal_line(alloc, *why),
    }
}

fn refusal_line(alloc: Global, why: Refused) -> Result<String, AllocError>
    ensures { IfOk result (λ text. string_bytes text ≡ ended (line_of why)) }
{
    let mut text = String::new(alloc);
    writeln!(text, "{why}")?;
    Ok(text)
}
