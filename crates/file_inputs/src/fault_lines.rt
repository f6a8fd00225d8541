//! The line that names the file in which a command met its fault.

ghost use Rattle.std.specs.Prelude.{◌≡◌};
ghost use Rattle.file_inputs.specs.Causes.{cause_of_audit, cause_of_restore};

use crate::input_names::{InputNames, STANDARD_INPUT, what_stands};
use crate::reason::Reason;
use crate::reasons::{
    reason_of_audit, reason_of_restore, reason_of_until, tell_beyond, tell_unsound,
};
use crate::streams::tell_unread;
use copy_audit::Unsound;
use copy_vault::CopyId;
use log_store::LogReadFault;
use media_restore::{RestoreFault, UntilFault};
use page_core::PageNo;
use std::io;
use system_files::{Escaped, Notes};

/// Of what a fault tells.
#[derive(Clone, Copy)]
pub(crate) enum Cause {
    /// Memory, the log's room, or the output: no file that is read.
    NoFile,
    /// No copy is named.
    NoCopy,
    /// A copy whose redo point is not below the log's end.
    RedoPoint,
    /// A page that is not as the log made it, and the copy up to which the chain has it so.
    Page(CopyId, PageNo),
    /// The file that was read last, where the system failed.
    Unread,
    /// What stands in the file that was read last.
    Content,
}

/// Names the file in which a restore from files met its fault, and says what is wrong with it, or
/// why the system failed there. It is the one that was read last.
pub fn tell_input(rt: &HostRuntime, names: &InputNames<'_>, fault: &RestoreFault, notes: &Notes) {
    let cause = cause_of_restore(fault);
    if let (Cause::Content, Some(place)) = (cause, notes.read_last()) {
        let reason = reason_of_restore(rt, names, place, fault);
        return tell_file(rt, names, place, None, reason);
    }
    tell_cause(rt, names, cause, notes);
}

/// Names the file in which an audit met its fault, as `tell_input` does for a restore.
pub fn tell_audited(rt: &HostRuntime, names: &InputNames<'_>, fault: &Unsound, notes: &Notes) {
    let cause = cause_of_audit(fault);
    if let (Cause::Content, Some(place)) = (cause, notes.read_last()) {
        let reason = reason_of_audit(rt, names, place, fault);
        return tell_file(rt, names, place, None, reason);
    }
    tell_cause(rt, names, cause, notes);
}

/// Tells of a fault that is not of what stands in a file.
fn tell_cause(rt: &HostRuntime, names: &InputNames<'_>, cause: Cause, notes: &Notes) {
    match (cause, notes.read_last()) {
        (Cause::NoCopy, _) => tell_no_copy(rt),
        (Cause::RedoPoint, _) => tell_beyond(rt, names),
        (Cause::Page(copy, page), _) => tell_unsound(rt, names, copy, page),
        (Cause::Unread, Some(place)) => tell_file(rt, names, place, notes.error(), None),
        _ => {}
    }
}

fn cause_of_restore(fault: &RestoreFault) -> Cause
    ensures { result ≡ cause_of_restore fault.now }
{
    match fault {
        RestoreFault::OutOfMemory | RestoreFault::LogFull | RestoreFault::WriteFault(_) => {
            Cause::NoFile
        }
        RestoreFault::ChainBroken(CopyId(0)) => Cause::NoCopy,
        RestoreFault::RedoBeyondLog => Cause::RedoPoint,
        RestoreFault::ReadFault => Cause::Unread,
        _ => Cause::Content,
    }
}

fn cause_of_audit(fault: &Unsound) -> Cause
    ensures { result ≡ cause_of_audit fault.now }
{
    match fault {
        Unsound::OutOfMemory => Cause::NoFile,
        Unsound::ChainBroken(CopyId(0)) => Cause::NoCopy,
        Unsound::RedoBeyondLog => Cause::RedoPoint,
        Unsound::Unsound(copy, page) => Cause::Page(*copy, *page),
        Unsound::ReadFault => Cause::Unread,
        _ => Cause::Content,
    }
}

/// Names a log that was to count up to one of its records, and says why it does not.
pub fn tell_until(rt: &HostRuntime, names: &InputNames<'_>, fault: &UntilFault, notes: &Notes) {
    let failed = match fault {
        UntilFault::OfLog(LogReadFault::OutOfMemory) => return,
        UntilFault::OfLog(LogReadFault::ReadFault) => notes.error(),
        _ => None,
    };
    let reason = reason_of_until(rt, names.log, fault);
    tell_file(rt, names, 0, failed, reason);
}

/// Says why the log on standard input does not count up to one of its records.
pub fn tell_input_until(rt: &HostRuntime, fault: &UntilFault, input: &Notes) {
    if let UntilFault::OfLog(LogReadFault::ReadFault) = fault {
        return tell_unread(rt, input);
    }
    if let Some(reason) = reason_of_until(rt, STANDARD_INPUT, fault) {
        let _ = eprintln!(rt; "imgcopy: standard input: {reason}");
    }
}

fn tell_no_copy(rt: &impl Eprint) {
    let _ = eprintln!(rt;
        "imgcopy: no image copy is named: name those of a chain, the full one first"
    );
}

/// Names a file, says what it was read as, and why the system failed there or what is wrong with
/// it.
fn tell_file(
    rt: &impl Eprint,
    names: &InputNames<'_>,
    place: usize,
    failed: Option<io::Error>,
    reason: Option<Reason>,
) {
    let Some(name) = names.at(place) else {
        return;
    };
    let what = what_stands(place);
    let name = Escaped(name);
    let _ = match (failed, reason) {
        (Some(error), _) => eprintln!(rt; "imgcopy: {name} ({what}): {error}"),
        (None, Some(reason)) => eprintln!(rt; "imgcopy: {name} ({what}): {reason}"),
        (None, None) => eprintln!(rt; "imgcopy: {name} ({what})"),
    };
}
