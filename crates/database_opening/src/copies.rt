//! The copies that stand in a folder are taken up.

ghost use Rattle.std.specs.Prelude.{◌≡◌, ◌↔◌, IfErr, IfOk, IsTrue, OnErr, OnOk};
ghost use Rattle.copy_vault.specs.Added.{with_copy};
ghost use Rattle.engine_restart.specs.Added.{IsNotAdded, MayAdd};
ghost use Rattle.database_opening.specs.Copies.{IsFileJudged, IsJudged, IsJudgedWithin, IsOfMemory};
ghost use Rattle.database_opening.specs.Copies.{TakesUp, ids_passed, ids_unread};

use copy_vault::{AddFault, CompleteCopy, CopyId};
use database_files::{CopyFile, CopyTrouble, Diagnostics, FoundCopy, Place, is_within};
use engine_restart::{AddCopyFault, Restarted};
use page_core::Lsn;
use std::alloc::{AllocError, Global};

/// Takes up these copies, whose ids rise, each once it is audited against the log. Why one is not
/// is told, and its file stays where it is. One that knows of more than the log had, which ended
/// there before anything was taken back, is none of them: its file was moved aside. Answers the ids
/// that are not given: those of copies that could not be read, and of all copies behind the first
/// of these, which may stand on it.
pub(crate) fn take_up(
    diagnostics: &Diagnostics<'_>,
    restarted: &mut Restarted,
    end: Lsn,
    copies: Vec<CopyFile>,
) -> Result<Vec<u32>, AllocError>
    ensures log { restarted.new.log ≡ restarted.old.log }
    ensures pages { restarted.new.pages ≡ restarted.old.pages }
    ensures taken { OnOk result (TakesUp end restarted.old copies.items restarted.new) }
    ensures unread { IfOk result (λ ids. ids.items ≡ ids_unread copies.items) }
{
    let mut unread = Vec::new(diagnostics.alloc);
    for file in copies {
        take_file(diagnostics, restarted, end, file, &mut unread)?;
    }
    Ok(unread)
}

/// Takes up the copy of one file, or tells why it is not taken up.
fn take_file(
    diagnostics: &Diagnostics<'_>,
    restarted: &mut Restarted,
    end: Lsn,
    file: CopyFile,
    unread: &mut Vec<u32>,
) -> Result<(), AllocError>
    ensures log { restarted.new.log ≡ restarted.old.log }
    ensures pages { restarted.new.pages ≡ restarted.old.pages }
    ensures judged { OnOk result (IsFileJudged end file.id file.found restarted.old restarted.new) }
    ensures unread { OnOk result
        (unread.new.items ≡ ids_passed unread.old.items file) }
{
    let CopyFile { id, found } = file;
    match found {
        FoundCopy::Whole(copy) => {
            // It may stand on one that could not be read.
            if !unread.is_empty() {
                unread.push(id.0)?;
            }
            take_within(diagnostics, restarted, end, id, copy)
        }
        FoundCopy::Wrong(why) => {
            diagnostics.tell(Place::Copy(id), &why);
            Ok(())
        }
        FoundCopy::Unread(why) => {
            unread.push(id.0)?;
            diagnostics.tell(Place::Copy(id), &why);
            Ok(())
        }
    }
}

/// Takes up a copy that knows of nothing past this end of the log, or tells why not.
fn take_within(
    diagnostics: &Diagnostics<'_>,
    restarted: &mut Restarted,
    end: Lsn,
    id: CopyId,
    copy: CompleteCopy,
) -> Result<(), AllocError>
    ensures log { restarted.new.log ≡ restarted.old.log }
    ensures pages { restarted.new.pages ≡ restarted.old.pages }
    ensures judged { OnOk result (IsJudgedWithin end id copy restarted.old restarted.new) }
{
    if is_within(&copy, end) {
        return take_one(diagnostics, restarted, id, copy);
    }
    diagnostics.tell(Place::Copy(id), &CopyTrouble::KnowsMore);
    Ok(())
}

/// Takes up a copy, or tells why not.
fn take_one(
    diagnostics: &Diagnostics<'_>,
    restarted: &mut Restarted,
    id: CopyId,
    copy: CompleteCopy,
) -> Result<(), AllocError>
    ensures log { restarted.new.log ≡ restarted.old.log }
    ensures pages { restarted.new.pages ≡ restarted.old.pages }
    ensures judged { OnOk result (IsJudged id copy restarted.old restarted.new) }
    ensures failed { OnErr result (restarted.new.copies ≡ restarted.old.copies) }
{
    if copy.id() != id {
        diagnostics.tell(Place::Copy(id), &CopyTrouble::OtherId(copy.id()));
        return Ok(());
    }
    match added(diagnostics.alloc, restarted, copy) {
        Ok(()) => Ok(()),
        Err(fault) => {
            if is_of_memory(&fault) {
                return Err(AllocError);
            }
            diagnostics.tell(Place::Copy(id), &CopyTrouble::Add(fault));
            Ok(())
        }
    }
}

/// Takes up a copy. One that is not taken up is dropped.
fn added(alloc: Global, restarted: &mut Restarted, copy: CompleteCopy) -> Result<(), AddCopyFault>
    ensures log { restarted.new.log ≡ restarted.old.log }
    ensures pages { restarted.new.pages ≡ restarted.old.pages }
    ensures may { OnOk result (MayAdd restarted.old.log restarted.old.copies copy) }
    ensures added { OnOk result (restarted.new.copies ≡ with_copy restarted.old.copies copy) }
    ensures why { IfErr result (IsNotAdded restarted.old.log restarted.old.copies copy) }
    ensures same { OnErr result (restarted.new.copies ≡ restarted.old.copies) }
{
    match restarted.add(alloc, copy) {
        Ok(()) => Ok(()),
        Err((copy, fault)) => {
            drop(copy);
            Err(fault)
        }
    }
}

/// Whether memory ran out.
fn is_of_memory(fault: &AddCopyFault) -> bool
    ensures { IsTrue result ↔ IsOfMemory fault.now }
{
    match fault {
        AddCopyFault::OutOfMemory | AddCopyFault::Refused(AddFault::OutOfMemory) => true,
        AddCopyFault::OfOtherLog | AddCopyFault::Unsound(_) | AddCopyFault::Refused(_) => false,
    }
}
