//! The copies that a database takes up which is opened again.

ghost use Rattle.std.specs.Prelude.{◌≡◌, ◌↔◌, [], IfOk, IsTrue, OnOk};
ghost use Rattle.imgcopy_engine.specs.Taken.{IsJudged, IsOfMemory, TakesUp};

use copy_vault::{AddFault, CompleteCopy, CopyId};
use engine_restart::{AddCopyFault, Restarted};
use std::alloc::{AllocError, Global};

/// A copy that was not taken up.
#[derive(Clone, Copy, Debug, PartialEq, Eq)]
pub struct RefusedCopy {
    pub id: CopyId,
    pub why: AddCopyFault,
}

/// Takes up each copy that the log allows behind those before it, and answers the others.
pub(crate) fn take_up(
    alloc: Global,
    restarted: &mut Restarted,
    copies: Vec<CompleteCopy>,
) -> Result<Vec<RefusedCopy>, AllocError>
    requires none { restarted.old.copies ≡ [] }
    ensures log { restarted.new.log ≡ restarted.old.log }
    ensures pages { restarted.new.pages ≡ restarted.old.pages }
    ensures taken { IfOk result (λ refused.
        TakesUp restarted.old.log copies.items refused.items restarted.new.copies) }
{
    let mut refused = Vec::new(alloc);
    for copy in copies {
        take_one(alloc, restarted, copy, &mut refused)?;
    }
    Ok(refused)
}

/// The same of one copy.
fn take_one(
    alloc: Global,
    restarted: &mut Restarted,
    copy: CompleteCopy,
    refused: &mut Vec<RefusedCopy>,
) -> Result<(), AllocError>
    ensures log { restarted.new.log ≡ restarted.old.log }
    ensures pages { restarted.new.pages ≡ restarted.old.pages }
    ensures judged { OnOk result (IsJudged restarted.old.log copy restarted.old.copies
        refused.old.items restarted.new.copies refused.new.items) }
{
    let (copy, why) = match restarted.add(alloc, copy) {
        Ok(()) => return Ok(()),
        Err(refused) => refused,
    };
    if is_of_memory(&why) {
        return Err(AllocError);
    }
    refused.push(RefusedCopy { id: copy.id(), why })?;
    Ok(())
}

/// Whether memory ran out.
fn is_of_memory(fault: &AddCopyFault) -> bool
    ensures { IsTrue result ↔ IsOfMemory fault.now }
{
    match fault {
        AddCopyFault::OutOfMemory | AddCopyFault::Refused(AddFault::OutOfMemory) => true,
        AddCopyFault::OfOtherLog | AddCopyFault::Unsound(_) | AddCopyFault::Refused(_) => false,
    }
}
