//! Image copies of a shared engine as archives, written while the engine goes on.

ghost use Rattle.std.specs.Prelude.{◌≡◌, IfErr, IfOk, OnOk};
ghost use Rattle.engine_run.specs.CopyWrite.{LeavesCopyOf, RefusesCopy, WritesCopyOf};

use crate::life::Life;
use crate::shared::Shared;
use copy_vault::{CopyFault, CopyId, CopyWriteFault, LentCopy, write_archive};
use log_store::LogDevice;
use page_store::PageStore;
use std::alloc::Global;
use std::io::Write;
use std::sync::Wait;

/// Whoever lends complete copies. Those who write a copy know their engine as a lender alone, so
/// they cannot take its lock and write under it.
pub(crate) trait Lender {
    fn lend(&self, rt: &impl Wait, id: CopyId) -> Result<LentCopy, CopyFault>
        ensures copy { IfOk result (λ copy. copy.id ≡ id) }
        ensures refused { IfErr result (RefusesCopy id) };
}

impl<S: PageStore, D: LogDevice, G: Life> Lender for Shared<S, D, G> {
    fn lend(&self, rt: &impl Wait, id: CopyId) -> Result<LentCopy, CopyFault> {
        self.lend_copy(rt, id)
    }
}

impl<S: PageStore, D: LogDevice, G: Life> Shared<S, D, G> {
    /// Lends a complete copy, by one hold: it can then be read by any thread, and written, while
    /// the engine goes on. Refusals in order: `NoCopy`, `CopyNotComplete`, `OutOfMemory`.
    pub fn lend_copy(&self, rt: &impl Wait, id: CopyId) -> Result<LentCopy, CopyFault>
        ensures copy { IfOk result (λ copy. copy.id ≡ id) }
        ensures refused { IfErr result (RefusesCopy id) }
    {
        self.held.lock(rt).lend_copy(id)
    }

    /// Writes the archive of a complete copy while the engine goes on. One hold lends the copy,
    /// which takes as long for a large one as for a small one; nothing is written in it. Refusals
    /// are those of `lend_copy`, and then the faults of `write_archive`. The writer is not flushed.
    pub fn write_copy<W: Write>(
        &self,
        rt: &impl Wait,
        alloc: Global,
        id: CopyId,
        writer: &mut W,
    ) -> Result<(), CopyWriteFault>
        ensures ok { OnOk result (WritesCopyOf id (W.contents writer.old) (W.contents writer.new)) }
        ensures err { IfErr result
            (LeavesCopyOf id (W.contents writer.old) (W.contents writer.new)) }
    {
        write_lent(self, rt, alloc, id, writer)
    }
}

/// Has a copy lent, and writes its archive.
fn write_lent<L: Lender, W: Write>(
    lender: &L,
    rt: &impl Wait,
    alloc: Global,
    id: CopyId,
    writer: &mut W,
) -> Result<(), CopyWriteFault>
    ensures ok { OnOk result (WritesCopyOf id (W.contents writer.old) (W.contents writer.new)) }
    ensures err { IfErr result (LeavesCopyOf id (W.contents writer.old) (W.contents writer.new)) }
{
    let lent = lender.lend(rt, id)?;
    let copy = lent.copy();
    write_archive(alloc, copy, writer)?;
    Ok(())
}
