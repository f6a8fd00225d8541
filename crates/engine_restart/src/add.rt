//! Copies of an older life are taken up.

ghost use Rattle.std.specs.Prelude.{◌≡◌, IfErr, OnErr, OnOk};
ghost use Rattle.copy_vault.specs.Added.{with_copy};
ghost use Rattle.engine_restart.specs.Added.{IsNotAdded, MayAdd};

use crate::add_fault::AddCopyFault;
use crate::copy_check::check;
use crate::restarted::Restarted;
use copy_vault::{AddFault, CompleteCopy};
use std::alloc::Global;

impl Restarted {
    /// Takes up a complete copy of an older life under its own id, as one that restores and repairs
    /// may use and incremental copies may stand on. Ids that are passed over count as dropped, so
    /// ids go on behind the last one that was taken up.
    ///
    /// It trusts nobody: the copy is audited against the log first, with those that it stands on.
    /// `OfOtherLog` comes before `Refused` with `NoParent`, then `Unsound` with the least page, and
    /// then what else `Vault::add` refuses. Each hands the copy back, and nothing changes.
    pub fn add(
        &mut self,
        alloc: Global,
        copy: CompleteCopy,
    ) -> Result<(), (CompleteCopy, AddCopyFault)>
        ensures log { self.new.log ≡ self.old.log }
        ensures pages { self.new.pages ≡ self.old.pages }
        ensures added { OnOk result (self.new.copies ≡ with_copy self.old.copies copy) }
        ensures may { OnOk result (MayAdd self.old.log self.old.copies copy) }
        ensures same { OnErr result (self.new.copies ≡ self.old.copies) }
        ensures back { IfErr result (λ e. e.0 ≡ copy) }
        ensures why { IfErr result (λ e. IsNotAdded self.old.log self.old.copies copy e.1) }
    {
        let last = &self.checkpoints.last;
        if let Err(fault) = check(alloc, &self.log, last, &self.vault, &copy) {
            return Err((copy, fault));
        }
        match self.vault.add(copy) {
            Ok(()) => Ok(()),
            Err((copy, AddFault::OutOfMemory)) => Err((copy, AddCopyFault::OutOfMemory)),
            Err((copy, fault)) => Err((copy, AddCopyFault::Refused(fault))),
        }
    }
}
