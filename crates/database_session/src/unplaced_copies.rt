//! Complete copies whose files are not in place.

ghost use Rattle.std.specs.Prelude.{ℕ, ◌≡◌, ◌↔◌, ◌≤◌, IfOk, IsTrue, slice_index_or, slice_set};
ghost use Rattle.copy_vault.specs.declared.copy_id.TheConstants.{MAX_COPIES};
ghost use Rattle.database_session.specs.UnplacedCopies.{KeepsOthers, Waits, WaitsFree};

use copy_vault::MAX_COPIES;
use database_files::FreeName;
use std::alloc::{AllocError, Global};
use std::marker::Model;

/// Whether the file of a copy is in place.
#[derive(Clone, Copy, Debug, PartialEq, Eq)]
pub(crate) enum Stage {
    /// It is, or the copy is not complete in this life.
    Placed,
    /// It is not, and something else may have its name.
    Waits,
    /// It is not, and nothing else has its name any more.
    WaitsAlone,
}

/// Which complete copies wait for their files to be put in place. It takes its memory when it is
/// made.
#[derive(Drop)]
pub struct UnplacedCopies {
    /// By the ids of the copies.
    stages: Vec<Stage>,
}

impl Model for UnplacedCopies {
    ghost use Rattle.std.specs.Prelude.{◌≡◌, ◌+◌, List, length};
    ghost use Rattle.copy_vault.specs.declared.copy_id.TheConstants.{MAX_COPIES};
    ghost use Rattle.database_session.specs.declared.unplaced_copies.Stage.{Stage};

    ghost Value = { List Stage };

    ghost view = { λ it. it.stages.items };

    ghost invariant = { λ it. length it.stages.items ≡ MAX_COPIES + 1 };
}

impl UnplacedCopies {
    /// No copy waits.
    pub fn new(alloc: Global) -> Result<UnplacedCopies, AllocError>
        ensures { IfOk result (λ it. (id : ℕ) → ¬ Waits it id) }
    {
        let stages = vec![in alloc; Stage::Placed; MAX_COPIES as usize + 1]?;
        Ok(UnplacedCopies { stages })
    }

    fn stage(&self, id: u32) -> Stage
        ensures { result ≡ slice_index_or self.now id Stage.Placed }
    {
        match self.stages.get(id as usize) {
            Some(stage) => *stage,
            None => Stage::Placed,
        }
    }

    fn put(&mut self, id: u32, stage: Stage)
        ensures { self.new ≡ slice_set self.old id stage }
    {
        if let Some(old) = self.stages.get_mut(id as usize) {
            *old = stage;
        }
    }

    /// Whether this copy waits for its file.
    pub fn has(&self, id: u32) -> bool
        ensures waits { IsTrue result ↔ Waits self.now id }
    {
        self.stage(id) != Stage::Placed
    }

    /// Whether it waits, and it is known that nothing else has the name of its file.
    pub fn is_alone(&self, id: u32) -> bool
        ensures { IsTrue result ↔ WaitsFree self.now id }
    {
        self.stage(id) == Stage::WaitsAlone
    }

    /// The copy is complete.
    pub fn begin(&mut self, id: u32)
        requires { id ≤ MAX_COPIES }
        ensures waits { Waits self.new id }
        ensures others { KeepsOthers id self.old self.new }
    {
        // There is a stage for each copy.
        let _ = &self.stages;
        self.put(id, Stage::Waits);
    }

    /// Nothing else has the name of a copy that waits any more.
    pub fn free(&mut self, name: FreeName)
        requires { Waits self.old name }
        ensures free { WaitsFree self.new name }
        ensures others { KeepsOthers name self.old self.new }
    {
        self.put(name.id(), Stage::WaitsAlone);
    }

    /// Its file is in place.
    pub fn end(&mut self, id: u32)
        ensures placed { ¬ Waits self.new id }
        ensures others { KeepsOthers id self.old self.new }
    {
        self.put(id, Stage::Placed);
    }
}
