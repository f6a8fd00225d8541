//! Complete copies that are lent, to be read while their vault goes on.

ghost use Rattle.std.specs.Prelude.{◌≡◌, IfOk, IfErr};
ghost use Rattle.std.specs.Arc.{arc_value};
ghost use Rattle.copy_vault.specs.Copy.{IsComplete};

use crate::complete::CompleteCopy;
use std::alloc::{AllocError, Global};
use std::marker::Model;
use std::sync::Arc;

/// A complete copy of a vault, which lends it. It does not change and does not go while it is lent,
/// whatever is asked of the vault, and any thread may read it.
#[derive(Drop)]
pub struct LentCopy {
    copy: Arc<CompleteCopy, Global>,
}

impl Model for LentCopy {
    ghost use Rattle.std.specs.Arc.{arc_value};
    ghost use Rattle.copy_vault.specs.Copy.{CopyView};

    ghost Value = { CopyView };

    ghost view = { λ it. arc_value it.copy };
}

impl LentCopy {
    /// The copy.
    pub fn copy(&self) -> &CompleteCopy
        ensures copy { result.now ≡ self.now }
        ensures complete { IsComplete self.now.kind self.now.pages }
    {
        let copy: &CompleteCopy = &self.copy;
        let _kind = copy.kind();
        copy
    }
}

/// Whether a copy was ever lent. Then it stands where whoever it was lent to finds it, too.
#[derive(Drop)]
pub enum CopyPlace {
    Own(CompleteCopy),
    Lent(Arc<CompleteCopy, Global>),
}

/// A complete copy as a vault keeps it.
#[derive(Drop)]
pub struct KeptCopy {
    place: CopyPlace,
}

impl Model for KeptCopy {
    ghost use Rattle.copy_vault.specs.Copy.{CopyView};
    ghost use Rattle.copy_vault.specs.KeptCopy.{copy_at};

    ghost Value = { CopyView };

    ghost view = { λ it. copy_at it.place };
}

impl KeptCopy {
    /// A copy that was never lent.
    pub(crate) fn new(copy: CompleteCopy) -> KeptCopy
        ensures { result ≡ copy }
    {
        KeptCopy {
            place: CopyPlace::Own(copy),
        }
    }

    /// The copy.
    pub(crate) fn get(&self) -> &CompleteCopy
        ensures { result.now ≡ self.now }
    {
        match &self.place {
            CopyPlace::Own(copy) => copy,
            CopyPlace::Lent(copy) => copy,
        }
    }

    /// The copy where others find it, too. Without memory it stays on its own.
    fn into_shared(self, alloc: Global) -> Result<Arc<CompleteCopy, Global>, KeptCopy>
        ensures ok { IfOk result (λ copy. arc_value copy ≡ self) }
        ensures err { IfErr result (λ copy. copy ≡ self) }
    {
        let KeptCopy { place } = self;
        match place {
            CopyPlace::Lent(copy) => Ok(copy),
            CopyPlace::Own(copy) => match Arc::new(alloc, copy) {
                Ok(copy) => Ok(copy),
                Err(failed) => Err(KeptCopy::new(failed.value)),
            },
        }
    }

    /// The copy, and the same one lent, if there is memory for it.
    pub(crate) fn lend(self, alloc: Global) -> (KeptCopy, Result<LentCopy, AllocError>)
        ensures kept { result.0 ≡ self }
        ensures lent { IfOk result.1 (λ copy. copy ≡ self) }
    {
        let copy = match self.into_shared(alloc) {
            Ok(copy) => copy,
            Err(kept) => return (kept, Err(AllocError)),
        };
        let lent = match Arc::try_clone(&copy) {
            Ok(copy) => Ok(LentCopy { copy }),
            Err(error) => Err(error),
        };
        let place = CopyPlace::Lent(copy);
        (KeptCopy { place }, lent)
    }
}
