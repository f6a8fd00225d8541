//! The share of a session that is not made yet.

ghost use Rattle.std.specs.Prelude.{◌≡◌};

use crate::life::Life;
use std::sync::ledger::Share;

/// One part of the ledger, which counts nothing yet.
#[derive(Drop)]
pub(crate) struct Spare<G: Life> {
    share: Share<G>,
    ghost part: { share.parts ≡ 1 },
    ghost none: { share.amount ≡ 0 },
}

impl<G: Life> Spare<G> {
    pub(crate) fn new(share: Share<G>) -> Spare<G>
        requires part { share.parts ≡ 1 }
        requires none { share.amount ≡ 0 }
    {
        Spare { share }
    }

    pub(crate) fn into_share(self) -> Share<G>
        ensures part { result.parts ≡ 1 }
        ensures none { result.amount ≡ 0 }
    {
        self.share
    }
}
