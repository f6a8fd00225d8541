//! The receipts of a session that waits.

ghost use Rattle.std.specs.Prelude.{◌≡◌};
ghost use Rattle.settlement.specs.Counts.{written_in};

use settlement::Receipt;
use std::marker::Model;

/// What a session has beside its share: its receipts, and how many of them are of records.
#[derive(Drop)]
pub(crate) struct Folder {
    receipts: Vec<Receipt>,
    written: usize,
}

impl Model for Folder {
    ghost use Rattle.std.specs.Prelude.{◌≡◌, List};
    ghost use Rattle.settlement.specs.Counts.{written_in};
    ghost use Rattle.settlement.specs.declared.receipt.Receipt.{Receipt};

    ghost Value = { List Receipt };

    ghost view = { λ it. it.receipts.items };

    ghost invariant = { λ it. it.written ≡ written_in it.receipts.items };
}

impl Folder {
    pub(crate) fn new(receipts: Vec<Receipt>, written: usize) -> Folder
        requires { written ≡ written_in receipts.items }
        ensures { result ≡ receipts.items }
    {
        Folder { receipts, written }
    }

    pub(crate) fn written(&self) -> usize
        ensures { result ≡ written_in self.now }
    {
        self.written
    }

    pub(crate) fn into_receipts(self) -> Vec<Receipt>
        ensures { result.items ≡ self }
    {
        self.receipts
    }
}
