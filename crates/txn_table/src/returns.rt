//! Where a transaction may go back to: its savepoints.

ghost use Rattle.std.specs.Prelude.{ℕ, ◌≡◌, ◌↔◌, ◌<◌, ◌++◌, List, [], ◌∷◌, true, false, length};
ghost use Rattle.std.specs.Prelude.{◌≤◌, Contains, IfSome, IsOk, IsSome, IsTrue, OnErr, OnOk};
ghost use Rattle.std.specs.Prelude.{◌==◌, None, Some, if◌then◌else◌};
ghost use Rattle.std.specs.Option.{option_to_list};
ghost use Rattle.log_records.specs.declared.record.Record.{Record};
ghost use Rattle.log_records.specs.Log.{IsLog, Log};
ghost use Rattle.log_rules.specs.Savepoints.{savepoint};
ghost use Rattle.log_rules.specs.Transactions.{is_open, is_rolling};
ghost use Rattle.log_rules.specs.Linked.{MayFollow};
ghost use Rattle.txn_table.specs.Returns.{AreRising, HasReturns, return_of};
ghost use Rattle.txn_table.specs.TxnTable.{IsTableOf};

use crate::table::TxnTable;
use page_core::{Lsn, TxnNo};
use std::alloc::{AllocError, Global};
use std::marker::Model;

/// A Comp of a transaction that does not roll back: it goes back to a savepoint.
#[derive(Clone, Copy, Debug, PartialEq, Eq)]
pub struct Return {
    pub lsn: Lsn,
    pub txn: TxnNo,
    /// How many changes it left pending.
    pub left: usize,
}

/// The Comps of a log that go back to savepoints; those of transactions that have ended may be left out,
/// since nobody asks for them. A look into it takes time logarithmic in their number, so it need not go
/// from Comp to Comp.
#[derive(Drop)]
pub struct Returns {
    made: Vec<Return>,
}

impl Model for Returns {
    ghost use Rattle.std.specs.Vec.{vec_capacity};
    ghost use Rattle.txn_table.specs.Returns.{ReturnsView};

    ghost Value = { ReturnsView };

    ghost view = { λ it. record { made = it.made.items; room = vec_capacity it.made } };
}

impl Returns {
    /// Of a log without records, or of one in which no transaction is open.
    pub fn new(alloc: Global) -> Returns
        ensures { result.made ≡ [] }
    {
        Returns {
            made: Vec::new(alloc),
        }
    }

    /// Makes room for what the next record of the log shows, so that `add` takes no memory. Where
    /// it shows nothing, this takes none either. An `Err` comes where memory is refused.
    pub fn make_room(&mut self, back: &Option<Return>) -> Result<(), AllocError>
        ensures same { self.new.made ≡ self.old.made }
        ensures room { OnOk result (IsSome back.now → length self.new.made < self.new.room) }
        ensures nothing { back.now ≡ None → IsOk result }
        ensures needed { OnErr result (self.old.room ≤ length self.old.made) }
    {
        match back {
            Some(_) => self.made.reserve(1),
            None => Ok(()),
        }
    }

    /// Adds what the next record of the log shows, if it shows one.
    pub fn add(&mut self, back: &Option<Return>)
        requires room { IsSome back.now → length self.old.made < self.old.room }
        ensures added { self.new.made ≡ self.old.made ++ option_to_list back.now }
        ensures log { (rs : List Record) (r : Record) → HasReturns rs self.old.made
            → MayFollow rs r → back.now ≡ return_of rs r → HasReturns (rs ++ r ∷ []) self.new.made }
    {
        if let Some(back) = back {
            self.made.push_reserved(*back);
        }
    }

    /// Whether the record at an LSN is a Comp of this transaction that left so many changes
    /// pending.
    fn is_return(&self, txn: TxnNo, at: Lsn, left: usize) -> bool
        ensures { AreRising self.now.made → IsTrue result ↔ Contains self.now.made (record {
          lsn = at;
          txn = txn;
          left = left;
        }) }
    {
        match left_among(&self.made, txn, at) {
            Some(found) => found == left,
            None => false,
        }
    }

    /// How many changes are pending at a savepoint of an active transaction, which are the first
    /// ones of those now; None where the LSN is no savepoint.
    pub fn savepoint(&self, table: &TxnTable, txn: TxnNo, at: Lsn) -> Option<usize>
        ensures { (log : Log) → IsLog log → IsTableOf log.records table.now.table
            → HasReturns log.records self.now.made → is_open log.records txn ≡ true
            → is_rolling log.records txn ≡ false → result ≡ savepoint log.records txn at }
    {
        let Some(state) = table.entry(txn) else {
            return None;
        };
        let count = table.pending_up_to(txn, at);
        if state.first == at {
            return Some(count);
        }
        if table.is_update(txn, count, at) {
            return Some(count);
        }
        if self.is_return(txn, at, count) {
            return Some(count);
        }
        None
    }
}

/// How many changes a Comp left pending, if it is one of this transaction.
fn left_by(met: &Return, txn: TxnNo) -> Option<usize>
    ensures { result ≡ (if met.now.txn == txn then Some met.now.left else None) }
{
    if met.txn == txn { Some(met.left) } else { None }
}

/// How many changes the Comp at an LSN left pending, if it is one of this transaction.
fn left_among(made: &[Return], txn: TxnNo, at: Lsn) -> Option<usize>
    ensures found { IfSome result (λ left. Contains made.now (record {
      lsn = at;
      txn = txn;
      left = left;
    })) }
    ensures all { AreRising made.now → (left : ℕ) → Contains made.now (record {
      lsn = at;
      txn = txn;
      left = left;
    }) → result ≡ Some left }
{
    let mut low = 0;
    let mut high = made.len();
    'halves: while low < high {
        let middle = low + (high - low) / 2;
        let met = made[middle];
        if met.lsn == at {
            return left_by(&met, txn);
        }
        if met.lsn < at {
            low = middle + 1;
        } else {
            high = middle;
        }
    }
    None
}
