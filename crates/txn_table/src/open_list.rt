//! The open transactions in the order of their numbers.

ghost use Rattle.std.specs.Prelude.{ℕ, ◌≡◌, ◌<◌, ◌≤◌, ◌==◌, ◌&&◌, ◌↔◌, [], not, length, min};
ghost use Rattle.std.specs.Prelude.{nat_le};
ghost use Rattle.std.specs.Prelude.{None, Some, IfSome, OnOk, OnErr, slice_get, slice_index};
ghost use Rattle.std.specs.Prelude.{slice_index_or};
ghost use Rattle.std.specs.Prelude.{Contains, IsTrue};
ghost use Rattle.std.specs.List.{All, find, position, remove, sum_by};
ghost use Rattle.std.specs.Option.{option_map};
ghost use Rattle.txn_table.specs.declared.open_entry.OpenEntry.{OpenEntry};
ghost use Rattle.txn_table.specs.OpenEntry.{entry_view};
ghost use Rattle.txn_table.specs.OpenList.{Adds, IsSound, Sits, TakesRow, entries_in};
ghost use Rattle.slot_claims.specs.RowSet.{has_row};
ghost use Rattle.log_rules.specs.Table.{owed_by_entry};
ghost use Rattle.log_records.specs.declared.limits.TheConstants.{MAX_OPEN};

use crate::open_entry::{OpenEntry, begun_entry};
use page_core::{Lsn, TxnNo};
use slot_claims::RowSet;
use std::alloc::{AllocError, Global};

/// How many guesses there are.
const GUESSES: usize = 256;

/// The open transactions in the order of their numbers. Each has a row of its own as long as it is
/// open, and its entry stays there; what was last on a row leaves its memory to the next.
#[derive(Drop)]
pub struct OpenList {
    /// The rows that are taken, in the order of the transactions.
    pub order: Vec<u8>,
    /// The entries by row, also of rows that nobody has any more.
    pub rows: Vec<OpenEntry>,
    taken: RowSet,
    /// For numbers modulo `GUESSES` the row that was taken last for one of them. Nearly always it
    /// is that of the transaction that is looked for; else the list is searched.
    guesses: [u8; GUESSES],
}

/// Where a row stands in the order.
#[inline(never)]
fn place_of(order: &[u8], row: u8) -> Option<usize>
    ensures { result ≡ position (λ s. s == row) order.now }
{
    order.iter().position(|other| *other == row)
}

/// Gives a row that nobody has to a transaction that begins. An `Err` changes nothing.
fn take_row(rows: &mut Vec<OpenEntry>, txn: TxnNo, row: u8, lsn: Lsn) -> Result<(), AllocError>
    ensures ok { OnOk result (TakesRow rows.old.items rows.new.items txn row lsn) }
    ensures err { OnErr result (rows.new.items ≡ rows.old.items) }
{
    if (row as usize) < rows.len() {
        let entry = &mut rows[row as usize];
        entry.begin(txn, row, lsn);
        return Ok(());
    }
    let alloc = *rows.allocator();
    rows.push(begun_entry(alloc, txn, row, lsn))?;
    Ok(())
}

impl OpenList {
    /// Nobody is open.
    pub fn new(alloc: Global) -> OpenList
        ensures sound { IsSound result }
        ensures empty { entries_in result ≡ [] }
    {
        OpenList {
            order: Vec::new(alloc),
            rows: Vec::new(alloc),
            taken: RowSet::new(),
            guesses: [0; GUESSES],
        }
    }

    /// How many are open.
    pub fn len(&self) -> usize
        requires { IsSound self.now }
        ensures { result ≡ length (entries_in self.now) }
    {
        self.order.len()
    }

    /// The row of a transaction; None where it is not open.
    pub fn row_of(&self, txn: TxnNo) -> Option<u8>
        requires { IsSound self.now }
        ensures found { IfSome result (Sits self.now.order.items self.now.rows.items txn) }
        ensures none { result ≡ None → find (λ e. e.txn == txn) (entries_in self.now) ≡ None }
    {
        let guess = self.guesses[txn.0 as usize % GUESSES];
        if (guess as usize) < self.rows.len()
            && self.taken.contains(guess)
            && self.rows[guess as usize].txn == txn
        {
            return Some(guess);
        }
        self.search(txn)
    }

    /// The row of a transaction, by looking at each.
    fn search(&self, txn: TxnNo) -> Option<u8>
        requires { IsSound self.now }
        ensures found { IfSome result (Sits self.now.order.items self.now.rows.items txn) }
        ensures none { result ≡ None → find (λ e. e.txn == txn) (entries_in self.now) ≡ None }
    {
        for row in &self.order {
            if self.rows[*row as usize].txn == txn {
                return Some(*row);
            }
        }
        None
    }

    /// The row of the transaction at this place.
    pub fn row_at(&self, place: usize) -> Option<u8>
        requires { IsSound self.now }
        ensures found { IfSome result (λ row. row < length self.now.rows.items) }
        ensures there { IfSome result (λ row. (d : OpenEntry)
            → slice_get (entries_in self.now) place
            ≡ Some (slice_index_or self.now.rows.items row d)) }
        ensures none { result ≡ None → slice_get (entries_in self.now) place ≡ None }
    {
        self.order.get(place).copied()
    }

    /// The row of the first transaction that has this number or one above it.
    pub fn first_from(&self, from: TxnNo) -> Option<u8>
        requires { IsSound self.now }
        ensures found { IfSome result (λ row. row < length self.now.rows.items) }
        ensures first { IfSome result (λ row. (d : OpenEntry)
            → find (λ e. nat_le from e.txn) (entries_in self.now)
            ≡ Some (slice_index_or self.now.rows.items row d)) }
        ensures none { result ≡ None
            → find (λ e. nat_le from e.txn) (entries_in self.now) ≡ None }
    {
        for row in &self.order {
            if self.rows[*row as usize].txn >= from {
                return Some(*row);
            }
        }
        None
    }

    /// The first transaction but this one that has its row in the set.
    pub fn first_other(&self, rows: RowSet, txn: TxnNo) -> Option<TxnNo>
        requires { IsSound self.now }
        ensures { result ≡ option_map (λ e. e.txn)
            (find (λ e. not (e.txn == txn) && has_row rows e.row) (entries_in self.now)) }
    {
        if rows.is_empty() {
            return None;
        }
        for row in &self.order {
            let other = self.rows[*row as usize].txn;
            if other != txn && rows.contains(*row) {
                return Some(other);
            }
        }
        None
    }

    /// How many records they may still need, all together.
    pub fn owed(&self) -> u64
        requires { IsSound self.now }
        ensures { result ≡ min (sum_by (λ e. owed_by_entry (entry_view e)) (entries_in self.now))
            u64.MAX }
    {
        let mut owed = 0u64;
        for row in &self.order {
            owed = owed.saturating_add(self.rows[*row as usize].owed());
        }
        owed
    }

    /// Each of them that began before an LSN is among these transactions.
    pub fn are_among(&self, lsn: Lsn, txns: &[u32]) -> bool
        requires { IsSound self.now }
        ensures { IsTrue result
            ↔ All (λ e. e.first < lsn → Contains txns.now e.txn) (entries_in self.now) }
    {
        for row in &self.order {
            if !is_listed(&self.rows[*row as usize], lsn, txns) {
                return false;
            }
        }
        true
    }

    /// A transaction begins, with a number above all others. An `Err` changes nothing.
    pub fn add(&mut self, txn: TxnNo, lsn: Lsn) -> Result<(), AllocError>
        requires sound { IsSound self.old }
        requires room { length (entries_in self.old) < MAX_OPEN }
        ensures sound { IsSound self.new }
        ensures ok { OnOk result (Adds (entries_in self.old) (entries_in self.new) txn lsn) }
        ensures err { OnErr result (entries_in self.new ≡ entries_in self.old) }
    {
        let row = self.taken.first_absent();
        // With room for it, the push cannot fail.
        self.order.reserve(1)?;
        take_row(&mut self.rows, txn, row, lsn)?;
        let _ = self.order.push(row);
        self.taken = self.taken.with(row, true);
        self.guesses[txn.0 as usize % GUESSES] = row;
        Ok(())
    }

    /// The transaction of this row is open no more.
    pub fn remove(&mut self, row: u8)
        requires sound { IsSound self.old }
        requires sits { (txn : ℕ) × Sits self.old.order.items self.old.rows.items txn row }
        ensures sound { IsSound self.new }
        ensures rows { self.new.rows ≡ self.old.rows }
        ensures order { (place : ℕ) → place < length self.old.order.items
            → slice_index self.old.order.items place ≡ row
            → self.new.order.items ≡ remove self.old.order.items place }
    {
        self.taken = self.taken.with(row, false);
        match place_of(&self.order, row) {
            Some(place) => {
                let _ = self.order.remove(place);
            }
            None => {}
        }
    }
}

/// It began at or behind an LSN, or is among these transactions.
fn is_listed(entry: &OpenEntry, lsn: Lsn, txns: &[u32]) -> bool
    ensures { IsTrue result ↔ (entry.now.first < lsn → Contains txns.now entry.now.txn) }
{
    entry.first >= lsn || is_among(entry.txn.0, txns)
}

fn is_among(txn: u32, txns: &[u32]) -> bool
    ensures { IsTrue result ↔ Contains txns.now txn }
{
    txns.contains(&txn)
}
