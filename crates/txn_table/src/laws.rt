//! Laws of the table, for callers who append records beside it.

ghost use Rattle.std.specs.Prelude.{ℕ, ◌≡◌, ◌<◌, ◌∷◌, ◌++◌, [], List, length};
ghost use Rattle.log_records.specs.declared.limits.TheConstants.{MAX_RECORDS};
ghost use Rattle.log_records.specs.declared.record.Record.{Record};
ghost use Rattle.log_records.specs.declared.record.Record.TheVariants.{Extend};
ghost use Rattle.log_rules.specs.Table.{Table};
ghost use Rattle.txn_table.specs.Returns.{returns_of};
ghost use Rattle.txn_table.specs.TxnTable.{IsTableOf};

/// An Extend is of no transaction: the table of the log is that of the log with it, and so are the
/// Comps that go back to savepoints.
pub fn an_extend_leaves_the_table()
    ensures table { (rs : List Record) (lsn pages : ℕ) (table : Table) → length rs < MAX_RECORDS
        → IsTableOf rs table → IsTableOf (rs ++ Extend lsn pages ∷ []) table }
    ensures returns { (rs : List Record) (lsn pages : ℕ)
        → returns_of (rs ++ Extend lsn pages ∷ []) ≡ returns_of rs }
{}
