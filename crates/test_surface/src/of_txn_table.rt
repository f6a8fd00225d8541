//! The table of open transactions.

pub use txn_table::{
    Losers, OpenEntry, OpenTransactions, Pending, Return, Returns, TxnState, TxnTable,
};
