//! The open transactions of a log: what each has done and may still undo, which slots it holds, and
//! to where it may go back.
#![tactic(auto)]

mod laws;
mod losers;
mod open_entry;
mod open_list;
mod open_transactions;
mod pending;
mod returns;
mod table;
mod txn_state;

pub use laws::an_extend_leaves_the_table;
pub use losers::Losers;
pub use open_entry::OpenEntry;
pub use open_transactions::OpenTransactions;
pub use pending::Pending;
pub use returns::{Return, Returns};
pub use table::TxnTable;
pub use txn_state::TxnState;
