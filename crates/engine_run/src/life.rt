//! Which life of a shared engine it is.

ghost use Rattle.std.specs.Prelude.{[], List};
ghost use Rattle.log_records.specs.declared.record.Record.{Record};

use std::marker::Brand;
use std::sync::ledger::Ledger;

/// The ledger that a shared engine's sessions have shares of, and the log that was there before
/// they began. It has no value at run time. A program picks both where it makes the engine; that
/// lets contracts say that what is under the lock goes on from just this log.
pub trait Life: Ledger {
    /// The records of the log that the engine began with.
    ghost before: { List Record };
}

impl Life for Brand {
    ghost before = { [] };
}
