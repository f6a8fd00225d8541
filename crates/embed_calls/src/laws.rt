//! Laws of the calls, for readers of their contracts.

ghost use Rattle.std.specs.Prelude.{ℕ, ◌≡◌, ◌++◌, ◌⊎◌, [], List, take};
ghost use Rattle.log_records.specs.Log.{Log};
ghost use Rattle.log_rules.specs.Transactions.{open_in};
ghost use Rattle.loser_undo.specs.Undo.{after_undo};
ghost use Rattle.embed_calls.specs.declared.outcome.Outcome.{Outcome};
ghost use Rattle.embed_calls.specs.Calls.{IsLogOf, IsNoLog};
ghost use Rattle.embed_calls.specs.Recovered.{IsRecovered};

use crate::outcome::{ABI, LENGTHS_DIFFER, TOO_SHORT};

/// The version of the calls, and the codes that are no fault of the files.
pub fn calls_have_these_numbers()
    ensures version { ABI ≡ 1 }
    ensures short { TOO_SHORT ≡ 1000 }
    ensures lengths { LENGTHS_DIFFER ≡ 1001 }
{}

/// The bytes of a linked log are refused only where memory is, or where reading fails.
pub fn right_logs_are_refused_for_memory_alone()
    ensures { (bytes : List ℕ) (log : Log) (it : Outcome) → IsLogOf bytes log → IsNoLog bytes it
        → (it.code ≡ 1) ⊎ (it.code ≡ 33) }
{}

/// The bytes of a log, with those of the tail behind them, are again a log: the one after undo, in
/// which no transaction is open. So a database goes on from there.
pub fn a_recovered_log_goes_on()
    ensures log { (bytes volume made tail undo : List ℕ) (it : Outcome)
        → (found : IsRecovered bytes volume made tail undo it)
        → IsLogOf (bytes ++ take it.second undo)
        (record found.log { records = after_undo found.log.records }) }
    ensures closed { (bytes volume made tail undo : List ℕ) (it : Outcome)
        → (found : IsRecovered bytes volume made tail undo it)
        → open_in (after_undo found.log.records) ≡ [] }
{}
