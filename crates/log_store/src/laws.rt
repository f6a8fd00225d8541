//! Laws of faults and formats, for readers of the contracts.

ghost use Rattle.std.specs.Prelude.{ℕ, ◌≡◌, List};
ghost use Rattle.log_records.specs.Log.{Log, SpellsLog};
ghost use Rattle.log_records.specs.declared.record.Record.{Record};
ghost use Rattle.log_rules.specs.History.{Made, MayComeNext};
ghost use Rattle.log_rules.specs.Linked.{IsLinked};
ghost use Rattle.log_store.specs.declared.broken_rule.BrokenRule.{BrokenRule};
ghost use Rattle.log_store.specs.declared.fault.LogReadFault.{LogReadFault};
ghost use Rattle.log_store.specs.BrokenRule.{IsBroken};
ghost use Rattle.log_store.specs.Fault.{HasFault, IsFirstFault};

use crate::master::MASTER_BYTES;

/// The spelling of a linked log has no fault.
pub fn spelled_logs_have_no_fault()
    ensures { (log : Log) (bytes : List ℕ) → SpellsLog log bytes → IsLinked log.records
        → (fault : LogReadFault) → ¬ HasFault bytes fault }
{}

/// No bytes have two first faults.
pub fn bytes_have_one_first_fault()
    ensures { (bytes : List ℕ) (a b : LogReadFault) → IsFirstFault bytes a → IsFirstFault bytes b
        → a ≡ b }
{}

/// A record that breaks a rule may not come next.
pub fn records_that_break_a_rule_may_not_come()
    ensures { (made : Made) (r : Record) (rule : BrokenRule) → IsBroken made r rule
        → ¬ MayComeNext made r }
{}

/// A master record has so many bytes.
pub fn masters_have_this_length()
    ensures { MASTER_BYTES ≡ 64 }
{}
