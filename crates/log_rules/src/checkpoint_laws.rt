//! Laws of complete checkpoints, for readers of the contracts.

ghost use Rattle.std.specs.Prelude.{ℕ, ◌↔◌, ◌≤◌, ◌++◌, List, Contains};
ghost use Rattle.log_records.specs.declared.record.Record.{Record};
ghost use Rattle.log_records.specs.declared.record.Record.TheVariants.{EndChkpt};
ghost use Rattle.log_rules.specs.Checkpoint.{IsCompleteCheckpoint};
ghost use Rattle.log_rules.specs.Linked.{IsLinked};

/// In a linked log a checkpoint is complete just where its EndChkpt stands, which names its
/// BeginChkpt.
pub fn complete_checkpoints_are_known_by_their_ends()
    ensures { (rs : List Record) (begin end : ℕ) → IsLinked rs
        → IsCompleteCheckpoint rs begin end
        ↔ ((redo : ℕ) × Contains rs (EndChkpt end begin redo)) }
{}

/// A checkpoint that is complete stays so while its log goes on.
pub fn complete_checkpoints_outlast_new_records()
    ensures { (rs more : List Record) (begin end : ℕ) → IsCompleteCheckpoint rs begin end
        → IsCompleteCheckpoint (rs ++ more) begin end }
{}

/// The redo point of a checkpoint is not past its begin.
pub fn redo_points_are_not_past_their_begins()
    ensures { (rs : List Record) (begin end redo : ℕ) → IsLinked rs
        → Contains rs (EndChkpt end begin redo) → redo ≤ begin }
{}
