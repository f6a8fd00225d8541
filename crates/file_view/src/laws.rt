//! Laws of the lines that show records, for readers of the contracts.

ghost use Rattle.std.specs.Prelude.{ℕ, ◌≡◌, ◌++◌, List};
ghost use Rattle.std.specs.List.{AllByRecursion, flat_map};
ghost use Rattle.log_records.specs.declared.record.Record.{Record};
ghost use Rattle.log_records.specs.Record.{IsRecord};
ghost use Rattle.file_view.specs.declared.lines.Form.{Form};
ghost use Rattle.file_view.specs.RecordText.{line_of};

/// No record's line begins another record's, so two different records have different lines, in
/// words and as JSON. A line has all that its record says, but for what the Set of a compensation
/// record replaces: that is 0 in a record that a log may have.
pub fn lines_are_told_apart()
    ensures { (form : Form) (a b : Record) (x y : List ℕ) → IsRecord a → IsRecord b
        → line_of form a ++ x ≡ line_of form b ++ y → a ≡ b }
{}

/// The lines of records, one after another, tell which records they are, and in which order.
pub fn listings_are_told_apart()
    ensures { (form : Form) (a b : List Record) → AllByRecursion IsRecord a
        → AllByRecursion IsRecord b → flat_map (line_of form) a ≡ flat_map (line_of form) b
        → a ≡ b }
{}
