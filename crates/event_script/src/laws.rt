//! What holds of the faults of all inputs.

ghost use Rattle.std.specs.Prelude.{ℕ, ◌≡◌, List};
ghost use Rattle.event_script.specs.Read.{IsOfInput, Refuses};
ghost use Rattle.event_script.specs.declared.fault.ScriptFault.{ScriptFault};

/// No input has two faults: an input that is no text has no bad line, and of several bad lines one
/// is the first.
pub fn inputs_have_one_fault()
    ensures { (input : List ℕ) (a b : ScriptFault) → IsOfInput a → IsOfInput b → Refuses input a
        → Refuses input b → a ≡ b }
{}
