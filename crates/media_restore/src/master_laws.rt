//! A law of the faults of master records.

ghost use Rattle.std.specs.Prelude.{ℕ, ◌≡◌, ◌≢◌, List, Some};
ghost use Rattle.log_records.specs.declared.record.Record.{Record};
ghost use Rattle.media_restore.specs.Files.{MasterRefused};
ghost use Rattle.media_restore.specs.declared.files_fault.RestoreFault.{RestoreFault};
ghost use Rattle.media_restore.specs.declared.files_fault.RestoreFault.TheVariants.{ReadFault};

/// No bytes of a master record have two faults, whatever records it is read behind.
pub fn masters_have_one_fault()
    ensures { (bytes : List ℕ) (rs : List Record) (a b : RestoreFault)
        → a ≢ ReadFault → b ≢ ReadFault → MasterRefused (Some bytes) rs a
        → MasterRefused (Some bytes) rs b → a ≡ b }
{}
