//! Reads a whole log.

ghost use Rattle.std.specs.Prelude.{ℕ, ◌≡◌, [], List, IfOk, IfErr, IfSome, OnOk, MatchResult, Some};
ghost use Rattle.std.specs.Io.KnownBytes.{IsAtEnd};
ghost use Rattle.page_core.specs.Input.{StaysKnown};
ghost use Rattle.log_rules.specs.Linked.{IsLinked};
ghost use Rattle.log_records.specs.Log.{Log, SpellsLog};
ghost use Rattle.log_store.specs.Fault.{Refuses, IsOutside, GaveNoFault};

use crate::fault::LogReadFault;
use crate::log_image::LogImage;
use crate::scan::scan_log;
use std::alloc::Global;
use std::io::Read;

/// Reads a whole log, to the input's end.
///
/// The faults, and where the reader stands after one, are those of `scan_log`.
pub fn read_log<R: Read>(alloc: Global, reader: &mut R) -> Result<LogImage, LogReadFault>
    ensures known { StaysKnown (R.remaining reader.old) (R.remaining reader.new) }
    // What is read is spelled so, and nothing follows it.
    ensures found { IfOk result (λ log. IfSome (R.remaining reader.old) (SpellsLog log)) }
    ensures linked { IfOk result (λ log. IsLinked log.records) }
    ensures end { OnOk result (IsAtEnd (R.remaining reader.new)) }
    // What is spelled so is read, unless memory runs out or the reader fails.
    ensures only { (log : Log) (input : List ℕ) → R.remaining reader.old ≡ Some input
        → SpellsLog log input → IsLinked log.records
        → MatchResult result (λ read. read ≡ log) IsOutside }
    // The fault is the first one.
    ensures first { IfErr result (λ fault. IfSome (R.remaining reader.old)
        (λ input. Refuses input fault)) }
    // Where the reader failed, what it gave until then holds none.
    ensures unread { IfErr result (GaveNoFault [] (R.remaining reader.old)
        (R.remaining reader.new)) }
{
    Ok(scan_log::<R, LogImage>(alloc, reader)?.sink)
}
