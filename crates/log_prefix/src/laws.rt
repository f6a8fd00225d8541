//! Laws of fronts, for readers of the contracts.

ghost use Rattle.std.specs.Prelude.{ℕ, ◌≡◌, ◌++◌, List, length, take, None, Some};
ghost use Rattle.log_records.specs.Log.{Log, SpellsLog};
ghost use Rattle.log_rules.specs.Linked.{IsLinked};
ghost use Rattle.log_store.specs.Fault.{IsFirstFault};
ghost use Rattle.log_store.specs.WrittenLog.{AreForced, WrittenLog, first_records};
ghost use Rattle.log_prefix.specs.declared.cut.Cut.{Cut};
ghost use Rattle.log_prefix.specs.Front.{FoundFront, IsCut, IsFront, IsFrontOf, IsLongestFront};
ghost use Rattle.log_prefix.specs.Front.{end_of, fault_of};

use log_store::LogDevice;

/// Each record that was forced is in the front: if bytes begin with the spelling of a linked log,
/// whatever follows it, then the records of that log are the first ones of the longest front.
pub fn forced_records_are_in_the_front()
    ensures { (forced log : Log) (written behind : List ℕ) → SpellsLog forced written
        → IsLinked forced.records → IsLongestFront (written ++ behind) log
        → forced ≡ record log { records = take (length forced.records) log.records } }
{}

/// So each forced record of a written log is in the front of what its device gives back, if the
/// bytes before the forced end stayed.
pub fn fronts_have_what_a_device_keeps<D: LogDevice>()
    ensures { (it : WrittenLog D) (count : ℕ) (left : List ℕ) (log : Log)
        → AreForced D.bytes it count → IsLinked it.log.records
        → take it.forced_end left ≡ take it.forced_end (D.bytes it.device)
        → IsLongestFront left log → first_records count it.log ≡ first_records count log }
{}

/// Bytes have one front, cut in one way.
pub fn bytes_have_one_front()
    ensures { (bytes : List ℕ) (a b : FoundFront) → IsFrontOf bytes a → IsFrontOf bytes b
        → a ≡ b }
{}

/// A linked log is the front of its own spelling, with no cut. So the bytes before a cut are read
/// again as the same front.
pub fn fronts_are_fronts_of_themselves()
    ensures spelled { (log : Log) (bytes : List ℕ) → SpellsLog log bytes → IsLinked log.records
        → IsFrontOf bytes (record { log = log; cut = None }) }
    ensures again { (log : Log) (bytes : List ℕ) → IsFront bytes log
        → IsFrontOf (take (end_of log) bytes) (record { log = log; cut = None }) }
{}

/// No front goes on behind a cut: one whose bytes are cut there is the longest.
pub fn cuts_end_the_longest_front()
    ensures { (bytes : List ℕ) (log : Log) (cut : Cut) → IsFront bytes log
        → IsCut bytes log (Some cut) → IsLongestFront bytes log }
{}

/// A cut is where a reader of whole logs finds the first fault of the same bytes.
pub fn cuts_are_first_faults()
    ensures { (bytes : List ℕ) (log : Log) (cut : Cut)
        → IsFrontOf bytes (record { log = log; cut = Some cut })
        → IsFirstFault bytes (fault_of cut.at cut.why) }
{}
