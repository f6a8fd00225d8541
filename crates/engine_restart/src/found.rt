//! The log in the bytes of a device's file.

ghost use Rattle.std.specs.Prelude.{◌≡◌, IfOk, IfErr, length, take};
ghost use Rattle.log_prefix.specs.Front.{IsFrontOf, end_of};
ghost use Rattle.log_rules.specs.Linked.{IsLinked};
ghost use Rattle.log_records.specs.Log.{log_bytes};
ghost use Rattle.engine_restart.specs.Found.{FindsNone};

use crate::found_fault::FoundFault;
use log_prefix::{Front, read_front};
use log_records::log_header;
use page_core::Format;
use std::alloc::Global;

/// Finds the log in what a device's file has: the longest front of the bytes that is a linked log,
/// and where and why the rest is left out. Each record that was forced is in it.
///
/// `OldFormat` comes where the log is one of the first format, which is read and written no more:
/// no engine goes on with it. The other faults are those of `read_front`.
pub fn log_in(alloc: Global, bytes: &[u8]) -> Result<Front, FoundFault>
    ensures front { IfOk result (IsFrontOf bytes.now) }
    ensures linked { IfOk result (λ it. IsLinked it.log.records) }
    ensures spelled { IfOk result (λ it. take (end_of it.log) bytes.now ≡ log_bytes it.log) }
    ensures none { IfErr result (FindsNone bytes.now) }
{
    let mut reader = bytes;
    let front = read_front(alloc, &mut reader)?;
    match log_header(bytes) {
        Some(header) => match header.format {
            Format::Second => Ok(front),
            Format::First => Err(FoundFault::OldFormat),
        },
        None => Err(FoundFault::BadHeader),
    }
}
