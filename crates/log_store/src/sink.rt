//! A sink takes the records of a log as they are read.

ghost use Rattle.std.specs.Prelude.{◌≡◌, [], IfOk, OnOk};
ghost use Rattle.log_records.specs.Log.{IsLog, IsPageCount, Log, with_next};

use log_records::Record;
use std::alloc::{AllocError, Global};

/// Takes the records of a log as they are read.
pub trait RecordSink {
    /// What the sink holds is what it makes of this log.
    ghost holds: { Self → Log → Type 0 };

    /// A sink for the records of a log of so many pages.
    fn start(alloc: Global, pages: u32) -> Result<Self, AllocError>
    where
        Self: Sized,
        requires { IsPageCount pages }
        ensures { IfOk result (λ sink. holds sink (record { pages = pages; records = [] })) };

    /// Takes the next records, in their order. After an `Err` nothing is known of what the sink
    /// holds.
    fn take(&mut self, next: &[Record]) -> Result<(), AllocError>
        requires { (log : Log) × (holds self.old log × IsLog (with_next log next.now)) }
        ensures { OnOk result ((log : Log) → holds self.old log → IsLog (with_next log next.now)
            → holds self.new (with_next log next.now)) };
}

/// Takes the records, and keeps none.
impl RecordSink for () {
    ghost holds = { λ _ _. Unit {0} };

    fn start(_alloc: Global, _pages: u32) -> Result<(), AllocError> {
        Ok(())
    }

    fn take(&mut self, _next: &[Record]) -> Result<(), AllocError> {
        Ok(())
    }
}
