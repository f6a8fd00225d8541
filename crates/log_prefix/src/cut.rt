//! Where the front of some bytes ends, and why.

use log_store::LogReadFault;
use page_core::Lsn;

/// Why the bytes behind a front are left out.
#[derive(Clone, Copy, Debug, PartialEq, Eq)]
pub enum CutReason {
    /// They are fewer than the 64 bytes of a record.
    Torn,
    /// The first 64 of them are no record that may stand there, or name a page outside the volume.
    BadRecord,
    /// The first 64 of them are a record that may not follow the front: one of a transaction that
    /// is not open, one with a PrevLSN that is not its last record, and so on.
    BadChain,
    /// The front has as many records as a log may have.
    TooLong,
}

/// Where the bytes behind a front begin, and why they are left out.
#[derive(Clone, Copy, Debug, PartialEq, Eq)]
pub struct Cut {
    /// The byte offset of the first record that is left out, which is the end of the front.
    pub at: Lsn,
    pub why: CutReason,
}

impl Cut {
    ghost use Rattle.std.specs.Prelude.{◌≡◌};
    ghost use Rattle.log_prefix.specs.Front.{fault_of};

    /// What `read_log` says of the same bytes.
    pub fn fault(self) -> LogReadFault
        ensures { result ≡ fault_of self.at self.why }
    {
        match self.why {
            CutReason::Torn => LogReadFault::Torn(self.at),
            CutReason::BadRecord => LogReadFault::BadRecord(self.at),
            CutReason::BadChain => LogReadFault::BadChain(self.at),
            CutReason::TooLong => LogReadFault::TooLong,
        }
    }
}
