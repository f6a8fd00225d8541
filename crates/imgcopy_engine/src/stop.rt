//! Why a transaction was not committed.

use aries_core::Refusal;
use page_core::{FaultName, Lsn, TxnNo};
use std::fmt;

/// Why the work of a transaction ends before its commit.
#[derive(Clone, Copy, Debug, PartialEq, Eq)]
pub enum Stop<E> {
    /// A call of its session was refused.
    Refused(Refusal),
    /// It has a reason of its own.
    Own(E),
}

impl<E> From<Refusal> for Stop<E> {
    ghost use Rattle.std.specs.Prelude.{◌≡◌};
    ghost use Rattle.imgcopy_engine.specs.declared.stop.Stop.TheVariants.{Refused};

    ghost from_gives = { λ why stop. stop ≡ Refused why };

    fn from(why: Refusal) -> Stop<E> {
        Stop::Refused(why)
    }
}

impl<E: fmt::Display> fmt::Display for Stop<E> {
    ghost use Rattle.imgcopy_engine.specs.StopText.{text_of_stop};

    ghost output = { λ stop. text_of_stop E.output stop };

    fn fmt<W: fmt::Write>(&self, f: &mut fmt::Formatter<W>) -> fmt::Result {
        match self {
            Stop::Refused(why) => write!(f, "{why}"),
            Stop::Own(why) => write!(f, "{why}"),
        }
    }
}

/// Why a transaction is not known to be committed.
#[derive(Clone, Copy, Debug, PartialEq, Eq)]
pub enum NotDone<E> {
    /// It could not be begun.
    NotBegun(Refusal),
    /// Its work ended with this, or its commit was refused so. All its changes are taken back, and
    /// it has ended.
    Stopped(Stop<E>),
    /// Its Commit stands in the log at this LSN, not known to be forced, and it has ended.
    Unsure(Lsn),
    /// It is still open: its rollback met this refusal. `roll_back` goes on with it.
    Left(TxnNo, Refusal),
}

impl<E: fmt::Display> fmt::Display for NotDone<E> {
    ghost use Rattle.imgcopy_engine.specs.StopText.{text_of};

    ghost output = { λ fault. text_of E.output fault };

    fn fmt<W: fmt::Write>(&self, f: &mut fmt::Formatter<W>) -> fmt::Result {
        match self {
            NotDone::NotBegun(why) => write!(f, "not begun: {why}"),
            NotDone::Stopped(why) => write!(f, "taken back: {why}"),
            NotDone::Unsure(lsn) => {
                let lsn = lsn.0;
                write!(f, "{} {lsn}", FaultName::CommitUnsure)
            }
            NotDone::Left(txn, why) => {
                let txn = txn.0;
                write!(f, "transaction {txn} is still open: {why}")
            }
        }
    }
}

/// A transaction that is committed: what its work has given, and the LSN of its Commit, which is
/// forced.
#[derive(Clone, Copy, Debug, PartialEq, Eq)]
pub struct Committed<T> {
    pub value: T,
    pub lsn: Lsn,
}
