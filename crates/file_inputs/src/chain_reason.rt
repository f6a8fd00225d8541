//! The words for a rule that a record of a log breaks.

use log_store::BrokenRule;
use std::fmt;

/// Why a record may not follow those before it. Its text is for a person.
#[derive(Clone, Copy)]
pub struct ChainReason(pub BrokenRule);

impl fmt::Display for ChainReason {
    fn fmt<W: fmt::Write>(&self, f: &mut fmt::Formatter<W>) -> fmt::Result {
        match self.0 {
            BrokenRule::OutOfTurn { txn, next } => {
                let txn = txn.0;
                write!(f, "transaction {txn} begins, but the next one is {next}")
            }
            BrokenRule::TooManyOpen => f.write_str("64 transactions are open already"),
            BrokenRule::NotOpen { txn } => {
                let txn = txn.0;
                write!(f, "transaction {txn} is not open")
            }
            BrokenRule::NotChained { txn, prev, last } => {
                let (prev, txn, last) = (prev.0, txn.0, last.0);
                write!(
                    f,
                    "its PrevLSN {prev} is not the last record of transaction {txn}, which is {last}"
                )
            }
            BrokenRule::RollingBack { txn } => {
                let txn = txn.0;
                write!(f, "transaction {txn} is rolling back")
            }
            BrokenRule::Held { page, slot, holder } => {
                let (page, slot, holder) = (page.0, slot.0, holder.0);
                write!(f, "transaction {holder} holds slot {slot} of page {page}")
            }
            BrokenRule::NotReplaced { page, slot } => {
                let (page, slot) = (page.0, slot.0);
                write!(
                    f,
                    "slot {slot} of page {page} has not the number that it replaces"
                )
            }
            BrokenRule::NotUndo { txn } => {
                let txn = txn.0;
                write!(
                    f,
                    "it does not undo the last pending change of transaction {txn}"
                )
            }
            BrokenRule::Pending { txn } => {
                let txn = txn.0;
                write!(f, "transaction {txn} has changes to take back")
            }
            BrokenRule::Checkpoint => f.write_str("it does not go with the checkpoint"),
            BrokenRule::NotAsRecorded { txn } => {
                let txn = txn.0;
                write!(f, "transaction {txn} does not stand as it says")
            }
            BrokenRule::NotLarger { given, present } => {
                write!(
                    f,
                    "it gives the volume {given} pages, but there are {present} already"
                )
            }
        }
    }
}
