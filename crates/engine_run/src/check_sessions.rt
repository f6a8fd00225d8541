//! Whether the shares of sessions add up to the records of transactions in a log, and their
//! receipts stand in it.

ghost use Rattle.std.specs.Prelude.{◌≡◌, drop, false, true, length, replicate, IfErr, OnOk};
ghost use Rattle.std.specs.List.{All, sum_by};
ghost use Rattle.settlement.specs.Volume.{AreOfVolume};
ghost use Rattle.settlement.specs.Counts.{is_of_txn, txn_records_in, written_in};
ghost use Rattle.settlement.specs.Marks.{AreMarked};
ghost use Rattle.settlement.specs.Receipt.{written};
ghost use Rattle.settlement.specs.Session.{AllStand};
ghost use Rattle.settlement.specs.Sessions.{AreWrongAt, all_receipts};
ghost use Rattle.engine_run.specs.Settled.{AddUp};

use crate::life::Life;
use crate::session::Session;
use log_records::Record;
use page_core::{Lsn, Page};
use settlement::check_session;

/// Whether the shares of the sessions add up to the records of transactions in the log behind its
/// first records.
pub(crate) fn add_up<G: Life>(began: u32, sessions: &[Session<G>], records: &[Record]) -> bool
    ensures yes { result ≡ true → AddUp began sessions.now records.now }
    ensures no { result ≡ false → ¬ AddUp began sessions.now records.now }
{
    have_written(sessions, txn_record_count(behind(began, records)))
}

/// Whether the sessions have receipts of so many records.
fn have_written<G: Life>(sessions: &[Session<G>], count: usize) -> bool
    ensures yes { result ≡ true → sum_by written_in sessions.now ≡ count }
    ensures no { result ≡ false → ¬ (sum_by written_in sessions.now ≡ count) }
{
    let mut left = count;
    for session in sessions {
        let Some(rest) = left.checked_sub(session.written()) else {
            return false;
        };
        left = rest;
    }
    left == 0
}

/// How many of these records transactions have appended.
pub(crate) fn txn_record_count(records: &[Record]) -> usize
    ensures { result ≡ txn_records_in records.now }
{
    records.iter().filter(|record| is_of_txn(record)).count()
}

/// Whether a transaction appended it.
fn is_of_txn(record: &Record) -> bool
    ensures { result ≡ is_of_txn «record».now }
{
    match *record {
        Record::Begin { .. }
        | Record::Update { .. }
        | Record::Comp { .. }
        | Record::Commit { .. }
        | Record::Abort { .. }
        | Record::End { .. } => true,
        Record::BeginChkpt { .. }
        | Record::ChkptPages { .. }
        | Record::ChkptTxns { .. }
        | Record::EndChkpt { .. }
        | Record::Extend { .. } => false,
    }
}

/// The records behind the first ones.
fn behind(began: u32, records: &[Record]) -> &[Record]
    ensures { result.now ≡ drop began records.now }
{
    if began as usize <= records.len() {
        &records[began as usize..]
    } else {
        &[]
    }
}

/// Checks the receipts of all sessions against the log, and marks the records that they speak of.
/// `pages` is room for the volume. An `Err` has the position of a receipt that does not stand, or
/// of whose LSN there is another receipt.
pub(crate) fn check_sessions<G: Life>(
    pages: &mut [Page],
    marks: &mut [bool],
    records: &[Record],
    forced_end: Lsn,
    sessions: &[Session<G>],
) -> Result<(), Lsn>
    requires log { AreOfVolume (length pages.old) records.now }
    requires fresh { marks.old ≡ replicate (length records.now) false }
    ensures ok { OnOk result (All (AllStand records.now forced_end) sessions.now) }
    ensures marked { OnOk result (AreMarked marks.new (written (all_receipts sessions.now))) }
    ensures err { IfErr result (AreWrongAt records.now forced_end sessions.now) }
    ensures marks { length marks.new ≡ length marks.old }
{
    for session in sessions {
        if let Err(at) = check_session(pages, marks, records, forced_end, session.receipts()) {
            return Err(at);
        }
    }
    Ok(())
}
