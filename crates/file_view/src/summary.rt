//! What a folder has: its copies, its log, and what restores of them would do.

ghost use Rattle.std.specs.Prelude.{◌≡◌, ◌-◌, ◌/◌};
ghost use Rattle.file_view.specs.Summary.{end_of};

use crate::copy_row::{CopyFlaw, CopyRow, Rows};
use crate::fault::ViewFault;
use crate::head::{Head, HeaderJson};
use crate::lines::Form;
use crate::log_summary::LogSummary;
use crate::show::put_head;
use log_prefix::{Cut, FrontScan, scan_front};
use log_records::{HEADER_BYTES, LogHeader, MAX_OPEN, RECORD_BYTES, log_header};
use log_store::CkptPoint;
use page_core::{FaultName, LSN_STEP, Lsn, PageCounts, TxnNo};
use std::alloc::{AllocError, Global};
use txn_table::OpenTransactions;

/// What a log comes to, read once.
#[derive(Drop)]
pub struct LogFacts {
    pub header: LogHeader,
    /// The page counts of its volume.
    pub counts: PageCounts,
    pub summary: LogSummary,
    /// How many transactions are open at its end.
    pub open: usize,
    /// How many changes of these are not taken back.
    pub pending: usize,
    /// Where and why its bytes were cut, if they were.
    pub cut: Option<Cut>,
}

impl LogFacts {
    /// Where the log ends: the LSN that its next record would have.
    pub fn end(&self) -> Lsn
        ensures { result ≡ end_of self.now }
    {
        Lsn(
            (self.summary.records as u64)
                .saturating_add(1)
                .saturating_mul(LSN_STEP),
        )
    }
}

/// Reads the bytes of a log, as far as they are one. `BadHeader` comes where no log begins so, and
/// `OutOfMemory` where room is refused.
pub fn facts_of(alloc: Global, bytes: &[u8]) -> Result<LogFacts, ViewFault> {
    let Some(header) = log_header(bytes) else {
        return Err(ViewFault::BadHeader);
    };
    let mut input = bytes;
    let FrontScan { scan, cut } = scan_front::<&[u8], ()>(alloc, &mut input)?;
    let found = scan.history.into_analysis();
    Ok(LogFacts {
        header,
        summary: LogSummary::of(&found),
        open: found.txns.open_count(),
        pending: pending_in(&found.txns),
        counts: found.counts,
        cut,
    })
}

/// How many changes of open transactions are not taken back.
fn pending_in(table: &OpenTransactions) -> usize {
    let (mut from, mut pending) = (1u32, 0usize);
    for _ in 0..MAX_OPEN {
        let Some(state) = table.next_from(TxnNo(from)) else {
            break;
        };
        pending = pending.saturating_add(table.pending_up_to(state.txn, Lsn(u64::MAX)));
        from = state.txn.0.saturating_add(1);
    }
    pending
}

/// How many of so many records stand at this redo point and behind it.
fn redone_from(records: usize, redo: Lsn) -> usize
    ensures { result ≡ records - (redo - 1) / 64 }
{
    records.saturating_sub(redo.records_below())
}

/// Puts a line behind a text for each copy.
pub fn put_copies(text: &mut String, form: Form, rows: &Rows) -> Result<(), AllocError> {
    for row in rows.rows() {
        put_row(text, form, row)?;
    }
    Ok(())
}

/// Puts the lines of a log behind a text, and one for each whole chain.
pub fn put_log(
    text: &mut String,
    form: Form,
    rows: &Rows,
    log: &LogFacts,
) -> Result<(), AllocError> {
    let head = Head::Log {
        format: log.header.format,
        pages: log.counts.last(),
        records: log.summary.records as u64,
    };
    put_head(text, form, head)?;
    put_ends(text, form, log.summary.records)?;
    put_point(text, form, log.summary.point)?;
    put_open(text, form, log)?;
    for row in rows.rows() {
        if is_restorable(row) {
            put_restore(text, form, row, log)?;
        }
    }
    Ok(())
}

/// Whether a line says what a restore would do: what is wrong with the redo point is said there.
fn is_restorable(row: &CopyRow) -> bool {
    row.missing.is_none() && matches!(row.flaw, None | Some(CopyFlaw::Redo))
}

fn put_row(text: &mut String, form: Form, row: &CopyRow) -> Result<(), AllocError> {
    match form {
        Form::Words => {
            let header = row.header;
            match (row.flaw, row.missing) {
                (Some(flaw), _) => writeln!(text, "{header} {flaw}"),
                (None, Some(id)) => writeln!(text, "{header} lacks {id}"),
                (None, None) => writeln!(text, "{header} whole"),
            }
        }
        Form::Json => put_row_json(text, row),
    }
}

/// The line of a copy as an object of JSON. Only what is wrong has the field `fault`.
fn put_row_json(text: &mut String, row: &CopyRow) -> Result<(), AllocError> {
    let header = HeaderJson(row.header);
    write!(text, "{{\"file\":\"archive\",{header},\"lacks\":")?;
    match row.missing {
        Some(id) => write!(text, "{id}")?,
        None => text.push_str("null")?,
    }
    match row.flaw {
        Some(flaw) => writeln!(text, ",\"fault\":\"{flaw}\"}}"),
        None => text.push_str("}\n"),
    }
}

/// The LSNs of the first record and of the last one. Without records both are 0, which is no LSN.
fn put_ends(text: &mut String, form: Form, records: usize) -> Result<(), AllocError> {
    let first = if records == 0 { 0 } else { HEADER_BYTES };
    let last = records.saturating_mul(RECORD_BYTES);
    match form {
        Form::Words => writeln!(text, "first {first} last {last}"),
        Form::Json => writeln!(text, "{{\"first\":{first},\"last\":{last}}}"),
    }
}

fn put_point(text: &mut String, form: Form, point: Option<CkptPoint>) -> Result<(), AllocError> {
    let Some(point) = point else {
        return match form {
            Form::Words => text.push_str("point none\n"),
            Form::Json => text.push_str("{\"point\":null}\n"),
        };
    };
    let (begin, end, redo) = (point.begin.0, point.end.0, point.redo.0);
    match form {
        Form::Words => writeln!(text, "point {begin} {end} {redo}"),
        Form::Json => writeln!(
            text,
            "{{\"point\":{{\"begin\":{begin},\"end\":{end},\"redo\":{redo}}}}}"
        ),
    }
}

fn put_open(text: &mut String, form: Form, log: &LogFacts) -> Result<(), AllocError> {
    let (open, pending) = (log.open, log.pending);
    match form {
        Form::Words => writeln!(text, "open {open} pending {pending}"),
        Form::Json => writeln!(text, "{{\"open\":{open},\"pending\":{pending}}}"),
    }
}

/// What a restore of a chain would do. One whose redo point is not below the log's end is refused.
fn put_restore(
    text: &mut String,
    form: Form,
    row: &CopyRow,
    log: &LogFacts,
) -> Result<(), AllocError> {
    let id = row.header.id;
    let redo = redone_from(log.summary.records, row.header.redo);
    let undo = log.pending;
    if redo == 0 {
        let fault = FaultName::RedoBeyondLog;
        return match form {
            Form::Words => writeln!(text, "restore {id} {fault}"),
            Form::Json => writeln!(text, "{{\"restore\":{id},\"fault\":\"{fault}\"}}"),
        };
    }
    match form {
        Form::Words => writeln!(text, "restore {id} redo {redo} undo {undo}"),
        Form::Json => writeln!(text, "{{\"restore\":{id},\"redo\":{redo},\"undo\":{undo}}}"),
    }
}
