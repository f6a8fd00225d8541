//! The lines that a day on files writes.

use crate::acknowledged::Acknowledged;
use crate::draws::Transfer;
use imgcopy_engine::{CopyId, CopyKind, Lsn, PageNo, Point};
use std::fmt;

/// What is told in a line.
#[derive(Drop)]
pub enum Line<'a> {
    /// The accounts were opened.
    Opened(Acknowledged),
    /// This transfer was committed.
    Committed(Acknowledged, &'a Transfer),
    /// The master record of this checkpoint is in place.
    Checkpoint(&'a Point),
    /// The file of this copy is in place.
    Copied(CopyId, &'a CopyKind),
    /// This page could not be read, and is stored anew.
    Repaired(PageNo, Lsn),
    /// The day came to its end.
    Closed,
}

impl fmt::Display for Line<'_> {
    fn fmt<W: fmt::Write>(&self, f: &mut fmt::Formatter<W>) -> fmt::Result {
        match self {
            Line::Opened(commit) => write!(f, "opened {commit}"),
            Line::Committed(commit, transfer) => {
                let (from, to, amount) = (transfer.from, transfer.to, transfer.amount);
                write!(f, "committed {commit} {from} {to} {amount}")
            }
            Line::Checkpoint(point) => {
                let (begin, end, redo) = (point.begin.0, point.end.0, point.redo.0);
                write!(f, "checkpoint {begin} {end} {redo}")
            }
            Line::Copied(id, CopyKind::Full) => {
                let id = id.0;
                write!(f, "copy {id} full")
            }
            Line::Copied(id, CopyKind::Inc(parent)) => {
                let (id, parent) = (id.0, parent.0);
                write!(f, "copy {id} on {parent}")
            }
            Line::Repaired(page, lsn) => {
                let (page, lsn) = (page.0, lsn.0);
                write!(f, "repaired {page} {lsn}")
            }
            Line::Closed => f.write_str("closed"),
        }
    }
}
