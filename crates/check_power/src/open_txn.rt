//! An open transaction, as its replies tell it.

use crate::numbers::{Change, SlotChange};
use crate::wrong::Wrong;
use aries_core::{Answer, Event};
use page_core::{Lsn, TxnNo};
use std::alloc::{AllocError, Global};

/// How many changes were pending at a savepoint.
#[derive(Clone, Copy)]
pub struct Mark {
    pub savepoint: Lsn,
    changes: usize,
}

/// A transaction with its pending changes.
#[derive(Drop)]
pub struct OpenTxn {
    pub txn: TxnNo,
    pub is_rolling: bool,
    changes: Vec<SlotChange>,
    marks: Vec<Mark>,
}

impl OpenTxn {
    /// One that has made nothing yet.
    pub fn new(alloc: Global, txn: TxnNo) -> OpenTxn {
        OpenTxn {
            txn,
            is_rolling: false,
            changes: Vec::new(alloc),
            marks: Vec::new(alloc),
        }
    }

    /// A copy of this value.
    pub fn copied(&self, alloc: Global) -> Result<OpenTxn, AllocError> {
        Ok(OpenTxn {
            txn: self.txn,
            is_rolling: self.is_rolling,
            changes: Vec::from_slice(alloc, &self.changes)?,
            marks: Vec::from_slice(alloc, &self.marks)?,
        })
    }

    /// Its pending changes.
    pub fn changes(&self) -> &[SlotChange] {
        &self.changes
    }

    /// Its savepoints.
    pub fn marks(&self) -> &[Mark] {
        &self.marks
    }

    /// Its pending changes alone.
    pub fn into_changes(self) -> Vec<SlotChange> {
        self.changes
    }

    /// Takes note of a call of it that was answered.
    pub fn note(&mut self, event: &Event, answer: &Answer) -> Result<(), Wrong> {
        match (event, answer) {
            (Event::Set { .. } | Event::Add { .. }, Answer::Logged(_)) => {
                if let Some(change) = change_of(event) {
                    self.changes.push(change)?;
                }
                Ok(())
            }
            (Event::Abort(_), _) => {
                self.is_rolling = true;
                Ok(())
            }
            (Event::Savepoint(_), Answer::Saved(savepoint)) => {
                let changes = self.changes.len();
                self.marks.push(Mark {
                    savepoint: *savepoint,
                    changes,
                })?;
                Ok(())
            }
            (_, Answer::Undid(_)) => self.undo(),
            (_, Answer::Ended(_)) => self.has_pending(0),
            (Event::UndoTo { savepoint, .. }, Answer::Reached) => {
                self.has_pending(self.pending_at(*savepoint))
            }
            _ => Ok(()),
        }
    }

    /// Its last pending change was taken back.
    fn undo(&mut self) -> Result<(), Wrong> {
        match self.changes.pop() {
            Some(_) => Ok(()),
            None => Err(Wrong::Undo { left: 0 }),
        }
    }

    /// How many changes were pending at a savepoint.
    fn pending_at(&self, savepoint: Lsn) -> usize {
        let mut pending = 0;
        for mark in &self.marks {
            if mark.savepoint == savepoint {
                pending = mark.changes;
            }
        }
        pending
    }

    fn has_pending(&self, wanted: usize) -> Result<(), Wrong> {
        if self.changes.len() == wanted {
            Ok(())
        } else {
            let left = self.changes.len() as u64;
            Err(Wrong::Undo { left })
        }
    }
}

/// The change that a call asks for.
fn change_of(event: &Event) -> Option<SlotChange> {
    match *event {
        Event::Set {
            page,
            slot,
            number,
            ..
        } => Some(SlotChange {
            page,
            slot,
            change: Change::Set(number),
        }),
        Event::Add {
            page,
            slot,
            amount,
            ..
        } => Some(SlotChange {
            page,
            slot,
            change: Change::Add(amount),
        }),
        _ => None,
    }
}
