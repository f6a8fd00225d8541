//! Calls of which one fails where a test tells it to.

use std::cell::Cell;
use std::io;
use std::io::ErrorKind;

/// The calls of a folder in memory and of its files, of which one fails.
#[derive(Drop)]
pub struct FailingCalls {
    made: Cell<u64>,
    left: Cell<u64>,
    is_late: Cell<bool>,
}

/// How a call that is begun ends.
#[derive(Clone, Copy, Debug, PartialEq, Eq)]
pub(crate) enum Turn {
    Well,
    /// It fails once all is done.
    Late,
}

impl FailingCalls {
    /// Calls of which none fails.
    pub fn new() -> FailingCalls {
        FailingCalls {
            made: Cell::new(0),
            left: Cell::new(0),
            is_late: Cell::new(false),
        }
    }

    /// Has the `k`-th call from now on fail, counted from 1, before it does anything. At 0 none
    /// fails. The count of calls begins anew.
    pub fn fail(&self, k: u64) {
        self.made.set(0);
        self.left.set(k);
        self.is_late.set(false);
    }

    /// Has the `k`-th call from now on fail once it has done all that it is to do. A call that may
    /// not do anything where it fails, as `make` and a write of a file may not, fails before.
    pub fn fail_late(&self, k: u64) {
        self.fail(k);
        self.is_late.set(true);
    }

    /// How many calls were made since it was told which one fails.
    pub fn made(&self) -> u64 {
        self.made.get()
    }

    /// Counts a call, and is an error where that is the one that fails.
    pub(crate) fn begin(&self) -> io::Result<()> {
        match self.begin_any()? {
            Turn::Well => Ok(()),
            Turn::Late => Err(io::Error::from(ErrorKind::Other)),
        }
    }

    /// Counts a call that may fail late, and is an error where it is to fail at once.
    pub(crate) fn begin_any(&self) -> io::Result<Turn> {
        self.made.set(self.made.get().saturating_add(1));
        let left = self.left.get();
        self.left.set(left.saturating_sub(1));
        if left != 1 {
            return Ok(Turn::Well);
        }
        if self.is_late.get() {
            return Ok(Turn::Late);
        }
        Err(io::Error::from(ErrorKind::Other))
    }
}

impl Turn {
    /// What a call answers that has done all that it is to do.
    pub(crate) fn end(self) -> io::Result<()> {
        match self {
            Turn::Well => Ok(()),
            Turn::Late => Err(io::Error::from(ErrorKind::Other)),
        }
    }
}
