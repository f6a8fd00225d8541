//! Readers that give their bytes in steps, are interrupted, fail, or have no end.

use log_records::{Record, encode, encode_header};
use page_core::{Lsn, TxnNo};
use std::io;
use std::io::{ErrorKind, Read};

/// Gives some bytes, a few at a call.
#[derive(Drop)]
pub struct Steps<'a> {
    bytes: &'a [u8],
    step: usize,
    /// Whether every other call is interrupted.
    interrupts: bool,
    is_interrupted: bool,
    /// How many bytes it gives until it fails.
    fails_after: Option<usize>,
}

impl<'a> Steps<'a> {
    pub(crate) fn new(bytes: &'a [u8], step: usize) -> Steps<'a> {
        Steps {
            bytes,
            step,
            interrupts: false,
            is_interrupted: false,
            fails_after: None,
        }
    }

    /// This reader, but every other call is interrupted.
    pub(crate) fn interrupted(self) -> Steps<'a> {
        Steps {
            interrupts: true,
            ..self
        }
    }

    /// This reader, but it fails once it gave so many bytes.
    pub(crate) fn failing(self, given: usize) -> Steps<'a> {
        Steps {
            fails_after: Some(given),
            ..self
        }
    }
}

impl Read for Steps<'_> {
    fn read(&mut self, buf: &mut [u8]) -> io::Result<usize> {
        if self.interrupts && !self.is_interrupted {
            self.is_interrupted = true;
            return Err(ErrorKind::Interrupted.into());
        }
        self.is_interrupted = false;
        if self.fails_after == Some(0) {
            return Err(ErrorKind::Other.into());
        }
        let most = self.fails_after.unwrap_or(usize::MAX);
        let count = self.step.min(self.bytes.len()).min(buf.len()).min(most);
        buf[..count].copy_from_slice(&self.bytes[..count]);
        self.bytes = &self.bytes[count..];
        self.fails_after = self.fails_after.map(|left| left.saturating_sub(count));
        Ok(count)
    }
}

/// Gives a log of one page whose transactions begin and commit, one after another.
#[derive(Drop)]
pub struct Pairs {
    at: u64,
    end: u64,
}

impl Pairs {
    /// The first bytes of this log, so many.
    pub(crate) fn until(end: u64) -> Pairs {
        Pairs { at: 0, end }
    }
}

impl Read for Pairs {
    fn read(&mut self, buf: &mut [u8]) -> io::Result<usize> {
        let skipped = (self.at % 64) as usize;
        let bytes = bytes_at(self.at - self.at % 64);
        let left = usize::try_from(self.end.saturating_sub(self.at)).unwrap_or(usize::MAX);
        let count = (64 - skipped).min(buf.len()).min(left);
        buf[..count].copy_from_slice(&bytes[skipped..skipped + count]);
        self.at = self.at.saturating_add(count as u64);
        Ok(count)
    }
}

fn bytes_at(offset: u64) -> [u8; 64] {
    if offset < 64 {
        return encode_header(1);
    }
    let lsn = Lsn(offset);
    let index = offset / 64 - 1;
    let txn = TxnNo(u32::try_from(index / 2 + 1).unwrap_or(u32::MAX));
    let record = if index % 2 == 0 {
        Record::Begin { lsn, txn }
    } else {
        let prev = Lsn(offset - 64);
        Record::Commit { lsn, txn, prev }
    };
    encode(&record)
}

/// Never gives a byte, since each call is interrupted. It counts the calls.
#[derive(Drop)]
pub struct NeverReady {
    pub calls: u64,
}

impl Read for NeverReady {
    fn read(&mut self, _buf: &mut [u8]) -> io::Result<usize> {
        self.calls = self.calls.saturating_add(1);
        Err(ErrorKind::Interrupted.into())
    }
}
