//! Audits over readers that are slow, or fail.

use crate::bytes::{FULL, archive, log, next};
use copy_audit::{Sound, Unsound, audit};
use std::io;
use std::io::{ErrorKind, Read};
use std::test::Fail;

/// What befalls a reader. Its calls are counted from 1.
#[derive(Clone, Copy)]
pub(crate) enum Trouble {
    Nothing,
    /// This call fails, and those behind it would go on.
    FailsAt(u64),
    /// This call is interrupted, and each one behind it.
    InterruptedFrom(u64),
    /// Each call is interrupted but those whose number this divides.
    GoesOnAtEach(u64),
}

impl Trouble {
    /// What comes of a call, by its number, in place of bytes.
    fn at(self, call: u64) -> Option<ErrorKind> {
        match self {
            Trouble::FailsAt(k) if call == k => Some(ErrorKind::Other),
            Trouble::InterruptedFrom(k) if call >= k => Some(ErrorKind::Interrupted),
            Trouble::GoesOnAtEach(k) if call.checked_rem(k) != Some(0) => {
                Some(ErrorKind::Interrupted)
            }
            _ => None,
        }
    }
}

/// Gives these bytes, so many at a call, unless something befalls it.
#[derive(Drop)]
pub(crate) struct Failing<'a> {
    left: &'a [u8],
    most: usize,
    trouble: Trouble,
    calls: u64,
}

impl<'a> Failing<'a> {
    pub(crate) fn new(left: &'a [u8], most: usize, trouble: Trouble) -> Failing<'a> {
        Failing {
            left,
            most,
            trouble,
            calls: 0,
        }
    }
}

impl Read for Failing<'_> {
    fn read(&mut self, buf: &mut [u8]) -> io::Result<usize> {
        self.calls = self.calls.saturating_add(1);
        if let Some(kind) = self.trouble.at(self.calls) {
            return Err(kind.into());
        }
        let count = self.left.len().min(buf.len()).min(self.most);
        let (first, rest) = self.left.split_at(count);
        buf[..count].copy_from_slice(first);
        self.left = rest;
        Ok(count)
    }
}

/// Is never ready, and so never ends.
#[derive(Drop)]
struct NeverReady {
    calls: u64,
}

impl Read for NeverReady {
    fn read(&mut self, _buf: &mut [u8]) -> io::Result<usize> {
        self.calls = self.calls.saturating_add(1);
        Err(ErrorKind::Interrupted.into())
    }
}

/// Gives these bytes, so many at a call, and fails at its k-th call. 0 is none.
fn failing_reader(left: &[u8], most: usize, k: u64) -> Failing<'_> {
    Failing::new(left, most, Trouble::FailsAt(k))
}

#[test]
fn one_byte_at_a_time_is_the_same(rt: HostRuntime) -> Result<(), Fail> {
    let alloc = rt.alloc();
    let (whole, full) = (log(alloc, 1)?, archive(alloc, FULL, 128, 5)?);
    let mut readers = [failing_reader(full.as_slice(), 1, 0)];
    let found = audit(
        alloc,
        &mut failing_reader(whole.as_slice(), 1, 0),
        &mut readers,
    );
    assert_eq!(rt; found, Ok(Sound));
    Ok(())
}

#[test]
fn a_failed_read_is_told(rt: HostRuntime) -> Result<(), Fail> {
    let alloc = rt.alloc();
    let (whole, full) = (log(alloc, 1)?, archive(alloc, FULL, 128, 5)?);
    let kept = archive(alloc, next(2, 128), 0, 0)?;
    for k in 1..40 {
        let mut readers = [
            failing_reader(full.as_slice(), 64, 0),
            failing_reader(kept.as_slice(), 64, 0),
        ];
        let found = audit(
            alloc,
            &mut failing_reader(whole.as_slice(), 64, k),
            &mut readers,
        );
        // The log has nine pieces: its header, seven records and its end.
        let wanted = if k <= 9 {
            Err(Unsound::ReadFault)
        } else {
            Ok(Sound)
        };
        assert_eq!(rt; found, wanted, "{k}");
    }
    for k in 1..40 {
        let mut readers = [
            failing_reader(full.as_slice(), 64, k),
            failing_reader(kept.as_slice(), 64, 0),
        ];
        let found = audit(alloc, &mut whole.as_slice(), &mut readers);
        // The archive has ten: its header, eight of its page and its end.
        let wanted = if k <= 10 {
            Err(Unsound::ReadFault)
        } else {
            Ok(Sound)
        };
        assert_eq!(rt; found, wanted, "{k}");
    }
    Ok(())
}

#[test]
fn a_reader_that_is_never_ready_is_given_up(rt: HostRuntime) -> Result<(), Fail> {
    let alloc = rt.alloc();
    let (whole, full) = (log(alloc, 1)?, archive(alloc, FULL, 128, 5)?);
    let mut reader = NeverReady { calls: 0 };
    let found = audit(alloc, &mut reader, &mut [full.as_slice()]);
    assert_eq!(rt; found, Err(Unsound::ReadFault));
    assert_eq!(rt; reader.calls, 134_217_728);
    let mut readers = [NeverReady { calls: 0 }];
    let found = audit(alloc, &mut whole.as_slice(), &mut readers);
    assert_eq!(rt; found, Err(Unsound::ReadFault));
    assert_eq!(rt; readers[0].calls, 134_217_728);
    Ok(())
}
