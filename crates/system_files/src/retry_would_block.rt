//! Standard streams that another one has made such that a call does not wait.

use std::io::{ErrorKind, Read, Write};
use std::time::Duration;
use std::{io, thread};

/// How many milliseconds it waits before a call is made again.
const WAIT: u64 = 5;

/// A stream whose calls wait until they can be done.
#[derive(Drop)]
pub struct RetryWouldBlock<'a, F> {
    pub stream: F,
    pub rt: &'a HostRuntime,
}

impl<F: Read> Read for RetryWouldBlock<'_, F> {
    ghost remaining = { λ it. F.remaining it.stream };

    fn read(&mut self, buf: &mut [u8]) -> io::Result<usize> {
        for _ in 0..u64::MAX {
            match self.stream.read(buf) {
                Err(error) if error.kind() == ErrorKind::WouldBlock => {
                    thread::sleep(self.rt, Duration::from_millis(WAIT));
                }
                done => return done,
            }
        }
        Err(io::Error::from(ErrorKind::WouldBlock))
    }
}

impl<F: Write> Write for RetryWouldBlock<'_, F> {
    ghost contents = { λ it. F.contents it.stream };

    fn write(&mut self, buf: &[u8]) -> io::Result<usize> {
        for _ in 0..u64::MAX {
            match self.stream.write(buf) {
                Err(error) if error.kind() == ErrorKind::WouldBlock => {
                    thread::sleep(self.rt, Duration::from_millis(WAIT));
                }
                done => return done,
            }
        }
        Ok(0)
    }

    fn flush(&mut self) -> io::Result<()> {
        self.stream.flush()
    }
}
