//! A writer that sums what is written.

ghost use Rattle.std.specs.Prelude.{◌≡◌, List, ℕ};
ghost use Rattle.std.specs.Io.KnownBytes.{Appends, Keeps, WriteAppends};
ghost use Rattle.std.specs.Io.{WritesAtMost};
ghost use Rattle.manifest.specs.Sums.{IsSumOf};

use crate::sum::Sum;
use crate::sums::Sums;
use std::io;
use std::io::Write;
use std::marker::Model;
use std::snapshot::Snapshot;

/// A writer that hands on to another one what is written, and sums what that one takes. What it has
/// summed are the bytes since it was made: a function that writes to any writer does not say so.
#[derive(Drop)]
pub struct SummingWriter<W: Write> {
    writer: W,
    sums: Sums,
    /// The writer as it was when nothing was summed yet, for contracts alone.
    begun: Snapshot<W>,
}

impl<W: Write> Model for SummingWriter<W> {
    ghost use Rattle.manifest.specs.Summing.{Summing};
    ghost use Rattle.manifest.specs.Sums.{SumsTaken};

    ghost Value = { Summing W };

    ghost view = { λ it. record { begun = it.begun.value; reached = it.writer } };

    ghost invariant = { λ it. SumsTaken (W.contents it.begun.value) (W.contents it.writer)
        it.sums };
}

impl<W: Write + Drop> SummingWriter<W> {
    /// A writer that has taken nothing yet.
    pub fn new(writer: W) -> SummingWriter<W>
        ensures { result ≡ record { begun = writer; reached = writer } }
    {
        SummingWriter {
            begun: Snapshot::of(&writer),
            writer,
            sums: Sums::new(),
        }
    }

    /// The sum and the count of just the bytes that were taken.
    pub fn finish(self) -> (Sum, u64)
        ensures { (taken : List ℕ) × IsSumOf result.0 result.1 taken
            × Appends (W.contents self.begun) (W.contents self.reached) taken }
    {
        self.sums.finish()
    }
}

impl<W: Write> Write for SummingWriter<W> {
    ghost contents = { λ it. W.contents it.reached };

    fn write(&mut self, buf: &[u8]) -> io::Result<usize>
        ensures bound { WritesAtMost result buf.now }
        ensures bytes { WriteAppends (W.contents self.old.reached) (W.contents self.new.reached)
            result buf.now }
        ensures begun { self.new.begun ≡ self.old.begun }
    {
        let taken = self.writer.write(buf);
        if let Ok(count) = taken {
            self.sums.update(&buf[..count]);
        }
        taken
    }

    fn flush(&mut self) -> io::Result<()>
        ensures bytes { Keeps (W.contents self.old.reached) (W.contents self.new.reached) }
        ensures begun { self.new.begun ≡ self.old.begun }
    {
        self.writer.flush()
    }
}
