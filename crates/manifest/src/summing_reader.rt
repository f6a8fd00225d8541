//! A reader that sums what it gives.

ghost use Rattle.std.specs.Prelude.{◌≡◌, List, ℕ};
ghost use Rattle.std.specs.Io.KnownBytes.{Consumes, ReadConsumes};
ghost use Rattle.std.specs.Io.{ReadsAtMost};
ghost use Rattle.manifest.specs.Sums.{IsSumOf};

use crate::sum::Sum;
use crate::sums::Sums;
use std::io;
use std::io::Read;
use std::marker::Model;
use std::snapshot::Snapshot;

/// A reader that gives what another one gives, and sums it. What it has summed are the bytes since it
/// was made: a function that reads from any reader does not say so.
#[derive(Drop)]
pub struct SummingReader<R: Read> {
    reader: R,
    sums: Sums,
    /// The reader as it was when nothing was summed yet, for contracts alone.
    begun: Snapshot<R>,
}

impl<R: Read> Model for SummingReader<R> {
    ghost use Rattle.manifest.specs.Summing.{Summing};
    ghost use Rattle.manifest.specs.Sums.{SumsGiven};

    ghost Value = { Summing R };

    ghost view = { λ it. record { begun = it.begun.value; reached = it.reader } };

    ghost invariant = { λ it. SumsGiven (R.remaining it.begun.value) (R.remaining it.reader)
        it.sums };
}

impl<R: Read + Drop> SummingReader<R> {
    /// A reader that has given nothing yet.
    pub fn new(reader: R) -> SummingReader<R>
        ensures { result ≡ record { begun = reader; reached = reader } }
    {
        SummingReader {
            begun: Snapshot::of(&reader),
            reader,
            sums: Sums::new(),
        }
    }

    /// The sum and the count of just the bytes that were given.
    pub fn finish(self) -> (Sum, u64)
        ensures { (given : List ℕ) × IsSumOf result.0 result.1 given
            × Consumes (R.remaining self.begun) (R.remaining self.reached) given }
    {
        self.sums.finish()
    }
}

impl<R: Read> Read for SummingReader<R> {
    ghost remaining = { λ it. R.remaining it.reached };

    fn read(&mut self, buf: &mut [u8]) -> io::Result<usize>
        ensures bound { ReadsAtMost result buf.new }
        ensures bytes { ReadConsumes (R.remaining self.old.reached) (R.remaining self.new.reached)
            result buf.new }
        ensures begun { self.new.begun ≡ self.old.begun }
    {
        let given = self.reader.read(buf);
        if let Ok(count) = given {
            self.sums.update(&buf[..count]);
        }
        given
    }
}
