//! A reader that comes to its end only where its bytes are those that a manifest names.

ghost use Rattle.std.specs.Prelude.{◌≡◌, ◌<◌, ◌++◌, ◌↔◌, List, ℕ, IfOk, IfSome, IsTrue, length};
ghost use Rattle.std.specs.Io.KnownBytes.{Consumes, ReadConsumes};
ghost use Rattle.std.specs.Io.{ReadsAtMost};
ghost use Rattle.manifest.specs.Checking.{IsNamed, checked, part_of, summed_of};
ghost use Rattle.manifest.specs.Sums.{HasSummed, count_of};

use crate::entry::{Extent, FileSum};
use crate::sums::Sums;
use std::io;
use std::io::{ErrorKind, Read};
use std::marker::Model;
use std::snapshot::Snapshot;

/// A reader that gives what another one gives, and comes to its end only where that were the bytes
/// of the file that is named. Else it fails there, in place of the end. So who reads a file to its
/// end before the first byte is used uses no byte of another file.
#[derive(Drop)]
pub struct CheckedReader<R: Read> {
    reader: R,
    file: FileSum,
    sums: Sums,
    /// The reader as it was when nothing was read yet, for contracts alone.
    begun: Snapshot<R>,
}

impl<R: Read> Model for CheckedReader<R> {
    ghost use Rattle.manifest.specs.Checking.{Checking, PartGiven};

    ghost Value = { Checking R };

    ghost view = { λ it. record { file = it.file; begun = it.begun.value; reached = it.reader } };

    ghost invariant = { λ it. PartGiven it.file (R.remaining it.begun.value)
        (R.remaining it.reader) it.sums };
}

impl<R: Read + Drop> CheckedReader<R> {
    /// A reader of this file that has given nothing yet.
    pub fn new(reader: R, file: FileSum) -> CheckedReader<R>
        ensures { result ≡ record { file = file; begun = reader; reached = reader } }
    {
        CheckedReader {
            begun: Snapshot::of(&reader),
            reader,
            file,
            sums: Sums::new(),
        }
    }
}

impl<R: Read> CheckedReader<R> {
    /// How many bytes were summed: of a file that is summed at its beginning, no more than those.
    pub fn count(&self) -> u64
        ensures { (given : List ℕ)
            × Consumes (R.remaining self.now.begun) (R.remaining self.now.reached) given
            × (result ≡ count_of (part_of self.now.file given)) }
    {
        self.sums.count()
    }
}

impl<R: Read> Read for CheckedReader<R> {
    ghost remaining = { λ it. checked it.file (R.remaining it.begun) (R.remaining it.reached) };

    #[tactic(auto, using(crate::proofs::Checks::gives, crate::proofs::Checks::ends))]
    fn read(&mut self, buf: &mut [u8]) -> io::Result<usize>
        ensures bound { ReadsAtMost result buf.new }
        ensures bytes { ReadConsumes
            (checked self.old.file (R.remaining self.old.begun) (R.remaining self.old.reached))
            (checked self.new.file (R.remaining self.new.begun) (R.remaining self.new.reached))
            result buf.new }
        // It gives just the bytes below.
        ensures same { ReadConsumes (R.remaining self.old.reached) (R.remaining self.new.reached)
            result buf.new }
        // Where it comes to its end they are those that are named.
        ensures named { IfOk result (λ count. count ≡ 0 → 0 < length buf.new
            → IfSome (R.remaining self.new.begun) (IsNamed self.new.file)) }
        ensures begun { self.new.begun ≡ self.old.begun }
        ensures file { self.new.file ≡ self.old.file }
    {
        let count = self.reader.read(buf)?;
        let FileSum { extent, bytes, .. } = self.file;
        let part = summed_behind(extent, bytes, self.sums.count(), &buf[..count]);
        self.sums.update(part);
        if count == 0 && !buf.is_empty() && !agree(&self.file, &self.sums) {
            return Err(io::Error::from(ErrorKind::InvalidData));
        }
        Ok(count)
    }
}

/// What is summed of a piece of a file, behind so many bytes that were.
fn summed_behind(extent: Extent, most: u64, before: u64, piece: &[u8]) -> &[u8]
    ensures { (given : List ℕ) → before ≡ count_of (summed_of extent most given)
        → summed_of extent most (given ++ piece.now)
        ≡ summed_of extent most given ++ result.now }
{
    let left = most.saturating_sub(before);
    match extent {
        Extent::First if left < piece.len() as u64 => &piece[..left as usize],
        _ => piece,
    }
}

/// Whether what was summed is the part of the file that is named.
fn agree(file: &FileSum, sums: &Sums) -> bool
    ensures { (bytes : List ℕ) → HasSummed sums.now (part_of file.now bytes)
        → (IsTrue result ↔ IsNamed file.now bytes) }
{
    let (sum, count) = sums.now();
    file.agrees(sum, count)
}
