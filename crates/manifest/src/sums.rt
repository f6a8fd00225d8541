//! The sum of bytes that come piece by piece.

ghost use Rattle.std.specs.Prelude.{◌≡◌, ◌<◌, ◌++◌, List, ℕ, [], IfOk, length, OnOk};
ghost use Rattle.std.specs.Io.KnownBytes.{IsAtEnd};
ghost use Rattle.manifest.specs.Sums.{HasSummed, IsSumOf, IsSumOfGiven, count_of};

use crate::sum::Sum;
use sha2::{Digest, Sha256};
use std::io;
use std::io::{ErrorKind, Read};

/// The bytes so far, of which the sum can be asked at any time.
#[derive(Drop)]
pub struct Sums {
    hasher: Sha256,
    count: u64,
}

impl Sums {
    /// No bytes yet.
    pub fn new() -> Sums
        ensures { HasSummed result [] }
    {
        Sums {
            hasher: Sha256::new(),
            count: 0,
        }
    }

    /// Adds these bytes behind those so far.
    pub fn update(&mut self, bytes: &[u8])
        ensures { (before : List ℕ) → HasSummed self.old before
            → HasSummed self.new (before ++ bytes.now) }
    {
        self.hasher.update(bytes);
        self.count = self.count.saturating_add(bytes.len() as u64);
    }

    /// How many bytes there are so far.
    pub(crate) fn count(&self) -> u64
        ensures { (all : List ℕ) → HasSummed self.now all → result ≡ count_of all }
    {
        self.count
    }

    /// The sum and the count of the bytes so far, behind which more may follow.
    pub fn now(&self) -> (Sum, u64)
        ensures { (all : List ℕ) → HasSummed self.now all → IsSumOf result.0 result.1 all }
    {
        let Ok(hasher) = self.hasher.clone() else {
            unreachable!()
        };
        (Sum(hasher.finalize()), self.count)
    }

    /// The sum and the count of the bytes.
    pub fn finish(self) -> (Sum, u64)
        ensures { (all : List ℕ) → HasSummed self all → IsSumOf result.0 result.1 all }
    {
        (Sum(self.hasher.finalize()), self.count)
    }
}

/// The sum and the count of all that a reader has left, which is read a room at a time. A read that
/// is interrupted is tried again. At `Err` the reader failed, behind some of its bytes.
pub fn sum_rest<R: Read>(reader: &mut R, room: &mut [u8]) -> io::Result<(Sum, u64)>
    requires { 0 < length room.old }
    ensures sum { IfOk result (λ it.
        IsSumOfGiven (R.remaining reader.old) (R.remaining reader.new) it.0 it.1) }
    ensures end { OnOk result (IsAtEnd (R.remaining reader.new)) }
{
    let mut sums = Sums::new();
    'turns: for _ in 0..u64::MAX {
        match reader.read(room) {
            Ok(0) => return Ok(sums.finish()),
            Ok(count) => sums.update(&room[..count]),
            Err(error) => if error.kind() != ErrorKind::Interrupted {
                return Err(error);
            },
        }
    }
    Err(io::Error::from(ErrorKind::Interrupted))
}
