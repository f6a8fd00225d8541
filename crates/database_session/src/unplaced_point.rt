//! A checkpoint whose master record is not in place.

ghost use Rattle.std.specs.Prelude.{◌≡◌};
ghost use Rattle.database_session.specs.UnplacedCopies.{answer_of};

use aries_core::Answer;
use log_store::Master;
use page_core::Lsn;

/// The LSNs of a complete checkpoint. They are plain numbers, since each is used more than once.
#[derive(Clone, Copy, Debug, PartialEq, Eq)]
pub struct UnplacedPoint {
    pub begin: u64,
    pub end: u64,
    pub redo: u64,
}

impl UnplacedPoint {
    /// What the call that ended the checkpoint answers.
    pub fn answer(&self) -> Answer
        ensures { result ≡ answer_of self.now }
    {
        Answer::Point {
            begin: Lsn(self.begin),
            end: Lsn(self.end),
            redo: Lsn(self.redo),
        }
    }

    /// Its master record.
    pub fn master(&self) -> Master
        ensures { result ≡ record { begin = self.now.begin; end = self.now.end } }
    {
        Master {
            begin: Lsn(self.begin),
            end: Lsn(self.end),
        }
    }
}
