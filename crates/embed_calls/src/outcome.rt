//! What a call answers: a number that says how it went, and three numbers.

ghost use Rattle.std.specs.Prelude.{◌≡◌};
ghost use Rattle.embed_calls.specs.Outcome.{answers, numbered, numbered_twice, of_audit, of_front, of_log};

use copy_audit::Unsound;
use log_prefix::FrontFault;
use log_store::LogReadFault;

/// The version of the calls: what their numbers mean, and in which order they are passed.
pub const ABI: u32 = 1;

/// The code where the caller's room is too short. `first` is how many bytes are needed.
pub const TOO_SHORT: u32 = 1000;

/// The code where the lengths of the archives do not add up to the bytes that were passed.
pub const LENGTHS_DIFFER: u32 = 1001;

/// What a call answers.
#[repr(C)]
#[derive(Clone, Copy, Debug, PartialEq, Eq)]
pub struct Outcome {
    /// 0 if the call did what it is for. Else the number of the fault, as 31 for `E31 BadRecord`, or
    /// one from 1000 on, which is about what was passed and not about the files.
    pub code: u32,
    /// With code 0 what the call says. Else the first number of the fault, as the offset of a
    /// record; 0 if it has none.
    pub first: u64,
    /// With code 0 what the call says. Else the second number of the fault; 0 if it has none.
    pub second: u64,
    /// With code 0 what the call says. Else 0.
    pub third: u64,
}

impl Outcome {
    /// It went well, with these numbers.
    pub(crate) fn answers(first: u64, second: u64, third: u64) -> Outcome
        ensures { result ≡ answers first second third }
    {
        Outcome {
            code: 0,
            first,
            second,
            third,
        }
    }

    /// The fault of this number, with one number of its own.
    pub(crate) fn numbered(code: u32, first: u64) -> Outcome
        ensures { result ≡ numbered code first }
    {
        Outcome::numbered_twice(code, first, 0)
    }

    /// The fault of this number, with two numbers of its own.
    pub(crate) fn numbered_twice(code: u32, first: u64, second: u64) -> Outcome
        ensures { result ≡ numbered_twice code first second }
    {
        Outcome {
            code,
            first,
            second,
            third: 0,
        }
    }
}

impl From<LogReadFault> for Outcome {
    ghost from_gives = { λ why it. it ≡ of_log why };

    fn from(why: LogReadFault) -> Outcome {
        match why {
            LogReadFault::OutOfMemory => Outcome::numbered(1, 0),
            LogReadFault::BadHeader => Outcome::numbered(30, 0),
            LogReadFault::BadRecord(at) => Outcome::numbered(31, at.0),
            LogReadFault::Torn(at) => Outcome::numbered(32, at.0),
            LogReadFault::ReadFault => Outcome::numbered(33, 0),
            LogReadFault::TooLong => Outcome::numbered(34, 0),
            LogReadFault::BadChain(at) => Outcome::numbered(35, at.0),
        }
    }
}

impl From<FrontFault> for Outcome {
    ghost from_gives = { λ why it. it ≡ of_front why };

    fn from(why: FrontFault) -> Outcome {
        match why {
            FrontFault::OutOfMemory => Outcome::numbered(1, 0),
            FrontFault::BadHeader => Outcome::numbered(30, 0),
            FrontFault::ReadFault => Outcome::numbered(33, 0),
        }
    }
}

impl From<Unsound> for Outcome {
    ghost from_gives = { λ why it. it ≡ of_audit why };

    fn from(why: Unsound) -> Outcome {
        match why {
            Unsound::OutOfMemory => Outcome::numbered(1, 0),
            Unsound::BadHeader => Outcome::numbered(30, 0),
            Unsound::BadRecord(at) => Outcome::numbered(31, at.0),
            Unsound::Torn(at) => Outcome::numbered(32, at.0),
            Unsound::ReadFault => Outcome::numbered(33, 0),
            Unsound::TooLong => Outcome::numbered(34, 0),
            Unsound::BadChain(at) => Outcome::numbered(35, at.0),
            Unsound::BadArchive(at) => Outcome::numbered(36, at),
            Unsound::ChainBroken(copy) => Outcome::numbered(37, copy.0 as u64),
            Unsound::CountDiffers => Outcome::numbered(38, 0),
            Unsound::RedoBeyondLog => Outcome::numbered(39, 0),
            Unsound::PageBeyondLog(page) => Outcome::numbered(40, page.0 as u64),
            Unsound::Unsound(copy, page) => {
                Outcome::numbered_twice(41, copy.0 as u64, page.0 as u64)
            }
        }
    }
}
