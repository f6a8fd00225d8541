//! Why a manifest is refused, and why an entry is.

ghost use Rattle.std.specs.Prelude.{◌≡◌};

use std::alloc::{AllocError, AllocFailed};
use std::error::Error;
use std::fmt;

/// Why an entry is not noted.
#[derive(Clone, Copy, Debug, PartialEq, Eq)]
pub enum NoteFault {
    /// Memory was refused.
    OutOfMemory,
    /// No manifest can have this name.
    BadName,
    /// It has 2^63 bytes or more.
    TooLong,
    /// The manifest has as many entries as it can have, and none of this name.
    TooMany,
}

/// What is wrong with a line.
#[derive(Clone, Copy, Debug, PartialEq, Eq)]
pub enum LineFault {
    /// It is no head of a manifest.
    Head,
    /// It says of no file how much of it is summed.
    Length,
    /// Where a sum and a name are to stand, none do.
    Sum,
    /// An entry before it has its name.
    Twice,
    /// As many entries as can be stand before it.
    TooMany,
}

/// Why a text is no manifest.
#[derive(Clone, Copy, Debug, PartialEq, Eq)]
pub enum ManifestFault {
    /// Memory was refused.
    OutOfMemory,
    /// The line of this number is the first bad one, for this reason. Lines are counted from 1.
    BadLine(u64, LineFault),
}

impl fmt::Display for NoteFault {
    ghost use Rattle.std.specs.Prelude.{Some};
    ghost use Rattle.manifest.specs.Fault.{text_of_note_fault};

    ghost output = { λ fault. Some (text_of_note_fault fault) };

    fn fmt<W: fmt::Write>(&self, f: &mut fmt::Formatter<W>) -> fmt::Result {
        f.write_str(match self {
            NoteFault::OutOfMemory => "out of memory",
            NoteFault::BadName => "a name that a manifest cannot have",
            NoteFault::TooLong => "more bytes than a manifest can have",
            NoteFault::TooMany => "more than 4096 entries",
        })
    }
}

impl fmt::Display for LineFault {
    ghost use Rattle.std.specs.Prelude.{Some};
    ghost use Rattle.manifest.specs.Fault.{text_of_line_fault};

    ghost output = { λ fault. Some (text_of_line_fault fault) };

    fn fmt<W: fmt::Write>(&self, f: &mut fmt::Formatter<W>) -> fmt::Result {
        f.write_str(match self {
            LineFault::Head => "no head of a manifest of format 1",
            LineFault::Length => "neither '# whole' nor '# first' with a length",
            LineFault::Sum => "no sum and name",
            LineFault::Twice => "a name stands twice",
            LineFault::TooMany => "more than 4096 entries",
        })
    }
}

impl fmt::Display for ManifestFault {
    ghost use Rattle.std.specs.Prelude.{Some};
    ghost use Rattle.manifest.specs.Fault.{text_of_fault};

    ghost output = { λ fault. Some (text_of_fault fault) };

    fn fmt<W: fmt::Write>(&self, f: &mut fmt::Formatter<W>) -> fmt::Result {
        match self {
            ManifestFault::OutOfMemory => f.write_str("out of memory"),
            ManifestFault::BadLine(number, why) => write!(f, "line {number}: {why}"),
        }
    }
}

impl Error for NoteFault {}

impl Error for LineFault {}

impl Error for ManifestFault {}

impl From<AllocError> for NoteFault {
    ghost use Rattle.std.specs.Prelude.{◌≡◌};
    ghost use Rattle.manifest.specs.declared.fault.NoteFault.TheVariants.{OutOfMemory};

    ghost from_gives = { λ _ e. e ≡ OutOfMemory };

    fn from(_error: AllocError) -> NoteFault {
        NoteFault::OutOfMemory
    }
}

impl From<AllocError> for ManifestFault {
    ghost use Rattle.std.specs.Prelude.{◌≡◌};
    ghost use Rattle.manifest.specs.declared.fault.ManifestFault.TheVariants.{OutOfMemory};

    ghost from_gives = { λ _ e. e ≡ OutOfMemory };

    fn from(_error: AllocError) -> ManifestFault {
        ManifestFault::OutOfMemory
    }
}
