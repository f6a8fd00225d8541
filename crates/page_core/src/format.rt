//! The versions of the formats of logs and archives.

ghost use Rattle.std.specs.Prelude.{◌≡◌};
ghost use Rattle.page_core.specs.Format.{digit_of};

/// A version of the formats of logs and of archives. The last of the eight characters in front of
/// such a file names it: `AIMGLOG1` or `AIMGLOG2`, `AIMGARC1` or `AIMGARC2`.
#[derive(Clone, Copy)]
pub enum Format {
    /// It is read, and written no more. No log of this version has records of later kinds.
    First,
    /// What is written.
    Second,
}

impl Format {
    /// The character that names the version.
    pub fn digit(self) -> u8
        ensures { result ≡ digit_of self }
    {
        match self {
            Format::First => b'1',
            Format::Second => b'2',
        }
    }
}
