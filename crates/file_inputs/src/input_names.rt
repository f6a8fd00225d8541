//! The files that a command reads, by their places.

ghost use Rattle.std.specs.Prelude.{◌≡◌, ◌+◌, ◌-◌, ◌^◌, IfSome, Some, length, min, option_map};
ghost use Rattle.file_inputs.specs.ReadFiles.{name_at, role_of};

use crate::standing::{end_of, is_regular};
use checked_files::ManifestUse;
use log_records::RECORD_BYTES;
use page_core::Lsn;

/// The place of the first archive, behind the log and the master record.
pub const FIRST_ARCHIVE: usize = 2;

/// The name that the system has for standard input.
pub const STANDARD_INPUT: &str = "/dev/stdin";

/// The files of a restore or an audit, up to which record the log counts, if that is told, and which
/// manifest counts.
#[derive(Drop)]
pub struct InputNames<'a> {
    pub log: &'a str,
    pub master: Option<&'a str>,
    pub archives: &'a [&'a str],
    pub until: Option<Lsn>,
    pub manifest: ManifestUse<'a>,
}

impl<'a> InputNames<'a> {
    /// How many places there are.
    pub fn count(&self) -> usize
        ensures { result ≡ 2 + length self.now.archives.now }
    {
        self.archives.len() + FIRST_ARCHIVE
    }

    /// The file at this place: the log, the master record, and then the archives.
    pub fn at(&self, place: usize) -> Option<&'a str>
        ensures { option_map (λ name. name.now) result ≡ name_at self.now place }
    {
        match place {
            0 => Some(self.log),
            1 => self.master,
            _ => Some(*self.archives.get(place - FIRST_ARCHIVE)?),
        }
    }

    /// Where the log ends, as far as it counts. Of a pipe this is not known.
    pub(crate) fn log_end(&self, rt: &HostRuntime) -> Option<u64>
        ensures { IfSome self.now.until (λ until. result ≡ Some (min (until + 64) (2 ^ 64 - 1))) }
    {
        match self.until {
            Some(until) => Some(end_behind(until).0),
            None if is_regular(rt, self.log) => end_of(rt, self.log),
            None => None,
        }
    }
}

/// As what the file at this place is read.
pub fn what_stands(place: usize) -> &'static str
    ensures { result.now ≡ role_of place }
{
    match place {
        0 => "log",
        1 => "master record",
        _ => "image copy",
    }
}

/// Where a log ends whose last record is this one.
pub(crate) fn end_behind(last: Lsn) -> Lsn
    ensures { result ≡ min (last + 64) (2 ^ 64 - 1) }
{
    Lsn(last.0.saturating_add(RECORD_BYTES as u64))
}
