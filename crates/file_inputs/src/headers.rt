//! What a file that is refused begins like, for a person.

ghost use Rattle.std.specs.Prelude.{◌≡◌};
ghost use Rattle.file_inputs.specs.Headers.{last_kind};

use log_records::HEADER_BYTES;
use page_core::Format;

/// What a file is, by the text in front of it.
#[derive(Clone, Copy)]
pub enum FileKind {
    Log,
    Master,
    Archive,
}

/// What begins like this, if anything that is known here does. Of logs and of archives there are
/// two formats.
pub fn kind_of(header: &[u8; HEADER_BYTES]) -> Option<FileKind> {
    match &header[..8] {
        b"AIMGLOG1" | b"AIMGLOG2" => Some(FileKind::Log),
        b"AIMGMST1" => Some(FileKind::Master),
        b"AIMGARC1" | b"AIMGARC2" => Some(FileKind::Archive),
        _ => None,
    }
}

/// The greatest number of a kind of record in a log of this format.
pub fn last_kind(format: Format) -> u8
    ensures { result ≡ last_kind format }
{
    match format {
        Format::First => 10,
        Format::Second => 11,
    }
}
