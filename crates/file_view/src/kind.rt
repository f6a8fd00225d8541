//! What a file is, by its first bytes.

/// What a file is.
#[derive(Clone, Copy, Debug, PartialEq, Eq)]
pub enum FileKind {
    /// A log, of whatever format.
    Log,
    /// A master record.
    Master,
    /// The archive of an image copy, of whatever format.
    Archive,
    /// A volume.
    Volume,
}

/// The bytes with which a volume begins: page 0, and the format of pages.
const VOLUME: [u8; 8] = [0, 0, 0, 0, 1, 0, 0, 0];

/// What begins with these bytes, if anything that is known here does. It looks at eight of them and
/// does not say that the rest is right. A log, a master record and an archive are named by seven
/// characters, whatever format the eighth one names.
pub fn kind_of(bytes: &[u8]) -> Option<FileKind> {
    if bytes.len() < VOLUME.len() {
        return None;
    }
    match &bytes[..7] {
        b"AIMGLOG" => Some(FileKind::Log),
        b"AIMGMST" => Some(FileKind::Master),
        b"AIMGARC" => Some(FileKind::Archive),
        _ => if bytes.starts_with(&VOLUME) {
            Some(FileKind::Volume)
        } else {
            None
        },
    }
}
