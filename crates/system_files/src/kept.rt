//! What an output does not replace, unless it is told to.

ghost use Rattle.system_files.specs.CopyNames.{IsReadOf, NamesCopy, SpellsId};

use std::io::{ErrorKind, Read};
use std::path::AsPath;
use std::rt::Files;
use std::{fmt, fs, io};

/// How many bytes tell what a file is.
const MAGIC_BYTES: usize = 8;

/// The bytes with which a volume begins: page 0, and the format of pages.
const VOLUME: [u8; MAGIC_BYTES] = [0, 0, 0, 0, 1, 0, 0, 0];

/// With what the name of an image copy begins, before its id.
const COPY: &str = "copy-";

/// Why a file is not replaced unless that is asked for. Its text says what the file is.
#[derive(Clone, Copy, Debug, PartialEq, Eq)]
pub enum Kept {
    /// It begins as a log does.
    Log,
    /// It begins as a master record does.
    Master,
    /// It begins as an image copy does.
    Copy,
    /// It begins like nothing that is known here, and has the name of a log.
    MaybeLog,
    /// It begins like nothing that is known here, and has the name of a master record.
    MaybeMaster,
    /// It begins like nothing that is known here, and has the name of an image copy.
    MaybeCopy,
    /// It begins like nothing that is known here, and has the name of the note of a closing.
    MaybeNote,
    /// It begins like nothing that is known here, and has a name that an opening gives what it puts
    /// aside.
    MaybePutAside,
    /// It cannot be read.
    Unread,
    /// The command that writes the output reads it.
    Input,
}

impl fmt::Display for Kept {
    fn fmt<W: fmt::Write>(&self, f: &mut fmt::Formatter<W>) -> fmt::Result {
        f.write_str(match self {
            Kept::Log => "this is a log",
            Kept::Master => "this is a master record",
            Kept::Copy => "this is an image copy",
            Kept::MaybeLog => "this may be a log, by its name",
            Kept::MaybeMaster => "this may be a master record, by its name",
            Kept::MaybeCopy => "this may be an image copy, by its name",
            Kept::MaybeNote => "this may be the note of a closing, by its name",
            Kept::MaybePutAside => "this may have been put aside by an opening, by its name",
            Kept::Unread => "this cannot be read, and may be a log",
            Kept::Input => "this is an input of the same command",
        })
    }
}

/// Why the file at this place, which has this name there, is not replaced; none where nothing
/// stands there, or what may be replaced. Its first bytes tell what it is, whatever the format, and
/// its name where they tell nothing. A link is followed.
pub fn kept_at<R: Files, P: AsPath>(files: &R, place: P, name: &str) -> Option<Kept> {
    let place = place.path_text();
    let there = match fs::metadata(files, place) {
        Ok(there) => there,
        Err(error) => {
            return match error.kind() {
                ErrorKind::NotFound | ErrorKind::NotADirectory => None,
                _ => Some(Kept::Unread),
            };
        }
    };
    if !there.is_file() {
        return kept_by_name(name);
    }
    let Ok(first) = first_bytes(files, place) else {
        return Some(Kept::Unread);
    };
    match &first[..MAGIC_BYTES - 1] {
        b"AIMGLOG" => Some(Kept::Log),
        b"AIMGMST" => Some(Kept::Master),
        b"AIMGARC" => Some(Kept::Copy),
        _ if first == VOLUME => None,
        _ => kept_by_name(name),
    }
}

/// What a file may be by its name.
fn kept_by_name(name: &str) -> Option<Kept> {
    match name {
        "log" => Some(Kept::MaybeLog),
        "master" => Some(Kept::MaybeMaster),
        "closed" => Some(Kept::MaybeNote),
        _ if name.starts_with("log.left-out-") || name.contains(".refused") => {
            Some(Kept::MaybePutAside)
        }
        _ => {
            copy_id(name)?;
            Some(Kept::MaybeCopy)
        }
    }
}

/// The id of the image copy whose file has this name in a folder.
pub fn copy_id(name: &str) -> Option<u32>
    ensures { IsReadOf NamesCopy name.now result }
{
    number_of(name.strip_prefix(COPY)?)
}

/// The number above 0 that is written so.
fn number_of(digits: &str) -> Option<u32>
    ensures { IsReadOf SpellsId digits.now result }
{
    if digits.starts_with('0') || digits.starts_with('+') {
        return None;
    }
    digits.parse().ok()
}

/// The first bytes of a file. Zeros stand for those that a short file lacks.
fn first_bytes<R: Files>(files: &R, place: &str) -> io::Result<[u8; MAGIC_BYTES]> {
    let mut file = fs::open(files, place)?;
    let mut bytes = [0; MAGIC_BYTES];
    let mut count = 0usize;
    for _ in 0..MAGIC_BYTES {
        let Some(rest) = bytes.get_mut(count..) else {
            break;
        };
        let more = file.read(rest)?;
        if more == 0 {
            break;
        }
        count = count.saturating_add(more);
    }
    Ok(bytes)
}
