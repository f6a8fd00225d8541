//! A master record that is read before the log.
//!
//! A database that is open may put a newer master record in place at any time. If the log is read
//! first, that record may name a checkpoint which the log lacked when it was read, and may be
//! another file than the manifest named a moment before. So the record is read first, and again once
//! the manifest was read: until nothing has changed between both.

ghost use Rattle.std.specs.Prelude.{◌≡◌, IfSome, length};

use crate::input_names::InputNames;
use crate::manifests::Checks;
use crate::standing::is_regular;
use file_view::read_file;
use log_store::MASTER_BYTES;
use saved_files::NamedFiles;
use std::io::Read;
use std::{fs, io};

/// How often a master record that changes meanwhile is read again.
const MOST_READINGS: usize = 16;

/// A master record that was read, and its name.
#[derive(Drop)]
pub struct EarlyMaster {
    name: String,
    bytes: Vec<u8>,
}

impl EarlyMaster {
    /// Reads the master record that is named, if a regular file of its length stands there. What is
    /// wrong with another file is told where it is read in its turn.
    fn read(rt: &HostRuntime, names: &InputNames<'_>) -> Option<EarlyMaster>
        ensures { IfSome result (λ it. length it.bytes.items ≡ MASTER_BYTES) }
    {
        let name = names.master?;
        if !is_regular(rt, name) {
            return None;
        }
        let Ok(file) = fs::open(rt, name) else {
            return None;
        };
        let Ok(bytes) = read_file(rt.alloc(), &mut file.take(MASTER_BYTES as u64 + 1)) else {
            return None;
        };
        if bytes.len() != MASTER_BYTES {
            return None;
        }
        let Ok(name) = String::from_str(rt.alloc(), name) else {
            return None;
        };
        Some(EarlyMaster { name, bytes })
    }
}

/// The bytes of a master record; none where none was read.
fn bytes_of(master: &Option<EarlyMaster>) -> &[u8] {
    match master {
        Some(master) => master.bytes.as_slice(),
        None => &[],
    }
}

/// What manifests say of these files, and the master record as it stood while they were read. None
/// where a manifest is refused, which is told.
pub fn checks_and_master<'a>(
    rt: &HostRuntime,
    names: &InputNames<'a>,
) -> Option<(Checks<'a>, Option<EarlyMaster>)> {
    let mut master = EarlyMaster::read(rt, names);
    for _ in 1..MOST_READINGS {
        let checks = Checks::of(rt, names)?;
        let again = EarlyMaster::read(rt, names);
        if bytes_of(&again) == bytes_of(&master) {
            return Some((checks, master));
        }
        master = again;
    }
    Some((Checks::of(rt, names)?, master))
}

/// Files of which the master record was read before all others.
#[derive(Drop)]
pub struct MasterFirst<'f, 'm, N: NamedFiles> {
    pub files: &'f N,
    pub master: &'m Option<EarlyMaster>,
}

/// An open file, or the bytes of a master record that was read.
#[derive(Drop)]
pub enum EarlyFile<'a, F: Read> {
    Opened(F),
    Kept(&'a [u8]),
}

impl<F: Read> Read for EarlyFile<'_, F> {
    ghost use Rattle.file_inputs.specs.EarlyMaster.{left_of};

    ghost remaining = { left_of F.remaining };

    fn read(&mut self, buf: &mut [u8]) -> io::Result<usize> {
        match self {
            EarlyFile::Opened(file) => file.read(buf),
            EarlyFile::Kept(bytes) => bytes.read(buf),
        }
    }
}

impl<'f, 'm, N: NamedFiles> NamedFiles for MasterFirst<'f, 'm, N> {
    ghost use Rattle.file_inputs.specs.EarlyMaster.{bytes_with};

    type File = EarlyFile<'m, N::File>;

    ghost bytes = { λ it. bytes_with (N.bytes it.files.now) it.master.now };

    fn open(&self, name: &str) -> io::Result<EarlyFile<'m, N::File>> {
        match self.master {
            Some(master) if master.name.as_str() == name => Ok(EarlyFile::Kept(
                master.bytes.as_slice(),
            )),
            _ => Ok(EarlyFile::Opened(self.files.open(name)?)),
        }
    }

    fn tell_read(&self, place: usize) {
        self.files.tell_read(place);
    }
}
