//! Files that are read by their names, and bytes as those of another file.

ghost use Rattle.std.specs.Prelude.{◌≡◌, ◌≤◌, IfOk, IfSome, length, take};
ghost use Rattle.std.specs.Io.KnownBytes.{Appends};
ghost use Rattle.database_files.specs.DatabaseFolder.{BeginsIn, Reads};
ghost use Rattle.saved_files.specs.FileFault.{Leaves};

use crate::database_folder::{DatabaseFolder, Standing};
use crate::fault::OpenFault;
use crate::place::Place;
use page_core::write_out;
use saved_files::{FileFault, Source};
use std::alloc::Global;
use std::io;
use std::io::{Read, Write};

/// The bytes of a file of a folder, if it is there.
pub fn read_whole<F: DatabaseFolder>(
    folder: &F,
    place: Place,
    name: &str,
) -> Result<Option<Vec<u8>>, OpenFault>
    ensures { IfOk result (λ it.
        Reads it (λ bytes. bytes.items) (F.entries folder.now) name.now) }
{
    match folder.whole(name) {
        Ok(Standing::File(bytes)) => Ok(Some(bytes)),
        Ok(Standing::NotAFile) => Err(OpenFault::NotAFile(place)),
        Ok(Standing::Absent) => Ok(None),
        Err(error) => Err(OpenFault::of(place, &error)),
    }
}

/// Reads the first bytes of a file of a folder, as many as the buffer has room for, and says how
/// many these are.
pub(crate) fn read_first<F: DatabaseFolder>(
    folder: &F,
    name: &str,
    bytes: &mut [u8],
) -> io::Result<Standing<usize>>
    ensures { IfOk result (λ it. IfSome (F.entries folder.now) (λ there.
        BeginsIn it bytes.new (there name.now))) }
{
    match folder.open_file(name)? {
        Standing::File(mut file) => Ok(Standing::File(fill(&mut file, bytes)?)),
        Standing::NotAFile => Ok(Standing::NotAFile),
        Standing::Absent => Ok(Standing::Absent),
    }
}

/// Fills the buffer as far as the reader has bytes, and says how far that is.
fn fill<R: Read>(file: &mut R, bytes: &mut [u8]) -> io::Result<usize>
    ensures within { IfOk result (λ len. len ≤ length bytes.new) }
    ensures first { IfOk result (λ len. IfSome (R.remaining file.old) (λ all.
        take len bytes.new ≡ take (length bytes.new) all)) }
{
    let mut len = 0;
    for _ in 0..=bytes.len() {
        let count = file.read(&mut bytes[len..])?;
        if count == 0 {
            break;
        }
        len += count;
    }
    Ok(len)
}

/// The first bytes of a buffer, if it has so many.
pub(crate) fn first_of(bytes: &[u8], len: usize) -> &[u8]
    ensures { len ≤ length bytes.now → result.now ≡ take len bytes.now }
{
    bytes.get(..len).unwrap_or(&[])
}

/// Bytes that a file is made of.
#[derive(Clone, Copy)]
pub struct Bytes<'a> {
    pub bytes: &'a [u8],
}

impl Source for Bytes<'_> {
    type Fault = FileFault;

    ghost gives = { λ it old new. Appends old new it.bytes.now };

    ghost leaves = { λ it fault old new. Leaves it.bytes.now old new fault };

    fn write_to<W: Write>(&mut self, _alloc: Global, writer: &mut W) -> Result<(), FileFault> {
        match write_out(writer, self.bytes) {
            Ok(()) => Ok(()),
            Err(done) => Err(FileFault::WriteFault(done)),
        }
    }
}
