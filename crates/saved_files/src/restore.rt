//! Restores a volume from named files.

ghost use Rattle.std.specs.Prelude.{◌≡◌, ◌<◌, ◌≤◌, map, IfErr, IfOk, OnOk};
ghost use Rattle.std.specs.Io.Buffered.{reader_remaining};
ghost use Rattle.media_restore.specs.Files.{Leaves, WritesVolume};
ghost use Rattle.saved_files.specs.LateFile.{left_of};

use crate::late_file::LateFile;
use crate::named_files::NamedFiles;
use crate::told::Told;
use media_restore::{RestoreFault, restore_files};
use std::alloc::{AllocError, Global};
use std::io::{BufReader, Write};
use std::thread::Threads;

/// The places of the log, of the master record, and of the first archive.
pub(crate) const LOG: usize = 0;

pub(crate) const MASTER: usize = 1;

const FIRST_ARCHIVE: usize = 2;

/// How many archives are read in the largest pieces. More of them share as much memory.
const FEW_ARCHIVES: usize = 64;

/// How many bytes of an archive are read at once, if there are few.
const PIECE_BYTES: usize = 65_536;

/// Restores a volume from the files of these names: a log, its master record, and the archives of a
/// chain of copies in order. The faults are those of `restore_files`; a file that cannot be opened
/// is one whose first read fails. Each file is opened when it is first read, and closed at its end.
/// The writer is not flushed.
///
/// The archives are open side by side. Each is read in pieces of 64 KiB, or of less where there are
/// over 64 archives, so that 1,024 of them take 4 MiB.
pub fn restore_volume<N: NamedFiles, W: Write>(
    files: &N,
    rt: &(impl Threads + Sync),
    alloc: Global,
    log: &str,
    master: &str,
    archives: &[&str],
    writer: &mut W,
) -> Result<(), RestoreFault>
    ensures ok { OnOk result (WritesVolume
        (record {
          log = N.bytes files.now log.now;
          master = N.bytes files.now master.now;
          archives = map (λ name. N.bytes files.now name.now) archives.now;
        })
        (W.contents writer.old) (W.contents writer.new)) }
    ensures err { IfErr result (Leaves
        (record {
          log = N.bytes files.now log.now;
          master = N.bytes files.now master.now;
          archives = map (λ name. N.bytes files.now name.now) archives.now;
        })
        (W.contents writer.old) (W.contents writer.new)) }
{
    let mut readers = told_readers(alloc, files, archives)?;
    let mut log = told_late(files, LOG, log);
    let mut master = told_late(files, MASTER, master);
    restore_files(rt, alloc, &mut log, &mut master, &mut readers, writer)
}

/// The file of this name, which stands at this place.
pub(crate) fn told_late<'a, N: NamedFiles>(
    files: &'a N,
    place: usize,
    name: &'a str,
) -> Told<'a, N, LateFile<'a, N>>
    ensures { left_of N.File.remaining
        (N.bytes result.reader.files.now result.reader.name.now) result.reader.stage
        ≡ N.bytes files.now name.now }
{
    Told::new(files, place, LateFile::new(files, name))
}

/// The file of this name, which stands at this place, read so many bytes at a time.
fn told_in_pieces<'a, N: NamedFiles>(
    alloc: Global,
    files: &'a N,
    place: usize,
    name: &'a str,
    piece: usize,
) -> Result<Told<'a, N, BufReader<LateFile<'a, N>>>, AllocError>
    requires { 0 < piece }
    ensures { IfOk result (λ it. reader_remaining
        (λ file. left_of N.File.remaining (N.bytes file.files.now file.name.now) file.stage)
        it.reader ≡ N.bytes files.now name.now) }
{
    match BufReader::with_capacity(alloc, piece, LateFile::new(files, name)) {
        Ok(late) => Ok(Told::new(files, place, late)),
        Err(_) => Err(AllocError),
    }
}

/// The files of these names, which stand at the places of the archives.
pub(crate) fn told_readers<'a, N: NamedFiles>(
    alloc: Global,
    files: &'a N,
    names: &[&'a str],
) -> Result<Vec<Told<'a, N, BufReader<LateFile<'a, N>>>>, AllocError>
    ensures { IfOk result (λ readers. map (λ it. reader_remaining
        (λ file. left_of N.File.remaining (N.bytes file.files.now file.name.now) file.stage)
        it.reader) readers.items ≡ map (λ name. N.bytes files.now name.now) names.now) }
{
    let piece = piece_for(names.len());
    let mut readers = Vec::with_capacity(alloc, names.len())?;
    for name in names {
        let place = FIRST_ARCHIVE + readers.len();
        let reader = told_in_pieces(alloc, files, place, name, piece)?;
        readers.push(reader)?;
    }
    Ok(readers)
}

/// How many bytes of each archive are read at once, of so many archives.
fn piece_for(archives: usize) -> usize
    ensures some { 0 < result }
    ensures most { result ≤ PIECE_BYTES }
    ensures few { archives ≤ FEW_ARCHIVES → result ≡ PIECE_BYTES }
{
    if archives <= FEW_ARCHIVES {
        PIECE_BYTES
    } else {
        (FEW_ARCHIVES * PIECE_BYTES / archives).clamp(1, PIECE_BYTES)
    }
}
