//! The files that a manifest names, summed side by side.

ghost use Rattle.std.specs.Prelude.{ℕ, ◌≡◌, ◌<◌, IfOk, IfSome, IsOkAnd, IsTrue, length, string_bytes};
ghost use Rattle.std.specs.List.{All};
ghost use Rattle.manifest.specs.Checking.{IsNamed, part_of};
ghost use Rattle.manifest.specs.Sums.{IsSumOf};
ghost use Rattle.folder_reports.specs.Named.{AreNamed, IsAsSaid, IsNamedIn};
ghost use Rattle.folder_reports.specs.Summed.{AreFilesOf, AreSummed, IsRight, Sums};

use crate::folder_files::DatabaseFiles;
use crate::named_files::log_length;
use crate::report::FolderReport;
use crate::trouble::Trouble;
use crate::unread::no_entry;
use checked_files::{Known, ManifestUse, ReadFile, known_file};
use database_files::Standing;
use manifest::{Extent, FileSum, Manifest, Sum, sum_rest};
use page_core::zeros;
use std::alloc::{AllocError, Global};
use std::io::Read;
use std::thread::Threads;
use std::{io, thread};

/// How many bytes of a file are summed at once.
const PIECE_BYTES: usize = 65_536;

/// How many files are summed side by side at most.
const MOST_THREADS: usize = 16;

/// A file that a manifest names, what it says of it, and whether it is as it says, once it was
/// summed.
#[derive(Drop)]
pub struct SummedFile {
    pub name: String,
    pub known: Known,
    pub done: io::Result<bool>,
}

impl SummedFile {
    /// Sums the file, if it is named.
    fn sum<F: DatabaseFiles>(&mut self, alloc: Global, folder: &F)
        ensures { Sums (F.entries folder.now) self.old self.new }
    {
        self.done = match self.known {
            Known::Named(file) => is_named(alloc, folder, self.name.as_str(), file),
            Known::Nothing | Known::Unnamed => Ok(true),
        };
    }
}

/// Sums each file of a folder that the manifest names, side by side, and puts a line for each behind
/// the lines. Says whether each is the file that is named. A master record beside a log that has
/// grown is left out: a newer one may have taken its place.
pub(crate) fn files_are_named<T: Threads + Sync, F: DatabaseFiles + Sync>(
    alloc: Global,
    threads: &T,
    folder: &F,
    manifest: &Manifest,
    report: &mut FolderReport,
) -> Result<bool, AllocError>
    ensures { IfOk result (λ it. IsTrue it → AreNamed (F.entries folder.now) manifest.now) }
{
    let log = log_length(folder);
    let mut files = files_of(alloc, manifest, log)?;
    sum_all(alloc, threads, folder, &mut files);
    tell_all(alloc, &files, report)
}

/// The files that a manifest names, of which none is summed yet, beside a log of so many bytes.
fn files_of(
    alloc: Global,
    manifest: &Manifest,
    log: Option<u64>,
) -> Result<Vec<SummedFile>, AllocError>
    ensures { IfOk result (λ files. AreFilesOf manifest.now log files.items) }
{
    let entries = manifest.entries();
    let mut files = Vec::new(alloc);
    for entry in entries {
        let name = entry.name();
        let file = ReadFile {
            name,
            in_part: false,
            log,
        };
        files.push(SummedFile {
            name: String::from_str(alloc, name)?,
            known: known_file(ManifestUse::Beside, Some(manifest), &file),
            done: Ok(false),
        })?;
    }
    Ok(files)
}

/// Sums these files side by side.
fn sum_all<T: Threads + Sync, F: DatabaseFiles + Sync>(
    alloc: Global,
    threads: &T,
    folder: &F,
    files: &mut [SummedFile],
)
    ensures { AreSummed (F.entries folder.now) files.old files.new }
{
    thread::for_each_mut(
        threads,
        files,
        MOST_THREADS,
        &|_, it: &mut SummedFile| it.sum(alloc, folder),
    );
}

/// Puts the lines of files that were summed behind the lines. Says whether each is as the manifest
/// says.
fn tell_all(
    alloc: Global,
    files: &[SummedFile],
    report: &mut FolderReport,
) -> Result<bool, AllocError>
    ensures { IfOk result (λ it. IsTrue it → All IsRight files.now) }
{
    let mut are_right = true;
    for file in files {
        let is_right = tell_summed(alloc, file, report)?;
        are_right = are_right && is_right;
    }
    Ok(are_right)
}

/// Puts the line of a file that was summed behind the lines, if it is named. Says whether it is the
/// one that is named; why it could not be read is told.
fn tell_summed(
    alloc: Global,
    file: &SummedFile,
    report: &mut FolderReport,
) -> Result<bool, AllocError>
    ensures { IfOk result (λ it. IsTrue it → IsRight file.now) }
{
    let Known::Named(_) = file.known else {
        return Ok(matches!(file.done, Ok(true)));
    };
    let name = file.name.as_str();
    match &file.done {
        Ok(true) => {
            writeln!(report.lines, "{name} sound")?;
            Ok(true)
        }
        Ok(false) => {
            writeln!(
                report.lines,
                "{name} is not the file that the manifest names"
            )?;
            Ok(false)
        }
        Err(error) => {
            let code = error.raw_os_error();
            report.tell(Trouble::Unsummed(String::from_str(alloc, name)?, code))?;
            writeln!(
                report.lines,
                "{name} is not the file that the manifest names"
            )?;
            Ok(false)
        }
    }
}

/// Whether the file of this name is the one that is named.
fn is_named<F: DatabaseFiles>(
    alloc: Global,
    folder: &F,
    name: &str,
    named: FileSum,
) -> io::Result<bool>
    ensures { IfOk result (λ it. IsTrue it → IsNamedIn (F.entries folder.now) named name.now) }
{
    match folder.open_file(name)? {
        Standing::File(file) => agrees(alloc, file, named),
        Standing::NotAFile => Ok(false),
        Standing::Absent => Err(no_entry()),
    }
}

/// Whether an open file is the one that is named.
fn agrees<R: Read + Drop>(alloc: Global, file: R, named: FileSum) -> io::Result<bool>
    ensures { IfOk result (λ it. IsTrue it → IfSome (R.remaining file) (IsNamed named)) }
{
    let (sum, count) = sum_of(alloc, file, named)?;
    Ok(named.agrees(sum, count))
}

/// The sum and the count of the bytes of an open file, or of as many of the first ones as are named.
fn sum_of<R: Read + Drop>(alloc: Global, mut file: R, named: FileSum) -> io::Result<(Sum, u64)>
    ensures { IfOk result (λ it.
        IfSome (R.remaining file) (λ all. IsSumOf it.0 it.1 (part_of named all))) }
{
    let mut room = zeros(alloc, PIECE_BYTES)?;
    match named.extent {
        Extent::Whole => sum_rest(&mut file, &mut room),
        Extent::First => sum_rest(&mut file.take(named.bytes), &mut room),
    }
}
