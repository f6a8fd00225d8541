//! The manifest that an open database keeps, and the sum of its log.

ghost use Rattle.std.specs.Prelude.{IfOk, ℕ, ◌≡◌, ◌≢◌, ◌⊎◌, ◌++◌, [], List, IfSome, IsTrue, None};
ghost use Rattle.std.specs.Prelude.{OnOk, Some, false, string_bytes};
ghost use Rattle.std.specs.List.{flat_map};
ghost use Rattle.log_records.specs.Log.{Log as TheLog, header_bytes};
ghost use Rattle.log_records.specs.Record.{record_bytes};
ghost use Rattle.manifest.specs.Entries.{file_of};
ghost use Rattle.manifest.specs.declared.entry.Extent.TheVariants.{First};
ghost use Rattle.manifest.specs.Sums.{HasSummed, IsSumOf};
ghost use Rattle.database_files.specs.DatabaseFolder.{Tells};
ghost use Rattle.database_files.specs.Evidence.{log_line};
ghost use Rattle.database_files.specs.Kept.{HasSummedLog, HaveSummedLine, IsNameIn};
ghost use Rattle.database_files.specs.Kept.{KeepsFoundLines, KeepsLines, KeepsLinesOf};
ghost use Rattle.database_files.specs.Kept.{bytes_below};

use crate::database_folder::DatabaseFolder;
use crate::diagnostics::Diagnostics;
use crate::fault::OpenFault;
use crate::found_manifest::log_line;
use crate::names::{LOG, MANIFEST};
use crate::place::Place;
use log_records::{Record, encode, encode_header};
use manifest::{DatabaseName, Extent, FileSum, Manifest, Sums};
use page_core::{LSN_STEP, Lsn};
use saved_files::FileFault;
use std::alloc::Global;

/// How many lines a manifest may have.
const MOST_LINES: u32 = 4_096;

/// The sum of the first bytes of a log, which goes on where the log grows.
#[derive(Drop)]
pub struct LogSums {
    sums: Sums,
    /// How many records are summed, behind the header.
    records: usize,
}

impl LogSums {
    /// Of a log whose header gives this page count, the header is summed.
    pub fn new(pages: u32) -> LogSums
        ensures { (log : TheLog) → log.pages ≡ pages → HasSummedLog result log }
    {
        let mut sums = Sums::new();
        sums.update(&encode_header(pages));
        LogSums { sums, records: 0 }
    }

    /// Of the bytes of a log that a manifest names, if they are summed and end with its header or a
    /// record; or of a log whose header gives this page count.
    pub fn found(sums: Option<Sums>, line: Option<FileSum>, pages: u32) -> LogSums
        ensures { (log : TheLog) → log.pages ≡ pages → HaveSummedLine sums line log
            → HasSummedLog result log }
    {
        match (sums, line) {
            (Some(sums), Some(line)) if line.bytes >= LSN_STEP && line.bytes % LSN_STEP == 0 => {
                LogSums {
                    sums,
                    records: ((line.bytes / LSN_STEP) as usize).saturating_sub(1),
                }
            }
            _ => LogSums::new(pages),
        }
    }

    /// The sum of the bytes of a log up to this LSN, of which those that were summed before are
    /// not summed again. `None` comes where they are more than that.
    pub fn below(&mut self, records: &[Record], end: Lsn) -> Option<FileSum>
        ensures names { IfSome result (λ file. (log : TheLog) → log.records ≡ records.now
            → HasSummedLog self.old log → IsSumOf file.sum file.bytes (bytes_below end log)) }
        ensures extent { IfSome result (λ file. file.extent ≡ First) }
        ensures summed { (log : TheLog) → log.records ≡ records.now → HasSummedLog self.old log
            → HasSummedLog self.new log }
    {
        let count = ((end.0 / LSN_STEP) as usize).saturating_sub(1);
        let part = records.get(self.records..count)?;
        sum_records(&mut self.sums, part);
        self.records = count;
        let (sum, bytes) = self.sums.now();
        Some(FileSum {
            extent: Extent::First,
            bytes,
            sum,
        })
    }
}

/// Adds the bytes of these records.
fn sum_records(sums: &mut Sums, records: &[Record])
    ensures { (before : List ℕ) → HasSummed sums.old before
        → HasSummed sums.new (before ++ flat_map record_bytes records.now) }
{
    for record in records {
        sums.update(&encode(record));
    }
}

/// The manifest of an open database.
#[derive(Drop)]
pub struct KeptManifest {
    pub manifest: Manifest,
    pub log: LogSums,
    /// It stands in the folder as it is.
    pub is_placed: bool,
    /// What stands in the folder has a line that is to go.
    pub is_due: bool,
}

impl KeptManifest {
    /// The manifest of a new database of this name, whose log's header gives this page count.
    pub fn new(alloc: Global, database: DatabaseName, pages: u32) -> KeptManifest
        ensures manifest { result.manifest ≡ record { database = database.0; entries = [] } }
        ensures summed { (log : TheLog) → log.pages ≡ pages → HasSummedLog result.log log }
    {
        KeptManifest {
            manifest: Manifest::new(alloc, database),
            log: LogSums::new(pages),
            is_placed: false,
            is_due: false,
        }
    }

    /// The manifest of a database of this name: that which was found, if it still stands there,
    /// without the lines of files that are gone, and of a log that is another one; or a new one. The
    /// log's header gives this page count, and its bytes that were named have this sum.
    pub fn begin<F: DatabaseFolder>(
        diagnostics: &Diagnostics<'_>,
        folder: &F,
        database: DatabaseName,
        found: (Option<Manifest>, Option<Sums>),
        pages: u32,
    ) -> Result<KeptManifest, OpenFault>
        // The manifest that was found has this name.
        requires { IsNameIn found.0 database.0 }
        ensures database { IfOk result (λ it. it.manifest.database ≡ database.0) }
        ensures lines { IfOk result (λ it. IfSome found.0 (λ old. KeepsFoundLines
            (F.entries folder.now) found.1 old.entries it.manifest.entries)) }
        ensures summed { IfOk result (λ it. (log : TheLog) → log.pages ≡ pages
            → HaveSummedLine found.1 (log_line found.0) log → HasSummedLog it.log log) }
    {
        let mut kept = KeptManifest::new(diagnostics.alloc, database, pages);
        let (found, sums) = found;
        let line = log_line(&found);
        // A line that this log does not begin with is of another one.
        let is_of_this = line.is_none() || sums.is_some();
        kept.log = LogSums::found(sums, line, pages);
        let Some(it) = found else {
            return Ok(kept);
        };
        if !stands(folder, MANIFEST)? {
            return Ok(kept);
        }
        let (manifest, has_all) = lines_of(diagnostics, folder, it, is_of_this)?;
        kept.manifest = manifest;
        kept.is_placed = has_all;
        kept.is_due = !has_all;
        Ok(kept)
    }

    /// Whether what it says of the log is what is forced now.
    pub fn has_log_to(&self, end: Lsn) -> bool {
        match self.manifest.entry(LOG) {
            Some(file) => file.bytes == end.0,
            None => false,
        }
    }
}

/// A manifest without the lines of files that are gone, and of a log that is another one; and
/// whether it has all of its lines.
fn lines_of<F: DatabaseFolder>(
    diagnostics: &Diagnostics<'_>,
    folder: &F,
    manifest: Manifest,
    is_of_this: bool,
) -> Result<(Manifest, bool), OpenFault>
    ensures database { IfOk result (λ it. it.0.database ≡ manifest.database) }
    ensures kept { IfOk result (λ it. KeepsLinesOf (F.entries folder.now)
        is_of_this manifest.entries it.0.entries) }
{
    let (mut manifest, has_all) = without_lost(diagnostics, folder, manifest)?;
    if is_of_this {
        return Ok((manifest, has_all));
    }
    manifest.remove(LOG);
    Ok((manifest, false))
}

/// A manifest without the lines of files that are gone, and whether it has all of its lines. That of
/// a copy that is not sound stays, so that nobody takes this for a copy that no manifest names.
pub fn without_lost<F: DatabaseFolder>(
    diagnostics: &Diagnostics<'_>,
    folder: &F,
    mut manifest: Manifest,
) -> Result<(Manifest, bool), OpenFault>
    ensures database { IfOk result (λ it. it.0.database ≡ manifest.database) }
    ensures kept { IfOk result (λ it.
        KeepsLines (F.entries folder.now) manifest.entries it.0.entries) }
{
    let mut has_all = true;
    for _ in 0..MOST_LINES {
        let Some(name) = lost_name(diagnostics.alloc, folder, &manifest)? else {
            break;
        };
        let text = name.as_str();
        diagnostics.tell(
            Place::Manifest,
            &format_args!("the line of `{text}` is dropped"),
        );
        manifest.remove(text);
        has_all = false;
    }
    Ok((manifest, has_all))
}

/// The first file that a manifest names and that is gone.
fn lost_name<F: DatabaseFolder>(
    alloc: Global,
    folder: &F,
    manifest: &Manifest,
) -> Result<Option<String>, OpenFault>
    ensures { IfOk result (λ it. IfSome it (λ name.
        Tells (F.entries folder.now) (string_bytes name) false)) }
{
    for entry in manifest.entries() {
        let name = entry.name();
        if !stands(folder, name)? {
            return Ok(Some(String::from_str(alloc, name)?));
        }
    }
    Ok(None)
}

/// Whether something in the folder has this name.
fn stands<F: DatabaseFolder>(folder: &F, name: &str) -> Result<bool, OpenFault>
    ensures { IfOk result (Tells (F.entries folder.now) name.now) }
{
    match folder.has(name) {
        Ok(is) => Ok(is),
        Err(error) => Err(OpenFault::of_folder(error)),
    }
}

/// Notes what is known of a file.
pub fn note_file(manifest: &mut Manifest, name: &str, file: FileSum) -> Result<(), FileFault>
    ensures there { OnOk result (file_of name.now manifest.new.entries ≡ Some file) }
    ensures others { OnOk result ((other : List ℕ) → other ≢ name.now
        → file_of other manifest.new.entries ≡ file_of other manifest.old.entries) }
    ensures database { OnOk result (manifest.new.database ≡ manifest.old.database) }
{
    match manifest.note(name, file) {
        Ok(()) => Ok(()),
        Err(_) => Err(FileFault::OutOfMemory),
    }
}
