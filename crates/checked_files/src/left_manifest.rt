//! The manifest of what an engine leaves, and how it is told from that of a database.

ghost use Rattle.std.specs.Prelude.{◌≡◌, ◌↔◌, ℕ, List, IfOk, IsTrue, OnOk};
ghost use Rattle.manifest.specs.Sums.{IsSumOf};
ghost use Rattle.saved_files.specs.PutFault.{bytes_by};
ghost use Rattle.saved_files.specs.Saved.{parts_of};
ghost use Rattle.checked_files.specs.Left.{AreNoted, NamesAllOfLog, Notes, NotesNoOther};

use copy_coverage::Retired;
use copy_vault::{CopyId, MAX_COPIES};
use manifest::{DatabaseName, Extent, FileSum, Manifest, Sum, Sums};
use saved_files::{FileFault, SavedName, Source};
use std::alloc::{AllocError, Global};

/// The name that a log has in a manifest.
const LOG: &str = "log";

/// The manifest of the files that `save_files` saves of what an engine leaves: the log, the master
/// record if there is one, and each complete copy, all of each. It is made of what is in memory;
/// each file is so for a moment. `AllocError` comes where memory is refused.
pub fn manifest_of(
    alloc: Global,
    database: DatabaseName,
    retired: &Retired,
) -> Result<Manifest, AllocError>
    ensures database { IfOk result (λ it. it.database ≡ database.0) }
    ensures noted { IfOk result (λ it. AreNoted (parts_of retired.now) it.entries) }
    ensures only { IfOk result (λ it. NotesNoOther (parts_of retired.now) it.entries) }
{
    let mut manifest = Manifest::new(alloc, database);
    note_file(&mut manifest, alloc, SavedName::Log, retired.log())?;
    if let Some(master) = retired.master() {
        note_file(&mut manifest, alloc, SavedName::Master, master)?;
    }
    let vault = retired.vault();
    for id in 1..=MAX_COPIES {
        if let Some(copy) = vault.complete(CopyId(id)) {
            note_file(&mut manifest, alloc, SavedName::Copy(CopyId(id)), copy)?;
        }
    }
    Ok(manifest)
}

/// Whether a manifest is one of saved files: it names all of their log. The manifest of a database
/// names the first bytes of its log, which grows.
pub fn is_of_saved_files(manifest: &Manifest) -> bool
    ensures { IsTrue result ↔ NamesAllOfLog manifest.now.entries }
{
    match manifest.entry(LOG) {
        Some(log) => log.extent == Extent::Whole,
        None => false,
    }
}

/// Notes a file under its name.
fn note_file<S: Source<Fault = FileFault> + Drop>(
    manifest: &mut Manifest,
    alloc: Global,
    file: SavedName,
    source: S,
) -> Result<(), AllocError>
    ensures noted { OnOk result (Notes file (bytes_by (S.gives source))
        manifest.old.entries manifest.new.entries) }
    ensures database { manifest.new.database ≡ manifest.old.database }
{
    let name = format!(in alloc; "{file}")?;
    let (sum, bytes) = sum_of_source(alloc, source)?;
    let known = FileSum {
        extent: Extent::Whole,
        bytes,
        sum,
    };
    match manifest.note(name.as_str(), known) {
        Ok(()) => Ok(()),
        Err(_) => Err(AllocError),
    }
}

/// The sum and the count of the bytes that a source gives.
fn sum_of_source<S: Source<Fault = FileFault> + Drop>(
    alloc: Global,
    mut source: S,
) -> Result<(Sum, u64), AllocError>
    ensures { IfOk result (λ it. (bytes : List ℕ)
        × bytes_by (S.gives source) bytes × IsSumOf it.0 it.1 bytes) }
{
    let mut bytes = Vec::new(alloc);
    match source.write_to(alloc, &mut bytes) {
        Ok(()) => {}
        Err(_) => return Err(AllocError),
    }
    let mut sums = Sums::new();
    sums.update(&bytes);
    Ok(sums.finish())
}
