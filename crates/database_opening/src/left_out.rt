//! Bytes that are put aside: those behind a log's front, before the log is cut there, and a volume.

ghost use Rattle.std.specs.Prelude.{◌≡◌, ◌≢◌, ◌↔◌, IfOk, IsTrue, OnOk, codes};
ghost use Rattle.std.specs.String.{string_bytes};
ghost use Rattle.std.specs.Io.KnownBytes.{Appends};
ghost use Rattle.saved_files.specs.FileFault.{Leaves};
ghost use Rattle.saved_files.specs.Folder.{Changes, IsSame};
ghost use Rattle.database_files.specs.Closed.{KeepsNote};
ghost use Rattle.database_files.specs.LeftOut.{IsKept, IsWorthKeeping};
ghost use Rattle.database_files.specs.MovedAside.{IsFree};
ghost use Rattle.database_files.specs.Standing.{KeepsFiles};

use database_files::{ChangeFault, DatabaseFolder, Diagnostics, LEFT_OUT, Place};
use log_records::RECORD_BYTES;
use page_core::write_out;
use saved_files::{FileFault, PutFault, Source, put_in_place};
use std::alloc::{AllocError, Global};
use std::io::Write;

/// How many files of bytes that were left out may stand in a folder.
const MOST_LEFT_OUT: u32 = 1_000;

/// Bytes of an old volume, before a number.
const VOLUME_LEFT_OUT: &str = "volume.left-out-";

/// Where bytes that are put aside stood.
#[derive(Clone, Copy)]
pub(crate) enum Origin {
    /// Behind a log's front.
    Log,
    /// They are the whole of a volume.
    Volume,
}

/// Bytes that are left out.
#[derive(Drop)]
struct LeftOut<'a> {
    bytes: &'a [u8],
}

impl Source for LeftOut<'_> {
    type Fault = FileFault;

    ghost gives = { λ it old new. Appends old new it.bytes.now };

    ghost leaves = { λ it fault old new. Leaves it.bytes.now old new fault };

    fn write_to<W: Write>(&mut self, _alloc: Global, writer: &mut W) -> Result<(), FileFault> {
        match write_out(writer, self.bytes) {
            Ok(()) => Ok(()),
            Err(done) => Err(FileFault::WriteFault(done)),
        }
    }
}

/// Whether something may be missed of these bytes: as many as a record has, and not zeros alone.
fn is_worth_keeping(bytes: &[u8]) -> bool
    ensures { IsTrue result ↔ IsWorthKeeping bytes.now }
{
    bytes.len() >= RECORD_BYTES && bytes.iter().any(|byte| *byte != 0)
}

/// Keeps the bytes behind a log in a file of their own, `log.left-out-1` or one with the next
/// number that is free, whole and synced. Zeros, and less than a record, are not kept.
pub(crate) fn put_aside<F: DatabaseFolder>(
    diagnostics: &Diagnostics<'_>,
    folder: &mut F,
    bytes: &[u8],
) -> Result<(), ChangeFault>
    requires { F.is_claimed folder.old }
    ensures kept { OnOk result (IsWorthKeeping bytes.now
        → IsKept (F.entries folder.old) bytes.now (F.entries folder.new)) }
    ensures stored { OnOk result (IsWorthKeeping bytes.now → F.is_stored folder.new) }
    ensures same { OnOk result (¬ IsWorthKeeping bytes.now
        → Changes IsSame (F.entries folder.old) (F.entries folder.new)) }
    ensures note { OnOk result (KeepsNote (F.entries folder.old) (F.entries folder.new)) }
    ensures files { Changes KeepsFiles (F.entries folder.old) (F.entries folder.new) }
    ensures claimed { F.is_claimed folder.new }
{
    if !is_worth_keeping(bytes) {
        return Ok(());
    }
    keep_bytes(diagnostics, folder, Origin::Log, bytes)
}

/// Keeps bytes in a file of their own, `log.left-out-1`, `volume.left-out-1` or one with the next
/// number that is free, whole and synced.
pub(crate) fn keep_bytes<F: DatabaseFolder>(
    diagnostics: &Diagnostics<'_>,
    folder: &mut F,
    origin: Origin,
    bytes: &[u8],
) -> Result<(), ChangeFault>
    requires { F.is_claimed folder.old }
    ensures kept { OnOk result (IsKept (F.entries folder.old) bytes.now (F.entries folder.new)) }
    ensures stored { OnOk result (F.is_stored folder.new) }
    ensures note { OnOk result (KeepsNote (F.entries folder.old) (F.entries folder.new)) }
    ensures files { Changes KeepsFiles (F.entries folder.old) (F.entries folder.new) }
    ensures claimed { F.is_claimed folder.new }
{
    let name = free_name(diagnostics.alloc, folder, origin)?;
    let mut source = LeftOut { bytes };
    let put = put_in_place(folder, diagnostics.alloc, name.as_str(), &mut source);
    if let Err(PutFault::Unmade(why) | PutFault::Unwritten(why) | PutFault::Unplaced(why)) = put {
        return Err(ChangeFault::NotAside(why));
    }
    folder.sync_names().map_err(ChangeFault::of_folder)?;
    let new = name.as_str();
    match origin {
        Origin::Log => diagnostics.tell(Place::Log, &format_args!("they are now {new}")),
        Origin::Volume => diagnostics.tell(
            Place::Volume,
            &format_args!("what stood there is now {new} too"),
        ),
    }
    Ok(())
}

/// The first name for such bytes that nothing in the folder has.
fn free_name<F: DatabaseFolder>(
    alloc: Global,
    folder: &F,
    origin: Origin,
) -> Result<String, ChangeFault>
    ensures apart { IfOk result (λ it. string_bytes it ≢ codes "closed") }
    ensures free { IfOk result (λ it. IsFree (string_bytes it) (F.entries folder.now)) }
{
    for number in 1..=MOST_LEFT_OUT {
        let name = name_of(alloc, origin, number)?;
        match folder.has(name.as_str()) {
            Ok(true) => {}
            Ok(false) => return Ok(name),
            Err(error) => return Err(ChangeFault::of_folder(error)),
        }
    }
    Err(ChangeFault::NotAside(FileFault::WriteFault(0)))
}

fn name_of(alloc: Global, origin: Origin, number: u32) -> Result<String, AllocError>
    ensures { IfOk result (λ it. string_bytes it ≢ codes "closed") }
{
    match origin {
        Origin::Log => format!(in alloc; "{LEFT_OUT}{number}"),
        Origin::Volume => format!(in alloc; "{VOLUME_LEFT_OUT}{number}"),
    }
}
