//! A database of an older one's numbers, whose log begins anew.

ghost use Rattle.std.specs.Prelude.{◌≡◌, IfOk, None, length, true};
ghost use Rattle.engine_rules.specs.EngineState.{EngineState};
ghost use Rattle.log_records.specs.Log.{IsPageCount};
ghost use Rattle.database_backup.specs.Backups.{BacksUp};
ghost use Rattle.database_backup.specs.ClosedVolume.{IsOfClosed, IsRenewed, WasCopied, WasRenewed};
ghost use Rattle.open_database.specs.declared.open.OpenEnd.TheVariants.{Failed, Well};

use crate::checkpoint_and_copy::checkpoint_and_copy;
use crate::closed_volume::{have_same_numbers, read_closed};
use crate::fill::{fill, records_for};
use aries_core::{Engine, Setup};
use database_files::{DatabaseFolder, Diagnostics, KeptManifest, OpenFault, drawn_name};
use database_opening::begin;
use database_session::UnplacedCopies;
use file_devices::{FileDisk, FileLog};
use log_records::MAX_RECORDS;
use manifest::DatabaseName;
use open_database::{OpenEnd, reserve_standard_streams, session_on};
use page_core::Page;
use page_store::PageStore;
use saved_files::Folder;
use sqlite_disk::Start;
use std::alloc::{AllocError, Global};
use std::io::ErrorKind;
use std::{fs, io};
use system_database::{SystemDatabase, output};
use system_files::{Notes, SystemFolder};

/// Which database is to be renewed, and where.
#[derive(Clone, Copy)]
pub struct RenewCall<'a> {
    /// The folder of a closed database.
    pub old: &'a str,
    /// The folder in which the new one's folder is made. It has to be there.
    pub folder: &'a str,
    /// The name of the new one's folder, which must not be there.
    pub name: &'a str,
}

/// How many records the numbers of the old database may need: half of a log, so that the new one
/// has room to go on.
const MOST_RECORDS: u64 = MAX_RECORDS as u64 / 2;

/// What follows the name of the new folder as long as it is not whole.
const UNFINISHED: &str = ".unfinished-1";

/// Makes a new database of the numbers of a closed one: it has as many pages, each slot has the
/// number that was committed in the old one, and its log begins anew, with a complete checkpoint
/// and a full copy. The old folder is claimed, read, and left as it is.
///
/// The new folder is made under another name. It gets its own once it is closed and was read again,
/// with the same number in each slot: so it is whole, or not there. What the file of its log had is
/// supposed by `start`.
pub fn renew_folder<S: Start>(rt: &HostRuntime, call: &RenewCall<'_>, start: S) -> OpenEnd
    // What was read of the new database has the old one's numbers.
    ensures { result ≡ Well → WasRenewed }
{
    // Where a standard stream is closed, a file of the database must not get its number.
    let _reserved = reserve_standard_streams(rt);
    let notes = Notes::new();
    let diagnostics = Diagnostics::new(rt, call.old);
    let mut old = SystemDatabase::<S>::new(rt, call.old, (&notes, &notes), None);
    match old_pages(&diagnostics, &mut old) {
        Ok(pages) => renewed(rt, call, &pages, start),
        Err(fault) => failed(&diagnostics, &fault, &notes),
    }
}

fn failed(diagnostics: &Diagnostics<'_>, fault: &OpenFault, notes: &Notes) -> OpenEnd
    ensures { result ≡ Failed }
{
    diagnostics.tell_fault(fault, notes);
    OpenEnd::Failed
}

/// The pages of the old database, if they leave room in a new log.
fn old_pages<F: DatabaseFolder>(
    diagnostics: &Diagnostics<'_>,
    folder: &mut F,
) -> Result<Vec<Page>, OpenFault>
    ensures { IfOk result (λ pages. IsOfClosed pages.items) }
{
    folder.claim_or_wait()?;
    let pages = read_closed(diagnostics, folder)?;
    let needed = records_for(&pages);
    if needed > MOST_RECORDS {
        return Err(OpenFault::TooFull {
            needed,
            most: MOST_RECORDS,
        });
    }
    Ok(pages)
}

/// Makes a database of these pages, and gives it its name.
fn renewed<S: Start>(rt: &HostRuntime, call: &RenewCall<'_>, pages: &[Page], start: S) -> OpenEnd
    requires { IsPageCount (length pages.now) }
    ensures { result ≡ Well → IsRenewed pages.now }
{
    let notes = Notes::new();
    let diagnostics = Diagnostics::new(rt, call.folder);
    let mut parent = SystemFolder::new(rt, rt.alloc(), call.folder, &notes);
    let (name, path) = match made_folder(rt, &mut parent, call) {
        Ok(made) => made,
        Err(fault) => return failed(&diagnostics, &fault, &notes),
    };
    let end = filled(rt, path.as_str(), pages, start);
    if end != OpenEnd::Well {
        return end;
    }
    match put(&mut parent, name.as_str(), call.name) {
        Ok(()) => OpenEnd::Well,
        Err(error) => failed(&diagnostics, &OpenFault::of_folder(error), &notes),
    }
}

/// Makes the folder under the name that it has until it is whole. Answers that name, and its path.
fn made_folder(
    rt: &HostRuntime,
    parent: &mut SystemFolder<'_>,
    call: &RenewCall<'_>,
) -> Result<(String, String), OpenFault> {
    let alloc = rt.alloc();
    let (folder, name) = (call.folder, call.name);
    let unfinished = format!(in alloc; "{name}{UNFINISHED}")?;
    let path = format!(in alloc; "{folder}/{unfinished}")?;
    let whole = format!(in alloc; "{folder}/{name}")?;
    parent.open().map_err(OpenFault::of_folder)?;
    // Nothing is put into the folder of a database that is open.
    parent.claim_soon()?;
    parent.open().map_err(OpenFault::of_folder)?;
    match fs::symlink_metadata(rt, whole.as_str()) {
        Err(error) if error.kind() == ErrorKind::NotFound => {}
        Err(error) => return Err(OpenFault::of_folder(error)),
        Ok(_) => return Err(OpenFault::Taken(String::from_str(alloc, name)?)),
    }
    match fs::create_dir(rt, path.as_str()) {
        Ok(()) => Ok((unfinished, path)),
        Err(error) if error.kind() == ErrorKind::AlreadyExists => Err(OpenFault::Taken(unfinished)),
        Err(error) => Err(OpenFault::of_folder(error)),
    }
}

/// Gives the folder its name, and has that last.
fn put(parent: &mut SystemFolder<'_>, from: &str, name: &str) -> io::Result<()> {
    parent.rename(from, name)?;
    parent.sync_names()
}

/// Makes a database of these pages in an empty folder, closes it, and reads it again.
fn filled<S: Start>(rt: &HostRuntime, path: &str, pages: &[Page], start: S) -> OpenEnd
    requires { IsPageCount (length pages.now) }
    ensures { result ≡ Well → IsRenewed pages.now }
{
    let end = make_and_close(rt, path, pages, start);
    if end != OpenEnd::Well {
        return end;
    }
    let notes = Notes::new();
    let diagnostics = Diagnostics::new(rt, path);
    let folder = SystemDatabase::<S>::new(rt, path, (&notes, &notes), None);
    match read_closed(&diagnostics, &folder) {
        Ok(new) if have_same_numbers(pages, &new) => OpenEnd::Well,
        Ok(_) => failed(&diagnostics, &OpenFault::OtherNumbers, &notes),
        Err(fault) => failed(&diagnostics, &fault, &notes),
    }
}

/// Makes the new database, with a checkpoint and a copy, and closes it.
fn make_and_close<S: Start>(rt: &HostRuntime, path: &str, pages: &[Page], start: S) -> OpenEnd
    requires { IsPageCount (length pages.now) }
    ensures { result ≡ Well → WasCopied }
{
    let (notes, store_notes) = (Notes::new(), Notes::new());
    let diagnostics = Diagnostics::new(rt, path);
    let mut folder = SystemDatabase::new(rt, path, (&notes, &store_notes), Some(start));
    match begun(&diagnostics, &mut folder, pages) {
        Ok(begun) => finished(rt, &diagnostics, folder, (&notes, &store_notes), begun),
        Err(fault) => failed(&diagnostics, &fault, &notes),
    }
}

/// A new engine with these numbers.
fn begun<F: DatabaseFolder>(
    diagnostics: &Diagnostics<'_>,
    folder: &mut F,
    pages: &[Page],
) -> Result<
    (
        Engine<F::Volume, FileLog<F::LogDisk>>,
        UnplacedCopies,
        DatabaseName,
    ),
    OpenFault,
>
    requires { IsPageCount (length pages.now) }
{
    if let Some(most) = folder.low_limit()? {
        return Err(OpenFault::SmallFiles(most));
    }
    folder.claim_or_wait()?;
    let unplaced = UnplacedCopies::new(diagnostics.alloc)?;
    let database = drawn_name(folder)?;
    let count = pages.len() as u32;
    let setup = Setup {
        pages: count,
        frames: count,
    };
    let mut engine = begin(diagnostics.alloc, folder, None, setup)?;
    match fill(&mut engine, pages) {
        Ok(()) => Ok((engine, unplaced, database)),
        Err(why) => Err(OpenFault::Unfilled(why)),
    }
}

/// Has a new database make a checkpoint and a copy, and closes it.
fn finished<'a, S: PageStore + Drop, T: Start>(
    rt: &HostRuntime,
    diagnostics: &Diagnostics<'a>,
    folder: SystemDatabase<'a, T>,
    notes: (&'a Notes, &'a Notes),
    begun: (
        Engine<S, FileLog<FileDisk<T>>>,
        UnplacedCopies,
        DatabaseName,
    ),
) -> OpenEnd
    ensures { result ≡ Well → (ended : EngineState) × BacksUp true None begun.0.state ended }
{
    let (engine, unplaced, database) = begun;
    let mut kept = KeptManifest::new(diagnostics.alloc, database, engine.log().header_pages());
    let mut session = session_on(diagnostics, folder, notes, engine, unplaced);
    let written = Notes::new();
    let copied = checkpoint_and_copy(&mut session, None, &mut output(rt, &written), &written);
    session.close(&mut kept);
    match copied {
        Some(_) if !session.has_failed => OpenEnd::Well,
        _ => OpenEnd::Failed,
    }
}
