//! Files that are put in place while others work.

ghost use Rattle.std.specs.Prelude.{OnOk};
ghost use Rattle.imgcopy_engine.specs.engine_run.CopyWrite.{LeavesCopyOf, WritesCopyOf};
ghost use Rattle.imgcopy_engine.specs.saved_files.Folder.{Changes, Puts};
ghost use Rattle.imgcopy_engine.specs.saved_files.PutFault.{bytes_by};
ghost use Rattle.imgcopy_engine.specs.saved_files.Saved.{name_of};
ghost use Rattle.imgcopy_engine.specs.saved_files.declared.saved_name.SavedName.TheVariants as saved;
ghost use Rattle.demo_bank.specs.Put.{WritesMasterOf};

use crate::clerk::Bank;
use crate::hall::Hall;
use crate::halt::{FileTrouble, Halt, Place};
use imgcopy_engine::{
    CopyId, CopyWriteFault, FileFault, Folder, Life, LogDevice, Master, Notes, PageStore, Point,
    PutFault, Refusal, SavedName, Source, SystemFolder, put_in_place,
};
use std::alloc::Global;
use std::io::Write;
use std::sync::Wait;

/// A copy of a shared engine, whose archive is written.
#[derive(Drop)]
struct SharedCopy<'a, R: Wait, S: PageStore, D: LogDevice, G: Life> {
    rt: &'a R,
    bank: &'a Bank<S, D, G>,
    id: CopyId,
}

impl<R: Wait, S: PageStore, D: LogDevice, G: Life> Source for SharedCopy<'_, R, S, D, G> {
    type Fault = CopyWriteFault;

    ghost gives = { λ it old new. WritesCopyOf it.id old new };

    ghost leaves = { λ it fault old new. LeavesCopyOf it.id old new fault };

    fn write_to<W: Write>(&mut self, alloc: Global, writer: &mut W) -> Result<(), CopyWriteFault> {
        self.bank.write_copy(self.rt, alloc, self.id, writer)
    }
}

/// Puts a file of a run in its place, and has its name last.
fn place<F: Folder, S: Source>(
    folder: &mut F,
    alloc: Global,
    file: SavedName,
    source: &mut S,
) -> Result<(), PutFault<S::Fault>>
    requires { F.is_claimed folder.old }
    ensures put { OnOk result (Changes (Puts (name_of file) (bytes_by (S.gives source.old)))
        (F.entries folder.old) (F.entries folder.new)) }
    ensures stored { OnOk result (F.is_stored folder.new) }
{
    let Ok(name) = format!(in alloc; "{file}") else {
        return Err(PutFault::Unmade(FileFault::OutOfMemory));
    };
    if let Err(why) = put_in_place(folder, alloc, name.as_str(), source) {
        return Err(why);
    }
    match folder.sync_names() {
        Ok(()) => Ok(()),
        Err(_) => Err(PutFault::Unplaced(FileFault::WriteFault(0))),
    }
}

/// Puts the master record of a checkpoint in the place of the one before.
fn place_master<F: Folder>(
    folder: &mut F,
    alloc: Global,
    point: &Point,
) -> Result<(), PutFault<FileFault>>
    requires { F.is_claimed folder.old }
    ensures put { OnOk result (Changes
        (Puts (name_of saved.Master) (bytes_by (WritesMasterOf point.now)))
        (F.entries folder.old) (F.entries folder.new)) }
    ensures stored { OnOk result (F.is_stored folder.new) }
{
    let mut master = Master {
        begin: point.begin,
        end: point.end,
    };
    place(folder, alloc, SavedName::Master, &mut master)
}

/// Puts the archive of a complete copy in place, while others work.
fn place_copy<F: Folder, S: PageStore, D: LogDevice, G: Life, R: Wait>(
    rt: &R,
    folder: &mut F,
    alloc: Global,
    bank: &Bank<S, D, G>,
    id: CopyId,
) -> Result<(), PutFault<CopyWriteFault>>
    requires { F.is_claimed folder.old }
    ensures put { OnOk result (Changes (Puts (name_of (saved.Copy id)) (bytes_by (WritesCopyOf id)))
        (F.entries folder.old) (F.entries folder.new)) }
    ensures stored { OnOk result (F.is_stored folder.new) }
{
    let mut source = SharedCopy { rt, bank, id };
    place(folder, alloc, SavedName::Copy(id), &mut source)
}

/// What has become of a file that was not put in place.
fn unkept(file: SavedName, fault: FileFault, notes: &Notes) -> Halt {
    let code = match (fault, notes.error()) {
        (FileFault::WriteFault(_), Some(error)) => error.raw_os_error(),
        _ => None,
    };
    Halt::Unkept(FileTrouble {
        place: Place::Saved(file),
        code,
        fault,
    })
}

/// Opens the folder of a day, and puts a master record in place. The folder is claimed for the
/// whole day already.
fn master_placed(
    files: &HostRuntime,
    name: &str,
    notes: &Notes,
    point: &Point,
) -> Result<(), PutFault<FileFault>> {
    let alloc = files.alloc();
    let mut folder = SystemFolder::new(files, alloc, name, notes);
    match folder.open() {
        Ok(()) => place_master(&mut folder, alloc, point),
        Err(_) => Err(PutFault::Unmade(FileFault::WriteFault(0))),
    }
}

/// Opens the folder of a day, and puts the archive of a copy in place.
fn copy_placed<S: PageStore, D: LogDevice, G: Life, R: Wait>(
    rt: &R,
    files: &HostRuntime,
    name: &str,
    notes: &Notes,
    bank: &Bank<S, D, G>,
    id: CopyId,
) -> Result<(), PutFault<CopyWriteFault>> {
    let alloc = files.alloc();
    let mut folder = SystemFolder::new(files, alloc, name, notes);
    match folder.open() {
        Ok(()) => place_copy(rt, &mut folder, alloc, bank, id),
        Err(_) => Err(PutFault::Unmade(FileFault::WriteFault(0))),
    }
}

/// Puts the master record of a checkpoint in place, while others work.
pub fn put_master(hall: &Hall<'_>, point: &Point) -> Result<(), Halt> {
    let notes = Notes::new();
    match master_placed(hall.files, hall.folder, &notes, point) {
        Ok(()) => Ok(()),
        Err(PutFault::Unmade(fault) | PutFault::Unwritten(fault) | PutFault::Unplaced(fault)) =>
            Err(unkept(SavedName::Master, fault, &notes)),
    }
}

/// Puts the archive of a complete copy in place, while others work.
pub fn put_copy<S: PageStore, D: LogDevice, G: Life, R: Wait>(
    rt: &R,
    hall: &Hall<'_>,
    bank: &Bank<S, D, G>,
    id: CopyId,
) -> Result<(), Halt> {
    let notes = Notes::new();
    match copy_placed(rt, hall.files, hall.folder, &notes, bank, id) {
        Ok(()) => Ok(()),
        Err(PutFault::Unwritten(CopyWriteFault::Refused(why))) => {
            Err(Halt::Refused(Refusal::from(why)))
        }
        Err(PutFault::Unwritten(CopyWriteFault::Archive(why))) => {
            Err(unkept(SavedName::Copy(id), FileFault::from(why), &notes))
        }
        Err(PutFault::Unmade(fault) | PutFault::Unplaced(fault)) => {
            Err(unkept(SavedName::Copy(id), fault, &notes))
        }
    }
}
