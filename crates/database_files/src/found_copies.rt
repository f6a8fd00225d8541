//! The files of copies, as they are found in a folder.

ghost use Rattle.std.specs.Prelude.{◌≡◌, IfOk, IfSome, OnOk, map};
ghost use Rattle.std.specs.List.{All};
ghost use Rattle.saved_files.specs.Saved.{name_of};
ghost use Rattle.saved_files.specs.declared.saved_name.SavedName.TheVariants as saved;
ghost use Rattle.database_files.specs.Found.{IsCopyAt, IsCopyIn, IsCopyReadOf, IsRefusedFor};
ghost use Rattle.database_files.specs.Found.{IsUnreadOnceTried};

use crate::copy_trouble::CopyTrouble;
use crate::database_folder::{DatabaseFolder, Standing};
use crate::fault::NO_ENTRY;
use copy_vault::{ArchiveFault, CompleteCopy, CopyId, read_archive};
use saved_files::SavedName;
use std::alloc::{AllocError, Global};
use std::io;
use std::io::{ErrorKind, Read};
use system_files::Notes;

/// What stands under the name of a copy.
#[derive(Drop)]
pub enum FoundCopy {
    /// It spells a copy.
    Whole(CompleteCopy),
    /// It was read, and spells none.
    Wrong(CopyTrouble),
    /// It cannot be read now, so nothing is known of it.
    Unread(CopyTrouble),
}

/// The file of a copy.
#[derive(Drop)]
pub struct CopyFile {
    pub id: CopyId,
    pub found: FoundCopy,
}

/// Reads the files of the copies of these ids.
pub fn read_copies<F: DatabaseFolder>(
    alloc: Global,
    folder: &F,
    ids: &[CopyId],
) -> Result<Vec<CopyFile>, AllocError>
    ensures ids { IfOk result (λ files. map (λ file. file.id) files.items ≡ ids.now) }
    ensures found { IfOk result (λ files. IfSome (F.entries folder.now) (λ there.
        All (IsCopyIn there) files.items)) }
    // None is told to be unread that was not tried.
    ensures tried { IfOk result (λ files.
        All (IsUnreadOnceTried (F.was_asked folder.now)) files.items) }
{
    let mut copies = Vec::new(alloc);
    for id in ids {
        let found = read_copy(alloc, folder, *id)?;
        copies.push(CopyFile { id: *id, found })?;
    }
    Ok(copies)
}

fn read_copy<F: DatabaseFolder>(
    alloc: Global,
    folder: &F,
    id: CopyId,
) -> Result<FoundCopy, AllocError>
    ensures found { IfOk result (λ it. IfSome (F.entries folder.now) (λ there.
        IsCopyAt (there (name_of (saved.Copy id))) it)) }
    ensures tried { OnOk result (F.was_asked folder.now (name_of (saved.Copy id))) }
{
    let name = format!(in alloc; "{}", SavedName::Copy(id))?;
    match folder.open_file(name.as_str()) {
        Ok(Standing::File(file)) => read_file(alloc, file),
        Ok(Standing::NotAFile) => Ok(FoundCopy::Unread(CopyTrouble::NotAFile)),
        Ok(Standing::Absent) => Ok(FoundCopy::Unread(CopyTrouble::System(Some(NO_ENTRY)))),
        Err(error) => match (error.kind(), error.raw_os_error()) {
            (ErrorKind::OutOfMemory, None) => Err(AllocError),
            (_, code) => Ok(FoundCopy::Unread(CopyTrouble::System(code))),
        },
    }
}

/// A file of which it is noted why it could not be read.
#[derive(Drop)]
struct NotedCopy<'a, R> {
    file: R,
    notes: &'a Notes,
}

impl<R: Read> Read for NotedCopy<'_, R> {
    ghost remaining = { λ it. R.remaining it.file };

    fn read(&mut self, buf: &mut [u8]) -> io::Result<usize> {
        let done = self.file.read(buf);
        self.notes.note(&done);
        done
    }
}

fn read_file<R: Read + Drop>(alloc: Global, file: R) -> Result<FoundCopy, AllocError>
    ensures { IfOk result (λ it. IfSome (R.remaining file) (λ bytes. IsCopyReadOf bytes it)) }
{
    let notes = Notes::new();
    let mut reader = NotedCopy {
        file,
        notes: &notes,
    };
    match read_archive(alloc, &mut reader) {
        Ok(copy) => Ok(FoundCopy::Whole(copy)),
        Err(fault) => refused(fault, &notes),
    }
}

/// What is found where an archive was not read.
fn refused(fault: ArchiveFault, notes: &Notes) -> Result<FoundCopy, AllocError>
    ensures { IfOk result (IsRefusedFor fault) }
{
    match fault {
        ArchiveFault::OutOfMemory => Err(AllocError),
        ArchiveFault::ReadFault => Ok(FoundCopy::Unread(CopyTrouble::System(code_of(notes)))),
        fault => Ok(FoundCopy::Wrong(CopyTrouble::Archive(fault))),
    }
}

/// The number that the system has for its last error.
fn code_of(notes: &Notes) -> Option<i32> {
    notes.error()?.raw_os_error()
}
