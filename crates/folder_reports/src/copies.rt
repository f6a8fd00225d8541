//! The image copies of a folder, by their names and their headers.

ghost use Rattle.std.specs.Prelude.{◌≡◌, IfOk};
ghost use Rattle.saved_files.specs.Saved.{name_of};
ghost use Rattle.saved_files.specs.declared.saved_name.SavedName.TheVariants.{Copy};
ghost use Rattle.folder_reports.specs.Reading.{IsHeaderIn};
ghost use Rattle.folder_reports.specs.Sound.{ListsCopies};

use crate::folder_files::DatabaseFiles;
use crate::named_files::opened;
use crate::unread::Unread;
use copy_vault::{ArchiveFault, CopyId};
use database_files::{Standing, copy_of};
use file_view::{CopyHeader, ViewFault, read_copy_header};
use log_records::HEADER_BYTES;
use saved_files::SavedName;
use std::alloc::{AllocError, Global};
use std::io;
use std::io::Read;

/// The ids of the copies of a folder, as their names say, in their order. At `Err` the folder
/// cannot be listed, or memory ran out.
pub fn copy_ids<F: DatabaseFiles>(alloc: Global, folder: &F) -> io::Result<Vec<u32>>
    ensures { IfOk result (λ ids. ListsCopies (F.entries folder.now) ids.items) }
{
    let names = folder.names()?;
    let mut ids = Vec::new(alloc);
    for name in &names {
        if let Some(id) = copy_of(name.as_str()) {
            ids.push(id.0)?;
        }
    }
    ids.sort_unstable();
    Ok(ids)
}

/// The header of the copy of this id, and how many bytes its file has, or why the file has none.
pub fn copy_header<F: DatabaseFiles>(
    alloc: Global,
    folder: &F,
    id: u32,
) -> Result<Result<(CopyHeader, u64), Unread>, AllocError>
    ensures named { IfOk result (λ found. IfOk found (λ it. it.0.id ≡ id)) }
    ensures begins { IfOk result (λ found. IfOk found (λ it.
        IsHeaderIn (F.entries folder.now) (name_of (Copy id)) it.0)) }
{
    let name = format!(in alloc; "{}", SavedName::Copy(CopyId(id)))?;
    let bytes = match folder.length(name.as_str()) {
        Ok(Standing::File(bytes)) => bytes,
        Ok(Standing::NotAFile) => return Ok(Err(Unread::NotAFile)),
        Ok(Standing::Absent) => return Ok(Err(Unread::absent())),
        Err(error) => return Ok(Err(Unread::from(error))),
    };
    match header_at(alloc, folder, name.as_str()) {
        Ok(header) if header.id == id => Ok(Ok((header, bytes))),
        Ok(header) => Ok(Err(Unread::IsCopy(header.id))),
        Err(why) => Ok(Err(why)),
    }
}

/// The header of an archive, of which nothing else is read.
fn header_at<F: DatabaseFiles>(alloc: Global, folder: &F, name: &str) -> Result<CopyHeader, Unread>
    ensures { IfOk result (IsHeaderIn (F.entries folder.now) name.now) }
{
    let mut file = match opened(folder, name) {
        Ok(file) => file,
        Err(why) => return Err(why),
    };
    let mut bytes = [0; HEADER_BYTES];
    let why = match file.read_exact(&mut bytes) {
        Ok(()) => match read_copy_header(alloc, &bytes) {
            Ok(header) => return Ok(header),
            Err(why) => why,
        },
        Err(_) => ArchiveFault::BadArchive(0),
    };
    Err(Unread::Fault(ViewFault::Archive(why), None))
}
