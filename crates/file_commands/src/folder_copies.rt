//! The copies of a folder, for a restore of it.

ghost use Rattle.std.specs.Prelude.{◌≡◌, IfOk, IfSome};

use file_inputs::{tell_irregular, tell_view};
use file_view::{CopyHeader, ViewFault};
use folder_reports::{SystemReader, Unread, copy_header, copy_ids};
use std::alloc::AllocError;
use std::io;
use std::io::ErrorKind;
use system_files::{Escaped, Notes};

/// The ids of the copies of a folder, as their names say, in their order. Where the folder cannot
/// be read, that is told.
pub fn ids_in(rt: &HostRuntime, folder: &str) -> Result<Vec<u32>, ViewFault> {
    match copy_ids(rt.alloc(), &SystemReader { rt, folder }) {
        Ok(ids) => Ok(ids),
        Err(error) if error.kind() == ErrorKind::OutOfMemory => Err(ViewFault::OutOfMemory),
        Err(error) => {
            if error.raw_os_error().is_some() {
                let folder = Escaped(folder);
                let _ = eprintln!(rt; "imgcopy: {folder}: {error}");
            }
            Err(ViewFault::ReadFault)
        }
    }
}

/// The header of the copy of this id, and how many bytes its file has. Where the file has no
/// header, or that of another copy, this is told.
pub fn header_of(
    rt: &HostRuntime,
    folder: &str,
    id: u32,
) -> Result<Option<(CopyHeader, u64)>, AllocError>
    ensures { IfOk result (λ found. IfSome found (λ it. it.0.id ≡ id)) }
{
    match copy_header(rt.alloc(), &SystemReader { rt, folder }, id) {
        Ok(Ok(found)) => Ok(Some(found)),
        Ok(Err(why)) => {
            tell_header(rt, folder, id, &why)?;
            Ok(None)
        }
        Err(error) => Err(error),
    }
}

/// Tells why a copy has no header.
fn tell_header(rt: &HostRuntime, folder: &str, id: u32, why: &Unread) -> Result<(), AllocError> {
    let name = format!(in rt.alloc(); "{folder}/copy-{id}")?;
    match why {
        Unread::NotAFile => tell_irregular(rt, name.as_str()),
        Unread::IsCopy(there) => {
            let name = Escaped(name.as_str());
            let _ = eprintln!(rt; "imgcopy: {name}: is copy {there}");
        }
        Unread::Fault(fault, code) => {
            let _ = rt.eprintln(fault);
            tell_view(rt, name.as_str(), fault, &notes_of(*code));
        }
    }
    Ok(())
}

/// Notes of a call of the system that failed, and for which it has this number.
pub(crate) fn notes_of(code: Option<i32>) -> Notes {
    let notes = Notes::new();
    if let Some(code) = code {
        let failed: io::Result<()> = Err(io::Error::from_raw_os_error(code));
        notes.note(&failed);
    }
    notes
}
