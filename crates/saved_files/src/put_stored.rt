//! A file that takes the place of an older one, and whose name lasts.

ghost use Rattle.std.specs.Prelude.{IfErr, OnErr, OnOk};
ghost use Rattle.saved_files.specs.Folder.{Changes, IsSame, LeavesEither, LeavesWhole, Puts};
ghost use Rattle.saved_files.specs.PutFault.{bytes_by};
ghost use Rattle.saved_files.specs.PutStored.{IsOfStored, IsUnstored, LeavesStored};

use crate::file_fault::FileFault;
use crate::folder::Folder;
use crate::put_fault::PutFault;
use crate::put_file::{fault_of, put_in_place};
use crate::source::Source;
use std::alloc::Global;

/// Why a file is not in its place, or may not stay there.
#[derive(Clone, Copy, Debug, PartialEq, Eq)]
pub enum PutStoredFault<E> {
    /// It was not put in its place.
    Unput(PutFault<E>),
    /// It is in its place, but it is not known that its name outlasts the system's end.
    Unstored(FileFault),
}

/// Puts a file in the place of an older one, as `put_in_place` does, and sees that its name is
/// stored: from then on a crash leaves the new file.
pub fn put_and_store<F: Folder, S: Source>(
    folder: &mut F,
    alloc: Global,
    name: &str,
    source: &mut S,
) -> Result<(), PutStoredFault<S::Fault>>
    requires { F.is_claimed folder.old }
    ensures put { OnOk result (Changes (Puts name.now (bytes_by (S.gives source.old)))
        (F.entries folder.old) (F.entries folder.new)) }
    ensures stored { OnOk result (F.is_stored folder.new) }
    ensures crash { OnErr result (Changes (LeavesWhole name.now (bytes_by (S.gives source.old))
        (F.may_leave folder.old) (F.may_leave folder.new))
        (F.entries folder.old) (F.entries folder.new)) }
    ensures left { IfErr result (λ fault. Changes
        (LeavesStored name.now (S.gives source.old) (S.leaves source.old)
        (F.given_up folder.old) (F.given_up folder.new) fault)
        (F.entries folder.old) (F.entries folder.new)) }
    ensures of_source { IfErr result (IsOfStored (S.leaves source.old)) }
{
    if let Err(why) = put_in_place(folder, alloc, name, source) {
        return Err(PutStoredFault::Unput(why));
    }
    store_names(folder)
}

/// Sees that the names are stored, one of which a file has taken.
pub(crate) fn store_names<F: Folder, E>(folder: &mut F) -> Result<(), PutStoredFault<E>>
    requires { F.is_claimed folder.old }
    ensures stored { OnOk result (F.is_stored folder.new) }
    ensures crash { OnErr result (Changes
        (LeavesEither (F.may_leave folder.old) (F.may_leave folder.new))
        (F.entries folder.old) (F.entries folder.new)) }
    ensures same { Changes IsSame (F.entries folder.old) (F.entries folder.new) }
    ensures unstored { IfErr result IsUnstored }
{
    match folder.sync_names() {
        Ok(()) => Ok(()),
        Err(error) => Err(PutStoredFault::Unstored(fault_of(error))),
    }
}
