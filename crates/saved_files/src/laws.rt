//! What holds of a file that takes the place of an older one.

ghost use Rattle.std.specs.Prelude.{◌≡◌, ℕ, List, Some};
ghost use Rattle.saved_files.specs.Folder.{Changes, Entries, IsSame, LeavesToo, LeavesWhole};
ghost use Rattle.saved_files.specs.Folder.{MayLeave, PutsOrKeeps};
ghost use Rattle.saved_files.specs.PutFault.{bytes_by};

use crate::folder::Folder;
use crate::source::Source;

/// Where a file is put in the place of an older one, in a folder whose names are stored, a crash
/// leaves the older file or the new one, whole, and under the other names no more than an
/// unfinished file where nothing stood. So it is at any moment `between` two calls of
/// `put_in_place`, since a crash may leave at its end, too, what it may leave then. Once the names
/// are stored it leaves what stands.
pub fn a_crash_leaves_the_older_file_or_the_new_one<F: Folder, S: Source>()
    ensures meanwhile { (name : List ℕ) (source : S) (before between after : F)
        (old left : Entries) → F.is_stored before → F.entries before ≡ Some old
        → Changes (LeavesWhole name (bytes_by (S.gives source))
        (F.may_leave before) (F.may_leave after)) (F.entries before) (F.entries after)
        → LeavesToo (F.may_leave between) (F.may_leave after) → MayLeave (F.may_leave between) left
        → PutsOrKeeps name (bytes_by (S.gives source)) old left }
    ensures stored { (after : F) (new left : Entries) → F.is_stored after
        → F.entries after ≡ Some new → MayLeave (F.may_leave after) left → IsSame new left }
{}
