//! A folder in which files are made by their names.

ghost use Rattle.std.specs.Prelude.{ℕ, ◌≡◌, List, Option, OnOk, OnErr, IfOk, IfSome};
ghost use Rattle.saved_files.specs.Folder.{Changes, Entries, FolderEntry, IsMade, IsRemoved};
ghost use Rattle.saved_files.specs.Folder.{IsRenamed, IsSame, IsSynced, KeepsOthers};
ghost use Rattle.saved_files.specs.Folder.{LeavesAsIs, LeavesEither, MayLeave, RenamesOrKeeps};

use std::io;
use std::io::Write;

/// A folder in which files are made by their names.
pub trait Folder {
    /// A file that is being written.
    type File: Write + Drop;

    /// A file that was written: no more goes out to it.
    type Written: Drop;

    /// What stands under each name, as far as it is known.
    ghost entries: { Self → Option (List ℕ → FolderEntry) };

    /// It is this caller's, and no other one's that asks by `claim`.
    ghost is_claimed: { Self → Type 0 };

    /// Its names are stored as they stand, so that they outlast the system's end (`lasts`).
    ghost is_stored: { Self → Type 0 };

    /// What a crash, as a loss of power, may leave under each name, whatever it leaves under the
    /// others. A file that was made, renamed or removed is there or is not until the names are
    /// stored. While what stands is not known, neither is this.
    ghost may_leave: { Self → List ℕ → FolderEntry → Type 0 };

    /// What went out to the file that was given up last, as far as it is known.
    ghost given_up: { Self → Option (List ℕ) };

    /// What went out to a file that was written, as far as it is known.
    ghost holds: { Self.Written → Option (List ℕ) };

    /// Takes the folder, until it is dropped, from all others that ask in this way. Where another
    /// one has it, that is an error of the kind `WouldBlock`.
    fn claim(&mut self) -> io::Result<()>
        ensures claimed { OnOk result (is_claimed self.new) }
        ensures same { Changes IsSame (entries self.old) (entries self.new) }
        ensures crash { Changes (LeavesEither (may_leave self.old) (may_leave self.new))
            (entries self.old) (entries self.new) }
        ensures given_up { given_up self.new ≡ given_up self.old };

    /// Makes a file of this name without bytes, where nothing has the name, not even a link that
    /// leads nowhere. Where something has it, that is an error of the kind `AlreadyExists`. At
    /// `Err` nothing is made.
    fn make(&mut self, name: &str) -> io::Result<Self::File>
        requires { is_claimed self.old }
        ensures made { IfOk result (λ file. Changes (IsMade name.now (Self.File.contents file))
            (entries self.old) (entries self.new)) }
        ensures same { OnErr result (Changes IsSame (entries self.old) (entries self.new)) }
        ensures claimed { is_claimed self.new }
        ensures crash { Changes (LeavesEither (may_leave self.old) (may_leave self.new))
            (entries self.old) (entries self.new) }
        ensures given_up { given_up self.new ≡ given_up self.old };

    /// Ends the writing of a file, which is not closed yet.
    fn finish(file: Self::File) -> Self::Written
        ensures { holds result ≡ Self.File.contents file };

    /// Sees that all bytes of a file are stored. It has to be one that was made by this name;
    /// another one is an error.
    fn sync(&mut self, name: &str, file: &Self::Written) -> io::Result<()>
        requires { is_claimed self.old }
        ensures synced { OnOk result (Changes (IsSynced name.now (holds file.now))
            (entries self.old) (entries self.new)) }
        ensures others { OnErr result
            (Changes (KeepsOthers name.now) (entries self.old) (entries self.new)) }
        ensures claimed { is_claimed self.new }
        ensures crash { Changes (LeavesEither (may_leave self.old) (may_leave self.new))
            (entries self.old) (entries self.new) }
        ensures given_up { given_up self.new ≡ given_up self.old };

    /// Gives a file another name, in the place of one that has it. At no moment is there neither:
    /// a crash leaves under that name the old file or this one.
    fn rename(&mut self, from: &str, to: &str) -> io::Result<()>
        requires { is_claimed self.old }
        ensures renamed { OnOk result
            (Changes (IsRenamed from.now to.now) (entries self.old) (entries self.new)) }
        ensures either { OnErr result
            (Changes (RenamesOrKeeps from.now to.now) (entries self.old) (entries self.new)) }
        ensures claimed { is_claimed self.new }
        ensures crash { Changes (LeavesEither (may_leave self.old) (may_leave self.new))
            (entries self.old) (entries self.new) }
        ensures given_up { given_up self.new ≡ given_up self.old };

    /// Removes a file that was made by this name, and closes it.
    fn give_up(&mut self, name: &str, file: Self::Written) -> io::Result<()>
        requires { is_claimed self.old }
        ensures removed { OnOk result
            (Changes (IsRemoved name.now) (entries self.old) (entries self.new)) }
        ensures others { OnErr result
            (Changes (KeepsOthers name.now) (entries self.old) (entries self.new)) }
        ensures claimed { is_claimed self.new }
        ensures crash { Changes (LeavesEither (may_leave self.old) (may_leave self.new))
            (entries self.old) (entries self.new) }
        ensures given_up { given_up self.new ≡ holds file };

    /// Sees that the names are stored as they stand.
    fn sync_names(&mut self) -> io::Result<()>
        requires { is_claimed self.old }
        ensures stored { OnOk result (is_stored self.new) }
        ensures crash { OnErr result (Changes
            (LeavesEither (may_leave self.old) (may_leave self.new))
            (entries self.old) (entries self.new)) }
        ensures same { Changes IsSame (entries self.old) (entries self.new) }
        ensures claimed { is_claimed self.new };

    /// A crash may leave what stands.
    ghost stands: { (folder : Self) → IfSome (entries folder) (MayLeave (may_leave folder)) };

    /// Where the names are stored as they stand, it leaves nothing else.
    ghost lasts: { (folder : Self) → is_stored folder
        → IfSome (entries folder) (LeavesAsIs (may_leave folder)) };
}
