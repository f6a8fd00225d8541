//! A folder in memory.

ghost use Rattle.std.specs.Prelude.{◌≡◌, ◌⊎◌, IfOk, OnErr, OnOk};
ghost use Rattle.std.specs.String.{string_bytes};
ghost use Rattle.saved_files.specs.Folder.{IsRemoved, IsRenamed, IsSame, LeavesEither, LeavesToo};
ghost use Rattle.saved_files.specs.Folder.{MayLeave};
ghost use Rattle.saved_files.specs.MemFolder.{HadBefore, IsPut, entries_of, entry_at, entry_of};
ghost use Rattle.saved_files.specs.MemFolder.{remains_of};

use crate::failing_calls::FailingCalls;
use crate::folder::Folder;
use crate::mem_entry::{Earlier, MemEntry};
use crate::mem_file::{MemFile, WrittenMemFile};
use std::alloc::{AllocError, Global};
use std::collections::BTreeMap;
use std::io;
use std::io::ErrorKind;

/// A folder in memory, of which is known what stands under each name, and what a crash leaves. A
/// call fails where its `FailingCalls` say so, and where memory is refused.
#[derive(Drop)]
pub struct MemFolder<'a> {
    alloc: Global,
    calls: &'a FailingCalls,
    files: BTreeMap<String, MemEntry>,
    /// What names had since they were stored, which a crash may bring back: the oldest one first.
    past: Vec<Earlier>,
    /// How many files were made.
    made: u64,
    is_taken: bool,
    given_up: Vec<u8>,
}

impl<'a> MemFolder<'a> {
    /// A folder without files, which nobody has taken.
    pub fn new(alloc: Global, calls: &'a FailingCalls) -> MemFolder<'a> {
        MemFolder {
            alloc,
            calls,
            files: BTreeMap::new(alloc),
            past: Vec::new(alloc),
            made: 0,
            is_taken: false,
            given_up: Vec::new(alloc),
        }
    }

    /// The bytes that are stored under this name, if a file has it that was synced.
    pub fn stored(&self, name: &str) -> Option<&[u8]> {
        match self.files.get(name)? {
            MemEntry::Unsynced(_) => None,
            MemEntry::Stored(_, bytes) => Some(bytes.as_slice()),
        }
    }

    /// How many names the folder has, those of files too that were not synced.
    pub fn len(&self) -> usize {
        self.files.len()
    }

    /// What a crash leaves. The changes since the names were stored are looked at from the last one
    /// back, and each one whose bit is set in the mask, the lowest one first, is undone: its name
    /// has again what it had before.
    pub fn crash(self, undone: u64) -> Result<MemFolder<'a>, AllocError>
        ensures { IfOk result (λ left. MayLeave
            (remains_of self.entry.files self.entry.past.items) (entries_of left.files)) }
    {
        let mut left = MemFolder::new(self.alloc, self.calls);
        left.files = brought_back(self.files, self.past, undone)?;
        left.made = self.made;
        Ok(left)
    }

    /// Keeps what a name has, before it changes.
    fn remember(&mut self, name: &str) -> Result<(), AllocError>
        ensures had { OnOk result (HadBefore self.new.past.items name.now
            (entries_of self.old.files name.now)) }
        ensures past { LeavesToo (HadBefore self.old.past.items) (HadBefore self.new.past.items) }
        ensures only { (n : _) (e : _) → HadBefore self.new.past.items n e
            → HadBefore self.old.past.items n e ⊎ (e ≡ entries_of self.old.files n) }
        ensures files { self.new.files ≡ self.old.files }
        ensures taken { self.new.is_taken ≡ self.old.is_taken }
        ensures given_up { self.new.given_up ≡ self.old.given_up }
    {
        let file = self.copy_of(name)?;
        let name = String::from_str(self.alloc, name)?;
        self.past.push(Earlier { name, file })?;
        Ok(())
    }

    /// A copy of what a name has.
    fn copy_of(&self, name: &str) -> Result<Option<MemEntry>, AllocError>
        ensures { IfOk result (λ file. entry_at file ≡ entries_of self.now.files name.now) }
    {
        match self.files.get(name) {
            Some(file) => Ok(Some(file.copied()?)),
            None => Ok(None),
        }
    }

    /// Has this stand under a name.
    fn put(&mut self, name: &str, file: MemEntry) -> Result<(), AllocError>
        ensures put { OnOk result (IsPut name.now (entry_of file)
            (entries_of self.old.files) (entries_of self.new.files)) }
        ensures same { OnErr result
            (IsSame (entries_of self.old.files) (entries_of self.new.files)) }
        ensures crash { LeavesEither (remains_of self.old.files self.old.past.items)
            (remains_of self.new.files self.new.past.items)
            (entries_of self.old.files) (entries_of self.new.files) }
        ensures past { LeavesToo (HadBefore self.old.past.items) (HadBefore self.new.past.items) }
        ensures taken { self.new.is_taken ≡ self.old.is_taken }
        ensures given_up { self.new.given_up ≡ self.old.given_up }
    {
        self.remember(name)?;
        self.set(name, file)
    }

    /// Has this stand under a name. What it has is kept.
    fn set(&mut self, name: &str, file: MemEntry) -> Result<(), AllocError>
        ensures put { OnOk result (IsPut name.now (entry_of file)
            (entries_of self.old.files) (entries_of self.new.files)) }
        ensures same { OnErr result
            (IsSame (entries_of self.old.files) (entries_of self.new.files)) }
        ensures past { self.new.past ≡ self.old.past }
        ensures taken { self.new.is_taken ≡ self.old.is_taken }
        ensures given_up { self.new.given_up ≡ self.old.given_up }
    {
        let name = String::from_str(self.alloc, name)?;
        self.files.insert(name, file)?;
        Ok(())
    }

    /// Has nothing stand under a name. What it has is kept.
    fn remove(&mut self, name: &str)
        requires { HadBefore self.old.past.items name.now (entries_of self.old.files name.now) }
        ensures removed { IsRemoved name.now
            (entries_of self.old.files) (entries_of self.new.files) }
        ensures crash { LeavesEither (remains_of self.old.files self.old.past.items)
            (remains_of self.new.files self.new.past.items)
            (entries_of self.old.files) (entries_of self.new.files) }
        ensures taken { self.new.is_taken ≡ self.old.is_taken }
        ensures given_up { self.new.given_up ≡ self.old.given_up }
    {
        self.files.remove(name);
    }

    /// Has what a name has stand under another one.
    fn move_to(&mut self, from: &str, to: &str, file: MemEntry) -> Result<(), AllocError>
        requires { entry_of file ≡ entries_of self.old.files from.now }
        ensures renamed { OnOk result (IsRenamed from.now to.now
            (entries_of self.old.files) (entries_of self.new.files)) }
        ensures same { OnErr result
            (IsSame (entries_of self.old.files) (entries_of self.new.files)) }
        ensures crash { LeavesEither (remains_of self.old.files self.old.past.items)
            (remains_of self.new.files self.new.past.items)
            (entries_of self.old.files) (entries_of self.new.files) }
        ensures taken { self.new.is_taken ≡ self.old.is_taken }
        ensures given_up { self.new.given_up ≡ self.old.given_up }
    {
        if from == to {
            return Ok(());
        }
        self.remember(from)?;
        self.put(to, file)?;
        self.remove(from);
        Ok(())
    }

    /// The number of the file that has this name.
    fn number_of(&self, name: &str) -> Option<u64> {
        Some(self.files.get(name)?.number())
    }
}

/// The files once some of the changes are undone.
fn brought_back(
    files: BTreeMap<String, MemEntry>,
    past: Vec<Earlier>,
    undone: u64,
) -> Result<BTreeMap<String, MemEntry>, AllocError>
    ensures { IfOk result (λ left. MayLeave (remains_of files past.items) (entries_of left)) }
{
    let (mut left, mut past, mut undone) = (files, past, undone);
    while let Some(earlier) = past.pop() {
        undo(&mut left, earlier, undone & 1 == 1)?;
        undone >>= 1;
    }
    Ok(left)
}

/// Has a name what it had, if the change is undone.
fn undo(
    files: &mut BTreeMap<String, MemEntry>,
    earlier: Earlier,
    is_undone: bool,
) -> Result<(), AllocError>
    ensures { OnOk result ((files.new ≡ files.old)
        ⊎ IsPut (string_bytes earlier.name) (entry_at earlier.file)
        (entries_of files.old) (entries_of files.new)) }
{
    if !is_undone {
        return Ok(());
    }
    bring_back(files, earlier)
}

/// Has a name what it had.
fn bring_back(files: &mut BTreeMap<String, MemEntry>, earlier: Earlier) -> Result<(), AllocError>
    ensures { OnOk result (IsPut (string_bytes earlier.name) (entry_at earlier.file)
        (entries_of files.old) (entries_of files.new)) }
{
    let Earlier { name, file } = earlier;
    match file {
        Some(file) => {
            files.insert(name, file)?;
        }
        None => {
            files.remove(name.as_str());
        }
    }
    Ok(())
}

impl<'a> Folder for MemFolder<'a> {
    ghost use Rattle.std.specs.Prelude.{◌≡◌, Some, true};
    ghost use Rattle.std.proofs.Common.{inl, refl};
    ghost use Rattle.saved_files.specs.Folder.{LeavesAsIs};
    ghost use Rattle.saved_files.specs.MemFolder.{entries_of, remains_of};

    type File = MemFile<'a>;

    type Written = WrittenMemFile;

    ghost entries = { λ folder. Some (entries_of folder.files) };

    ghost is_claimed = { λ folder. folder.is_taken ≡ true };

    ghost is_stored = { λ folder. LeavesAsIs (remains_of folder.files folder.past.items)
        (entries_of folder.files) };

    ghost may_leave = { λ folder. remains_of folder.files folder.past.items };

    ghost given_up = { λ folder. Some folder.given_up.items };

    ghost holds = { λ file. Some file.bytes.items };

    fn claim(&mut self) -> io::Result<()> {
        let turn = self.calls.begin_any()?;
        self.is_taken = true;
        turn.end()
    }

    fn make(&mut self, name: &str) -> io::Result<MemFile<'a>> {
        self.calls.begin()?;
        if self.files.contains_key(name) {
            return Err(io::Error::from(ErrorKind::AlreadyExists));
        }
        let Some(number) = self.made.checked_add(1) else {
            return Err(io::Error::from(ErrorKind::Other));
        };
        self.put(name, MemEntry::Unsynced(number))?;
        self.made = number;
        Ok(MemFile {
            number,
            bytes: Vec::new(self.alloc),
            calls: self.calls,
        })
    }

    fn finish(file: MemFile<'a>) -> WrittenMemFile {
        WrittenMemFile {
            number: file.number,
            bytes: file.bytes,
        }
    }

    fn sync(&mut self, name: &str, file: &WrittenMemFile) -> io::Result<()> {
        let turn = self.calls.begin_any()?;
        if self.number_of(name) != Some(file.number) {
            return Err(io::Error::from(ErrorKind::NotFound));
        }
        self.put(name, MemEntry::Stored(file.number, file.bytes.clone()?))?;
        turn.end()
    }

    fn rename(&mut self, from: &str, to: &str) -> io::Result<()> {
        let turn = self.calls.begin_any()?;
        let Some(file) = self.files.get(from) else {
            return Err(io::Error::from(ErrorKind::NotFound));
        };
        let file = file.copied()?;
        self.move_to(from, to, file)?;
        turn.end()
    }

    fn give_up(&mut self, name: &str, file: WrittenMemFile) -> io::Result<()> {
        self.given_up = file.bytes;
        let turn = self.calls.begin_any()?;
        if self.number_of(name) != Some(file.number) {
            return Err(io::Error::from(ErrorKind::NotFound));
        }
        self.remember(name)?;
        self.remove(name);
        turn.end()
    }

    fn sync_names(&mut self) -> io::Result<()> {
        self.calls.begin()?;
        self.past = Vec::new(self.alloc);
        Ok(())
    }

    ghost stands = { λ folder n. inl refl };

    ghost lasts = { λ folder stored. stored };
}
