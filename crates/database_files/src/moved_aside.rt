//! What has a name that a file of this life is to have gets another name.

ghost use Rattle.std.specs.Prelude.{◌≡◌, IfOk, OnOk, string_bytes};
ghost use Rattle.saved_files.specs.Folder.{Changes, IsRenamed, RenamesOrKeeps};
ghost use Rattle.saved_files.specs.Saved.{name_of};
ghost use Rattle.saved_files.specs.declared.saved_name.SavedName.TheVariants as saved;
ghost use Rattle.database_files.specs.MovedAside.{IsAside, IsFree, IsFreed, KeepsOrMoves};

use crate::database_folder::DatabaseFolder;
use crate::diagnostics::Diagnostics;
use crate::names::{MANIFEST, MASTER};
use crate::place::Place;
use copy_vault::CopyId;
use saved_files::{Folder, SavedName};
use std::alloc::{AllocError, Global};
use std::io;
use std::io::ErrorKind;
use std::marker::Model;

/// How many refused files of one name may stand in a folder.
const MOST_REFUSED: u32 = 1_000;

/// That nothing has the name of a copy of some id any more. Only this file tells so.
#[derive(Drop)]
pub struct FreeName {
    id: u32,
}

impl Model for FreeName {
    ghost use Rattle.std.specs.Prelude.{ℕ};

    ghost Value = { ℕ };

    ghost view = { λ it. it.id };
}

impl FreeName {
    /// The id of the copy.
    pub fn id(&self) -> u32
        ensures { result ≡ self.now }
    {
        self.id
    }
}

/// Gives what stands under the name of a copy another one: `copy-3.refused`, or one with a number
/// where something has that name. Nothing is removed, and the new name lasts.
pub fn move_copy_aside<F: DatabaseFolder>(
    diagnostics: &Diagnostics<'_>,
    folder: &mut F,
    id: CopyId,
) -> io::Result<FreeName>
    requires { F.is_claimed folder.old }
    ensures name { IfOk result (λ name. name ≡ id) }
    ensures freed { OnOk result (IsFreed (name_of (saved.Copy id)) (F.entries folder.old)
        (F.entries folder.new) (folder.new ≡ folder.old) (F.is_stored folder.new)) }
    ensures either { Changes (KeepsOrMoves (name_of (saved.Copy id)))
        (F.entries folder.old) (F.entries folder.new) }
    ensures claimed { F.is_claimed folder.new }
{
    let name = format!(in diagnostics.alloc; "{}", SavedName::Copy(id))?;
    move_aside(diagnostics, folder, name.as_str(), Place::Copy(id))?;
    Ok(FreeName { id: id.0 })
}

/// Gives what stands as the master record another name, as `master.refused`. It lasts.
pub fn move_master_aside<F: DatabaseFolder>(
    diagnostics: &Diagnostics<'_>,
    folder: &mut F,
) -> io::Result<()>
    requires { F.is_claimed folder.old }
    ensures freed { OnOk result (IsFreed MASTER.now (F.entries folder.old)
        (F.entries folder.new) (folder.new ≡ folder.old) (F.is_stored folder.new)) }
    ensures either { Changes (KeepsOrMoves MASTER.now)
        (F.entries folder.old) (F.entries folder.new) }
    ensures claimed { F.is_claimed folder.new }
{
    move_aside(diagnostics, folder, MASTER, Place::Master)
}

/// Gives what stands as the manifest another name, as `manifest.refused`. It lasts.
pub fn move_manifest_aside<F: DatabaseFolder>(
    diagnostics: &Diagnostics<'_>,
    folder: &mut F,
) -> io::Result<()>
    requires { F.is_claimed folder.old }
    ensures freed { OnOk result (IsFreed MANIFEST.now (F.entries folder.old)
        (F.entries folder.new) (folder.new ≡ folder.old) (F.is_stored folder.new)) }
    ensures either { Changes (KeepsOrMoves MANIFEST.now)
        (F.entries folder.old) (F.entries folder.new) }
    ensures claimed { F.is_claimed folder.new }
{
    move_aside(diagnostics, folder, MANIFEST, Place::Manifest)
}

/// Gives what has this name another one, which lasts, if something has it.
fn move_aside<F: DatabaseFolder>(
    diagnostics: &Diagnostics<'_>,
    folder: &mut F,
    name: &str,
    place: Place,
) -> io::Result<()>
    requires { F.is_claimed folder.old }
    ensures freed { OnOk result (IsFreed name.now (F.entries folder.old)
        (F.entries folder.new) (folder.new ≡ folder.old) (F.is_stored folder.new)) }
    // Where that fails, too, what had the name has it, or a name that nothing had.
    ensures either { Changes (KeepsOrMoves name.now)
        (F.entries folder.old) (F.entries folder.new) }
    ensures claimed { F.is_claimed folder.new }
{
    if !folder.has(name)? {
        return Ok(());
    }
    let aside = free_name(diagnostics.alloc, folder, name)?;
    rename_lastingly(folder, name, aside.as_str())?;
    let new = aside.as_str();
    diagnostics.tell(place, &format_args!("what stood there is now {new}"));
    Ok(())
}

/// Gives a file another name, and has that last.
fn rename_lastingly<F: Folder>(folder: &mut F, from: &str, to: &str) -> io::Result<()>
    requires { F.is_claimed folder.old }
    ensures renamed { OnOk result
        (Changes (IsRenamed from.now to.now) (F.entries folder.old) (F.entries folder.new)) }
    ensures either { Changes (RenamesOrKeeps from.now to.now)
        (F.entries folder.old) (F.entries folder.new) }
    ensures stored { OnOk result (F.is_stored folder.new) }
    ensures claimed { F.is_claimed folder.new }
{
    folder.rename(from, to)?;
    folder.sync_names()
}

/// The first name for a refused file of this name that nothing in the folder has.
fn free_name<F: DatabaseFolder>(alloc: Global, folder: &F, name: &str) -> io::Result<String>
    ensures aside { IfOk result (λ it. IsAside name.now (string_bytes it)) }
    ensures free { IfOk result (λ it. IsFree (string_bytes it) (F.entries folder.now)) }
{
    for number in 1..=MOST_REFUSED {
        let aside = name_aside(alloc, name, number)?;
        if !folder.has(aside.as_str())? {
            return Ok(aside);
        }
    }
    Err(io::Error::from(ErrorKind::AlreadyExists))
}

/// The name of this number for a refused file.
fn name_aside(alloc: Global, name: &str, number: u32) -> Result<String, AllocError>
    ensures { IfOk result (λ it. IsAside name.now (string_bytes it)) }
{
    if number == 1 {
        format!(in alloc; "{name}.refused")
    } else {
        format!(in alloc; "{name}.refused-{number}")
    }
}
