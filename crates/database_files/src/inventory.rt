//! What stands in a folder before it is opened.

ghost use Rattle.std.specs.Prelude.{map, string_bytes};
ghost use Rattle.saved_files.specs.Folder.{Changes, KeepsOthers};
ghost use Rattle.database_files.specs.Standing.{KeepsAllBut};

use crate::change_fault::ChangeFault;
use crate::database_folder::DatabaseFolder;
use crate::fault::OpenFault;
use crate::names::{CLOSED, LOG, MANIFEST, MASTER, VOLUME, copy_of, is_harmless, is_unfinished};
use crate::place::Place;
use copy_vault::CopyId;
use std::alloc::{AllocError, Global};
use std::io::ErrorKind;

/// The files of a folder that are those of a database, by their names.
#[derive(Drop)]
pub struct Inventory {
    /// The copies, in order of their ids.
    pub copies: Vec<CopyId>,
    pub has_master: bool,
    pub has_closed: bool,
    pub has_manifest: bool,
    /// What older lives left unfinished.
    unfinished: Vec<String>,
    has_log: bool,
    has_volume: bool,
    /// The name of something that no database has.
    pub stranger: Option<String>,
}

impl Inventory {
    ghost use Rattle.std.specs.Prelude.{ℕ, ◌≡◌, ◌++◌, [], ◌∷◌, false, IfOk, List, None, OnOk};
    ghost use Rattle.std.specs.Prelude.{string_bytes};
    ghost use Rattle.std.specs.List.{Contains};
    ghost use Rattle.std.specs.List.Sorted.{IsNonDecreasing};
    ghost use Rattle.saved_files.specs.Folder.{Changes};
    ghost use Rattle.database_files.specs.Found.{IsInventoryOf, TellsNames};
    ghost use Rattle.database_files.specs.Standing.{KeepsFinished};

    /// Looks at a folder that is claimed.
    pub fn of<F: DatabaseFolder>(alloc: Global, folder: &F) -> Result<Inventory, OpenFault>
        // Nobody else puts files there meanwhile.
        requires { F.is_claimed folder.now }
        ensures there { IfOk result (IsInventoryOf (F.entries folder.now)) }
        ensures rise { IfOk result (λ it. IsNonDecreasing it.copies.items) }
    {
        let mut there = Inventory {
            copies: Vec::new(alloc),
            has_master: false,
            has_closed: false,
            has_manifest: false,
            unfinished: Vec::new(alloc),
            has_log: false,
            has_volume: false,
            stranger: None,
        };
        let names = match folder.names() {
            Ok(names) => names,
            Err(error) => return Err(OpenFault::of_folder(error)),
        };
        for name in names {
            there.take(name)?;
        }
        there.copies.sort_unstable_by_key(|id| id.0);
        Ok(there)
    }

    /// Whether there is a log.
    pub fn has_log(&self) -> bool {
        self.has_log
    }

    /// Removes what older lives left unfinished.
    pub fn clear<F: DatabaseFolder>(&self, folder: &mut F) -> Result<(), ChangeFault>
        requires claimed { F.is_claimed folder.old }
        requires inventory { IsInventoryOf (F.entries folder.old) self.now }
        // What was whole stays as it is.
        ensures kept { Changes KeepsFinished (F.entries folder.old) (F.entries folder.new) }
        ensures claimed { F.is_claimed folder.new }
    {
        remove_all(folder, &self.unfinished)
    }

    /// Notes a name that something has.
    fn take(&mut self, name: String) -> Result<(), AllocError>
        ensures { OnOk result ((names : List (List ℕ)) → TellsNames (Contains names) self.old
            → TellsNames (Contains (names ++ string_bytes name ∷ [])) self.new) }
    {
        let text = name.as_str();
        if self.note(text)? {
            return Ok(());
        }
        if is_unfinished(text) {
            self.unfinished.push(name)?;
        } else if self.stranger.is_none() && !is_harmless(text) {
            self.stranger = Some(name);
        }
        Ok(())
    }

    /// Notes the name of a file. Says whether it is one of a database.
    fn note(&mut self, name: &str) -> Result<bool, AllocError>
        ensures { OnOk result ((names : List (List ℕ)) → TellsNames (Contains names) self.old
            → TellsNames (Contains (names ++ name.now ∷ [])) self.new) }
    {
        match name {
            LOG => self.has_log = true,
            VOLUME => self.has_volume = true,
            MASTER => self.has_master = true,
            CLOSED => self.has_closed = true,
            MANIFEST => self.has_manifest = true,
            _ => {
                let Some(id) = copy_of(name) else {
                    return Ok(false);
                };
                self.copies.push(id)?;
            }
        }
        Ok(true)
    }

    /// What says that there was a log once, where there is none now. Before a log has its header
    /// there is no master record, no copy and no note of a closing, and before there is a log no
    /// volume. What a manifest says of a log is weighed elsewhere.
    pub fn orphan(&self) -> Option<Place>
        ensures copies { result ≡ None → self.now.copies.items ≡ [] }
        ensures master { result ≡ None → self.now.has_master ≡ false }
        ensures closed { result ≡ None → self.now.has_closed ≡ false }
        ensures volume { result ≡ None → self.now.has_log ≡ false → self.now.has_volume ≡ false }
    {
        if let Some(id) = self.copies.first() {
            return Some(Place::Copy(*id));
        }
        if self.has_master {
            return Some(Place::Master);
        }
        if self.has_closed {
            return Some(Place::Closed);
        }
        if self.has_volume && !self.has_log {
            return Some(Place::Volume);
        }
        None
    }
}

/// Removes the files of these names. A folder that has one of them stays: no life leaves one.
pub(crate) fn remove_all<F: DatabaseFolder>(
    folder: &mut F,
    names: &[String],
) -> Result<(), ChangeFault>
    requires { F.is_claimed folder.old }
    ensures others { Changes (KeepsAllBut (map string_bytes names.now))
        (F.entries folder.old) (F.entries folder.new) }
    ensures claimed { F.is_claimed folder.new }
{
    for name in names {
        remove_file(folder, name.as_str())?;
    }
    Ok(())
}

/// Removes the file of this name, if it is no folder.
fn remove_file<F: DatabaseFolder>(folder: &mut F, name: &str) -> Result<(), ChangeFault>
    requires { F.is_claimed folder.old }
    ensures others { Changes (KeepsOthers name.now)
        (F.entries folder.old) (F.entries folder.new) }
    ensures claimed { F.is_claimed folder.new }
{
    match folder.remove(name) {
        Ok(()) => Ok(()),
        Err(error) if error.kind() == ErrorKind::IsADirectory => Ok(()),
        Err(error) => Err(ChangeFault::of_folder(error)),
    }
}
