//! The manifest of a folder of files.

ghost use Rattle.std.specs.Prelude.{◌≡◌, ◌<◌, ◌++◌, ◌∷◌, [], IfErr, IfOk, OnErr, OnOk, length, string_bytes};
ghost use Rattle.manifest.specs.Entries.{file_of, IsManifest, IsNoted, Lacks, noted, without};
ghost use Rattle.manifest.specs.Fault.{Refuses};
ghost use Rattle.manifest.specs.Text.{manifest_text};

use crate::entry::{Entry, FileSum, is_name};
use crate::fault::NoteFault;
use crate::listing::{drop_name, file_in, place};
use crate::sum::DatabaseName;
use crate::text::{head, push_entries};
use std::alloc::{AllocError, Global};
use std::marker::Model;

/// How many entries a manifest can have.
pub(crate) const MAX_ENTRIES: usize = 4096;

/// A file of this many bytes is too long for a manifest.
const TOO_MANY_BYTES: u64 = 1 << 63;

/// What is known of the files of a database, of which no two have one name.
#[derive(Drop)]
pub struct Manifest {
    alloc: Global,
    database: DatabaseName,
    entries: Vec<Entry>,
}

impl Model for Manifest {
    ghost use Rattle.manifest.specs.Entries.{IsManifest, Listed};

    ghost Value = { Listed };

    ghost view = { λ it. record { database = it.database.0; entries = it.entries.items } };

    ghost invariant = { λ it.
        IsManifest (record { database = it.database.0; entries = it.entries.items }) };
}

impl Manifest {
    /// A manifest of this database without entries.
    pub fn new(alloc: Global, database: DatabaseName) -> Manifest
        ensures { result ≡ record { database = database.0; entries = [] } }
    {
        Manifest {
            alloc,
            database,
            entries: Vec::new(alloc),
        }
    }

    /// The name of the database.
    pub fn database(&self) -> DatabaseName
        ensures { result.0 ≡ self.now.database }
    {
        self.database
    }

    /// The entries, in the order in which their names were noted.
    pub fn entries(&self) -> &[Entry]
        ensures { result.now ≡ self.now.entries }
    {
        &self.entries
    }

    /// What is known of the file of this name.
    pub fn entry(&self, name: &str) -> Option<FileSum>
        ensures { result ≡ file_of name.now self.now.entries }
    {
        file_in(&self.entries, name)
    }

    /// Notes what is known of a file, in the place of what was noted under its name, or at the end.
    pub fn note(&mut self, name: &str, file: FileSum) -> Result<(), NoteFault>
        ensures ok { OnOk result (self.new ≡ record {
          database = self.old.database;
          entries = noted (record { name = name.now; file = file }) self.old.entries;
        }) }
        ensures refused { IfErr result
            (Refuses self.old (record { name = name.now; file = file })) }
        ensures err { OnErr result (self.new ≡ self.old) }
    {
        if !is_name(name) {
            return Err(NoteFault::BadName);
        }
        if file.bytes >= TOO_MANY_BYTES {
            return Err(NoteFault::TooLong);
        }
        match place(&self.entries, name) {
            Some(i) => {
                self.entries[i].file = file;
                Ok(())
            }
            None if self.entries.len() >= MAX_ENTRIES => Err(NoteFault::TooMany),
            None => Ok(self.add(name, file)?),
        }
    }

    /// Removes what is noted under this name, if anything is.
    pub fn remove(&mut self, name: &str)
        ensures { self.new ≡ record {
          database = self.old.database;
          entries = without name.now self.old.entries;
        } }
    {
        drop_name(&mut self.entries, name);
    }

    /// The text of the manifest.
    pub fn to_text(&self) -> Result<String, AllocError>
        ensures text { IfOk result (λ text. string_bytes text ≡ manifest_text self.now) }
        ensures manifest { IsManifest self.now }
    {
        let mut text = head(self.alloc, self.database)?;
        push_entries(&mut text, &self.entries)?;
        Ok(text)
    }

    /// Notes a file under a name that no entry has.
    pub(crate) fn add(&mut self, name: &str, file: FileSum) -> Result<(), AllocError>
        requires noted { IsNoted (record { name = name.now; file = file }) }
        requires new { Lacks name.now self.old.entries }
        requires few { length self.old.entries < 4096 }
        ensures ok { OnOk result (self.new ≡ record {
          database = self.old.database;
          entries = self.old.entries ++ record { name = name.now; file = file } ∷ [];
        }) }
        ensures err { OnErr result (self.new ≡ self.old) }
    {
        let name = String::from_str(self.alloc, name)?;
        self.entries.push(Entry { name, file })?;
        Ok(())
    }
}
