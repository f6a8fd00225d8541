//! The complete copies, as files have them, and what they restore.

ghost use Rattle.std.specs.Prelude.{◌≡◌};

use crate::wrong::Wrong;
use copy_vault::{CopyId, CopyKind, Vault, read_archive};
use engine_restart::Restarted;
use log_records::{encode, encode_header};
use log_store::{Master, encode_master};
use media_restore::{restore_files, write_volume};
use page_core::{PAGE_BYTES, zeros};
use std::alloc::{AllocError, Global};
use std::thread::Threads;

/// The archive of a complete copy.
#[derive(Drop)]
struct Archive {
    id: CopyId,
    parent: Option<CopyId>,
    bytes: Vec<u8>,
}

/// The archives of all complete copies, the oldest first.
#[derive(Drop)]
pub struct Copies {
    archives: Vec<Archive>,
}

impl Copies {
    /// None yet.
    pub fn new(alloc: Global) -> Copies {
        Copies {
            archives: Vec::new(alloc),
        }
    }

    /// The id of the last one, or 1.
    pub fn last(&self) -> CopyId {
        match self.archives.last() {
            Some(it) => it.id,
            None => CopyId(1),
        }
    }

    /// Writes the archive of a copy that is complete now.
    pub fn write(&mut self, alloc: Global, vault: &Vault, id: CopyId) -> Result<(), Wrong> {
        let Some(copy) = vault.complete(id) else {
            return Err(Wrong::NotTakenUp { copy: id.0 });
        };
        let parent = match copy.kind() {
            CopyKind::Full => None,
            CopyKind::Inc(parent) => Some(parent),
        };
        let mut bytes = Vec::new(alloc);
        if vault.write_copy(alloc, id, &mut bytes).is_err() {
            return Err(Wrong::OutOfMemory);
        }
        self.archives.push(Archive { id, parent, bytes })?;
        Ok(())
    }

    /// Has a database that was reopened take up all of them.
    pub fn add_to(&self, alloc: Global, restarted: &mut Restarted) -> Result<(), Wrong>
        ensures { restarted.new.log ≡ restarted.old.log }
    {
        for it in &self.archives {
            let refused = Wrong::NotTakenUp { copy: it.id.0 };
            let Ok(copy) = read_archive(alloc, &mut it.bytes.as_slice()) else {
                return Err(refused);
            };
            if restarted.add(alloc, copy).is_err() {
                return Err(refused);
            }
        }
        Ok(())
    }

    /// Restores each one with the log of a database that was reopened, compares the volume with that
    /// of the database, and answers how many there are.
    pub fn restore_each(
        &self,
        rt: &(impl Threads + Sync),
        alloc: Global,
        restarted: &Restarted,
        master: Option<Master>,
    ) -> Result<u64, Wrong> {
        let Some(master) = master else {
            return match self.archives.first() {
                Some(it) => Err(Wrong::NotRestored { copy: it.id.0 }),
                None => Ok(0),
            };
        };
        let log = log_of(alloc, restarted)?;
        let volume = volume_of(alloc, restarted)?;
        let master = encode_master(&master);
        for it in &self.archives {
            let mut chain = self.chain_of(alloc, it.id)?;
            let mut restored = Vec::new(alloc);
            let outcome = restore_files(
                rt,
                alloc,
                &mut log.as_slice(),
                &mut master.as_slice(),
                &mut chain,
                &mut restored,
            );
            if outcome.is_err() {
                return Err(Wrong::NotRestored { copy: it.id.0 });
            }
            if restored.as_slice() != volume.as_slice() {
                return Err(Wrong::OtherVolume { copy: it.id.0 });
            }
        }
        Ok(self.archives.len() as u64)
    }

    /// The archives of a copy and of those that it stands on, the full one first.
    fn chain_of(&self, alloc: Global, id: CopyId) -> Result<Vec<&[u8]>, AllocError> {
        let mut chain = Vec::new(alloc);
        let mut wanted = Some(id);
        for it in self.archives.iter().rev() {
            if let Some(id) = wanted
                && id == it.id
            {
                chain.push(it.bytes.as_slice())?;
                wanted = it.parent;
            }
        }
        chain.reverse();
        Ok(chain)
    }
}

/// The bytes of the log of a database that was reopened.
fn log_of(alloc: Global, restarted: &Restarted) -> Result<Vec<u8>, AllocError> {
    let header = encode_header(restarted.header_pages());
    let mut bytes = Vec::from_slice(alloc, &header)?;
    for record in restarted.records() {
        bytes.extend_from_slice(&encode(record))?;
    }
    Ok(bytes)
}

/// The bytes of its volume.
fn volume_of(alloc: Global, restarted: &Restarted) -> Result<Vec<u8>, Wrong> {
    let mut bytes = Vec::new(alloc);
    let mut buffer = zeros(alloc, PAGE_BYTES)?;
    match write_volume(&mut bytes, restarted.pages(), &mut buffer) {
        Ok(()) => Ok(bytes),
        Err(_) => Err(Wrong::OutOfMemory),
    }
}
