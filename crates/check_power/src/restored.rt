//! The complete copies of a folder, and what they restore.

use crate::wrong::Wrong;
use copy_vault::{CopyKind, read_archive};
use media_restore::restore_files;
use std::alloc::{AllocError, Global};
use std::thread::Threads;
use test_simulator::State;

/// How many copies stand on one another at most.
const MOST_PARENTS: u32 = 1_024;

/// Restores the volume from a copy of a folder and its log, and compares it.
pub fn restores(
    rt: &(impl Threads + Sync),
    alloc: Global,
    folder: &State,
    copy: u32,
    volume: &[u8],
) -> Result<(), Wrong> {
    let (Some(log), Some(master)) = (folder.bytes_at("log"), folder.bytes_at("master")) else {
        return Err(Wrong::Gone { copy });
    };
    let mut chain = chain_of(alloc, folder, copy)?;
    let mut restored = Vec::new(alloc);
    let (mut log, mut master) = (log, master);
    let outcome = restore_files(rt, alloc, &mut log, &mut master, &mut chain, &mut restored);
    if outcome.is_err() {
        return Err(Wrong::NotRestored { copy });
    }
    if restored.as_slice() != volume {
        return Err(Wrong::OtherVolume { copy });
    }
    Ok(())
}

/// Whether the file of each of these copies stands in a folder.
pub fn stand(alloc: Global, folder: &State, copies: &[u32]) -> Result<(), Wrong> {
    for copy in copies {
        if folder.bytes_at(name_of(alloc, *copy)?.as_str()).is_none() {
            return Err(Wrong::Gone { copy: *copy });
        }
    }
    Ok(())
}

fn name_of(alloc: Global, copy: u32) -> Result<String, AllocError> {
    format!(in alloc; "copy-{copy}")
}

/// The files of a copy and of those that it stands on, the full one first.
fn chain_of(alloc: Global, folder: &State, copy: u32) -> Result<Vec<&[u8]>, Wrong> {
    let mut chain = Vec::new(alloc);
    let mut wanted = copy;
    for _ in 0..MOST_PARENTS {
        let name = name_of(alloc, wanted)?;
        let Some(bytes) = folder.bytes_at(name.as_str()) else {
            return Err(Wrong::Gone { copy: wanted });
        };
        chain.push(bytes)?;
        let mut reader = bytes;
        match read_archive(alloc, &mut reader) {
            Ok(archive) => match archive.kind() {
                CopyKind::Inc(parent) => wanted = parent.0,
                CopyKind::Full => break,
            },
            Err(_) => return Err(Wrong::NotTakenUp { copy: wanted }),
        }
    }
    chain.reverse();
    Ok(chain)
}
