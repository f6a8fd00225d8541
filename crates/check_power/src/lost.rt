//! What a cut of the power leaves of an engine.

use crate::chance::Chance;
use crate::drive::{Drive, LogEngine, crashes_leave_what_is_forced};
use crate::step::Grain;
use crate::wrong::Wrong;
use log_records::Record;
use std::alloc::{AllocError, Global};

/// The records that a log had when the power was cut, and how many of them were forced.
#[derive(Drop)]
pub struct LostLog {
    records: Vec<Record>,
    forced: usize,
    /// A torn write has spelled a record that nobody wrote.
    is_strange: bool,
}

impl LostLog {
    /// That of a database that had no engine yet.
    pub fn none(alloc: Global) -> LostLog {
        LostLog {
            records: Vec::new(alloc),
            forced: 0,
            is_strange: false,
        }
    }

    /// That of a restart, which was to append records behind those that it found.
    pub fn of_restart(
        alloc: Global,
        found: usize,
        undone: &[Record],
        is_strange: bool,
    ) -> Result<LostLog, AllocError> {
        Ok(LostLog {
            records: Vec::from_slice(alloc, undone)?,
            forced: found,
            is_strange,
        })
    }

    /// Compares the forced records with those of the log that is read now.
    pub fn check_forced(&self, found: &[Record]) -> Result<(), Wrong> {
        for index in 0..self.forced {
            if !is_same(found.get(index), self.records.get(index)) {
                let record = index as u64;
                return Err(Wrong::Forced { record });
            }
        }
        Ok(())
    }

    /// Whether the log that is read now has a record that nobody wrote there.
    pub fn is_strange(&self, found: &[Record]) -> bool {
        if self.is_strange {
            return true;
        }
        for (index, record) in found.iter().enumerate() {
            if !is_same(self.records.get(index), Some(record)) {
                return true;
            }
        }
        false
    }
}

fn is_same(one: Option<&Record>, other: Option<&Record>) -> bool {
    match (one, other) {
        (Some(one), Some(other)) => *one == *other,
        _ => false,
    }
}

/// Cuts the power of an engine. Answers its log, and what its disk has then.
pub fn lose(
    alloc: Global,
    engine: LogEngine,
    chance: &mut Chance,
) -> Result<(LostLog, Vec<u8>), Wrong> {
    crashes_leave_what_is_forced(&engine);
    let (retired, store, device) = engine.into_parts();
    drop(store);
    let forced = retired.forced_end().records_below();
    let (_, records) = retired.into_log().into_parts();
    let left = left_of(alloc, &device.into_disk(), chance)?;
    let lost = LostLog {
        records,
        forced,
        is_strange: false,
    };
    Ok((lost, left))
}

/// What a cut of the power leaves of a disk, or seldom the end of the process alone.
pub fn left_of(alloc: Global, drive: &Drive, chance: &mut Chance) -> Result<Vec<u8>, Wrong> {
    if drive.inner().is_misused() {
        return Err(Wrong::Misused);
    }
    if chance.one_in(12) {
        return Ok(drive.inner().written(alloc)?);
    }
    let grain = Grain::draw(chance);
    Ok(drive.inner().torn(alloc, grain, chance)?)
}
